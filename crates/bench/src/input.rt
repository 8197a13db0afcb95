// The bench's input (§11.1): its length, and its numbers, stored low byte first.
ghost use Rattle.std.specs.Prelude.{◌≡◌, ℕ, ◌/◌, ◌<◌, ◌≤◌, length, map, vec_len, IfOk};
ghost use Rattle.std.specs.Simd.{first_chunks};
ghost use Rattle.bench.specs.Input.{length_refused, low_first};
ghost use Rattle.std.proofs.Common.{rules};

use std::alloc::{AllocError, Global};

// Whether an input of n bytes is refused with 14 (§11.3). The video words begin at byte 556.
#[tactic(auto, unfolding(crate::specs::Input::length_refused))]
pub(crate) fn length_refused(n: usize) -> bool
    ensures { result ≡ length_refused n }
{
    if n < 556 {
        return true;
    }
    let tail = n - 556;
    (tail % 4 != 0) | (32768 < tail)
}

// Numbers that are stored in N bytes, low byte first. `of` is the value of a number.
pub(crate) trait LowFirst<const N: usize>: Sized {
    ghost of: { ℕ → Self };

    fn low_first(bytes: &[u8; N]) -> Self
        ensures { result ≡ of (low_first bytes.now 0 N) };

    ghost few_bytes: { (0 < N) × (N ≤ 4) };
}

impl LowFirst<4> for u32 {
    ghost of = { λ n. n };

    ghost few_bytes = { Prim.search rules };

    #[tactic(auto, unfolding(crate::specs::Input::low_first))]
    fn low_first(bytes: &[u8; 4]) -> u32 {
        u32::from_le_bytes(*bytes)
    }
}

impl LowFirst<2> for u16 {
    ghost of = { λ n. n };

    ghost few_bytes = { Prim.search rules };

    #[tactic(auto, unfolding(crate::specs::Input::low_first))]
    fn low_first(bytes: &[u8; 2]) -> u16 {
        u16::from_le_bytes(*bytes)
    }
}

// The numbers of some bytes, N bytes each.
pub(crate) fn numbers<T: LowFirst<N> + Drop, const N: usize>(
    alloc: Global,
    bytes: &[u8],
) -> Result<Vec<T>, AllocError>
    ensures value { IfOk result (λ v. v.items ≡ map (λ part. T.of (low_first part 0 N)) (first_chunks N (length bytes.now / N) bytes.now)) }
    ensures len { IfOk result (λ v. vec_len v ≡ length bytes.now / N) }
{
    bytes
        .as_chunks::<N>()
        .0
        .iter()
        .map(
            |part| -> T
                ensures { result ≡ T.of (low_first part.entry.now 0 N) }
            { T::low_first(part) },
        )
        .collect(alloc)
}
