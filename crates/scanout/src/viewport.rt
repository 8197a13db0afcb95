// A change of the viewport (§7.5).
ghost use Rattle.std.specs.Prelude.{◌≡◌};
ghost use Rattle.registers.specs.Refusals.{answer};
ghost use Rattle.scanout.specs.Calls.{change};

use super::refusals::judge_change;
use super::state::{State, Viewport};
use registers::refusal::Refusal;

// Makes a new viewport the pending one; it takes over when clock 0 is taken next (§7.6). It is refused by 1 to 8 of the viewport in
// force, the pending one and the new one, 9, 13, 15.
pub fn change_viewport(s: State, video: &[u32], v: Viewport) -> Result<State, Refusal>
    ensures { answer result ≡ change s video.now v }
{
    judge_change(s, video.len(), v)?;
    Ok(State { pending: v, ..s })
}
