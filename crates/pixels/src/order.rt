// The swaps of a word (§4.1 to §4.3).
ghost use Rattle.std.specs.Prelude.{◌≡◌};
ghost use Rattle.pixels.specs.Order.{reverse_bytes, exchange_halves, in_order};

// The word with its four bytes reversed (§4.2).
pub fn reverse_bytes(x: u32) -> u32
    ensures { result ≡ reverse_bytes x }
{
    (x >> 24) | ((x >> 8) & 0xff00) | ((x & 0xff00) << 8) | (x << 24)
}

// The word with its halves exchanged (§4.3).
pub fn exchange_halves(x: u32) -> u32
    ensures { result ≡ exchange_halves x }
{
    (x >> 16) | (x << 16)
}

// The word after its swap, so that its first pixel is in the highest bits (§4.1).
#[tactic(auto, unfolding(crate::specs::Order::in_order))]
pub fn in_order(x: u32, bswp: bool, hwswp: bool) -> u32
    ensures { result ≡ in_order bswp hwswp x }
{
    if bswp {
        reverse_bytes(x)
    } else if hwswp {
        exchange_halves(x)
    } else {
        x
    }
}
