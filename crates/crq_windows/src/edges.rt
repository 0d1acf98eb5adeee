//! Where a window ends.

ghost use Rattle.std.specs.Prelude.{◌≡◌, ◌+◌};

/// The edge of the window whose least pending time is `least`, in ticks: the window's events are those below it. What
/// they send, each at least `lookahead` ticks later, isn't below it (Nicol, "The cost of conservative synchronization in
/// parallel discrete event simulations", 1993).
pub fn edge(least: u32, lookahead: u32) -> u64
    ensures { result ≡ least + lookahead }
{
    u64::from(least) + u64::from(lookahead)
}
