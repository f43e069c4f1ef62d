// Finding a byte in lent bytes.
#![tactic(auto)]

ghost use Rattle.std.specs.Prelude.{◌≡◌, ◌+◌, ◌≤◌, length};
ghost use Rattle.byte_find.specs.Find.{index_of, slice};

// The offset of the first b from an offset on and before another one, or that one, where there is none.
// Inner: callers look up to the end of the slice, from an offset that is not beyond it.
pub fn find(s: &[u8], from: usize, to: usize, b: u8) -> usize
    requires order { from ≤ to }
    requires in_bounds { to ≤ length s.now }
    ensures first { result ≡ from + index_of b (slice from to s.now) }
    ensures within { result ≤ to }
{
    from + s[from..to]
        .iter()
        .position(|x| *x == b)
        .unwrap_or(to - from)
}
