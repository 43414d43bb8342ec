// Parts of a lent slice.
ghost use Rattle.std.specs.Prelude.{◌≡◌};
ghost use Rattle.little.specs.Part.{part_of};

// The `count` bytes from `from` on, or as many of them as there are: none where the slice ends at or before `from`.
// No sum is made that could wrap, whatever is asked for.
pub fn part(s: &[u8], from: usize, count: usize) -> &[u8]
    ensures { result.now ≡ part_of s.now from count }
{
    if s.len() <= from {
        return &s[..0];
    }
    if count <= s.len() - from {
        &s[from..from + count]
    } else {
        &s[from..]
    }
}
