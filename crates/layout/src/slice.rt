// A part of a slice.
ghost use Rattle.std.specs.Prelude.{◌≡◌};
ghost use Rattle.grammar.specs.Part.{part_of};

// That part of the bytes; the empty part if it doesn't lie inside.
pub fn part(s: &[u8], place: usize, length: usize) -> &[u8]
    ensures { result.now ≡ part_of s.now place length }
{
    if place <= s.len() {
        if length <= s.len() - place {
            let end = place + length;
            &s[place..end]
        } else {
            &s[..0]
        }
    } else {
        &s[..0]
    }
}

// The same bytes, as a slice of its own. A slice that is lent to a function which the compiler doesn't put into its caller stands in memory
// there; so the caller's own stays in registers.
pub fn whole(s: &[u8]) -> &[u8]
    ensures { result.now ≡ s.now }
{
    let n = s.len();
    &s[..n]
}
