// Finding a byte, telling two texts apart, and what stands between quotes. (A text and a place in it stay two parameters, as `find_at` and `line_end`, which the public promises name, have them.)
ghost use Rattle.std.specs.Prelude.{◌≡◌};
ghost use Rattle.text.specs.Find.{find_from, find_at, line_end, same, begins, strip_of};

use crate::blocks::past_blocks;

// The first place of b in a text, if there is one, byte by byte.
fn first_place(t: &[u8], b: u8) -> Option<usize>
    ensures { result ≡ find_from b 0 t.now }
{
    t.iter().position(|x| *x == b)
}

// The first place of b at or after a place, if there is one.
pub fn find_byte(t: &[u8], from: usize, b: u8) -> Option<usize>
    ensures { result ≡ find_at b t.now from }
{
    let rest = t.get(from..)?;
    let at = past_blocks(rest, |x| x != b);
    let more = first_place(&rest[at..], b)?;
    Some(from + at + more)
}

// Where the line that holds a place ends.
#[tactic(auto, unfolding(crate::specs::Find::line_end))]
pub fn line_end(t: &[u8], from: usize) -> usize
    ensures { result ≡ line_end t.now from }
{
    find_byte(t, from, b'\n').unwrap_or(t.len())
}

// Whether two texts have the same bytes.
#[tactic(auto, using(crate::proofs::Finds::same_bytes))]
pub fn is(t: &[u8], k: &[u8]) -> bool
    ensures { result ≡ same t.now k.now }
{
    t == k
}

// Whether a text begins with the bytes of another.
#[tactic(auto, using(crate::proofs::Finds::begins_bytes))]
pub fn starts_with(t: &[u8], k: &[u8]) -> bool
    ensures { result ≡ begins t.now k.now }
{
    t.starts_with(k)
}

// The part of a text within its quotes, or all of it where it is not in quotes: where it starts, and where it ends. (Places, as in `strip_of`, which the promise names: `lines` keeps them.)
#[tactic(auto, unfolding(crate::specs::Find::strip_of))]
pub fn strip_quotes(t: &[u8]) -> (usize, usize)
    ensures { result ≡ strip_of t.now }
{
    match t {
        [b'"', .., b'"'] => (1, t.len() - 1),
        _ => (0, t.len()),
    }
}
