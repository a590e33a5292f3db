// The step from one character of a text to the next: UTF-8 by Table 3-7 of the Unicode Standard.
ghost use Rattle.std.specs.Prelude.{◌≡◌, ℕ, ◌+◌, ◌<◌, ◌≤◌};
ghost use Rattle.text.specs.Ranges.{within};
ghost use Rattle.text.specs.Utf8.{lead_of, tail_of, char_at};
ghost use Rattle.text.specs.inside.Places.{cap};

// What a first byte says: how many bytes follow, the range of the first of them, and below what its own bits are.
pub(crate) type Lead = (usize, u8, u8, u8);

// What stands at a place: a character with its code point and its width in bytes. (No Option or Result: bytes that are no character and the end are two answers, which the definitions of specs/ tell apart.)
#[derive(Clone, Copy)]
pub enum Char {
    Scalar(u32, usize),
    Bad,
    End,
}

// The row of Table 3-7 that a first byte falls in, if it falls in one.
pub(crate) fn first_byte(b: u8) -> Option<Lead>
    ensures { result ≡ lead_of b }
{
    match b {
        0x00..=0x7F => Some((0, 0x80, 0xBF, 0x80)),
        0xC2..=0xDF => Some((1, 0x80, 0xBF, 0x20)),
        0xE0 => Some((2, 0xA0, 0xBF, 0x10)),
        0xE1..=0xEC => Some((2, 0x80, 0xBF, 0x10)),
        0xED => Some((2, 0x80, 0x9F, 0x10)),
        0xEE..=0xEF => Some((2, 0x80, 0xBF, 0x10)),
        0xF0 => Some((3, 0x90, 0xBF, 0x08)),
        0xF1..=0xF3 => Some((3, 0x80, 0xBF, 0x08)),
        0xF4 => Some((3, 0x80, 0x8F, 0x08)),
        _ => None,
    }
}

// Whether a byte may stand behind the first of a character.
pub(crate) fn trails(b: u8) -> bool
    ensures { result ≡ within 0x80 0xBF b }
{
    matches!(b, 0x80..=0xBF)
}

// A character of which the n bytes of t in front are to follow, the first of them in lo to hi, and whose bits so far are `code`.
#[tactic(auto, using(crate::proofs::Chars::tails))]
fn tail(t: &[u8], n: usize, mut lo: u8, mut hi: u8, mut code: u32) -> Char
    requires { (code < cap n) × (n ≤ 3) }
    ensures { result ≡ tail_of n lo hi code (n + 1) t.now }
{
    if t.len() < n {
        return Char::Bad;
    }
    for x in &t[..n] {
        if *x < lo || hi < *x {
            return Char::Bad;
        }
        code = code * 64 + u32::from(x % 64);
        (lo, hi) = (0x80, 0xBF);
    }
    Char::Scalar(code, n + 1)
}

// The character that starts at a place. (`t` and `at` stay two, as in `char_at`, which the promise names.)
#[tactic(auto, using(crate::proofs::Chars::chars))]
pub fn next_char(t: &[u8], at: usize) -> Char
    ensures { result ≡ char_at t.now at }
{
    let Some(b) = t.get(at) else {
        return Char::End;
    };
    match first_byte(*b) {
        Some((n, lo, hi, span)) => tail(&t[at + 1..], n, lo, hi, u32::from(b % span)),
        None => Char::Bad,
    }
}
