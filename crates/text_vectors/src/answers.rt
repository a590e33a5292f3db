// The answer of each function of the text layer, and which key a text is, as three numbers.
use keys::key::{Geometry, Key};
use text::sector::Sectors;
use text::utf8::Char;

// An answer: which of its cases, and the values of that case. The cases are numbers, since a vector's first line has them so: TAG, A and B, of each kind its own.
#[derive(Clone, Copy, PartialEq)]
pub(crate) struct Answer {
    pub tag: u64,
    pub a: u64,
    pub b: u64,
}

// An answer's case, with no values.
fn bare(tag: u64) -> Answer {
    Answer { tag, a: 0, b: 0 }
}

// A yes or a no.
fn yes(b: bool) -> Answer {
    bare(u64::from(b))
}

// A pair of places. (`as`, here and in `character`: a usize has no `From` to u64.)
fn places(a: usize, b: usize) -> Answer {
    Answer {
        tag: 1,
        a: a as u64,
        b: b as u64,
    }
}

// c: the character that a text starts with, its code point and its width.
fn character(t: &[u8]) -> Answer {
    match text::utf8::next_char(t, 0) {
        Char::Scalar(code, width) => Answer {
            tag: 1,
            a: u64::from(code),
            b: width as u64,
        },
        Char::Bad => bare(0),
        Char::End => bare(2),
    }
}

// b: whether that character is a blank.
fn blank(t: &[u8]) -> Answer {
    match text::utf8::next_char(t, 0) {
        Char::Scalar(code, _) => yes(text::blank::is_blank(code)),
        Char::Bad | Char::End => bare(2),
    }
}

// t and w: the part that trimming leaves, and the first word.
fn part(found: Option<(usize, usize)>) -> Answer {
    found.map_or(bare(0), |(from, to)| places(from, to))
}

// n and v: the number that a text is, up to 2^64-1 and up to 2^32-1.
fn number(t: &[u8], limit: u64) -> Answer {
    text::number::number(t, limit).map_or(bare(0), |a| Answer { tag: 1, a, b: 0 })
}

// q: the part within the quotes.
fn quotes(t: &[u8]) -> Answer {
    let (from, to) = text::find::strip_quotes(t);
    places(from, to)
}

// s: a sector count, and its bytes.
fn sectors(t: &[u8]) -> Answer {
    Sectors::of(t).map_or(bare(0), bytes)
}

// A sector count with its bytes, or that they are too many.
fn bytes(s: Sectors) -> Answer {
    let a = s.number();
    match s.bytes() {
        Some(bytes) => Answer {
            tag: 1,
            a,
            b: bytes.offset(),
        },
        None => Answer { tag: 2, a, b: 0 },
    }
}

// l: where the first line ends.
fn line(t: &[u8]) -> Answer {
    places(0, text::find::line_end(t, 0))
}

// e: the place of the first `=`.
fn equals(t: &[u8]) -> Answer {
    text::find::find_byte(t, 0, b'=').map_or(bare(0), |at| places(at, 0))
}

// k: which key a text is.
fn key(t: &[u8]) -> Answer {
    bare(match keys::key::key_of(t) {
        Some(Key::Version) => 1,
        Some(Key::Cid) => 2,
        Some(Key::ParentCid) => 3,
        Some(Key::CreateType) => 4,
        Some(Key::ParentFileNameHint) => 5,
        Some(Key::Geometry(Geometry::Sectors)) => 6,
        Some(Key::Geometry(Geometry::Heads)) => 7,
        Some(Key::Geometry(Geometry::Cylinders)) => 8,
        Some(Key::Ddb) => 9,
        None => 0,
    })
}

// The answer of the function that a kind names. (A letter and no enum: the letters are the vectors' own, which compare/vectors.py lists.)
pub(crate) fn ask(kind: u8, t: &[u8]) -> Answer {
    match kind {
        b'c' => character(t),
        b'b' => blank(t),
        b't' => part(text::words::trim(t)),
        b'w' => part(text::words::next_word(t, 0)),
        b'n' => number(t, u64::MAX),
        b'v' => number(t, u64::from(u32::MAX)),
        b'q' => quotes(t),
        b's' => sectors(t),
        b'l' => line(t),
        b'e' => equals(t),
        b'i' => yes(text::find::is(t, b"version")),
        b'd' => yes(text::find::starts_with(t, b"ddb.")),
        b'k' => key(t),
        _ => bare(10),
    }
}
