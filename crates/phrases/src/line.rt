// Lines of words, with a space after each but the last.
ghost use Rattle.std.specs.Prelude.{◌≡◌, take};
ghost use Rattle.puts.specs.Decimal.{decimal_of};
ghost use Rattle.phrases.specs.Line.{refused_line, name_in, name_of, access_word, mode_word, source_at};
ghost use Rattle.phrases.specs.Adding.{closed, closed_field, Adds};
ghost use Rattle.phrases.specs.inside.Ending.{end_byte};

use lines::record::{Refusal, Text, VmdkAccessType};
use puts::put::{put, put_byte, put_decimal};
use tables::table::{Row, Source, Table};

// What ends with a word: no more than the word, by a space, or its line, by 0A.
#[derive(Clone, Copy)]
pub enum End {
    Word,
    Line,
}

impl End {
    // The byte that says it.
    fn byte(self) -> u8
        ensures { result ≡ end_byte self }
    {
        match self {
            End::Word => 0x20,
            End::Line => 0x0A,
        }
    }
}

// An answer that is being written: the buffer that the caller lends, and the place after what was put.
#[derive(Drop)]
pub struct Answer<'a> {
    pub out: &'a mut [u8],
    pub at: usize,
}

impl<'a> Answer<'a> {
    // Puts a word and its end. `word` and `number` stay two: a trait over texts and numbers would be no plainer than their two lines.
    #[tactic(auto, using(crate::proofs::Lines::words))]
    pub fn word(&mut self, w: &[u8], end: End)
        ensures { Adds self.old (closed end w.now) self.new }
    {
        let next = put(self.out, self.at, w);
        self.at = put_byte(self.out, next, end.byte());
    }

    // Puts a number and its end.
    #[tactic(auto, using(crate::proofs::Lines::words))]
    pub fn number(&mut self, n: u64, end: End)
        ensures { Adds self.old (closed end (decimal_of n)) self.new }
    {
        let next = put_decimal(self.out, self.at, n);
        self.at = put_byte(self.out, next, end.byte());
    }

    // Puts a word, and then a number and its end.
    #[tactic(auto, using(crate::proofs::Lines::words))]
    pub fn field(&mut self, w: &[u8], n: u64, end: End)
        ensures { Adds self.old (closed_field end w.now n) self.new }
    {
        self.word(w, End::Word);
        self.number(n, end);
    }

    // Puts how an extent may be accessed, and its end. `access` and `mode` stay two, here and as words: an access, and a yes or no.
    pub fn access(&mut self, a: VmdkAccessType, end: End)
        ensures { Adds self.old (closed end (access_word a)) self.new }
    {
        self.word(access(a), end);
    }

    // Puts how a row's bytes may be accessed, by whether they may be written, and its end.
    pub fn mode(&mut self, writable: bool, end: End)
        ensures { Adds self.old (closed end (mode_word writable)) self.new }
    {
        self.word(mode(writable), end);
    }

    // Puts the line of a refusal. The second number is cast: there is no `From` for a `usize`.
    #[tactic(auto, using(crate::proofs::Lines::lines), unfolding(crate::specs::Line::refused_line))]
    pub fn refused_line(&mut self, x: Refusal)
        ensures { Adds self.old (refused_line x) self.new }
    {
        self.field(b"refused", u64::from(x.fault.number()), End::Word);
        self.number(x.second as u64, End::Line);
    }
}

// The bytes of a text of the descriptor, as far as they are there.
#[tactic(auto, using(crate::proofs::Lines::names), unfolding(crate::specs::Line::name_in))]
pub fn name(d: &[u8], t: Text) -> &[u8]
    ensures { result.now ≡ name_in d.now t }
{
    let rest = &d[t.place.min(d.len())..];
    &rest[..t.length.min(rest.len())]
}

// How an extent may be accessed, as a word; not by `Display`, since `write!` promises its bytes only where it answers `Ok`.
pub fn access(a: VmdkAccessType) -> &'static [u8]
    ensures { result.now ≡ access_word a }
{
    match a {
        VmdkAccessType::RdOnly => b"RDONLY",
        VmdkAccessType::RW => b"RW",
    }
}

// How a row's bytes may be accessed, as a word, by whether they may be written.
pub fn mode(writable: bool) -> &'static [u8]
    ensures { result.now ≡ mode_word writable }
{
    if writable {
        access(VmdkAccessType::RW)
    } else {
        access(VmdkAccessType::RdOnly)
    }
}

// The name of a source's file; zeros and no access have none.
pub fn source_name(d: &[u8], s: Source) -> &[u8]
    ensures { result.now ≡ name_of d.now s }
{
    match s {
        Source::NoAccess => b"",
        Source::Zero(_) => b"",
        Source::Flat(_, _, t) => name(d, t),
    }
}

// The source of a row; past the rows there is no access.
pub fn row_source(rows: &[Row], i: usize) -> Source
    ensures { result ≡ source_at rows.now i }
{
    rows.get(i).map_or(Source::NoAccess, |row| row.source)
}

// The rows that a table counts; of a hand-made table that counts more than it has, all.
pub fn counted_rows(t: &Table) -> &[Row]
    ensures { result.now ≡ take t.now.count t.now.rows }
{
    t.rows.get(..t.count).unwrap_or(&t.rows)
}
