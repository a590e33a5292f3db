// The lines of an answer: a letter, five numbers and a text (compare/FORMAT.md).
use lines::record::{Text, Verdict, VmdkAccessType, VmdkDesc};
use tables::table::{
    Mapping, Piece, PieceSource, Row, ShallowMapping, Source, Stop, Table, Walked,
};

// A line: its letter, its numbers, and a text of the descriptor. (Letters, not an enum: FORMAT.md has them, and a line is written as it is.)
#[derive(Clone, Copy)]
pub(crate) struct Line {
    pub letter: u8,
    pub numbers: [u64; 5],
    pub text: Text,
}

// A line with a text.
fn full(letter: u8, a: u64, b: u64, c: u64, d: u64, e: u64, text: Text) -> Line {
    Line {
        letter,
        numbers: [a, b, c, d, e],
        text,
    }
}

// A line with no text.
fn bare(letter: u8, a: u64, b: u64, c: u64, d: u64, e: u64) -> Line {
    full(letter, a, b, c, d, e, Text::NONE)
}

// An access as a number: 1 where the row may be written.
fn writable(a: VmdkAccessType) -> u64 {
    u64::from(matches!(a, VmdkAccessType::RW))
}

// The start of a case: its number, whether it may be a descriptor, and the refusal's two numbers. (`as` here and below: a usize has no `From` to u64.)
pub(crate) fn case(k: u64, probed: bool, v: Verdict) -> Line {
    let (fault, second) = match v {
        Ok(()) => (0, 0),
        Err(r) => (u64::from(r.fault.number()), r.second as u64),
    };
    bare(b'c', k, u64::from(probed), fault, second, 0)
}

// A row of a table, with its line.
pub(crate) fn row(r: &Row) -> Line {
    let n = r.line as u64;
    let start = r.start.offset();
    let end = r.end.offset();
    match r.source {
        Source::NoAccess => bare(b'N', n, start, end, 0, 0),
        Source::Zero(a) => bare(b'Z', n, start, end, writable(a), 0),
        Source::Flat(a, from, text) => full(b'F', n, start, end, writable(a), from.offset(), text),
    }
}

// The file name of row i.
fn name(t: &Table, i: usize) -> Text {
    t.rows.get(i).map_or(Text::NONE, |r| row(r).text)
}

// The values of a descriptor and its table.
pub(crate) fn head(v: VmdkDesc, t: &Table) -> [Line; 3] {
    [
        full(
            b'v',
            u64::from(v.version),
            v.sectors,
            v.heads,
            v.cylinders,
            0,
            v.cid,
        ),
        full(b'p', 0, 0, 0, 0, 0, v.parent_cid),
        full(
            b't',
            t.size.offset(),
            t.count as u64,
            0,
            0,
            0,
            v.create_type,
        ),
    ]
}

// What lies at an offset; the text is the file name of its row.
pub(crate) fn mapping(t: &Table, m: Mapping) -> Line {
    let looked = m.looked as u64;
    match m.mapping {
        Ok(ShallowMapping::Eof) => bare(b'e', m.run, looked, 0, 0, 0),
        Err(fault) => bare(b'x', m.run, looked, u64::from(fault.number()), 0, 0),
        Ok(ShallowMapping::Zero(i)) => bare(b'z', m.run, looked, i as u64, 0, 0),
        Ok(ShallowMapping::Raw(i, offset, w)) => {
            let text = name(t, i);
            full(b'r', m.run, looked, i as u64, u64::from(w), offset, text)
        }
    }
}

// A piece of a walk; the text is the file name of its row.
pub(crate) fn piece(t: &Table, x: Piece) -> Line {
    let letter = match x.source {
        PieceSource::Zero => b'O',
        PieceSource::Raw => b'D',
    };
    full(
        letter,
        x.start,
        x.run,
        x.row as u64,
        u64::from(x.writable),
        x.file_offset,
        name(t, x.row),
    )
}

// The end of a walk.
pub(crate) fn end(w: Walked) -> Line {
    let count = w.count as u64;
    let looked = w.looked as u64;
    match w.stop {
        Ok(Stop::Done) => bare(b'd', w.position, count, looked, 0, 0),
        Ok(Stop::More) => bare(b'm', w.position, count, looked, 0, 0),
        Err(fault) => bare(
            b'w',
            w.position,
            count,
            looked,
            u64::from(fault.number()),
            0,
        ),
    }
}
