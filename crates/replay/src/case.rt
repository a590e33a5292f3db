// One case: a descriptor and its queries. (What is written to, the case's bytes and the table stay parameters: the first two are handed on, and a struct of them would be no plainer than two names.)
use crate::{line, out};
use descriptor::empty::no_record;
use descriptor::read::parse_descriptor_file;
use lines::record::{Record, Verdict, VmdkDesc};
use maps::mapping::get_mapping;
use maps::stepping::{no_pieces, walk_in};
use std::io;
use tables::build::{build, no_table};
use tables::table::{Piece, Table, Walked};

// A query: an offset and a length, and for a walk the room for its pieces.
#[derive(Drop)]
enum Query {
    Map(u64, u64),
    Walk(u64, u64, u16),
}

// How many bytes of a case file a query has.
pub(crate) const QUERY: usize = 19;

// The query that stands at the start of some bytes (FORMAT.md): a map where its first byte is 0, a walk otherwise.
fn read_query(b: &[u8]) -> Option<Query> {
    let (what, b) = b.split_first()?;
    let (offset, b) = b.split_first_chunk()?;
    let (length, b) = b.split_first_chunk()?;
    let offset = u64::from_le_bytes(*offset);
    let length = u64::from_le_bytes(*length);
    let places = u16::from_le_bytes(*b.first_chunk()?);
    Some(match *what {
        0 => Query::Map(offset, length),
        _ => Query::Walk(offset, length, places),
    })
}

// The values of a descriptor and its table, which are three lines, and the rows.
fn head(rt: &impl Print, c: &[u8], v: VmdkDesc, t: &Table) -> io::Result<()> {
    for l in line::head(v, t) {
        out::line(rt, c, l)?;
    }
    for row in t.rows.iter().take(t.count) {
        out::line(rt, c, line::row(row))?;
    }
    Ok(())
}

// The pieces of a walk and its end.
fn walk(rt: &impl Print, c: &[u8], t: &Table, w: Walked, pieces: &[Piece]) -> io::Result<()> {
    for p in pieces.iter().take(w.count) {
        out::line(rt, c, line::piece(t, *p))?;
    }
    out::line(rt, c, line::end(w))
}

// The answer to a query.
fn reply(rt: &impl Print, c: &[u8], t: &Table, q: Query) -> io::Result<()> {
    match q {
        Query::Map(offset, length) => {
            let m = get_mapping(t, offset, length);
            out::line(rt, c, line::mapping(t, m))
        }
        Query::Walk(offset, length, places) => {
            let mut pieces = no_pieces();
            let w = walk_in(t, &mut pieces, usize::from(places), offset, length);
            walk(rt, c, t, w, &pieces)
        }
    }
}

// The answers to the queries, one after the other; their number is at a place, and they stand after it.
fn queries(rt: &impl Print, c: &[u8], t: &Table, at: usize) -> io::Result<()> {
    let Some([n, rest @ ..]) = c.get(at..) else {
        return Ok(());
    };
    for q in rest
        .chunks_exact(QUERY)
        .take(usize::from(*n))
        .filter_map(read_query)
    {
        reply(rt, c, t, q)?;
    }
    Ok(())
}

// The answers of case k, whose first n bytes were read into a record.
fn built(
    rt: &impl Print,
    k: u64,
    c: &[u8],
    n: usize,
    probed: bool,
    record: &Record,
) -> io::Result<()> {
    let mut t = no_table();
    let v = build(record, &mut t);
    out::line(rt, c, line::case(k, probed, v))?;
    match v {
        Err(_) => Ok(()),
        Ok(()) => {
            head(rt, c, record.desc, &t)?;
            queries(rt, c, &t, n)
        }
    }
}

// The answers of case k, whose descriptor is its first n bytes.
pub(crate) fn answer(rt: &impl Print, k: u64, c: &[u8], n: usize) -> io::Result<()> {
    let d = out::front(c, n);
    let probed = probing::probe::probe(d);
    let mut record = no_record();
    let v = parse_descriptor_file(d, &mut record);
    match v {
        Err(_) => out::line(rt, c, line::case(k, probed, v)),
        Ok(()) => built(rt, k, c, n, probed, &record),
    }
}
