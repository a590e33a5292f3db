// The line of a mapping. `d`, `rows`, `m` and `answer` stay parameters of their own: a struct of them would be no plainer, since each contract
// speaks of its parts one by one. A `usize` is cast, since there is no `From` for it.
ghost use Rattle.puts.specs.Put.{Put};
ghost use Rattle.phrases.specs.Line.{line};
ghost use Rattle.phrases.specs.Adding.{Adds};
ghost use Rattle.map_lines.specs.Map.{row_words, raw_words, zero_words, refused_words, found_words, mapping_line, map_line_of};

use lines::record::Fault;
use maps::mapping::get_mapping;
use phrases::line::{Answer, End, row_source, source_name};
use phrases::opening::open;
use tables::build::no_table;
use tables::table::{Mapping, Row, ShallowMapping};

// Puts a raw mapping's row, from its number to the line's end.
#[tactic(auto, using(phrases::proofs::Lines::lines))]
fn raw_row(row: u64, writable: bool, looked: u64, name: &[u8], answer: &mut Answer<'_>)
    ensures { Adds answer.old (line (row_words row writable looked name.now)) answer.new }
{
    answer.field(b"row", row, End::Word);
    answer.mode(writable, End::Word);
    answer.field(b"looked", looked, End::Word);
    answer.word(name, End::Line);
}

// Puts a zero mapping's line.
fn zero_line(run: u64, row: u64, looked: u64, answer: &mut Answer<'_>)
    ensures { Adds answer.old (line (zero_words run row looked)) answer.new }
{
    answer.field(b"zero run", run, End::Word);
    answer.field(b"row", row, End::Word);
    answer.field(b"looked", looked, End::Line);
}

// Puts a raw mapping's line.
#[tactic(auto, using(phrases::proofs::Lines::fields))]
fn raw_line(
    d: &[u8],
    rows: &[Row],
    m: Mapping,
    row: usize,
    offset: u64,
    writable: bool,
    answer: &mut Answer<'_>,
)
    ensures { Adds answer.old (line (raw_words d.now rows.now m.run m.looked row offset writable)) answer.new }
{
    answer.field(b"raw", offset, End::Word);
    answer.field(b"run", m.run, End::Word);
    let name = source_name(d, row_source(rows, row));
    raw_row(row as u64, writable, m.looked as u64, name, answer);
}

// Puts a refused mapping's line.
fn refused_mapping(fault: Fault, looked: u64, answer: &mut Answer<'_>)
    ensures { Adds answer.old (line (refused_words fault looked)) answer.new }
{
    answer.field(b"refused", u64::from(fault.number()), End::Word);
    answer.field(b"0 run 0 looked", looked, End::Line);
}

// Puts the line of what lies at the offset; not by `Display`, since `write!` promises its bytes only where it answers `Ok`.
fn found_line(d: &[u8], rows: &[Row], m: Mapping, found: ShallowMapping, answer: &mut Answer<'_>)
    ensures { Adds answer.old (line (found_words d.now rows.now m.run m.looked found)) answer.new }
{
    let looked = m.looked as u64;
    match found {
        ShallowMapping::Eof => answer.field(b"end run 0 looked", looked, End::Line),
        ShallowMapping::Zero(row) => zero_line(m.run, row as u64, looked, answer),
        ShallowMapping::Raw(row, offset, writable) => {
            raw_line(d, rows, m, row, offset, writable, answer);
        }
    }
}

// Puts a mapping's line.
fn mapping_line(d: &[u8], rows: &[Row], m: Mapping, answer: &mut Answer<'_>)
    ensures { Adds answer.old (mapping_line d.now rows.now m) answer.new }
{
    match m.mapping {
        Ok(found) => found_line(d, rows, m, found, answer),
        Err(fault) => refused_mapping(fault, m.looked as u64, answer),
    }
}

// Puts the line of what a descriptor's disk has at an offset, or of its refusal.
#[tactic(auto, using(phrases::proofs::Openings::unless_is), unfolding(crate::specs::Map::map_line_of))]
fn map_line(d: &[u8], offset: u64, length: u64, answer: &mut Answer<'_>)
    ensures { Adds answer.old (map_line_of d.now offset length) answer.new }
{
    let mut table = no_table();
    match open(d, &mut table) {
        Ok(_) => {
            let m = get_mapping(&table, offset, length);
            mapping_line(d, &table.rows, m, answer);
        }
        Err(x) => answer.refused_line(x.refusal),
    }
}

// Puts the line of what a descriptor's disk has at an offset. `put_walk` and `put_report` go likewise, with another text: one function for the
// three would take a closure, with a contract over every text and a proof at each caller, and be no plainer than three lines.
pub fn put_map(d: &[u8], offset: u64, length: u64, out: &mut [u8]) -> usize
    ensures { Put out.old 0 (map_line_of d.now offset length) result out.new }
{
    let mut answer = Answer { out, at: 0 };
    map_line(d, offset, length, &mut answer);
    answer.at
}
