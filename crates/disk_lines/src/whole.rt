// The report of a descriptor. `d` and `answer` stay two parameters: one is read and the other written, and each contract speaks of both apart.
// A `usize` is cast, since there is no `From` for it.
ghost use Rattle.std.specs.Prelude.{◌≡◌};
ghost use Rattle.puts.specs.Put.{Put};
ghost use Rattle.phrases.specs.Line.{line, lines_from};
ghost use Rattle.phrases.specs.Adding.{Adds};
ghost use Rattle.disk_lines.specs.Report.{yes_no, flat_words, source_words, row_line, probe_line, head_lines, table_lines, report_of};

use lines::record::{Text, VmdkAccessType};
use phrases::line::{Answer, End, counted_rows, name};
use phrases::opening::open;
use probing::probe::probe;
use tables::build::no_table;
use tables::table::{Row, Source, Table};

// Yes or no, as a word; not by `Display`, here and in `source`: `write!` promises its bytes only where it answers `Ok`.
fn yes_no(yes: bool) -> &'static [u8]
    ensures { result.now ≡ yes_no yes }
{
    if yes { b"yes" } else { b"no" }
}

// Puts the probe's line.
#[tactic(auto, using(phrases::proofs::Lines::lines), unfolding(crate::specs::Report::probe_line))]
fn probe_line(yes: bool, answer: &mut Answer<'_>)
    ensures { Adds answer.old (probe_line yes) answer.new }
{
    answer.word(b"probe", End::Word);
    answer.word(yes_no(yes), End::Line);
}

// Puts the source of a flat row, to the end of its line.
#[tactic(auto, using(phrases::proofs::Lines::lines))]
fn flat_source(d: &[u8], a: VmdkAccessType, start: u64, t: Text, answer: &mut Answer<'_>)
    ensures { Adds answer.old (line (flat_words d.now a start t)) answer.new }
{
    answer.word(b"FLAT", End::Word);
    answer.access(a, End::Word);
    answer.number(start, End::Word);
    answer.word(name(d, t), End::Line);
}

// Puts a row's source, to the end of its line.
#[tactic(auto, using(phrases::proofs::Lines::lines))]
fn source(d: &[u8], s: Source, answer: &mut Answer<'_>)
    ensures { Adds answer.old (line (source_words d.now s)) answer.new }
{
    match s {
        Source::NoAccess => answer.word(b"NOACCESS", End::Line),
        Source::Zero(a) => {
            answer.word(b"ZERO", End::Word);
            answer.access(a, End::Line);
        }
        Source::Flat(a, start, t) => flat_source(d, a, start.offset(), t, answer),
    }
}

// Puts a row's line.
#[tactic(auto, using(phrases::proofs::Lines::lines, crate::proofs::Reports::source_words_more), unfolding(crate::specs::Report::row_line))]
fn row_line(d: &[u8], i: usize, row: &Row, answer: &mut Answer<'_>)
    ensures { Adds answer.old (row_line d.now i row.now) answer.new }
{
    answer.number(i as u64, End::Word);
    answer.number(row.start.offset(), End::Word);
    answer.number(row.end.offset(), End::Word);
    source(d, row.source, answer);
}

// Puts the lines of some rows.
#[tactic(auto, using(puts::proofs::Puts::joins, crate::proofs::Reports::rows_next), unfolding(phrases::specs::Line::lines_from))]
fn row_lines(d: &[u8], rows: &[Row], answer: &mut Answer<'_>)
    ensures { Adds answer.old (lines_from (row_line d.now) 0 rows.now) answer.new }
{
    // The place is read, so that a proof knows that it is a number of 64 bits: without it the loop's first goal does not close.
    let _at = answer.at;
    for (i, row) in rows.iter().enumerate() {
        row_line(d, i, row, answer);
    }
}

// Puts the lines of a descriptor's version, the disk's size and the number of its extents.
#[tactic(auto, using(puts::proofs::Puts::joins), unfolding(crate::specs::Report::head_lines))]
fn head_lines(version: u64, size: u64, count: u64, answer: &mut Answer<'_>)
    ensures { Adds answer.old (head_lines version size count) answer.new }
{
    answer.field(b"version", version, End::Line);
    answer.field(b"size", size, End::Line);
    answer.field(b"extents", count, End::Line);
}

// Puts the lines of a version and a table.
#[tactic(auto, using(puts::proofs::Puts::joins), unfolding(crate::specs::Report::table_lines, phrases::specs::Line::lines_to))]
fn table_lines(d: &[u8], version: u32, t: &Table, answer: &mut Answer<'_>)
    ensures { Adds answer.old (table_lines d.now version t.now) answer.new }
{
    head_lines(u64::from(version), t.size.offset(), t.count as u64, answer);
    row_lines(d, counted_rows(t), answer);
}

// Puts the report of a descriptor.
#[tactic(auto, using(puts::proofs::Puts::joins, phrases::proofs::Openings::unless_is, phrases::proofs::Openings::version_is), unfolding(crate::specs::Report::report_of))]
fn report(d: &[u8], answer: &mut Answer<'_>)
    ensures { Adds answer.old (report_of d.now) answer.new }
{
    probe_line(probe(d), answer);
    let mut table = no_table();
    match open(d, &mut table) {
        Ok(version) => table_lines(d, version, &table, answer),
        Err(x) => answer.refused_line(x.refusal),
    }
}

// Puts the report of a descriptor. Not one function with `put_map`: that would take a closure, and a proof at each caller.
pub fn put_report(d: &[u8], out: &mut [u8]) -> usize
    ensures { Put out.old 0 (report_of d.now) result out.new }
{
    let mut answer = Answer { out, at: 0 };
    report(d, &mut answer);
    answer.at
}
