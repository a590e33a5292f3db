// The lines of a walk. `d`, the walk's numbers and `answer` stay parameters of their own: `put_walk` has them in its public signature, and a
// struct of them would be no plainer. A `usize` is cast, since there is no `From` for it.
ghost use Rattle.maps.specs.Walk.{walk_of};
ghost use Rattle.puts.specs.Put.{Put};
ghost use Rattle.phrases.specs.Line.{line, lines_from};
ghost use Rattle.phrases.specs.Adding.{Adds};
ghost use Rattle.walk_lines.specs.Walk.{raw_words, piece_words, piece_from, piece_line, stop_text, stop_line, walk_lines, walk_lines_of};

use lines::record::Fault;
use maps::stepping::{no_pieces, walk_in};
use phrases::line::{Answer, End, row_source, source_name};
use phrases::opening::open;
use tables::build::no_table;
use tables::table::{Piece, PieceSource, Row, Source, Stop, Table, Walked};

// Puts a raw piece's place in its file, from its offset to the line's end.
#[tactic(auto, using(phrases::proofs::Lines::lines))]
fn raw_piece(offset: u64, row: u64, writable: bool, name: &[u8], answer: &mut Answer<'_>)
    ensures { Adds answer.old (line (raw_words offset row writable name.now)) answer.new }
{
    answer.field(b"raw", offset, End::Word);
    answer.field(b"row", row, End::Word);
    answer.mode(writable, End::Word);
    answer.word(name, End::Line);
}

// Puts where a piece's bytes come from, to the line's end; s is its row's source. Not by `Display`, here and in `stop_word`: `write!` promises
// its bytes only where it answers `Ok`.
fn piece_source(d: &[u8], s: Source, p: Piece, answer: &mut Answer<'_>)
    ensures { Adds answer.old (line (piece_words d.now s p p.source)) answer.new }
{
    let row = p.row as u64;
    match p.source {
        PieceSource::Zero => answer.field(b"zero row", row, End::Line),
        PieceSource::Raw => raw_piece(p.file_offset, row, p.writable, source_name(d, s), answer),
    }
}

// Puts the line of a piece of a source.
#[tactic(auto, using(phrases::proofs::Lines::lines, crate::proofs::Walks::piece_words_more), unfolding(crate::specs::Walk::piece_from))]
fn piece_line(d: &[u8], s: Source, p: Piece, answer: &mut Answer<'_>)
    ensures { Adds answer.old (piece_from d.now s p) answer.new }
{
    answer.number(p.start, End::Word);
    answer.number(p.run, End::Word);
    piece_source(d, s, p, answer);
}

// Puts the lines of some pieces.
#[tactic(auto, using(puts::proofs::Puts::joins, crate::proofs::Walks::pieces_next), unfolding(crate::specs::Walk::piece_line, phrases::specs::Line::lines_from))]
fn piece_lines(d: &[u8], rows: &[Row], pieces: &[Piece], answer: &mut Answer<'_>)
    ensures { Adds answer.old (lines_from (piece_line d.now rows.now) 0 pieces.now) answer.new }
{
    // The place is read, so that a proof knows that it is a number of 64 bits: without it the loop's first goal does not close.
    let _at = answer.at;
    for p in pieces {
        piece_line(d, row_source(rows, p.row), *p, answer);
    }
}

// Puts why a walk stopped.
#[tactic(auto, using(puts::proofs::Puts::joins))]
fn stop_word(s: Result<Stop, Fault>, answer: &mut Answer<'_>)
    ensures { Adds answer.old (stop_text s) answer.new }
{
    match s {
        Ok(Stop::Done) => answer.word(b"done at", End::Word),
        Ok(Stop::More) => answer.word(b"more at", End::Word),
        Err(fault) => {
            answer.field(b"refused", u64::from(fault.number()), End::Word);
            answer.word(b"0 at", End::Word);
        }
    }
}

// Puts a walk's last line.
#[tactic(auto, using(phrases::proofs::Lines::lines), unfolding(crate::specs::Walk::stop_line))]
fn stop_line(w: Walked, answer: &mut Answer<'_>)
    ensures { Adds answer.old (stop_line w) answer.new }
{
    stop_word(w.stop, answer);
    answer.number(w.position, End::Word);
    answer.field(b"pieces", w.count as u64, End::Word);
    answer.field(b"looked", w.looked as u64, End::Line);
}

// Puts the lines of a table's walk.
fn table_walk(d: &[u8], t: &Table, offset: u64, length: u64, places: usize, answer: &mut Answer<'_>)
    ensures { Adds answer.old (walk_lines d.now t.now.rows (walk_of t.now places offset length)) answer.new }
{
    let mut pieces = no_pieces();
    let walked = walk_in(t, &mut pieces, places, offset, length);
    piece_lines(d, &t.rows, &pieces[..walked.count], answer);
    stop_line(walked, answer);
}

// Puts the lines of a walk of a descriptor's disk, or of its refusal.
#[tactic(auto, using(phrases::proofs::Openings::unless_is), unfolding(crate::specs::Walk::walk_lines_of))]
fn walk_text(d: &[u8], offset: u64, length: u64, places: usize, answer: &mut Answer<'_>)
    ensures { Adds answer.old (walk_lines_of d.now offset length places) answer.new }
{
    let mut table = no_table();
    match open(d, &mut table) {
        Ok(_) => table_walk(d, &table, offset, length, places, answer),
        Err(x) => answer.refused_line(x.refusal),
    }
}

// Puts the lines of a walk of a descriptor's disk. Not one function with `put_map`: that would take a closure, and a proof at each caller.
pub fn put_walk(d: &[u8], offset: u64, length: u64, places: usize, out: &mut [u8]) -> usize
    ensures { Put out.old 0 (walk_lines_of d.now offset length places) result out.new }
{
    let mut answer = Answer { out, at: 0 };
    walk_text(d, offset, length, places, &mut answer);
    answer.at
}
