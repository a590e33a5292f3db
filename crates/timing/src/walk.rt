// Many walks of one table, into one list of pieces; both are lent. (Count, window and descriptor stay parameters, as C hands them over.)
ghost use Rattle.std.specs.Prelude.{◌≡◌};
ghost use Rattle.timing.specs.Read.{table_in};
ghost use Rattle.timing.specs.Walk.{piece_in, pieces_in, walk_sum};

use crate::read::fill;
use crate::sum::fold;
use descriptor::empty;
use maps::stepping::no_pieces;
use maps::walk;
use tables::build;
use tables::table::{Piece, Table};

// The sum with a piece in it: where it starts on the disk, its run, and where it starts in its file.
fn with_piece(sum: u64, p: &Piece) -> u64
    ensures { result ≡ piece_in sum p.now }
{
    let start = fold(sum, p.start);
    let run = fold(start, p.run);
    fold(run, p.file_offset)
}

// The sum with some pieces in it, one after the other.
fn with_pieces(sum: u64, pieces: &[Piece]) -> u64
    ensures { result ≡ pieces_in sum pieces.now }
{
    pieces.iter().fold(sum, |s, p| with_piece(s, p))
}

// The sum over so many walks of a table that is lent; positions stay below 2^31.
fn tours(t: &Table, window: u64, count: u64) -> u64
    ensures { result ≡ walk_sum count t.now window 0 0 }
{
    let mut list = no_pieces();
    let mut at: u64 = 0;
    let mut sum = 0;
    for _ in 0..count {
        let w = walk::walk(t, &mut list, at, window);
        sum = with_pieces(sum, &list[..w.count]);
        at = at.wrapping_add(window) % 2147483648;
    }
    sum
}

// The sum over so many walks of the table of a descriptor. (`map_in` shares two lines with it; what the two share would take the loop as a closure, and its promise as a premise.)
pub(crate) fn walk_in(d: &[u8], window: u64, count: u64) -> u64
    ensures { result ≡ walk_sum count (table_in d.now) window 0 0 }
{
    let mut table = build::no_table();
    fill(d, &mut empty::no_record(), &mut table);
    tours(&table, window, count)
}
