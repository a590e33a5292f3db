// Reading a descriptor and building its table so many times, into a record and a table that are made once and lent again. (Count, window and descriptor stay parameters, as C hands them over.)
ghost use Rattle.std.specs.Prelude.{◌≡◌};
ghost use Rattle.descriptor.specs.Read.{read_of};
ghost use Rattle.tables.specs.Into.{build_into};
ghost use Rattle.timing.specs.Read.{value_of, size_of, reads_sum};

use crate::sum::fold;
use descriptor::{empty, read};
use lines::record::{Record, Verdict};
use tables::build;
use tables::table::Table;
use text::sector::Bytes;

// What a round adds: the disk's size; 2^64-1 if reading or building is refused. (A number for none, since `ours_reads` promises C sums with it, by `size_of`.)
fn value_of(read: Verdict, built: Verdict, size: Bytes) -> u64
    ensures { result ≡ value_of read built size.0 }
{
    read.and(built).map_or(u64::MAX, |()| size.offset())
}

// Reads a descriptor and builds its table, into a record and a table that are lent; answers what a round adds (`value_of`).
// Inline, so that reading and building stay functions of their own: written into one caller, they take longer.
#[inline(always)]
pub(crate) fn fill(d: &[u8], record: &mut Record, table: &mut Table) -> u64
    ensures size { result ≡ size_of d.now }
    ensures table { table.new ≡ build_into (read_of d.now).descriptor table.old }
{
    let read = read::parse_descriptor_file(d, record);
    let built = build::build(record, table);
    value_of(read, built, table.size)
}

// The sum over so many rounds.
pub(crate) fn reads(d: &[u8], count: u64) -> u64
    ensures { result ≡ reads_sum count (size_of d.now) 0 }
{
    let mut record = empty::no_record();
    let mut table = build::no_table();
    let mut sum = 0;
    for _ in 0..count {
        sum = fold(sum, fill(d, &mut record, &mut table));
    }
    sum
}
