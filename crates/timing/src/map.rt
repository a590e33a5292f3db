// Many mappings of one table, which is lent to each of them. (Count, window and descriptor stay parameters, as C hands them over.)
ghost use Rattle.std.specs.Prelude.{◌≡◌, ◌<◌};
ghost use Rattle.timing.specs.Read.{table_in};
ghost use Rattle.timing.specs.Map.{place_of, mapping_in, next_of, map_sum};

use crate::read::fill;
use crate::sum::fold;
use descriptor::empty;
use lines::record::Fault;
use maps::mapping;
use tables::build;
use tables::table::{Mapping, ShallowMapping, Table};

// Every mapping asks for so many bytes.
const ASKED: u64 = 65536;

// What a mapping's place adds: the file offset, 0 for zeros, 1 for the end or a refusal.
fn place_of(m: Result<ShallowMapping, Fault>) -> u64
    ensures { result ≡ place_of m }
{
    let Ok(found) = m else {
        return 1;
    };
    match found {
        ShallowMapping::Eof => 1,
        ShallowMapping::Zero(_) => 0,
        ShallowMapping::Raw(_, offset, _) => offset,
    }
}

// The sum with a mapping in it: its place, then its run.
fn with_mapping(sum: u64, m: Mapping) -> u64
    ensures { result ≡ mapping_in sum m }
{
    let place = place_of(m.mapping);
    fold(fold(sum, place), m.run)
}

// The offset after an offset: 4,096 further on, or drawn; below 2^31. (A bool, here and below: `next_of` and `map_sum`, which the promises name, are told by it.)
fn next(ascending: bool, offset: u64) -> u64
    requires { offset < 2147483648 }
    ensures { result ≡ next_of ascending offset }
{
    if ascending {
        (offset + 4096) % 2147483648
    } else {
        (offset * 1103515245 + 12345) % 2147483648
    }
}

// The sum over so many mappings of a table that is lent. (A bool and no closure for the next offset: `map_sum`, which `ours_map` promises, is told by it.)
fn many(t: &Table, ascending: bool, count: u64) -> u64
    ensures { result ≡ map_sum ascending count t.now 0 0 }
{
    let mut offset = 0;
    let mut sum = 0;
    for _ in 0..count {
        sum = with_mapping(sum, mapping::get_mapping(t, offset, ASKED));
        offset = next(ascending, offset);
    }
    sum
}

// The sum over so many mappings of the table of a descriptor. (`walk_in` shares two lines with it; what the two share would take the loop as a closure, and its promise as a premise.)
pub(crate) fn map_in(d: &[u8], ascending: bool, count: u64) -> u64
    ensures { result ≡ map_sum ascending count (table_in d.now) 0 0 }
{
    let mut table = build::no_table();
    fill(d, &mut empty::no_record(), &mut table);
    many(&table, ascending, count)
}
