// What the benchmark calls: reading, probing, mapping and walking, each answered by one number. (Descriptor, window and count stand side by side, here and in the modules, as C hands them over.)
#![tactic(auto)]

mod map;
mod read;
mod sum;
mod walk;

ghost use Rattle.std.specs.Prelude.{◌≡◌};
ghost use Rattle.timing.specs.Read.{size_of, reads_sum, table_in, bit_of};
ghost use Rattle.timing.specs.Map.{map_sum, is_ascending};
ghost use Rattle.timing.specs.Walk.{walk_sum};
ghost use Rattle.probing.specs.Probe.{probe_of};

use probing::probe;

// Read and build so many times, into memory that is made once and lent again: the sum over the disk's sizes; 2^64-1 for a size if either is refused.
#[unsafe(no_mangle)]
pub extern "C" fn ours_reads(descriptor: &[u8], count: u64) -> u64
    ensures { result ≡ reads_sum count (size_of descriptor.now) 0 }
{
    read::reads(descriptor, count)
}

// Probe: 1 for yes, 0 for no.
#[unsafe(no_mangle)]
pub extern "C" fn ours_probe(descriptor: &[u8]) -> u64
    ensures { result ≡ bit_of (probe_of descriptor.now) }
{
    u64::from(probe::probe(descriptor))
}

// The sum over so many mappings, at drawn offsets (ascending 0) or at ascending ones. (By C a number: a Rust bool from C must be 0 or 1.)
#[unsafe(no_mangle)]
pub extern "C" fn ours_map(descriptor: &[u8], ascending: u64, count: u64) -> u64
    ensures { result ≡ map_sum (is_ascending ascending) count (table_in descriptor.now) 0 0 }
{
    map::map_in(descriptor, 0 < ascending, count)
}

// The sum over so many walks, window after window, with every piece that they wrote.
#[unsafe(no_mangle)]
pub extern "C" fn ours_walk(descriptor: &[u8], window: u64, count: u64) -> u64
    ensures { result ≡ walk_sum count (table_in descriptor.now) window 0 0 }
{
    walk::walk_in(descriptor, window, count)
}
