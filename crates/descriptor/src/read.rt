// Reading a descriptor into a record that the caller lends.
ghost use Rattle.std.specs.Prelude.{◌≡◌};
ghost use Rattle.descriptor.specs.Read.{set_of, read_of};
ghost use Rattle.descriptor.specs.Into.{stored_of, read_into};
ghost use Rattle.descriptor.specs.inside.Reading.{bytes_checked, sized_of, checked_of, told, head_of, with_extents};

use crate::empty;
use lines::line::{Said, Setting, parse_descriptor_line};
use lines::record::{Fault, MOST, MOST_BYTES, ReadExtent, Record, Refusal, Verdict, VmdkDesc};
use text::find::{line_end, starts_with};
use text::sector::{Bytes, Sectors};

// The least bytes of a descriptor.
const LEAST_BYTES: usize = 4;

// Sets one of the values.
#[tactic(auto, unfolding(crate::specs::Read::set_of))]
fn set(desc: &mut VmdkDesc, s: Setting)
    ensures { desc.new ≡ set_of desc.old s }
{
    match s {
        Setting::Version(v) => desc.version = v,
        Setting::Cid(t) => desc.cid = t,
        Setting::ParentCid(t) => desc.parent_cid = t,
        Setting::CreateType(t) => desc.create_type = t,
        Setting::Sectors(n) => desc.sectors = n,
        Setting::Heads(n) => desc.heads = n,
        Setting::Cylinders(n) => desc.cylinders = n,
    }
}

// The running sum of the sizes, or the first refusal among them, with one more, that of a line's extent: sectors in bytes, within 2^64-1. (18, 19)
fn with_size(sizes: Result<u64, Refusal>, line: usize, sectors: Sectors) -> Result<u64, Refusal>
    ensures { result ≡ sized_of sizes line sectors }
{
    let sum = sizes?;
    let size = sectors.bytes().ok_or(Fault::SizeTooLarge.at(line))?;
    sum.checked_add(size.offset())
        .ok_or(Fault::SumTooLarge.at(line))
}

// Before the lines: length, then sparse bytes. (1, 2, 3)
fn check_bytes(d: &[u8]) -> Result<(), Refusal>
    ensures { result ≡ bytes_checked d.now }
{
    if d.len() < LEAST_BYTES {
        return Err(Fault::TooShort.at(0));
    }
    if MOST_BYTES < d.len() {
        return Err(Fault::TooLong.at(0));
    }
    if starts_with(d, b"KDMV") {
        return Err(Fault::Sparse.at(0));
    }
    Ok(())
}

// After the lines: version 1 to 3, then the sizes. (17)
fn check_values(version: u32, sizes: Result<u64, Refusal>) -> Result<u64, Refusal>
    ensures { result ≡ checked_of version sizes }
{
    match version {
        1..=3 => sizes,
        _ => Err(Fault::OtherVersion.at(0)),
    }
}

// What a line says, or its refusal with the line's number.
fn told(said: Result<Said, Fault>, line: usize) -> Result<Said, Refusal>
    ensures { result ≡ told said line }
{
    said.map_err(|fault| fault.at(line))
}

// Reads line by line and stores each extent, up to the first refusal; answers the values and how many extents there are. A line is as long as it is, and its place is asked for, so the loop goes by the place; the flag says whether a line is left, so that the invariant is one equation (`left_lines`).
#[tactic(auto, using(crate::proofs::Steps::lines))]
fn put_lines(d: &[u8], into: &mut Record) -> Result<(VmdkDesc, usize), Refusal>
    ensures head { result ≡ head_of (read_of d.now) }
    ensures extents { into.new ≡ with_extents (stored_of d.now) into.old }
{
    check_bytes(d)?;
    let mut desc = empty::no_desc();
    let mut count = 0;
    let mut sizes = Ok(0);
    let mut at = 0;
    let mut line = 0;
    let mut more = true;
    while more {
        let e = line_end(d, at);
        let said = parse_descriptor_line(&d[at..e], at);
        more = e < d.len();
        at = e + 1;
        line += 1;
        match told(said, line)? {
            Said::Nothing => {}
            Said::Set(s) => set(&mut desc, s),
            Said::Extent(extent) => {
                if MOST <= count {
                    return Err(Fault::TooManyExtents.at(line));
                }
                into.extents[count] = ReadExtent { line, extent };
                count += 1;
                sizes = with_size(sizes, line, extent.sectors);
            }
        }
    }
    check_values(desc.version, sizes)?;
    Ok((desc, count))
}

// Read and parse the VMDK descriptor by reading in lines until we find the end, into a record in whatever state it was. A refusal leaves start
// values and no extent counted; in the first places what was stored before it, and every other place as it was.
pub fn parse_descriptor_file(d: &[u8], into: &mut Record) -> Verdict
    ensures { (result ≡ (read_of d.now).verdict) × (into.new ≡ read_into d.now into.old) }
{
    match put_lines(d, into) {
        Ok((desc, count)) => {
            into.desc = desc;
            into.count = count;
            Ok(())
        }
        Err(r) => {
            into.desc = empty::no_desc();
            into.count = 0;
            Err(r)
        }
    }
}
