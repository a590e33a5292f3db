// Reading a descriptor and building its table.
ghost use Rattle.std.specs.Prelude.{◌≡◌, OnOk};
ghost use Rattle.descriptor.specs.Read.{read_of};
ghost use Rattle.tables.specs.Build.{no_table};
ghost use Rattle.tables.specs.Into.{build_into};
ghost use Rattle.phrases.specs.Opening.{opened, open_of, open_into};

use descriptor::{empty, read};
use lines::record::{Record, Refusal, Verdict};
use tables::build;
use tables::table::Table;

// Why a descriptor is not opened, and the version that was read: that of an empty record where reading is refused.
#[derive(Clone, Copy, Debug, PartialEq, Eq)]
pub struct Unopened {
    pub refusal: Refusal,
    pub version: u32,
}

// Reads a descriptor and builds its table, in a record and a table that are lent: the first refusal of the two. The record has the values that were read.
#[tactic(auto, using(crate::proofs::Openings::opens))]
fn read_and_build(d: &[u8], record: &mut Record, into: &mut Table) -> Verdict
    ensures verdict { result ≡ (open_of d.now).verdict }
    ensures version { «record».new.desc.version ≡ (open_of d.now).version }
    ensures built { OnOk result (into.new ≡ build_into (read_of d.now).descriptor into.old) }
    ensures made { OnOk result (into.old ≡ no_table → into.new ≡ (open_of d.now).table) }
{
    read::parse_descriptor_file(d, record)?;
    build::build(record, into)
}

// Opens a descriptor, in a table that is lent: its version, beside the first refusal of reading and building where there is one. A refusal leaves an
// empty table, and an empty table becomes the one that is built.
#[tactic(auto, using(crate::proofs::Openings::leaves))]
pub fn open(d: &[u8], into: &mut Table) -> Result<u32, Unopened>
    ensures version { result ≡ opened (open_of d.now) }
    ensures left { into.new ≡ open_into d.now into.old }
    ensures made { into.old ≡ no_table → into.new ≡ (open_of d.now).table }
{
    let mut record = empty::no_record();
    let verdict = read_and_build(d, &mut record, into);
    let version = record.desc.version;
    match verdict {
        Ok(()) => Ok(version),
        Err(refusal) => {
            *into = build::no_table();
            Err(Unopened { refusal, version })
        }
    }
}
