// The keys that a descriptor's lines may have.
ghost use Rattle.std.specs.Prelude.{◌≡◌};
ghost use Rattle.keys.specs.Key.{key_of, geometry_key};

use text::find::{is, starts_with};

// A disk geometry value.
#[derive(Clone, Copy)]
pub enum Geometry {
    Sectors,
    Heads,
    Cylinders,
}

// The keys, each by what it says.
#[derive(Clone, Copy)]
pub enum Key {
    Version,
    Cid,
    ParentCid,
    CreateType,
    ParentFileNameHint,
    Geometry(Geometry),
    // Another item of the disk database
    Ddb,
}

// Which of the disk database's keys a text is, if it is one.
#[tactic(auto, unfolding(crate::specs::Key::geometry_key))]
fn geometry_key(k: &[u8]) -> Option<Key>
    ensures { result ≡ geometry_key k.now }
{
    if is(k, b"ddb.geometry.sectors") {
        Some(Key::Geometry(Geometry::Sectors))
    } else if is(k, b"ddb.geometry.heads") {
        Some(Key::Geometry(Geometry::Heads))
    } else if is(k, b"ddb.geometry.cylinders") {
        Some(Key::Geometry(Geometry::Cylinders))
    } else if starts_with(k, b"ddb.") {
        Some(Key::Ddb)
    } else {
        None
    }
}

// Which key a text is, if it is one. A `match` on the texts proves no plainer: its last arm is reached byte by byte, in some seventy ways.
#[tactic(auto, unfolding(crate::specs::Key::key_of))]
pub fn key_of(k: &[u8]) -> Option<Key>
    ensures { result ≡ key_of k.now }
{
    if is(k, b"version") {
        Some(Key::Version)
    } else if is(k, b"CID") {
        Some(Key::Cid)
    } else if is(k, b"parentCID") {
        Some(Key::ParentCid)
    } else if is(k, b"createType") {
        Some(Key::CreateType)
    } else if is(k, b"parentFileNameHint") {
        Some(Key::ParentFileNameHint)
    } else {
        geometry_key(k)
    }
}
