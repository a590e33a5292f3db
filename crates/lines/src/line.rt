// What one line of a descriptor says.
ghost use Rattle.std.specs.Prelude.{◌≡◌, ◌+◌, ◌≤◌, length};
ghost use Rattle.lines.specs.Kept.{kept_of, unquoted_of};
ghost use Rattle.lines.specs.Line.{version_of, geometry_of, measure_of, geometry_line, value_of, key_line, access_word, access_line, text_line, line_of, said_at};

use crate::extent::{no_access_from_descriptor_line, try_from_descriptor_line};
use crate::placed::Placed;
use crate::record::{Fault, MOST_BYTES, Text, VmdkAccessType, VmdkParsedExtent};
use keys::key::{Geometry, Key, key_of};
use text::find::{find_byte, is, strip_quotes};
use text::number::number;
use text::words::{inner, run_end, trim};

// A value that a line gives to the descriptor.
#[derive(Clone, Copy)]
pub enum Setting {
    Version(u32),
    Cid(Text),
    ParentCid(Text),
    CreateType(Text),
    Sectors(u64),
    Heads(u64),
    Cylinders(u64),
}

// What a line says, if it is not refused: nothing, an extent, or a value.
#[derive(Clone, Copy)]
pub enum Said {
    Nothing,
    Extent(VmdkParsedExtent),
    Set(Setting),
}

// The first word of a line, where it is one of the three that an extent line begins with.
#[derive(Clone, Copy)]
pub enum AccessWord {
    NoAccess,
    RdOnly,
    RW,
}

// What is kept of a text: what trimming leaves.
#[tactic(auto, using(crate::proofs::Kepts::ranges), unfolding(crate::specs::Kept::kept_of, crate::specs::Kept::kept_at))]
pub(crate) fn keep(t: Placed) -> Text
    ensures { result ≡ kept_of t.entry.place t.entry.bytes.now }
{
    match trim(t.bytes) {
        Some((a, e)) => t.kept(a, e),
        None => Text::NONE,
    }
}

// What is kept of a text whose quotes are stripped.
#[tactic(auto, using(crate::proofs::Kepts::ranges, crate::proofs::Kepts::stripped), unfolding(crate::specs::Kept::unquoted_of, crate::specs::Kept::kept_at))]
fn keep_unquoted(t: Placed) -> Text
    ensures { result ≡ unquoted_of t.entry.place t.entry.bytes.now }
{
    match trim(t.bytes) {
        Some((a, e)) => {
            let inner = t.part(a, e);
            let (from, to) = strip_quotes(inner.bytes);
            inner.kept(from, to)
        }
        None => Text::NONE,
    }
}

// The version: a number, quotes not stripped. (`as`: it is at most 2^32-1, so that `u32::try_from` would bring a refusal that no number has.)
#[tactic(auto, using(crate::proofs::Lines::version_fits), unfolding(crate::specs::Line::version_of))]
fn version(v: &[u8]) -> Result<Said, Fault>
    ensures { result ≡ version_of v.now }
{
    let x = number(inner(v), u64::from(u32::MAX)).ok_or(Fault::VersionNumber)?;
    Ok(Said::Set(Setting::Version(x as u32)))
}

// A geometry value: quotes stripped, then a number with no second trim.
#[tactic(auto, using(crate::proofs::Kepts::stripped), unfolding(crate::specs::Line::geometry_of))]
fn parse_desc_value(v: &[u8]) -> Option<u64>
    ensures { result ≡ geometry_of v.now }
{
    let t = inner(v);
    let (from, to) = strip_quotes(t);
    number(&t[from..to], u64::MAX)
}

// A geometry value as a setting.
fn measure(g: Geometry, x: u64) -> Setting
    ensures { result ≡ measure_of g x }
{
    match g {
        Geometry::Sectors => Setting::Sectors(x),
        Geometry::Heads => Setting::Heads(x),
        Geometry::Cylinders => Setting::Cylinders(x),
    }
}

// A line with a geometry value.
#[tactic(auto, unfolding(crate::specs::Line::geometry_line))]
fn geometry(g: Geometry, v: &[u8]) -> Result<Said, Fault>
    ensures { result ≡ geometry_line g v.now }
{
    let x = parse_desc_value(v).ok_or(Fault::GeometryNumber)?;
    Ok(Said::Set(measure(g, x)))
}

// What a key with a value says; the value lies at a place of the descriptor.
#[tactic(auto, unfolding(crate::specs::Line::value_of))]
fn value(k: Key, v: Placed) -> Result<Said, Fault>
    ensures { result ≡ value_of (Some k) v.entry.place v.entry.bytes.now }
{
    match k {
        Key::Version => version(v.bytes),
        Key::Cid => Ok(Said::Set(Setting::Cid(keep(v)))),
        Key::ParentCid => Ok(Said::Set(Setting::ParentCid(keep(v)))),
        Key::CreateType => Ok(Said::Set(Setting::CreateType(keep_unquoted(v)))),
        Key::ParentFileNameHint => Err(Fault::ParentHint),
        Key::Geometry(g) => geometry(g, v.bytes),
        Key::Ddb => Ok(Said::Nothing),
    }
}

// A line that is no extent line: a key and a value, cut at the first `=`. Without one it is ignored.
#[tactic(auto, using(crate::proofs::Founds::founds), unfolding(crate::specs::Line::key_line, crate::specs::Line::value_of))]
fn key_line(t: Placed) -> Result<Said, Fault>
    ensures { result ≡ key_line t.entry.place t.entry.bytes.now }
{
    match find_byte(t.bytes, 0, b'=') {
        Some(i) => {
            let k = key_of(inner(&t.bytes[..i])).ok_or(Fault::OtherKey)?;
            value(k, t.part(i + 1, t.bytes.len()))
        }
        None => Ok(Said::Nothing),
    }
}

// Which access a word is, if it is one.
#[tactic(auto, unfolding(crate::specs::Line::access_word))]
fn access_word(w: &[u8]) -> Option<AccessWord>
    ensures { result ≡ access_word w.now }
{
    if is(w, b"RW") {
        return Some(AccessWord::RW);
    }
    if is(w, b"RDONLY") {
        return Some(AccessWord::RdOnly);
    }
    if is(w, b"NOACCESS") {
        return Some(AccessWord::NoAccess);
    }
    None
}

// A line whose first word, an access, ends at a place of it.
#[tactic(auto, unfolding(crate::specs::Line::access_line))]
fn access_line(w: AccessWord, t: Placed, end: usize) -> Result<Said, Fault>
    ensures { result ≡ access_line (Some w) t.entry.place t.entry.bytes.now end }
{
    match w {
        AccessWord::NoAccess => no_access_from_descriptor_line(t.bytes, end),
        AccessWord::RdOnly => try_from_descriptor_line(VmdkAccessType::RdOnly, t, end),
        AccessWord::RW => try_from_descriptor_line(VmdkAccessType::RW, t, end),
    }
}

// What a trimmed line says.
#[tactic(auto, using(crate::proofs::Lines::run_take), unfolding(crate::specs::Line::text_line, crate::specs::Line::access_line))]
fn text_line(t: Placed) -> Result<Said, Fault>
    ensures { result ≡ text_line t.entry.place t.entry.bytes.now }
{
    if t.bytes.len() == 0 {
        return Ok(Said::Nothing);
    }
    if t.bytes[0] == b'#' {
        return Ok(Said::Nothing);
    }
    let end = run_end(t.bytes, 0, false);
    if t.bytes.len() <= end {
        return key_line(t);
    }
    match access_word(&t.bytes[..end]) {
        Some(w) => access_line(w, t, end),
        None => key_line(t),
    }
}

// What a line says.
#[tactic(auto, using(crate::proofs::Kepts::ranges, crate::proofs::Lines::line_empty), unfolding(crate::specs::Line::line_of))]
fn line_within(l: Placed) -> Result<Said, Fault>
    ensures { result ≡ line_of l.entry.place l.entry.bytes.now }
{
    if l.bytes.len() == 0 {
        return Ok(Said::Nothing);
    }
    let (a, e) = trim(l.bytes).ok_or(Fault::NotUtf8)?;
    text_line(l.part(a, e))
}

// Parse a line in the VMDK descriptor file, which lies at a place of it. One that ends past the most bytes of a descriptor is refused. (By `checked_add` and a `match` on the end, empty lines take 6 % more instructions.)
#[tactic(auto, unfolding(crate::specs::Line::said_at))]
pub fn parse_descriptor_line(l: &[u8], place: usize) -> Result<Said, Fault>
    ensures { result ≡ said_at place l.now }
{
    if MOST_BYTES < l.len() || MOST_BYTES - l.len() < place {
        return Err(Fault::TooLong);
    }
    line_within(Placed { bytes: l, place })
}
