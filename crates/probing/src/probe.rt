// Probing: whether some bytes may be a descriptor.
ghost use Rattle.std.specs.Prelude.{◌≡◌, ◌≤◌, ◌<◌, length};
ghost use Rattle.lines.specs.Record.{most_bytes};
ghost use Rattle.probing.specs.Probe.{verdict_of, probe_key, probe_line, probe_of};
ghost use Rattle.probing.specs.inside.Places.{probe_at};

use lines::record::MOST_BYTES;
use text::find::{find_byte, is, line_end, starts_with};
use text::number::number;
use text::words::{inner, trim};

// Whether a number is a supported version.
fn supported(n: Option<u64>) -> bool
    ensures { result ≡ verdict_of n }
{
    matches!(n, Some(1..=3))
}

// What probing answers to a line with its first `=` at i, if the line's key is `version`.
#[tactic(auto, using(crate::proofs::Probing::key_take, text::proofs::Parts::part_rest), unfolding(crate::specs::Probe::probe_key))]
fn probe_key(l: &[u8], i: usize) -> Option<bool>
    requires { i < length l.now }
    ensures { result ≡ probe_key l.now (Some i) }
{
    let key = inner(&l[..i]);
    if is(key, b"version") {
        let value = inner(&l[i + 1..]);
        return Some(supported(number(value, u64::from(u32::MAX))));
    }
    None
}

// What probing answers to a line, or nothing where it passes the line over.
#[tactic(auto, using(crate::proofs::Probing::found_below, crate::proofs::Probing::probe_empty), unfolding(crate::specs::Probe::probe_line, crate::specs::Probe::probe_key))]
fn probe_line(l: &[u8]) -> Option<bool>
    ensures { result ≡ probe_line l.now }
{
    if l.len() == 0 {
        return None;
    }
    if trim(l).is_none() {
        return Some(false);
    }
    let i = find_byte(l, 0, b'=')?;
    probe_key(l, i)
}

// The lines one after the other: the first that answers. A line is as long as it is, so the loop goes by the place. (By `split` and `find_map` the proof did not close.)
#[tactic(auto, using(crate::proofs::Probing::probing))]
fn probe_lines(d: &[u8]) -> bool
    requires { length d.now ≤ most_bytes }
    ensures { result ≡ probe_at d.now 0 }
{
    let mut at = 0;
    loop {
        let e = line_end(d, at);
        if let Some(answer) = probe_line(&d[at..e]) {
            return answer;
        }
        if d.len() <= e {
            return false;
        }
        at = e + 1;
    }
}

// Check that the potential descriptor file has a reasonable length, is utf8, and contains a supported `version` key. (Or has the sparse bytes.)
#[tactic(auto, using(crate::proofs::Probing::probe_start), unfolding(crate::specs::Probe::probe_of))]
pub fn probe(d: &[u8]) -> bool
    ensures { result ≡ probe_of d.now }
{
    if d.len() < 4 {
        return false;
    }
    if MOST_BYTES < d.len() {
        return false;
    }
    if starts_with(d, b"KDMV") {
        return true;
    }
    probe_lines(d)
}
