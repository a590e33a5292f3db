// A text of the descriptor, with its place there.
ghost use Rattle.std.specs.Prelude.{◌≡◌, ◌+◌, ◌-◌, ◌≤◌, length, take, drop};
ghost use Rattle.lines.specs.Kept.{kept_at};
ghost use Rattle.lines.specs.Record.{most_bytes};

use crate::record::Text;

// A text of the descriptor, and where it lies there: within the most bytes of a descriptor.
#[derive(Clone, Copy)]
pub(crate) struct Placed<'a> {
    pub bytes: &'a [u8],
    pub place: usize,
    ghost within: { place + length bytes.now ≤ most_bytes },
}

impl<'a> Placed<'a> {
    // The part of it from a up to e.
    pub(crate) fn part(self, a: usize, e: usize) -> Placed<'a>
        requires { (a ≤ e) × (e ≤ length self.bytes.now) }
        ensures { (result.place ≡ self.entry.place + a) × (result.bytes.now ≡ take (e - a) (drop a self.entry.bytes.now)) }
    {
        Placed {
            bytes: &self.bytes[a..e],
            place: self.place + a,
        }
    }

    // What is kept of the part of it from a up to e.
    #[tactic(auto, unfolding(crate::specs::Kept::kept_at))]
    pub(crate) fn kept(self, a: usize, e: usize) -> Text
        requires { (a ≤ e) × (e ≤ length self.bytes.now) }
        ensures { result ≡ kept_at self.entry.place a e }
    {
        if a == e {
            return Text::NONE;
        }
        Text {
            place: self.place + a,
            length: e - a,
        }
    }
}
