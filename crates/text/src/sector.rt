// Sectors and bytes: two kinds of number on purpose, so that neither stands for the other, and the one way from the first to the second.
ghost use Rattle.std.specs.Prelude.{◌≡◌};
ghost use Rattle.text.specs.Sector.{sectors_in, bytes_upto, sectors_of, bytes_of};

use crate::number::number;

// A number of sectors. The number is the kind's own: no other crate reaches it but through a function that names what becomes of it.
#[derive(Clone, Copy)]
pub struct Sectors(u64);

// A number of bytes, likewise.
#[derive(Clone, Copy)]
pub struct Bytes(u64);

impl Sectors {
    // The bytes of one sector.
    const SIZE: u64 = 512;

    // So many sectors.
    pub fn new(n: u64) -> Sectors
        ensures { result ≡ sectors_in n }
    {
        Sectors(n)
    }

    // How many they are.
    pub fn number(self) -> u64
        ensures { result ≡ self.0 }
    {
        self.0
    }

    // The sector count that a text is, if it is a number.
    #[tactic(auto, unfolding(crate::specs::Sector::sectors_of))]
    pub fn of(t: &[u8]) -> Option<Sectors>
        ensures { result ≡ sectors_of t.now }
    {
        Some(Sectors(number(t, u64::MAX)?))
    }

    // The bytes that so many sectors have, if they are at most 2^64-1.
    #[tactic(auto, using(crate::proofs::Sectors::sectors))]
    pub fn bytes(self) -> Option<Bytes>
        ensures { result ≡ bytes_of self }
    {
        Some(Bytes(self.0.checked_mul(Sectors::SIZE)?))
    }
}

impl Bytes {
    // The bytes up to an offset.
    pub fn upto(offset: u64) -> Bytes
        ensures { result ≡ bytes_upto offset }
    {
        Bytes(offset)
    }

    // The offset after so many bytes.
    pub fn offset(self) -> u64
        ensures { result ≡ self.0 }
    {
        self.0
    }
}
