// Numbers of 1, 2, 4 and 8 bytes, most significant byte first: reading and writing, once for every width.
#![tactic(auto)]

ghost use Rattle.std.specs.Prelude.{◌≡◌, ◌<◌, ◌≤◌, ◌^◌, ◌++◌, Some, codes, decimal};
ghost use Rattle.laws.specs.Parts.{written};
ghost use Rattle.numbers.specs.Numbers.{bytes_of, ok_width, width_of, width_read, number_at, big_endian};

use std::error::Error;
use std::fmt;

// How wide a number is. Widths of 3, 5, 6 and 7 bytes have no value here, so none reaches a reader.
#[derive(Clone, Copy, Debug, PartialEq, Eq)]
pub enum Width {
    One,
    Two,
    Four,
    Eight,
}

// A count of bytes of which there is no width.
#[derive(Clone, Copy, Debug, PartialEq, Eq)]
pub struct NoWidth(pub u8);

impl Width {
    // The number of bytes of a width.
    pub fn bytes(self) -> usize
        ensures value { result ≡ bytes_of self }
        ensures small { result ≤ 8 }
    {
        match self {
            Width::One => 1,
            Width::Two => 2,
            Width::Four => 4,
            Width::Eight => 8,
        }
    }
}

impl TryFrom<u8> for Width {
    type Error = NoWidth;

    ghost try_from_gives = { λ n r. r ≡ width_read n };

    // The width of n bytes, where there is one.
    #[tactic(auto, unfolding(crate::specs::Numbers::width_read, crate::specs::Numbers::ok_width, crate::specs::Numbers::width_of))]
    fn try_from(n: u8) -> Result<Self, NoWidth> {
        match n {
            1 => Ok(Width::One),
            2 => Ok(Width::Two),
            4 => Ok(Width::Four),
            8 => Ok(Width::Eight),
            _ => Err(NoWidth(n)),
        }
    }
}

impl fmt::Display for NoWidth {
    ghost output = { λ n. Some (codes "no number is " ++ (decimal n.0 ++ codes " bytes wide")) };

    // Says how many bytes there were.
    fn fmt<W: fmt::Write>(&self, f: &mut fmt::Formatter<W>) -> fmt::Result {
        write!(f, "no number is {} bytes wide", self.0)
    }
}

impl Error for NoWidth {}

// Whether there is a width of n bytes.
#[tactic(auto, using(crate::proofs::Laws::width_ok))]
pub fn ok_width(n: u8) -> bool
    ensures { result ≡ ok_width n }
{
    Width::try_from(n).is_ok()
}

// The width of n bytes; Eight where there is none.
#[tactic(auto, using(crate::proofs::Laws::width_or))]
pub fn to_width(n: u8) -> Width
    ensures { result ≡ width_of n }
{
    Width::try_from(n).unwrap_or(Width::Eight)
}

// The number at index at of s. Bytes past the end of s are not read: the number is then that of the bytes before.
pub fn read(s: &[u8], at: usize, w: Width) -> u64
    ensures value { result ≡ number_at s.now at (bytes_of w) }
    ensures below { result < 256 ^ bytes_of w }
{
    let start = at.min(s.len());
    let end = at.saturating_add(w.bytes()).min(s.len());
    let part = &s[start..end];
    let mut value: u64 = 0;
    for &b in part {
        value = value * 256 + u64::from(b);
    }
    value
}

// Writes the number's low bytes to index at of out, where they fit; else out stays as it is.
pub fn write(out: &mut [u8], at: usize, w: Width, value: u64)
    ensures { out.new ≡ written out.old at (big_endian (bytes_of w) value) }
{
    let n = w.bytes();
    if at <= out.len() && n <= out.len() - at {
        out[at..at + n].copy_from_slice(&value.to_be_bytes()[8 - n..]);
    }
}
