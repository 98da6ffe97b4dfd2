// Whether bytes are UTF-8, as RFC 3629 has it: no overlong form, no surrogate, nothing above U+10FFFF, no character cut off.
#![tactic(auto)]

ghost use Rattle.std.specs.Prelude.{◌≡◌, ◌++◌, Some, codes, decimal};
ghost use Rattle.codes.specs.declared.Refusal.TheVariants as Refusal;
ghost use Rattle.utf8.specs.Utf8.{checked_of, at_end};
ghost use Rattle.utf8.specs.Steps.{owing, owed_of, three_of, four_of, lead_of, after_of};

use codes::Refusal;
use std::error::Error;
use std::fmt;

// The bytes are not UTF-8: the index of the first that does not belong there (the length, where the last character is cut off).
#[derive(Clone, Copy, Debug, PartialEq, Eq)]
pub struct NotUtf8 {
    pub at: usize,
}

impl fmt::Display for NotUtf8 {
    ghost output = { λ e. Some (codes "not UTF-8 at byte " ++ decimal e.at) };

    // Says which byte it was.
    fn fmt<W: fmt::Write>(&self, f: &mut fmt::Formatter<W>) -> fmt::Result {
        write!(f, "not UTF-8 at byte {}", self.at)
    }
}

impl Error for NotUtf8 {}

impl From<NotUtf8> for Refusal {
    ghost from_gives = { λ _ r. r ≡ Refusal.NotUtf8 };

    // Refusal 18.
    fn from(_e: NotUtf8) -> Refusal {
        Refusal::NotUtf8
    }
}

// What the present character still owes: so many bytes, the next of them from low to high, those after it from 0x80 to 0xBF.
#[derive(Clone, Copy)]
struct Owed {
    count: u8,
    low: u8,
    high: u8,
}

// A byte that belongs there, and what is owed after it.
fn owes(count: u8, low: u8, high: u8) -> Option<Owed>
    ensures { result ≡ owing count (low, high) }
{
    Some(Owed { count, low, high })
}

// A byte from 0xE0 to 0xEF begins a character of three: no overlong form after 0xE0, no surrogate after 0xED.
#[tactic(auto, unfolding(crate::specs::Steps::three_of))]
fn three(b: u8) -> Option<Owed>
    ensures { result ≡ three_of b }
{
    match b {
        0xE0 => owes(2, 0xA0, 0xBF),
        0xED => owes(2, 0x80, 0x9F),
        _ => owes(2, 0x80, 0xBF),
    }
}

// A byte from 0xF0 to 0xF4 begins a character of four: no overlong form after 0xF0, nothing above U+10FFFF after 0xF4.
#[tactic(auto, unfolding(crate::specs::Steps::four_of))]
fn four(b: u8) -> Option<Owed>
    ensures { result ≡ four_of b }
{
    match b {
        0xF0 => owes(3, 0x90, 0xBF),
        0..=0xF3 => owes(3, 0x80, 0xBF),
        0xF4 => owes(3, 0x80, 0x8F),
        _ => None,
    }
}

// What a byte that is to begin a character leads to. 0xC0 and 0xC1 would only begin overlong forms.
#[tactic(auto, unfolding(crate::specs::Steps::lead_of))]
fn lead(b: u8) -> Option<Owed>
    ensures { result ≡ lead_of b }
{
    match b {
        0..=0x7F => owes(0, 0x80, 0xBF),
        0x80..=0xC1 => None,
        0xC2..=0xDF => owes(1, 0x80, 0xBF),
        0xE0..=0xEF => three(b),
        _ => four(b),
    }
}

// What the next byte leads to, where that much is owed; none, where it does not belong there.
#[tactic(auto, unfolding(crate::specs::Steps::after_of))]
fn after(owed: Owed, b: u8) -> Option<Owed>
    ensures { result ≡ after_of owed b }
{
    if owed.count == 0 {
        return lead(b);
    }
    if b < owed.low || owed.high < b {
        return None;
    }
    owes(owed.count - 1, 0x80, 0xBF)
}

// The answer where the bytes end at index at: a character that is still owed bytes is cut off.
#[tactic(auto, unfolding(crate::specs::Steps::ranges_of))]
fn end(owed: Owed, at: usize) -> Result<(), NotUtf8>
    ensures { result ≡ at_end (owed_of owed) at }
{
    if 0 < owed.count {
        return Err(NotUtf8 { at });
    }
    Ok(())
}

// Whether the bytes are UTF-8, and where not: one pass, a byte at a time.
pub fn check(s: &[u8]) -> Result<(), NotUtf8>
    ensures { result ≡ checked_of s.now }
{
    let mut owed = Owed {
        count: 0,
        low: 0x80,
        high: 0xBF,
    };
    let mut at: usize = 0;
    loop {
        if s.len() <= at {
            break end(owed, at);
        }
        let Some(next) = after(owed, s[at]) else {
            break Err(NotUtf8 { at });
        };
        owed = next;
        at += 1;
    }
}
