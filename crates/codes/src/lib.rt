// The codes of CCSDS 727.0-B-5 that the receiver goes by, under the names of the Rust's ConditionCode, FaultHandlerCode and ChecksumType, and document 01's refusals.
#![tactic(auto)]

ghost use Rattle.std.specs.Prelude.{◌≡◌, Some};
ghost use Rattle.codes.specs.Refusals.{number, sentence, refusal_of};

use std::error::Error;
use std::fmt;

// Why a call is refused: a name for each number of document 01's table, in its order.
#[derive(Clone, Copy, Debug, PartialEq, Eq)]
pub enum Refusal {
    StoreUnfit = 1,
    OutTooShort,
    NotWhole,
    OtherVersion,
    OtherWidth,
    WithCrc,
    UnknownDirective,
    ForSender,
    ForAnotherEntity,
    NotSupported,
    Busy,
    WrongStep,
    AnotherTransfer,
    Malformed,
    UnknownSource,
    NoSourceName,
    NoDestName,
    NotUtf8,
    DoesNotFit,
    ProgressAtEnd,
    Broken,
}

impl Refusal {
    // Its number in the table.
    pub fn number(self) -> u8
        ensures { result ≡ number self }
    {
        self as u8
    }

    // What it means, in a sentence.
    pub fn sentence(self) -> &'static str
        ensures { result.now ≡ sentence self }
    {
        match self {
            Refusal::StoreUnfit => "the store is longer than its limit, or shorter than the file",
            Refusal::OutTooShort => "the out buffer is too short",
            Refusal::NotWhole => "the PDU is not whole",
            Refusal::OtherVersion => "the version is not 1",
            Refusal::OtherWidth => "a width is not 1, 2, 4 or 8",
            Refusal::WithCrc => "a CRC is not supported",
            Refusal::UnknownDirective => "the directive is not known",
            Refusal::ForSender => "the PDU is for a sender",
            Refusal::ForAnotherEntity => "the PDU is for another entity",
            Refusal::NotSupported => "what it asks for is not supported",
            Refusal::Busy => "a transfer runs already",
            Refusal::WrongStep => "the transfer is not in a step that takes it",
            Refusal::AnotherTransfer => "the PDU is another transfer's",
            Refusal::Malformed => "the PDU's body is malformed",
            Refusal::UnknownSource => "the source is not a known remote entity",
            Refusal::NoSourceName => "the source name is empty",
            Refusal::NoDestName => "the destination name is empty",
            Refusal::NotUtf8 => "a name is not UTF-8",
            Refusal::DoesNotFit => "the segment does not fit the store",
            Refusal::ProgressAtEnd => "progress would pass its limit",
            Refusal::Broken => "the configuration or the state is broken",
        }
    }
}

// The number of an answer: 0, or the refusal's.
pub fn answer_number<T: Copy>(answer: Result<T, Refusal>) -> u8
    ensures { result ≡ refusal_of answer }
{
    match answer {
        Ok(_) => 0,
        Err(refusal) => refusal.number(),
    }
}

impl fmt::Display for Refusal {
    ghost output = { λ r. Some (sentence r) };

    fn fmt<W: fmt::Write>(&self, f: &mut fmt::Formatter<W>) -> fmt::Result {
        f.write_str(self.sentence())
    }
}

impl Error for Refusal {}

// Conditions: no error.
pub const NO_ERROR: u8 = 0;

// Those with a handler are 1 to 8, 10 and 11: the last of the row of eight.
pub const INACTIVITY_DETECTED: u8 = 8;

// And those that a transfer meets.
pub const FILESTORE_REJECTION: u8 = 4;

pub const FILE_CHECKSUM_FAILURE: u8 = 5;

pub const FILE_SIZE_ERROR: u8 = 6;

pub const CHECK_LIMIT_REACHED: u8 = 10;

pub const UNSUPPORTED_CHECKSUM_TYPE: u8 = 11;

// What a fault's handler does: cancel the transfer, ignore the fault, or abandon the transfer.
pub const NOTICE_OF_CANCELLATION: u8 = 1;

pub const IGNORE_ERROR: u8 = 3;

pub const ABANDON_TRANSACTION: u8 = 4;

// The checksum types that are supported: the modular sum, and none.
pub const MODULAR: u8 = 0;

pub const NULL_CHECKSUM: u8 = 15;

// The largest condition and the largest checksum type: each takes four bits.
pub const LAST_CODE: u8 = 15;
