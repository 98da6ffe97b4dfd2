// The options of a Metadata body.
#![tactic(auto)]

ghost use Rattle.std.specs.Prelude.{◌≡◌};
ghost use Rattle.codes.specs.declared.Refusal.TheVariants.{Malformed};
ghost use Rattle.options.specs.Options.{tlv_at, options_of};

use codes::Refusal;

// A whole option: its type, and the place behind it.
#[derive(Clone, Copy, Debug, PartialEq, Eq)]
pub struct Tlv {
    pub kind: u8,
    pub next: usize,
}

// The place of an option that is not whole.
#[derive(Clone, Copy, Debug, PartialEq, Eq)]
pub struct BadOption {
    pub at: usize,
}

impl From<BadOption> for Refusal {
    ghost from_gives = { λ _ r. r ≡ Malformed };

    // Document 01's refusal of a body whose options are not whole.
    fn from(_bad: BadOption) -> Refusal {
        Refusal::Malformed
    }
}

// The options, walked to their end: where they end, and whether a Message to User is among them.
#[derive(Clone, Copy, Debug, PartialEq, Eq)]
pub struct Options {
    pub end: usize,
    pub message: bool,
}

// One step: what stands at a place of the data field, a whole option or the end (none).
pub fn tlv_at(field: &[u8], at: usize) -> Result<Option<Tlv>, BadOption>
    ensures { result ≡ tlv_at field.now at }
{
    let end = field.len();
    if end < at {
        return Err(BadOption { at });
    }
    let left = end - at;
    if left == 0 {
        return Ok(None);
    }
    if left < 2 {
        return Err(BadOption { at });
    }
    let next = at + 2 + field[at + 1] as usize;
    if end < next {
        return Err(BadOption { at });
    }
    let kind = field[at];
    Ok(Some(Tlv { kind, next }))
}

// A reader of the options: the data field, borrowed, and the reader's place in it.
#[derive(Clone, Copy)]
pub struct OptionReader<'a> {
    pub field: &'a [u8],
    pub at: usize,
}

// A reader at a place of the data field.
pub fn reader_at<'a>(field: &'a [u8], at: usize) -> OptionReader<'a>
    ensures { (result.field ≡ field.entry) × (result.at ≡ at) }
{
    OptionReader { field, at }
}

// What stands at the reader's place.
pub fn next_option<'a>(r: OptionReader<'a>) -> Result<Option<Tlv>, BadOption>
    ensures { result ≡ tlv_at r.entry.field.now r.entry.at }
{
    tlv_at(r.field, r.at)
}

// What a reader at a place of the data field finds there.
pub fn option_at(field: &[u8], at: usize) -> Result<Option<Tlv>, BadOption>
    ensures found { result ≡ tlv_at field.now at }
{
    next_option(reader_at(field, at))
}

// Walks the options from a place of the data field to its end, and stops at the first that is not whole.
pub fn read(field: &[u8], at: usize) -> Result<Options, BadOption>
    ensures { result ≡ options_of field.now at }
{
    let mut place = at;
    let mut message = false;
    let found = loop {
        let step = match option_at(field, place) {
            Ok(step) => step,
            Err(bad) => break Err(bad),
        };
        let Some(tlv) = step else {
            break Ok(Options {
                end: place,
                message,
            });
        };
        message = message || tlv.kind == 2;
        place = tlv.next;
    };
    found
}
