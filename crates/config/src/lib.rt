// The receiver's configuration: the local entity, its fault handlers and indications, and the table of remote entities.
#![tactic(auto)]

ghost use Rattle.std.specs.Prelude.{◌≡◌};
ghost use Rattle.config.specs.Config.{fits_width, is_handler, all_handlers, handler_of, default_handlers, entries_of, find_in, known_in, repeats_in, config_broken};

use finished::EntityId;
use numbers::Width;

// The most entries that a remote table has.
pub const TABLE_SIZE: usize = 8;

// What is known of a remote entity: its id, its check limit, and whether an incomplete file is discarded when a transfer is cancelled.
#[derive(Clone, Copy)]
pub struct RemoteEntityConfig {
    pub id: u64,
    pub limit: u32,
    pub discard: bool,
}

// The configuration. The handlers stand in the order of the conditions 1 to 8, 10, 11; the first `entries` entries of the table are in use.
#[derive(Clone, Copy)]
pub struct Config {
    pub local: EntityId,
    pub handlers: [u8; 10],
    pub segmentrecv: bool,
    pub eofrecv: bool,
    pub entries: usize,
    pub table: [RemoteEntityConfig; 8],
}

impl Config {
    // The entries in use.
    pub fn remotes(&self) -> &[RemoteEntityConfig]
        ensures { result.now ≡ entries_of self.now.table self.now.entries }
    {
        &self.table[..self.entries.min(TABLE_SIZE)]
    }
}

// Whether a value fits a width. Every u64 fits eight bytes.
#[tactic(auto, unfolding(crate::specs::Config::fits_width))]
pub fn fits_width(w: Width, v: u64) -> bool
    ensures { result ≡ fits_width w v }
{
    match w {
        Width::One => v < 0x100,
        Width::Two => v < 0x1_0000,
        Width::Four => v < 0x1_0000_0000,
        Width::Eight => true,
    }
}

// Whether a number is a handler's.
#[tactic(auto, unfolding(crate::specs::Config::is_handler))]
fn is_handler(h: u8) -> bool
    ensures { result ≡ is_handler h }
{
    matches!(
        h,
        codes::NOTICE_OF_CANCELLATION | codes::IGNORE_ERROR | codes::ABANDON_TRANSACTION
    )
}

// Whether each of the ten numbers is a handler's.
#[tactic(auto, unfolding(crate::specs::Config::all_handlers))]
pub fn handlers_ok(handlers: &[u8; 10]) -> bool
    ensures { result ≡ all_handlers handlers.now }
{
    handlers.iter().all(|h| is_handler(*h))
}

// The handler of a condition; ignore for a condition that has none.
#[tactic(auto, using(crate::proofs::Arrays::same_element), unfolding(crate::specs::Config::handler_of))]
pub fn handler(handlers: [u8; 10], condition: u8) -> u8
    ensures { result ≡ handler_of handlers condition }
{
    match condition {
        codes::NO_ERROR => codes::IGNORE_ERROR,
        ..=codes::INACTIVITY_DETECTED => handlers[condition as usize - 1],
        codes::CHECK_LIMIT_REACHED => handlers[8],
        codes::UNSUPPORTED_CHECKSUM_TYPE => handlers[9],
        _ => codes::IGNORE_ERROR,
    }
}

// The handlers of a fresh configuration: ignore for a checksum failure (5) and an unsupported checksum type (11), else cancel.
#[tactic(auto, unfolding(crate::specs::Config::default_handlers))]
pub fn default_handlers() -> [u8; 10]
    ensures { result ≡ default_handlers }
{
    let cancel = codes::NOTICE_OF_CANCELLATION;
    let ignore = codes::IGNORE_ERROR;
    [
        cancel, cancel, cancel, cancel, ignore, cancel, cancel, cancel, cancel, ignore,
    ]
}

// The entry with an id: the first that has it.
#[tactic(auto, unfolding(crate::specs::Config::find_in))]
pub fn find(remotes: &[RemoteEntityConfig], id: u64) -> Option<RemoteEntityConfig>
    ensures { result ≡ find_in remotes.now id }
{
    remotes.iter().copied().find(|e| e.id == id)
}

// Whether an entry has the id.
#[tactic(auto, unfolding(crate::specs::Config::known_in))]
pub fn is_known(remotes: &[RemoteEntityConfig], id: u64) -> bool
    ensures { result ≡ known_in remotes.now id }
{
    remotes.iter().any(|e| e.id == id)
}

// Whether an id stands twice.
#[tactic(auto, unfolding(crate::specs::Config::repeats_in))]
pub fn repeats(remotes: &[RemoteEntityConfig]) -> bool
    ensures { result ≡ repeats_in remotes.now }
{
    let mut left = remotes;
    while let Some((entry, rest)) = left.split_first() {
        if is_known(rest, entry.id) {
            return true;
        }
        left = rest;
    }
    false
}

// Whether refusal 21 meets a configuration.
#[tactic(auto, unfolding(crate::specs::Config::config_broken))]
pub fn broken(g: &Config) -> bool
    ensures { result ≡ config_broken g.now }
{
    !fits_width(g.local.width, g.local.value)
        || !handlers_ok(&g.handlers)
        || TABLE_SIZE < g.entries
        || repeats(g.remotes())
}
