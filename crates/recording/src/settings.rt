// A recording's header.
ghost use Rattle.std.specs.Prelude.{◌≡◌};
ghost use Rattle.recording.specs.Settings.{byte_at, slot_at, table_of, handlers_of, config_of, whole_size, marked, discards_ok, framed, settings_of, header_whole};

use config::{Config, RemoteEntityConfig};
use finished::EntityId;
use numbers::Width;

// The bytes before the entries, and those of an entry.
const FIXED_SIZE: usize = 28;

const ENTRY_SIZE: usize = 13;

// What a header says: the configuration, the store's length, and how many bytes the header has.
#[derive(Clone, Copy)]
pub struct Settings {
    pub config: Config,
    pub store: usize,
    pub size: usize,
}

// The byte at an index, 0 past the end.
pub(crate) fn byte(s: &[u8], at: usize) -> u8
    ensures { result ≡ byte_at s.now at }
{
    s.get(at).copied().unwrap_or(0)
}

// The entry of a slot of the remote table: none where fewer are in use.
fn slot(s: &[u8], i: u8) -> RemoteEntityConfig
    ensures { result ≡ slot_at s.now i }
{
    let at = FIXED_SIZE + ENTRY_SIZE * i as usize;
    if i < byte(s, 27) {
        RemoteEntityConfig {
            id: numbers::read(s, at, Width::Eight),
            limit: numbers::read(s, at + 8, Width::Four) as u32,
            discard: byte(s, at + 12) == 1,
        }
    } else {
        RemoteEntityConfig {
            id: 0,
            limit: 0,
            discard: false,
        }
    }
}

// The remote table.
fn table(s: &[u8]) -> [RemoteEntityConfig; 8]
    ensures { result ≡ table_of s.now }
{
    std::array::from_fn(|i| slot(s, i as u8))
}

// The handlers, in order of condition.
fn handlers(s: &[u8]) -> [u8; 10]
    ensures { result ≡ handlers_of s.now }
{
    std::array::from_fn(|i| byte(s, 16 + i))
}

// The configuration.
#[tactic(auto, unfolding(crate::specs::Settings::config_of))]
fn config(s: &[u8]) -> Config
    ensures { result ≡ config_of s.now }
{
    let flags = byte(s, 26);
    Config {
        local: EntityId {
            width: numbers::to_width(byte(s, 5)),
            value: numbers::read(s, 6, Width::Eight),
        },
        handlers: handlers(s),
        segmentrecv: flags % 2 == 1,
        eofrecv: flags / 2 % 2 == 1,
        entries: byte(s, 27) as usize,
        table: table(s),
    }
}

// How many bytes the header has.
fn whole_size(s: &[u8]) -> usize
    ensures { result ≡ whole_size s.now }
{
    FIXED_SIZE + ENTRY_SIZE * byte(s, 27) as usize
}

// Whether as many bytes are at hand as the header has: more change nothing of it.
#[tactic(auto, unfolding(crate::specs::Settings::header_whole))]
pub fn is_whole(s: &[u8]) -> bool
    ensures { result ≡ header_whole s.now }
{
    FIXED_SIZE <= s.len() && whole_size(s) <= s.len()
}

// Whether the mark and the version are those of a recording.
fn has_mark(s: &[u8]) -> bool
    ensures { result ≡ marked s.now }
{
    byte(s, 0) == b'R'
        && byte(s, 1) == b'X'
        && byte(s, 2) == b'T'
        && numbers::read(s, 3, Width::Two) == 1
}

// Whether the discard of each of the first n entries is 0 or 1.
fn discards_ok(s: &[u8], n: u8) -> bool
    ensures { result ≡ discards_ok s.now n }
{
    (0..n).all(|i| byte(s, FIXED_SIZE + ENTRY_SIZE * i as usize + 12) <= 1)
}

// Whether the header is whole, with its mark, its version, its flags, its local width and its discards as they may be.
#[tactic(auto, unfolding(crate::specs::Settings::framed))]
fn is_framed(s: &[u8]) -> bool
    ensures { result ≡ framed s.now }
{
    FIXED_SIZE <= s.len()
        && has_mark(s)
        && byte(s, 26) <= 3
        && numbers::ok_width(byte(s, 5))
        && whole_size(s) <= s.len()
        && discards_ok(s, byte(s, 27))
}

// Reads a header; none where it is bad.
#[tactic(auto, unfolding(crate::specs::Settings::settings_of, crate::specs::Settings::settings_bad))]
pub fn read(s: &[u8]) -> Option<Settings>
    ensures { result ≡ settings_of s.now }
{
    let config = config(s);
    if !is_framed(s) || config::broken(&config) {
        return None;
    }
    Some(Settings {
        config,
        store: numbers::read(s, 14, Width::Two) as usize,
        size: whole_size(s),
    })
}
