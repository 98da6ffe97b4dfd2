// The receiver's state, and what is looked at before a PDU is: refusals 21, 1 and 2.
#![tactic(auto)]

ghost use Rattle.std.specs.Prelude.{◌≡◌};
ghost use Rattle.transfer.specs.Transfer.{id_of};
ghost use Rattle.state.specs.State.{no_name, name_of, fresh_read, busy, settled, begun};
ghost use Rattle.codes.specs.Refusals.{answered, refusal_of};
ghost use Rattle.state.specs.Unfit.{conf_fits, record_fits, name_fits, names_fit, count_fits, count_broken, state_broken, store_unfit, unfit_refusal};

use codes::Refusal;
use config::{Config, RemoteEntityConfig};
use header::CommonPduConfig;
use transfer::{TransactionId, TransactionStep, TransferState};

// The most bytes that a name has.
pub const NAME_SIZE: usize = 255;

// A name, in fixed bytes: the first `len` are in use.
#[derive(Clone, Copy)]
pub struct Name {
    pub bytes: [u8; 255],
    pub len: usize,
}

// The state of a receiver: `last` is the id of the transfer that runs or ran last, none before the first one.
#[derive(Clone, Copy)]
pub struct State {
    pub config: Config,
    pub transfer: TransferState,
    pub last: Option<TransactionId>,
    pub source: Name,
    pub dest: Name,
}

// No name.
#[tactic(auto, unfolding(crate::specs::State::no_name))]
pub fn no_name() -> Name
    ensures { result ≡ no_name }
{
    Name {
        bytes: [0; 255],
        len: 0,
    }
}

// A name from its bytes; the first 255 of a longer slice.
pub fn name_of(s: &[u8]) -> Name
    ensures { result ≡ name_of s.now }
{
    let mut bytes = [0u8; 255];
    let len = NAME_SIZE.min(s.len());
    bytes[..len].copy_from_slice(&s[..len]);
    Name { bytes, len }
}

// A fresh state from a configuration, unless that is broken (21).
pub fn fresh(config: Config) -> Result<State, Refusal>
    ensures { answered result ≡ fresh_read config }
{
    if config::broken(&config) {
        Err(Refusal::Broken)
    } else {
        Ok(State {
            config,
            transfer: transfer::idle_after(0),
            last: None,
            source: no_name(),
            dest: no_name(),
        })
    }
}

// Whether a transfer runs.
#[tactic(auto, using(transfer::proofs::Steps::same_idle))]
pub fn is_busy(s: &State) -> bool
    ensures { result ≡ busy s.now }
{
    s.transfer.step != TransactionStep::Idle
}

// The state with its transfer in another condition, where it stands; where that is over, its names are gone.
#[tactic(auto, using(transfer::proofs::Steps::same_idle), unfolding(crate::specs::State::settled))]
pub fn settle_in(s: &mut State, t: TransferState)
    ensures { s.new ≡ settled s.old t }
{
    s.transfer = t;
    if t.step == TransactionStep::Idle {
        s.source = no_name();
        s.dest = no_name();
    }
}

// The same of a state that is handed in and back.
pub fn settle(s: State, t: TransferState) -> State
    ensures { result ≡ settled s t }
{
    let mut next = s;
    settle_in(&mut next, t);
    next
}

// The state with a transfer that starts, and its names.
#[tactic(auto, unfolding(crate::specs::State::begun))]
pub fn begin(s: State, t: TransferState, source: &[u8], dest: &[u8]) -> State
    ensures { result ≡ begun s t (id_of t) source.now dest.now }
{
    State {
        config: s.config,
        transfer: t,
        last: Some(transfer::id(t)),
        source: name_of(source),
        dest: name_of(dest),
    }
}

// Whether the ids and the sequence number of a header fit their widths.
#[tactic(auto, unfolding(crate::specs::Unfit::conf_fits))]
fn conf_fits(c: &CommonPduConfig) -> bool
    ensures { result ≡ conf_fits c.now }
{
    config::fits_width(c.idwidth, c.source)
        && config::fits_width(c.seqwidth, c.seqnum)
        && config::fits_width(c.idwidth, c.dest)
}

// Whether each value of a transfer's record fits its width.
#[tactic(auto, unfolding(crate::specs::Unfit::record_fits))]
fn record_fits(t: &TransferState) -> bool
    ensures { result ≡ record_fits t.now }
{
    conf_fits(&t.conf)
        && t.checksumtype <= codes::LAST_CODE
        && t.finish.condition <= codes::LAST_CODE
}

// Whether a length is that of a name.
fn name_fits(len: usize) -> bool
    ensures { result ≡ name_fits len }
{
    (1..=NAME_SIZE).contains(&len)
}

// Whether the names are those of a busy state, or of an idle one.
#[tactic(auto, unfolding(crate::specs::Unfit::names_fit))]
fn names_fit(running: bool, source: usize, dest: usize) -> bool
    ensures { result ≡ names_fit running source dest }
{
    if running {
        name_fits(source) && name_fits(dest)
    } else {
        source == 0 && dest == 0
    }
}

// Whether the source has an entry whose limit the count is below; a count of 0 is below any.
#[tactic(auto, unfolding(crate::specs::Unfit::count_fits))]
fn count_fits(remotes: &[RemoteEntityConfig], source: u64, count: u32) -> bool
    ensures { result ≡ count_fits remotes.now source count }
{
    config::find(remotes, source).is_some_and(|entry| count < entry.limit.max(1))
}

// Whether a busy state has no entry for its source, or a count not below the limit.
#[tactic(auto, unfolding(crate::specs::Unfit::count_broken))]
fn count_broken(s: &State) -> bool
    ensures { result ≡ count_broken s.now }
{
    is_busy(s)
        && !count_fits(
            s.config.remotes(),
            s.transfer.conf.source,
            s.transfer.check.count,
        )
}

// Refusal 21: whether the state breaks a size or holds what no transfer leaves.
#[tactic(auto, unfolding(crate::specs::Unfit::state_broken))]
pub fn broken(s: &State) -> bool
    ensures { result ≡ state_broken s.now }
{
    config::broken(&s.config)
        || filestore::STORE_LIMIT < s.transfer.file.length
        || !record_fits(&s.transfer)
        || !names_fit(is_busy(s), s.source.len, s.dest.len)
        || count_broken(s)
}

// Refusal 1: whether the store is above its limit, or in a busy state shorter than the file.
#[tactic(auto, unfolding(crate::specs::Unfit::store_unfit))]
fn store_unfit(s: &State, size: usize) -> bool
    ensures { result ≡ store_unfit s.now size }
{
    filestore::STORE_LIMIT < size || is_busy(s) && size < s.transfer.file.length
}

// Whether a call is refused before its PDU is looked at: 21, 1 or 2.
pub fn unfit(s: &State, size: usize, out: usize) -> Result<(), Refusal>
    ensures { refusal_of result ≡ unfit_refusal s.now size out }
{
    if broken(s) {
        return Err(Refusal::Broken);
    }
    if store_unfit(s, size) {
        return Err(Refusal::StoreUnfit);
    }
    if out < finished::OUT_SIZE {
        return Err(Refusal::OutTooShort);
    }
    Ok(())
}
