// The destination handler: one call with a PDU (`insert`) or without one (`poll`). The state goes in by value and comes back.
#![tactic(auto)]

ghost use Rattle.std.specs.Prelude.{◌≡◌, None};
ghost use Rattle.inserting.specs.Metadata.{body_of};
ghost use Rattle.codes.specs.Refusals.{unless, answered, refusal_of};
ghost use Rattle.packet_info.specs.Routing.{info_of};
ghost use Rattle.inserting.specs.Insert.{inserted_seen};
ghost use Rattle.inserting.specs.FileData.{taken_seen};
ghost use Rattle.dest.specs.Metadata.{metadata_refusal};
ghost use Rattle.dest.specs.Call.{Input, outcome, called_seen, notes, no_notes, called, faults_of, remote_of, busy_call, after_insert, entry_refusal, eof_call, start_called, started_call, call_of};
ghost use Rattle.dest.specs.FileData.{rested, data_call};

use bodies::metadata::MetadataPdu;
use codes::Refusal;
use config::Config;
use header::{CommonPduConfig, PduHeader};
use inserting::{Inserted, Taken};
use packet_info::{PacketInfo, Target};
use state::State;
use steps::{Faults, Remote};
use transfer::{FileState, Indication, TransactionStep, TransferState};

// The indications of a call, in order; a place that is not used holds none.
#[derive(Clone, Copy)]
pub struct Indications {
    pub first: Option<Indication>,
    pub second: Option<Indication>,
    pub third: Option<Indication>,
    pub fourth: Option<Indication>,
    pub fifth: Option<Indication>,
}

// What a call answers: whether it was accepted or why it was refused, the new state, how many bytes of a PDU were put at the start of out (0: none sent), and the
// indications.
#[derive(Clone, Copy)]
pub struct Called {
    pub answer: Result<(), Refusal>,
    pub state: State,
    pub sent: usize,
    pub notes: Indications,
}

// No indication.
pub fn no_notes() -> Indications
    ensures { result ≡ no_notes }
{
    only(None)
}

// A call that changes nothing.
fn unchanged(s: State, answer: Result<(), Refusal>) -> Called
    ensures { called_seen result ≡ called (refusal_of answer) s 0 no_notes }
{
    Called {
        answer,
        state: s,
        sent: 0,
        notes: no_notes(),
    }
}

// One indication.
fn only(note: Option<Indication>) -> Indications
    ensures { result ≡ notes note None None None None }
{
    Indications {
        first: note,
        second: None,
        third: None,
        fourth: None,
        fifth: None,
    }
}

// The handlers of the faults that a transfer can meet.
fn faults(handlers: [u8; 10]) -> Faults
    ensures { result ≡ faults_of handlers }
{
    Faults {
        filestore: config::handler(handlers, codes::FILESTORE_REJECTION),
        checksum: config::handler(handlers, codes::FILE_CHECKSUM_FAILURE),
        filesize: config::handler(handlers, codes::FILE_SIZE_ERROR),
        checklimit: config::handler(handlers, codes::CHECK_LIMIT_REACHED),
        unsupported: config::handler(handlers, codes::UNSUPPORTED_CHECKSUM_TYPE),
    }
}

// The remote entity of a transfer, and the local one.
#[tactic(auto, unfolding(crate::specs::Call::remote_of))]
fn remote(config: Config, source: u64) -> Remote
    ensures { result ≡ remote_of config source }
{
    let local = config.local;
    match config::find(config.remotes(), source) {
        Some(entry) => Remote {
            limit: entry.limit,
            discard: entry.discard,
            local: local,
        },
        None => Remote {
            limit: 0,
            discard: false,
            local: local,
        },
    }
}

// The busy steps behind an insertion.
fn run(mut s: State, i: Inserted, store: &[u8], out: &mut [u8], timer: bool) -> Called
    ensures { outcome (called_seen result) store.now out.new ≡ busy_call s (inserted_seen i) store.now out.old timer }
{
    let config = s.config;
    let handlers = config.handlers;
    let far = remote(config, s.transfer.conf.source);
    let t = i.transfer;
    let busy = steps::fsm_busy(t, store, out, timer, far, faults(handlers));
    state::settle_in(&mut s, busy.state);
    Called {
        answer: Ok(()),
        state: s,
        sent: busy.sent,
        notes: Indications {
            first: i.first,
            second: i.second,
            third: i.third,
            fourth: busy.checked,
            fifth: busy.finished,
        },
    }
}

// After an insertion: the busy steps, unless the PDU was refused. 19 leaves the transfer to fault 4's handler; any other refusal changes nothing.
fn after_insert(mut s: State, i: Inserted, store: &[u8], out: &mut [u8], timer: bool) -> Called
    ensures { outcome (called_seen result) store.now out.new ≡ after_insert s (inserted_seen i) store.now out.old timer }
{
    let refusal = match i.answer {
        Ok(()) => return run(s, i, store, out, timer),
        Err(refusal) => refusal,
    };
    if refusal != Refusal::DoesNotFit {
        return unchanged(s, Err(refusal));
    }
    state::settle_in(&mut s, i.transfer);
    Called {
        answer: Err(Refusal::DoesNotFit),
        state: s,
        sent: 0,
        notes: Indications {
            first: i.first,
            second: i.second,
            third: None,
            fourth: None,
            fifth: None,
        },
    }
}

// The file, where file data were taken in the receiving step: the busy steps have nothing to do then, so the hot path goes past them.
fn rested(file: Result<FileState, Refusal>, step: TransactionStep) -> Option<FileState>
    ensures { result ≡ rested file step }
{
    if step == TransactionStep::Receiving {
        return file.ok();
    }
    None
}

// After file data, in general.
fn after_file_data(s: State, i: Taken, store: &[u8], out: &mut [u8], timer: bool) -> Called
    ensures { outcome (called_seen result) store.now out.new ≡ data_call s (taken_seen s.transfer.file i) store.now out.old timer }
{
    let t = s.transfer;
    let handlers = s.config.handlers;
    let handler = config::handler(handlers, codes::FILESTORE_REJECTION);
    let inserted = inserting::segment_inserted(t, i, handler, s.config.segmentrecv);
    after_insert(s, inserted, store, out, timer)
}

// An EOF for the running transfer.
fn eof(s: State, store: &[u8], out: &mut [u8], field: &[u8], h: PduHeader, timer: bool) -> Called
    ensures { outcome (called_seen result) store.now out.new ≡ eof_call s store.now out.old h.conf field.now timer }
{
    let config = s.config;
    let handlers = config.handlers;
    let t = s.transfer;
    let conf = h.conf;
    let file = filestore::file(store, t.file.length);
    let i = inserting::handle_eof_pdu(t, file, field, conf, faults(handlers), config.eofrecv);
    after_insert(s, i, store, out, timer)
}

// A Metadata PDU that no refusal meets: the transfer starts.
fn start(s: State, field: &[u8], m: MetadataPdu, conf: CommonPduConfig) -> Called
    requires { m ≡ body_of conf field.now }
    ensures { called_seen result ≡ start_called s conf field.now }
{
    let t = transfer::started(conf, m.closure, m.checksumtype);
    let source = bodies::metadata::name(field, m.sourceat);
    let dest = bodies::metadata::name(field, m.destat);
    Called {
        answer: Ok(()),
        state: state::begin(s, t, source, dest),
        sent: 0,
        notes: only(Some(Indication::Metadata(transfer::id(t), m.size))),
    }
}

// The body of a Metadata PDU that starts a transfer, unless it is refused.
fn metadata_body(s: &State, field: &[u8], conf: CommonPduConfig) -> Result<MetadataPdu, Refusal>
    ensures { answered result ≡ unless (metadata_refusal s.now conf field.now) (body_of conf field.now) }
{
    if state::is_busy(s) {
        return Err(Refusal::Busy);
    }
    if !conf.unacknowledged {
        return Err(Refusal::NotSupported);
    }
    let m = bodies::metadata::read(field, conf.largefile)?;
    let config = s.config;
    inserting::metadata::refusal(config, conf.source, field, m)?;
    Ok(m)
}

// A Metadata PDU.
fn handle_metadata_pdu(s: State, field: &[u8], h: PduHeader) -> Called
    ensures { called_seen result ≡ started_call s h.conf field.now }
{
    let conf = h.conf;
    match metadata_body(&s, field, conf) {
        Ok(m) => start(s, field, m, conf),
        Err(refusal) => unchanged(s, Err(refusal)),
    }
}

// What is looked at before a PDU is handled: 21, 1 and 2, then the header's and the routing's refusals.
pub fn entered(s: &State, size: usize, out: usize, pdu: &[u8]) -> Result<PacketInfo, Refusal>
    ensures { answered result ≡ unless (entry_refusal s.now size out pdu.now) (info_of pdu.now) }
{
    state::unfit(s, size, out)?;
    packet_info::new(pdu, s.config.local.value)
}

// One call with a PDU. Only here is the state taken apart and put together for file data: it is copied in and out, and not between.
pub fn insert(mut s: State, store: &mut [u8], out: &mut [u8], pdu: &[u8], timer: bool) -> Called
    ensures { outcome (called_seen result) store.new out.new ≡ call_of s store.old out.old (Input.packet pdu.now) timer }
{
    let read = entered(&s, store.len(), out.len(), pdu);
    let Ok(info) = read else {
        return unchanged(s, Err(read.unwrap_err()));
    };
    let h = info.header;
    let field = h.data_field(pdu);
    match info.target {
        Target::Metadata => return handle_metadata_pdu(s, field, h),
        Target::Eof => return eof(s, &store[..], out, field, h, timer),
        Target::FileData => {}
    }
    let t = s.transfer;
    let conf = h.conf;
    let i = inserting::handle_file_data(t, store, field, conf, h.segmentmetadata);
    let step = t.step;
    let Some(file) = rested(i.file, step) else {
        return after_file_data(s, i, &store[..], out, timer);
    };
    s.transfer.file = file;
    let notify = s.config.segmentrecv;
    let note = inserting::segment_recvd_indication(notify, t, i.offset, i.count);
    Called {
        answer: Ok(()),
        state: s,
        sent: 0,
        notes: only(note),
    }
}

// One call without a PDU.
pub fn poll(s: State, store: &[u8], out: &mut [u8], timer: bool) -> Called
    ensures { outcome (called_seen result) store.now out.new ≡ call_of s store.now out.old Input.poll timer }
{
    if let Err(refusal) = state::unfit(&s, store.len(), out.len()) {
        return unchanged(s, Err(refusal));
    }
    if !state::is_busy(&s) {
        return unchanged(s, Ok(()));
    }
    let t = s.transfer;
    run(s, inserting::left_alone(t, Ok(())), store, out, timer)
}
