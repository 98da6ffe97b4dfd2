// PDUs inserted into a transfer: file data and EOF, and the refusals of a Metadata.
#![tactic(auto)]

pub mod metadata;

ghost use Rattle.std.specs.Prelude.{◌≡◌};
ghost use Rattle.laws.specs.First.{first_of};
ghost use Rattle.codes.specs.Refusals.{unless, answered, refusal_of};
ghost use Rattle.bodies.specs.FileData as file_data;
ghost use Rattle.bodies.specs.Eof as eof;
ghost use Rattle.inserting.specs.Insert.{takes_data, place_order, segment_note, eof_note, inserted_seen, refused_insert, body_refusal, eof_call_refusal, eof_inserted};
ghost use Rattle.inserting.specs.FileData.{taken, taken_seen, took, taken_of, segment_inserted};

use bodies::eof::EofPdu;
use bodies::file_data::FileDataPdu;
use codes::Refusal;
use header::CommonPduConfig;
use steps::Faults;
use transfer::{FileState, Indication, TransactionStep, TransferState};

// What inserting a PDU leaves: the answer, the transfer, and the indications so far.
#[derive(Clone, Copy)]
pub struct Inserted {
    pub answer: Result<(), Refusal>,
    pub transfer: TransferState,
    pub first: Option<Indication>,
    pub second: Option<Indication>,
    pub third: Option<Indication>,
}

// What file data leave: the file's length and progress, or the refusal; and the segment's offset and length. The hot path carries this alone.
#[derive(Clone, Copy)]
pub struct Taken {
    pub file: Result<FileState, Refusal>,
    pub offset: u64,
    pub count: usize,
}

// A PDU that leaves the transfer as it is, with an answer.
pub fn left_alone(t: TransferState, answer: Result<(), Refusal>) -> Inserted
    ensures { inserted_seen result ≡ refused_insert (refusal_of answer) t }
{
    Inserted {
        answer,
        transfer: t,
        first: None,
        second: None,
        third: None,
    }
}

// Whether the step takes file data: receiving, or waiting.
fn takes_data(step: TransactionStep) -> bool
    ensures { result ≡ takes_data step }
{
    matches!(step, TransactionStep::Receiving | TransactionStep::Waiting)
}

// Whether a PDU is refused before its body is looked at: 12 where the step does not take it, 13 where it is another transfer's.
fn misplaced(takes: bool, t: TransferState, c: CommonPduConfig) -> Result<(), Refusal>
    ensures { refusal_of result ≡ first_of (place_order takes t c) }
{
    if !takes {
        return Err(Refusal::WrongStep);
    }
    if c.source != t.conf.source {
        return Err(Refusal::AnotherTransfer);
    }
    if c.seqnum != t.conf.seqnum {
        return Err(Refusal::AnotherTransfer);
    }
    Ok(())
}

// The segment indication, if configured.
pub fn segment_recvd_indication(
    notify: bool,
    t: TransferState,
    offset: u64,
    n: usize,
) -> Option<Indication>
    ensures { result ≡ segment_note notify t offset n }
{
    if notify {
        return Some(Indication::Segment(transfer::id(t), offset, n as u64));
    }
    None
}

// The EOF indication, if configured.
fn eof_recvd_indication(notify: bool, t: TransferState) -> Option<Indication>
    ensures { result ≡ eof_note notify t }
{
    if notify {
        return Some(Indication::Eof(transfer::id(t)));
    }
    None
}

// What file data leave of a transfer, with the handler of fault 4: the file, where the segment was written; the fault, where it does not fit (19); nothing,
// where they are refused otherwise.
pub fn segment_inserted(t: TransferState, i: Taken, handler: u8, notify: bool) -> Inserted
    ensures { inserted_seen result ≡ segment_inserted handler notify t (taken_seen t.file i) }
{
    let refusal = match i.file {
        Ok(file) => {
            return Inserted {
                answer: Ok(()),
                transfer: TransferState { file, ..t },
                first: segment_recvd_indication(notify, t, i.offset, i.count),
                second: None,
                third: None,
            };
        }
        Err(refusal) => refusal,
    };
    if refusal != Refusal::DoesNotFit {
        return left_alone(t, Err(refusal));
    }
    let fault = transfer::declare_fault(t, codes::FILESTORE_REJECTION, handler);
    Inserted {
        answer: Err(Refusal::DoesNotFit),
        transfer: fault.state,
        first: segment_recvd_indication(notify, t, i.offset, i.count),
        second: fault.report,
        third: None,
    }
}

// The body of file data for the running transfer, unless it is refused.
fn data_body(
    t: TransferState,
    field: &[u8],
    c: CommonPduConfig,
    metadata: bool,
) -> Result<FileDataPdu, Refusal>
    ensures { answered result ≡ unless (body_refusal t c metadata field.now) (file_data.fields_of field.now c.largefile metadata) }
{
    let step = t.step;
    misplaced(takes_data(step), t, c)?;
    bodies::file_data::read(field, c.largefile, metadata)
}

// File data that are refused before their segment is looked at.
fn not_taken(refusal: Refusal) -> Taken
    ensures { result ≡ record { file = Err refusal; offset = 0; count = 0 } }
{
    Taken {
        file: Err(refusal),
        offset: 0,
        count: 0,
    }
}

// Handles file data: the segment goes to the store, unless it is refused.
pub fn handle_file_data(
    t: TransferState,
    store: &mut [u8],
    field: &[u8],
    c: CommonPduConfig,
    metadata: bool,
) -> Taken
    ensures { took (taken_seen t.file result) store.new ≡ taken_of t store.old c metadata field.now }
{
    let read = data_body(t, field, c, metadata);
    let Ok(f) = read else {
        return not_taken(read.unwrap_err());
    };
    let segment = bodies::file_data::segment(field, f.segmentat);
    Taken {
        file: transfer::handle_segment(t, store, f.offset, segment),
        offset: f.offset,
        count: segment.len(),
    }
}

// The body of an EOF for the running transfer, unless it is refused.
fn eof_body(t: TransferState, field: &[u8], c: CommonPduConfig) -> Result<EofPdu, Refusal>
    ensures { answered result ≡ unless (eof_call_refusal t c field.now) (eof.fields_of field.now c.largefile) }
{
    misplaced(t.step == TransactionStep::Receiving, t, c)?;
    bodies::eof::read(field, c.largefile)
}

// Handles an EOF.
pub fn handle_eof_pdu(
    t: TransferState,
    file: &[u8],
    field: &[u8],
    c: CommonPduConfig,
    faults: Faults,
    notify: bool,
) -> Inserted
    ensures { inserted_seen result ≡ eof_inserted faults notify t file.now c field.now }
{
    let read = eof_body(t, field, c);
    let Ok(e) = read else {
        return left_alone(t, Err(read.unwrap_err()));
    };
    let done = steps::handle_no_error_eof_pdu(t, file, e, faults);
    Inserted {
        answer: Ok(()),
        transfer: done.state,
        first: eof_recvd_indication(notify, t),
        second: done.sizefault,
        third: done.sumfault,
    }
}
