// The tally: accepted calls, refused calls, file bytes, each stopping at 2^32 - 1.
ghost use Rattle.std.specs.Prelude.{◌≡◌};
ghost use Rattle.recording.specs.Tally.{grown, no_tally, counted, data_bytes};

// What is counted.
#[derive(Clone, Copy)]
pub struct Tally {
    pub accepted: u32,
    pub refused: u32,
    pub bytes: u32,
}

// Nothing is counted yet.
pub fn none() -> Tally
    ensures { result ≡ no_tally }
{
    Tally {
        accepted: 0,
        refused: 0,
        bytes: 0,
    }
}

// A count that grows by n, and stops at its limit.
fn grow(count: u32, n: usize) -> u32
    ensures { result ≡ grown count n }
{
    let room = (u32::MAX - count) as usize;
    if room < n {
        return u32::MAX;
    }
    count + n as u32
}

// The tally after a call that gave that answer, for a PDU with n bytes of file data.
#[tactic(auto, unfolding(crate::specs::Tally::counted))]
pub fn count(t: Tally, answer: u8, n: usize) -> Tally
    ensures { result ≡ counted t answer n }
{
    match answer {
        0 => Tally {
            accepted: grow(t.accepted, 1),
            refused: t.refused,
            bytes: grow(t.bytes, n),
        },
        _ => Tally {
            accepted: t.accepted,
            refused: grow(t.refused, 1),
            bytes: t.bytes,
        },
    }
}

// The tally is lent, and grows where it stands.
pub fn count_in(t: &mut Tally, answer: u8, n: usize)
    ensures { t.new ≡ counted t.old answer n }
{
    *t = count(*t, answer, n);
}

// The tally after a call: it is lent, and handed back.
pub fn after_call(t: Tally, answer: u8, n: usize) -> Tally
    ensures tallied { result ≡ counted t answer n }
{
    let mut lent = t;
    count_in(&mut lent, answer, n);
    lent
}

// How many bytes of file data a PDU carries; 0 where it carries none.
pub fn data_bytes(pdu: &[u8]) -> usize
    ensures { result ≡ data_bytes pdu.now }
{
    let Ok(h) = header::from_bytes(pdu) else {
        return 0;
    };
    if !h.filedata {
        return 0;
    }
    let field = h.data_field(pdu);
    let Ok(f) = bodies::file_data::read(field, h.conf.largefile, h.segmentmetadata) else {
        return 0;
    };
    bodies::file_data::segment(field, f.segmentat).len()
}
