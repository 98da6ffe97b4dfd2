// Recordings of calls: the header, a record, and the tally of what the receiver answered. All work is on slices.
#![tactic(auto)]

pub mod record;
pub mod settings;
pub mod tally;
