// The layout of a stored record: definitions of its bytes, of the state in them and of what they are refused for, and the laws that tie
// these together. It has no code but the types: `record_stages`, `record_parts` and `record` are proved against it.
#![tactic(auto)]

use reply::Reply;
use state::State;

// The versions of a record.
#[derive(Clone, Copy)]
pub enum Version {
    Version1,
    Version2,
}

// What bytes are refused for as a record, and the place that tells where, counted from the front; 0 where nothing is told,
// which may not change, so that this is no Result.
#[derive(Clone, Copy)]
pub struct Judgement {
    pub reply: Reply,
    pub place: usize,
}

// What reading bytes answers: their judgement, and the state in them. No Result: that a refused reading gives the reset state may not change.
#[derive(Clone, Copy)]
pub struct RecordRead {
    pub reply: Reply,
    pub place: usize,
    pub state: State,
}
