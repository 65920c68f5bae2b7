use crate::payloads::Payloads;
use crate::state::Journal;

/// What an opening gives.
#[derive(Debug, Drop)]
pub struct Opened {
    /// The journal, to be appended to.
    pub journal: Journal,
    /// The payloads that it has, in order.
    pub payloads: Payloads,
}
