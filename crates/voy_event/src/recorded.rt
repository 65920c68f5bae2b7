use voy_tables::{Change, Spot};

/// A change as a recording has it.
#[derive(Debug, Drop)]
pub struct Recorded {
    /// Where it stands in the recorded stream.
    pub spot: Spot,
    pub change: Change,
}
