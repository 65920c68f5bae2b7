/// The four disks that a move works on.
#[derive(Debug, Drop)]
pub struct Place<D> {
    /// The recorded source: its schema, its snapshot and its changes.
    pub recording: D,
    /// What was exported, and how far the move has come.
    pub export: D,
    /// The store that the move fills.
    pub target: D,
    /// The store that a fall-back fills.
    pub source: D,
}
