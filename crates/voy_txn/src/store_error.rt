use voy_tables::Misfit;

/// Why a store did not take a transaction.
#[derive(Clone, Copy, Debug, PartialEq, Eq)]
pub enum StoreError {
    /// What is below the store failed. Its count of faults rose, and the store is not live.
    Fault,
    /// This item, counted from 0, is the first that does not fit. Nothing changed.
    Violation { item: u32, why: Misfit },
    /// Memory was refused. Nothing changed and the store is live, or it is not live.
    NoMemory,
}
