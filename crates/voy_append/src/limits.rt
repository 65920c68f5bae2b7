/// The most bytes that an append writes by one call of its disk.
pub(crate) const WRITE_BYTES: usize = 1_048_576;
