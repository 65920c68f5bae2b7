ghost use Rattle.std.specs.Prelude.{◌≡◌, ℕ, [], slice_get, IfOk};
ghost use Rattle.voy_disk.specs.File.{Untouched};

use std::alloc::{AllocError, Global};

/// A file in memory: the bytes that read now, the bytes that are safe, and the ranges touched since
/// the last sync, each as its start and its length.
#[derive(Debug, Drop)]
pub(crate) struct MemFile {
    pub(crate) bytes: Vec<u8>,
    pub(crate) safe: Vec<u8>,
    pub(crate) touched: Vec<(u64, u64)>,
    ghost reads: { (place : ℕ) → Untouched touched.items place → slice_get bytes.items place ≡ slice_get safe.items place },
}

impl MemFile {
    // A file with these bytes, all safe.
    pub(crate) fn settled(alloc: Global, bytes: &[u8]) -> Result<MemFile, AllocError>
        ensures bytes { IfOk result (λ file. file.bytes.items ≡ bytes.now) }
        ensures safe { IfOk result (λ file. file.safe.items ≡ bytes.now) }
        ensures touched { IfOk result (λ file. file.touched.items ≡ []) }
    {
        Ok(MemFile {
            bytes: Vec::from_slice(alloc, bytes)?,
            safe: Vec::from_slice(alloc, bytes)?,
            touched: Vec::new(alloc),
        })
    }
}
