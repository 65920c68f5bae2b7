use std::alloc::Global;
use voy_case_text::{Case, Trouble, told};
use voy_meta::{payload_of, read_record};

/// The record whose payload the rows' bytes are. What is written of it has to be these bytes.
pub fn payload(alloc: Global, case: &Case) -> Result<String, Trouble> {
    let bytes = case.bytes(alloc)?;
    let Some(entry) = read_record(bytes.as_slice()) else {
        return told(alloc, "no record");
    };
    let written = payload_of(alloc, &entry)?;
    if written.as_slice() != bytes.as_slice() {
        return Err(Trouble::Apart("the payload is written otherwise"));
    }
    let shown = format!(in alloc; "{entry:?}")?;
    Ok(shown)
}
