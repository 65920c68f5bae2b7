use std::alloc::Global;
use voy_case_text::{Case, Trouble};
use voy_json::{ParseError, parse};

/// Whether the rows are a JSON document.
pub fn document(alloc: Global, case: &Case) -> Result<String, Trouble> {
    let bytes = case.bytes(alloc)?;
    let answer = match parse(alloc, bytes.as_slice()) {
        Ok(_document) => "a document",
        Err(ParseError::NotJson) => "none",
        Err(ParseError::NoMemory) => return Err(Trouble::NoMemory),
    };
    let answer = String::from_str(alloc, answer)?;
    Ok(answer)
}
