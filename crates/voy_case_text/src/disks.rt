use crate::case::number_of;
use crate::trouble::Trouble;
use std::alloc::Global;
use voy_disk::{DiskError, FaultPlan, Name, Numbers};

/// The plan by which the calls with these numbers fail.
pub fn planned(alloc: Global, numbers: &str) -> Result<FaultPlan, Trouble> {
    Ok(FaultPlan {
        fail: numbers_of(alloc, numbers)?,
        dead_from: 0,
        leaves: 0,
    })
}

/// The numbers that stand there with blanks between them.
pub fn numbers_of(alloc: Global, text: &str) -> Result<Numbers, Trouble> {
    let mut numbers = Vec::new(alloc);
    for number in text.split(' ') {
        numbers.extend_from_slice(&[number_of(number)?])?;
    }
    Ok(Numbers::from_vec(numbers))
}

/// The name of a file.
pub fn name_of(alloc: Global, text: &str) -> Result<Name, Trouble> {
    match Name::new(alloc, text)? {
        Some(name) => Ok(name),
        None => Err(Trouble::Case("no name of a file")),
    }
}

/// What a disk answers, in words.
pub fn error_text(error: DiskError) -> &'static str {
    match error {
        DiskError::Failed => "fault",
        DiskError::NoMemory => "no memory",
    }
}
