use std::alloc::AllocError;
use voy_export::{ExportError, Which};
use voy_meta::MetaError;
use voy_queue::QueueError;

/// Why an export did not do all that was ordered.
#[derive(Debug, Drop)]
pub enum Trouble {
    /// The export was refused a recorded file, passed a limit, or had a fault or no memory.
    Export(ExportError),
    /// The metadata have no reading from this place on, or are those of another schema (then it is 0).
    Metadata { offset: u64 },
    /// A segment has fewer bytes than are recorded.
    Segment { number: u32, offset: u64 },
    /// This exporter has nothing to write at this stage.
    Stage,
}

impl From<ExportError> for Trouble {
    fn from(error: ExportError) -> Trouble {
        Trouble::Export(error)
    }
}

impl From<AllocError> for Trouble {
    fn from(_refused: AllocError) -> Trouble {
        Trouble::Export(ExportError::NoMemory)
    }
}

impl From<MetaError> for Trouble {
    fn from(error: MetaError) -> Trouble {
        match error {
            MetaError::Fault => Trouble::Export(ExportError::Fault(Which::Export)),
            MetaError::Damaged { offset } => Trouble::Metadata { offset },
            MetaError::NoMemory => Trouble::Export(ExportError::NoMemory),
        }
    }
}

impl From<QueueError> for Trouble {
    fn from(error: QueueError) -> Trouble {
        match error {
            QueueError::Fault => Trouble::Export(ExportError::Fault(Which::Export)),
            QueueError::Damaged { segment, offset } => Trouble::Segment {
                number: segment,
                offset,
            },
            QueueError::NoMemory => Trouble::Export(ExportError::NoMemory),
        }
    }
}
