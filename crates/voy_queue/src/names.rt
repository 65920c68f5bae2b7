ghost use Rattle.std.specs.Prelude.{◌≡◌, IfOk};
ghost use Rattle.voy_queue.specs.Names.{segment_name};

use std::alloc::{AllocError, Global};
use voy_disk::Name;

/// The file of the segment of this number.
#[tactic(auto, unfolding(crate::specs::Names::segment_name))]
pub(crate) fn segment_file(alloc: Global, number: u32) -> Result<Name, AllocError>
    ensures { IfOk result (λ name. name ≡ segment_name number) }
{
    let text = format!(in alloc; "segment.{number}.ndjson")?;
    match Name::new(alloc, text.as_str())? {
        Some(name) => Ok(name),
        None => unreachable!(),
    }
}
