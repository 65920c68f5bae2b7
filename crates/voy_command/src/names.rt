ghost use Rattle.std.specs.Prelude.{◌≡◌, IfOk, true};
ghost use Rattle.voy_disk.specs.Name.{is_name};
ghost use Rattle.voy_command.specs.Files.{metadata_name, schema_name, segment_name};

use std::alloc::{AllocError, Global};
use voy_disk::Name;

/// The file of the metadata, on the export disk.
#[tactic(auto, unfolding(crate::specs::Files::metadata_name))]
pub fn metadata_file(alloc: Global) -> Result<Name, AllocError>
    ensures { IfOk result (λ name. name ≡ metadata_name) }
{
    named(alloc, "meta.journal")
}

/// The file of the schema, on the recording disk.
#[tactic(auto, unfolding(crate::specs::Files::schema_name))]
pub fn schema_file(alloc: Global) -> Result<Name, AllocError>
    ensures { IfOk result (λ name. name ≡ schema_name) }
{
    named(alloc, "schema.json")
}

/// The file of the first segment, on the export disk.
#[tactic(auto, unfolding(crate::specs::Files::segment_name))]
pub fn segment_file(alloc: Global) -> Result<Name, AllocError>
    ensures { IfOk result (λ name. name ≡ segment_name) }
{
    named(alloc, "segment.0.ndjson")
}

fn named(alloc: Global, text: &str) -> Result<Name, AllocError>
    requires { is_name text.now ≡ true }
    ensures { IfOk result (λ name. name ≡ text.now) }
{
    match Name::new(alloc, text)? {
        Some(name) => Ok(name),
        None => unreachable!(),
    }
}
