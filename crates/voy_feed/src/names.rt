ghost use Rattle.std.specs.Prelude.{◌≡◌, IfOk};
ghost use Rattle.voy_feed.specs.Kept.{change_file};

use std::alloc::{AllocError, Global};
use voy_disk::Name;
use voy_tables::Role;

/// The file with the recorded changes of an exporter.
#[tactic(auto, unfolding(crate::specs::Kept::change_file))]
pub fn change_file(alloc: Global, role: Role) -> Result<Name, AllocError>
    ensures { IfOk result (λ name. name ≡ change_file role) }
{
    let text = match role {
        Role::Source => "changes.ndjson",
        Role::Target => "target_changes.ndjson",
    };
    match Name::new(alloc, text)? {
        Some(name) => Ok(name),
        None => unreachable!(),
    }
}
