ghost use Rattle.std.specs.Prelude.{◌≡◌, ◌≢◌, map, IfErr, IfOk};
ghost use Rattle.voy_contents.specs.Known.{known, schema_of};
ghost use Rattle.voy_journal.specs.Grammar.{FitAFile};
ghost use Rattle.voy_store.specs.Stored.{bad_gate};
ghost use Rattle.voy_store.specs.Taking.{AreTaken, Finds};

use crate::open_error::OpenError;
use crate::taking::take_payload;
use std::alloc::Global;
use voy_contents::MemContents;
use voy_journal::HEAD_BYTES;
use voy_schema::Schema;

/// What a store knows whose journal has these payloads. `Damaged` has the gate of the first that it does
/// not take.
pub(crate) fn read_contents(
    alloc: Global,
    schema: Schema,
    payloads: &[Vec<u8>],
) -> Result<MemContents, OpenError>
    requires fits { FitAFile (map (λ payload. payload.items) payloads.now) }
    ensures schema { IfOk result (λ contents. schema_of contents ≡ schema.tables) }
    ensures taken { IfOk result (λ contents. AreTaken schema.tables (map (λ payload. payload.items) payloads.now) (known contents)) }
    ensures bad { Finds result (bad_gate schema.tables (map (λ payload. payload.items) payloads.now)) }
    ensures no_fault { IfErr result (λ why. why ≢ OpenError.Fault) }
{
    let mut contents = MemContents::new(alloc, schema)?;
    let mut offset: u64 = 0;
    for payload in payloads {
        let Some(_txn) = take_payload(alloc, &mut contents, payload)? else {
            return Err(OpenError::Damaged { offset });
        };
        offset += HEAD_BYTES + payload.len() as u64;
    }
    Ok(contents)
}
