ghost use Rattle.std.specs.Prelude.{◌≡◌, ◌≤◌, length, IfOk, IfSome};
ghost use Rattle.std.specs.Option.{option_and_then};
ghost use Rattle.voy_contents.specs.Known.{known, schema_of};
ghost use Rattle.voy_store.specs.Stored.{if_taken};
ghost use Rattle.voy_txn.specs.Commits.{max_payload_bytes};
ghost use Rattle.voy_txn.specs.Contents.{contents_after};
ghost use Rattle.voy_txn.specs.Reading.{txn_reading};

use std::alloc::{AllocError, Global};
use voy_contents::MemContents;
use voy_txn::{StoreError, Txn, read_txn};

/// Takes the transaction of a payload, and answers it. `None` where the payload is no transaction, or one
/// that does not fit; then nothing changed.
pub(crate) fn take_payload(
    alloc: Global,
    contents: &mut MemContents,
    payload: &[u8],
) -> Result<Option<Txn>, AllocError>
    requires { length payload.now ≤ max_payload_bytes }
    ensures schema { schema_of contents.new ≡ schema_of contents.old }
    ensures taken { IfOk result (λ taken. option_and_then (if_taken (schema_of contents.old) (known contents.old)) (txn_reading (schema_of contents.old) payload.now) ≡ taken) }
    ensures after { IfOk result (λ taken. IfSome taken (λ txn. known contents.new ≡ contents_after (schema_of contents.old) (known contents.old) txn)) }
{
    let Some(txn) = read_txn(alloc, contents.schema(), payload)? else {
        return Ok(None);
    };
    if !contents.is_next(&txn) {
        return Ok(None);
    }
    let done = match contents.do_items(&txn) {
        Ok(done) => done,
        Err(StoreError::Violation { .. }) => return Ok(None),
        Err(StoreError::NoMemory) => return Err(AllocError),
        Err(StoreError::Fault) => unreachable!(),
    };
    contents.note(&txn);
    contents.sweep(done);
    Ok(Some(txn))
}
