ghost use Rattle.std.specs.Prelude.{◌≡◌};
ghost use Rattle.voy_txn.specs.Commits.{max_payload_bytes};
ghost use Rattle.voy_txn.specs.Sizes.{ItemsAreFewerThanBytes, PayloadsHaveSizes, ShortBatchesAreLawful, ShortLoadsAreLawful, ShortRunsAreShort};

use crate::limits::MAX_PAYLOAD_BYTES;

/// Law: how many bytes a payload has, as a sum over the texts of its rows and the lines of its events; that
/// these are more than its items; that sorted rows, as a load or a batch of which a store can take the
/// payload, are lawful; and that a run of changes within the limits of a transaction has a payload that a store can take.
/// There is nothing to run.
pub fn payloads_have_sizes()
    ensures sizes { PayloadsHaveSizes }
    ensures items { ItemsAreFewerThanBytes }
    ensures loads { ShortLoadsAreLawful }
    ensures batches { ShortBatchesAreLawful }
    ensures runs { ShortRunsAreShort }
    ensures limit { MAX_PAYLOAD_BYTES ≡ max_payload_bytes }
{}
