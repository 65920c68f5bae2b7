ghost use Rattle.voy_txn.specs.Laws.{PayloadsHaveReadings, PayloadsReadBack, ReadingsArePayloads};

use voy_event::events_read_back;
use voy_tables::rows_read_back;

/// Law: bytes are the payload of one transaction at most, for every schema. So what
/// [`read_txn`](crate::read_txn) gives of a payload that was written is the transaction that it was
/// written of. There is nothing to run.
pub fn payloads_read_back()
    ensures { PayloadsReadBack }
{
    rows_read_back();
    events_read_back();
}

/// Law: `txn_reading` of `specs/Reading.antt` gives a transaction exactly of its payload, for every schema.
/// There is nothing to run.
pub fn payloads_have_readings()
    ensures payloads { PayloadsHaveReadings }
    ensures readings { ReadingsArePayloads }
{
    rows_read_back();
    events_read_back();
}
