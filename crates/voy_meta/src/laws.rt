ghost use Rattle.voy_meta.specs.Laws.{AddsOn, OneState, ReadsMore, RecordsAreWhole, StandsBeside, StandsBesideOne, StateInEveryImage};
ghost use Rattle.voy_meta.specs.PayloadLaws.{PayloadsAreShort, ReadingsArePayloads, RecordsReadBack};

use voy_journal::one_reading;

/// Laws of payloads: the payload of a record reads as it, bytes that read as a record are its payload, and no payload
/// has more than 41 bytes. There is nothing to run.
pub fn records_read_back()
    ensures payloads { RecordsReadBack }
    ensures readings { ReadingsArePayloads }
    ensures short { PayloadsAreShort }
{}

/// Laws of metadata that stand on a disk: every image reads as their state, and as no other; they stand as long as other
/// calls leave `meta.journal`; records that are put in turn are more records together. There is nothing to run.
pub fn metadata_stand()
    ensures state { StateInEveryImage }
    ensures one { OneState }
    ensures beside { StandsBeside }
    ensures beside_one { StandsBesideOne }
    ensures adds { AddsOn }
    ensures more { ReadsMore }
    ensures whole { RecordsAreWhole }
{
    // The law that a journal has one reading; there is nothing to run.
    one_reading();
}
