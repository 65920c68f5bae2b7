ghost use Rattle.voy_event.specs.Laws.{EventsReadBack, LinesStandInSegments};

/// The law that a line which [`write_line`](crate::write_line) wrote of a lawful event reads back as the
/// same event, for every schema and every line within its limit. There is nothing to run.
pub fn events_read_back()
    ensures { EventsReadBack }
{}

/// The law that the line which [`write_line`](crate::write_line) writes of a lawful event has no LF and is
/// not the line that closes a segment. There is nothing to run.
pub fn lines_stand_in_segments()
    ensures { LinesStandInSegments }
{}
