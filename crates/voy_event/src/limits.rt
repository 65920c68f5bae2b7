ghost use Rattle.std.specs.Prelude.{◌≡◌};
ghost use Rattle.std.specs.Str.{bytes_eq};
ghost use Rattle.voy_event.specs.Events.{closing_line};

/// The most bytes that an event line may have, without its LF; a longer one is refused as `TooLong`.
pub const MAX_EVENT_LINE_BYTES: usize = 4_195_328;

/// The most bytes that a recorded change line may have, without its LF; a longer one is refused as `TooLong`.
pub const MAX_RECORDED_LINE_BYTES: usize = 4_194_304;

/// The line that closes a segment, without its LF. No event has it.
pub const CLOSING_LINE: &[u8] = b"\\.";

/// Whether the line, without its LF, closes a segment.
#[tactic(auto, unfolding(crate::specs::Events::closing_line))]
pub fn is_closing_line(line: &[u8]) -> bool
    ensures { result ≡ bytes_eq line.now closing_line }
{
    line == CLOSING_LINE
}
