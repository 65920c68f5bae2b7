ghost use Rattle.std.specs.Prelude.{◌≡◌};
ghost use Rattle.voy_event.specs.Events.{ends_part};

use voy_event::{Event, What};

/// Whether the event is the last of its part of the queue.
pub(crate) fn is_cutover(event: &Event) -> bool
    ensures { result ≡ ends_part event.now }
{
    match &event.what {
        What::Change(_) => false,
        What::CutoverTarget | What::CutoverSource => true,
    }
}
