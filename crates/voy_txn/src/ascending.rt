ghost use Rattle.std.specs.Prelude.{◌≡◌};
ghost use Rattle.voy_txn.specs.LawfulTxn.{ascend_above};

use voy_event::Event;

/// Whether the vsn of each event is above that of the one in front of it, and the first above `last`.
pub fn ascend_above(last: u64, items: &[Event]) -> bool
    ensures { result ≡ ascend_above last items.now }
{
    let mut last = last;
    for item in items {
        if item.vsn <= last {
            return false;
        }
        last = item.vsn;
    }
    true
}
