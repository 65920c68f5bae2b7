ghost use Rattle.std.specs.Prelude.{◌≡◌, Some, if◌then◌else◌};
ghost use Rattle.voy_feed.specs.Feed.{last_kept};
ghost use Rattle.voy_feed.specs.Kept.{is_above, is_before};

use voy_tables::Spot;

/// Keeps changes at places above that of the last kept one, so that a change which is given again is not kept again.
#[derive(Clone, Copy, Debug, PartialEq, Eq)]
pub struct Keep {
    /// The place of the change that was kept last.
    pub(crate) last: Option<Spot>,
}

impl Keep {
    /// Behind the change at this place, or in front of all changes.
    pub fn new(last: Option<Spot>) -> Keep
        ensures { last_kept result ≡ last }
    {
        Keep { last }
    }

    /// Whether the change at this place is kept. The place of one that is kept becomes the last.
    pub fn keep(&mut self, spot: Spot) -> bool
        ensures kept { result ≡ is_above (last_kept self.old) spot }
        ensures last { last_kept self.new ≡ (if result then Some spot else last_kept self.old) }
    {
        if !is_above(self.last, spot) {
            return false;
        }
        self.last = Some(spot);
        true
    }
}

/// Whether a place stands above the last one, if there is one.
fn is_above(last: Option<Spot>, spot: Spot) -> bool
    ensures { result ≡ is_above last spot }
{
    match last {
        None => true,
        Some(last) => is_before(last, spot),
    }
}

/// Whether the first place stands in front of the second.
fn is_before(a: Spot, b: Spot) -> bool
    ensures { result ≡ is_before a b }
{
    a.commit < b.commit || (a.commit == b.commit && a.seq < b.seq)
}
