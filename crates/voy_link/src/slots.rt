//! The slots of nodes.
ghost use Rattle.std.specs.Prelude.{◌≡◌, slice_set};

/// What stands at the place of a node.
#[derive(Clone, Copy)]
pub(crate) struct Slot<T> {
    pub bucket: u32,
    pub lane: u32,
    pub item: T,
}

/// Writes `slot` at `at`. Behind the end nothing is written.
pub(crate) fn put_slot<T: Copy>(slots: &mut Vec<Option<Slot<T>>>, at: u32, slot: Option<Slot<T>>)
    ensures { slots.new.items ≡ slice_set slots.old.items at slot }
{
    let at = at as usize;
    if at < slots.len() {
        slots[at] = slot;
    }
}
