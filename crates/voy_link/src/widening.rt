//! Slots that grow.
ghost use Rattle.std.specs.Prelude.{◌≡◌, ℕ, ◌≤◌, length, max, OnOk};
ghost use Rattle.voy_link.specs.Nodes.{node_at};

use crate::slots::Slot;
use std::alloc::AllocError;

/// Makes the list `to` slots long, where it is shorter, by empty ones. After an error it may have grown too.
pub(crate) fn widen_slots<T: Copy>(
    slots: &mut Vec<Option<Slot<T>>>,
    to: u32,
) -> Result<(), AllocError>
    ensures same { (id : ℕ) → node_at slots.new.items id ≡ node_at slots.old.items id }
    ensures longer { length slots.old.items ≤ length slots.new.items }
    ensures bound { length slots.new.items ≤ max (length slots.old.items) to }
    ensures ok { OnOk result (to ≤ length slots.new.items) }
{
    let to = to as usize;
    if to <= slots.len() {
        return Ok(());
    }
    slots.reserve_exact(to - slots.len())?;
    while slots.len() < to {
        slots.push(None)?;
    }
    Ok(())
}
