//! Lists of places with a value for none.
ghost use Rattle.std.specs.Prelude.{◌≡◌, ◌≤◌, max, slice_set, OnOk, vec_len};
ghost use Rattle.voy_link.specs.Indices.{place_at, with_end, IsWidened};

use std::alloc::AllocError;

/// Stands where there is no place: no place has this number.
pub(crate) const NOWHERE: u32 = u32::MAX;

/// The place that stands at `at`, or `NOWHERE` behind the end.
pub(crate) fn place_at_index(list: &Vec<u32>, at: u32) -> u32
    ensures { result ≡ place_at list.now.items at }
{
    list.get(at as usize).copied().unwrap_or(NOWHERE)
}

/// Writes `place` at `at`. Behind the end nothing is written.
pub(crate) fn put(list: &mut Vec<u32>, at: u32, place: u32)
    ensures { list.new.items ≡ slice_set list.old.items at place }
{
    let at = at as usize;
    if at < list.len() {
        list[at] = place;
    }
}

/// Writes `place` at `key`, where there is no place beside it.
pub(crate) fn put_end(ends: &mut Vec<u32>, beside: u32, key: u32, place: u32)
    ensures { ends.new.items ≡ with_end ends.old.items beside key place }
{
    if beside == NOWHERE {
        put(ends, key, place);
    }
}

/// Makes the list `to` places long, where it is shorter, by values for none. After an error it may have grown too.
pub(crate) fn widen(list: &mut Vec<u32>, to: u32) -> Result<(), AllocError>
    ensures widened { IsWidened list.old.items list.new.items }
    ensures bound { vec_len list.new ≤ max (vec_len list.old) to }
    ensures ok { OnOk result (to ≤ vec_len list.new) }
{
    let to = to as usize;
    if to <= list.len() {
        return Ok(());
    }
    list.reserve_exact(to - list.len())?;
    while list.len() < to {
        list.push(NOWHERE)?;
    }
    Ok(())
}
