ghost use Rattle.std.specs.Prelude.{◌≡◌};
ghost use Rattle.voy_txn.specs.Commits.{is_next, is_none_above};

use crate::ascending::ascend_above;
use crate::limits::MAX_CHANNELS;
use crate::store::Store;
use crate::txn::Txn;

/// Whether the store may take `txn`, which [`Store::commit`] asks: the one load, a batch that has no marker,
/// events whose vsns ascend from above that of their channel, or an epoch whose vsn is not below that of any channel.
pub fn is_next<S: Store>(store: &S, txn: &Txn) -> bool
    ensures { result ≡ is_next (S.contents store.now) txn.now }
{
    match txn {
        Txn::Load { .. } => !store.loaded(),
        Txn::Batch { table, number, .. } => !store.has_batch(*table, *number),
        Txn::Events { channel, items } => ascend_above(store.last(*channel), items.as_slice()),
        Txn::Epoch { vsn, .. } => is_none_above(store, MAX_CHANNELS, *vsn),
    }
}

/// Whether none of so many channels is done further than to `vsn`.
#[tactic(auto, unfolding(crate::specs::Commits::is_none_above))]
fn is_none_above<S: Store>(store: &S, channels: u32, vsn: u64) -> bool
    ensures { result ≡ is_none_above channels (S.contents store.now).vsns vsn }
{
    for channel in 0..channels {
        if store.last(channel) > vsn {
            return false;
        }
    }
    true
}
