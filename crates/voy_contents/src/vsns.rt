ghost use Rattle.std.specs.Prelude.{◌≡◌, ◌<◌, ℕ, Some, length, slice_get, IfOk};
ghost use Rattle.voy_txn.specs.LawfulTxn.{max_channels};

use std::alloc::{AllocError, Global};
use voy_schema::Items;
use voy_txn::MAX_CHANNELS;

/// For each channel the vsn up to which it is done: those from [`MAX_CHANNELS`] on have that of the last epoch.
#[derive(Drop)]
pub(crate) struct Vsns {
    pub(crate) vsns: Items<u64>,
    pub(crate) epoch: u64,
    ghost wide: { length vsns ≡ max_channels },
}

impl Vsns {
    ghost use Rattle.std.specs.Prelude.{◌==◌, if◌then◌else◌};
    ghost use Rattle.voy_contents.specs.Vsns.{vsns_in};
    ghost use Rattle.voy_txn.specs.Commits.{is_none_above};

    /// A vsn of 0 for each channel.
    pub(crate) fn new(alloc: Global) -> Result<Vsns, AllocError>
        ensures { IfOk result (λ made. (c : ℕ) → vsns_in made c ≡ 0) }
    {
        let vsns = zeros(alloc)?;
        Ok(Vsns { vsns, epoch: 0 })
    }

    /// The vsn of the channel.
    pub(crate) fn last(&self, channel: u32) -> u64
        ensures { result ≡ vsns_in self.now channel }
    {
        match self.vsns.get(channel as usize) {
            Some(vsn) => *vsn,
            None => self.epoch,
        }
    }

    /// Whether none of the first `channels` is done further than to `vsn`.
    #[tactic(auto, unfolding(voy_txn::specs::Commits::is_none_above))]
    pub(crate) fn is_none_above(&self, channels: u32, vsn: u64) -> bool
        ensures { result ≡ is_none_above channels (vsns_in self.now) vsn }
    {
        for channel in 0..channels {
            if self.last(channel) > vsn {
                return false;
            }
        }
        true
    }

    /// Sets the vsn of one channel.
    pub(crate) fn set(&mut self, channel: u32, vsn: u64)
        requires { channel < max_channels }
        ensures { (c : ℕ) → vsns_in self.new c ≡ (if c == channel then vsn else vsns_in self.old c) }
    {
        self.vsns.replace(channel as usize, vsn);
    }

    /// Sets the vsn of each channel to that of an epoch.
    pub(crate) fn set_all(&mut self, vsn: u64)
        ensures { (c : ℕ) → vsns_in self.new c ≡ vsn }
    {
        set_each(&mut self.vsns, vsn);
        self.epoch = vsn;
    }
}

fn zeros(alloc: Global) -> Result<Items<u64>, AllocError>
    ensures wide { IfOk result (λ vsns. length vsns ≡ max_channels) }
    ensures zero { IfOk result (λ vsns. (c : ℕ) → c < max_channels → slice_get vsns c ≡ Some 0) }
{
    let mut vsns = Items::with_capacity(alloc, MAX_CHANNELS as usize)?;
    for _channel in 0..MAX_CHANNELS {
        vsns.push(0)?;
    }
    Ok(vsns)
}

fn set_each(vsns: &mut Items<u64>, vsn: u64)
    ensures wide { length vsns.new ≡ length vsns.old }
    ensures set { (c : ℕ) → c < length vsns.old → slice_get vsns.new c ≡ Some vsn }
{
    for channel in 0..vsns.len() {
        vsns.replace(channel, vsn);
    }
}
