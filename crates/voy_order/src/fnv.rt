ghost use Rattle.std.specs.Prelude.{◌≡◌};
ghost use Rattle.voy_order.specs.Channels.{fnv1a};

/// The hash of no bytes.
pub const FNV1A_START: u64 = 0xcbf2_9ce4_8422_2325;

const PRIME: u64 = 0x100_0000_01b3;

/// FNV-1a of 64 bits over `bytes`, from `start` on, as the authors of that hash state it
/// (<http://www.isthe.com/chongo/tech/comp/fnv/>). A hash of parts that stand one behind the other is made
/// part by part, each from the hash of those before it.
#[tactic(auto, unfolding(crate::specs::Channels::fnv1a))]
pub fn fnv1a(start: u64, bytes: &[u8]) -> u64
    ensures { result ≡ fnv1a start bytes.now }
{
    let mut hash = start;
    for byte in bytes {
        hash = (hash ^ u64::from(*byte)).wrapping_mul(PRIME);
    }
    hash
}
