ghost use Rattle.std.specs.Prelude.{◌≡◌, ◌∷◌, [], ◌++◌, OnErr, OnOk};
ghost use Rattle.voy_meta.specs.Reading.{Gives, byte_at, long_at, number_at, place_at, role_of, said_at, side_of, truth_of};
ghost use Rattle.voy_meta.specs.Records.{long, number, place_bytes, role_byte, side_byte, truth_byte};

use crate::limits::{LONG_BYTES, NUMBER_BYTES};
use std::alloc::AllocError;
use voy_schema::Bytes;
use voy_tables::{Role, Side, Spot};

/// The byte in front of `bytes`, and what follows it.
#[tactic(auto, unfolding(crate::specs::Reading::byte_at))]
pub(crate) fn byte_of(bytes: &[u8]) -> Option<(u8, &[u8])>
    ensures { Gives (λ x. (x.0, x.1.now)) result (byte_at bytes.now) }
{
    let [byte, rest @ ..] = bytes else {
        return None;
    };
    Some((*byte, rest))
}

/// The number of four bytes in front of `bytes`, and what follows it.
#[tactic(auto, unfolding(crate::specs::Reading::number_at))]
pub(crate) fn number_of(bytes: &[u8]) -> Option<(u32, &[u8])>
    ensures { Gives (λ x. (x.0, x.1.now)) result (number_at bytes.now) }
{
    if bytes.len() < NUMBER_BYTES {
        return None;
    }
    let (front, rest) = bytes.split_at(NUMBER_BYTES);
    let number = u32::from_be_bytes([front[0], front[1], front[2], front[3]]);
    Some((number, rest))
}

/// The number of eight bytes in front of `bytes`, and what follows it.
#[tactic(auto, unfolding(crate::specs::Reading::long_at))]
pub(crate) fn long_of(bytes: &[u8]) -> Option<(u64, &[u8])>
    ensures { Gives (λ x. (x.0, x.1.now)) result (long_at bytes.now) }
{
    if bytes.len() < LONG_BYTES {
        return None;
    }
    let (front, rest) = bytes.split_at(LONG_BYTES);
    let number = u64::from_be_bytes([
        front[0], front[1], front[2], front[3], front[4], front[5], front[6], front[7],
    ]);
    Some((number, rest))
}

/// The side in front of `bytes`, and what follows it.
pub(crate) fn side_of(bytes: &[u8]) -> Option<(Side, &[u8])>
    ensures { Gives (λ x. (x.0, x.1.now)) result (said_at side_of bytes.now) }
{
    let (byte, rest) = byte_of(bytes)?;
    match byte {
        b't' => Some((Side::Target, rest)),
        b's' => Some((Side::Source, rest)),
        _ => None,
    }
}

/// The role in front of `bytes`, and what follows it.
pub(crate) fn role_of(bytes: &[u8]) -> Option<(Role, &[u8])>
    ensures { Gives (λ x. (x.0, x.1.now)) result (said_at role_of bytes.now) }
{
    let (byte, rest) = byte_of(bytes)?;
    match byte {
        b't' => Some((Role::Target, rest)),
        b's' => Some((Role::Source, rest)),
        _ => None,
    }
}

/// The truth value in front of `bytes`, and what follows it.
pub(crate) fn truth_of(bytes: &[u8]) -> Option<(bool, &[u8])>
    ensures { Gives (λ x. (x.0, x.1.now)) result (said_at truth_of bytes.now) }
{
    let (byte, rest) = byte_of(bytes)?;
    match byte {
        0 => Some((false, rest)),
        1 => Some((true, rest)),
        _ => None,
    }
}

/// The place in front of `bytes`, where there is one, and what follows it.
#[tactic(auto, unfolding(crate::specs::Reading::place_at))]
pub(crate) fn place_of(bytes: &[u8]) -> Option<(Option<Spot>, &[u8])>
    ensures { Gives (λ x. (x.0, x.1.now)) result (place_at bytes.now) }
{
    let (placed, rest) = truth_of(bytes)?;
    let (commit, rest) = long_of(rest)?;
    let (seq, rest) = long_of(rest)?;
    if placed {
        Some((Some(Spot { commit, seq }), rest))
    } else if commit == 0 && seq == 0 {
        Some((None, rest))
    } else {
        None
    }
}

/// Appends a number of four bytes. After an error `to` is as before.
#[tactic(auto, unfolding(crate::specs::Records::number))]
pub(crate) fn push_number(to: &mut Bytes, value: u32) -> Result<(), AllocError>
    ensures ok { OnOk result (to.new ≡ to.old ++ number value) }
    ensures err { OnErr result (to.new ≡ to.old) }
{
    to.append_slice(&value.to_be_bytes())
}

/// Appends a number of eight bytes. After an error `to` is as before.
#[tactic(auto, unfolding(crate::specs::Records::long))]
pub(crate) fn push_long(to: &mut Bytes, value: u64) -> Result<(), AllocError>
    ensures ok { OnOk result (to.new ≡ to.old ++ long value) }
    ensures err { OnErr result (to.new ≡ to.old) }
{
    to.append_slice(&value.to_be_bytes())
}

/// Appends a side. After an error `to` is as before.
pub(crate) fn push_side(to: &mut Bytes, side: Side) -> Result<(), AllocError>
    ensures ok { OnOk result (to.new ≡ to.old ++ side_byte side ∷ []) }
    ensures err { OnErr result (to.new ≡ to.old) }
{
    let byte = match side {
        Side::Target => b't',
        Side::Source => b's',
    };
    to.push(byte)
}

/// Appends a role. After an error `to` is as before.
pub(crate) fn push_role(to: &mut Bytes, role: Role) -> Result<(), AllocError>
    ensures ok { OnOk result (to.new ≡ to.old ++ role_byte role ∷ []) }
    ensures err { OnErr result (to.new ≡ to.old) }
{
    let byte = match role {
        Role::Target => b't',
        Role::Source => b's',
    };
    to.push(byte)
}

/// Appends a truth value. After an error `to` is as before.
pub(crate) fn push_truth(to: &mut Bytes, truth: bool) -> Result<(), AllocError>
    ensures ok { OnOk result (to.new ≡ to.old ++ truth_byte truth ∷ []) }
    ensures err { OnErr result (to.new ≡ to.old) }
{
    to.push(truth as u8)
}

/// Appends a place, or that there is none.
pub(crate) fn push_place(to: &mut Bytes, place: Option<Spot>) -> Result<(), AllocError>
    ensures { OnOk result (to.new ≡ to.old ++ place_bytes place) }
{
    let (placed, spot) = match place {
        Some(spot) => (true, spot),
        None => (false, Spot { commit: 0, seq: 0 }),
    };
    push_truth(to, placed)?;
    push_long(to, spot.commit)?;
    push_long(to, spot.seq)
}
