ghost use Rattle.std.specs.Prelude.{◌≡◌, ◌++◌, ◌<◌, ◌^◌, length, OnErr, OnOk};
ghost use Rattle.voy_txn.specs.Payload.{number, sized, vsn_bytes};
ghost use Rattle.voy_txn.specs.Reading.{Gives, front_at, number_at, part_at, sized_at, vsn_at};

use crate::limits::{NUMBER_BYTES, VSN_BYTES};
use crate::unread::Unread;
use std::alloc::AllocError;
use voy_schema::Bytes;

/// The number in front of `bytes`, and what follows it.
#[tactic(auto, unfolding(crate::specs::Reading::number_at))]
pub(crate) fn number_of(bytes: &[u8]) -> Result<(u32, &[u8]), Unread>
    ensures { Gives (λ x. (x.0, x.1.now)) result (number_at bytes.now) }
{
    if bytes.len() < NUMBER_BYTES {
        return Err(Unread::NoPayload);
    }
    let (front, rest) = bytes.split_at(NUMBER_BYTES);
    let number = u32::from_be_bytes([front[0], front[1], front[2], front[3]]);
    Ok((number, rest))
}

/// The vsn in front of `bytes`, and what follows it.
#[tactic(auto, unfolding(crate::specs::Reading::vsn_at))]
pub(crate) fn vsn_of(bytes: &[u8]) -> Result<(u64, &[u8]), Unread>
    ensures { Gives (λ x. (x.0, x.1.now)) result (vsn_at bytes.now) }
{
    if bytes.len() < VSN_BYTES {
        return Err(Unread::NoPayload);
    }
    let (front, rest) = bytes.split_at(VSN_BYTES);
    let vsn = u64::from_be_bytes([
        front[0], front[1], front[2], front[3], front[4], front[5], front[6], front[7],
    ]);
    Ok((vsn, rest))
}

/// So many bytes in front of `bytes`, and what follows them.
#[tactic(auto, unfolding(crate::specs::Reading::front_at))]
fn front_of(size: u32, bytes: &[u8]) -> Result<(&[u8], &[u8]), Unread>
    ensures { Gives (λ x. (x.0.now, x.1.now)) result (front_at size bytes.now) }
{
    let size = size as usize;
    if bytes.len() < size {
        return Err(Unread::NoPayload);
    }
    let (front, rest) = bytes.split_at(size);
    Ok((front, rest))
}

/// The text behind the number of its bytes, and what follows it.
#[tactic(auto, unfolding(crate::specs::Reading::sized_at))]
pub(crate) fn sized_of(bytes: &[u8]) -> Result<(&[u8], &[u8]), Unread>
    ensures { Gives (λ x. (x.0.now, x.1.now)) result (sized_at bytes.now) }
{
    let (size, rest) = number_of(bytes)?;
    front_of(size, rest)
}

/// The number of rows, their texts, and what follows them.
#[tactic(auto, unfolding(crate::specs::Reading::part_at))]
pub(crate) fn part_of(bytes: &[u8]) -> Result<(u32, &[u8], &[u8]), Unread>
    ensures { Gives (λ x. (x.0, x.1.now, x.2.now)) result (part_at bytes.now) }
{
    let (count, rest) = number_of(bytes)?;
    let (text, rest) = sized_of(rest)?;
    Ok((count, text, rest))
}

/// Appends a number. After an error `to` is as before.
#[tactic(auto, unfolding(crate::specs::Payload::number))]
pub(crate) fn push_number(to: &mut Bytes, value: u32) -> Result<(), AllocError>
    ensures ok { OnOk result (to.new ≡ to.old ++ number value) }
    ensures err { OnErr result (to.new ≡ to.old) }
{
    to.append_slice(&value.to_be_bytes())
}

/// Appends a vsn. After an error `to` is as before.
#[tactic(auto, unfolding(crate::specs::Payload::vsn_bytes))]
pub(crate) fn push_vsn(to: &mut Bytes, vsn: u64) -> Result<(), AllocError>
    ensures ok { OnOk result (to.new ≡ to.old ++ vsn_bytes vsn) }
    ensures err { OnErr result (to.new ≡ to.old) }
{
    to.append_slice(&vsn.to_be_bytes())
}

/// Appends a text behind the number of its bytes.
#[tactic(auto, unfolding(crate::specs::Payload::sized))]
pub(crate) fn push_sized(to: &mut Bytes, text: &[u8]) -> Result<(), AllocError>
    requires { length text.now < 2 ^ 32 }
    ensures { OnOk result (to.new ≡ to.old ++ sized text.now) }
{
    push_number(to, text.len() as u32)?;
    to.append_slice(text)?;
    Ok(())
}
