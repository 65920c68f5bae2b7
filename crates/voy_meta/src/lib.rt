//! What a move has done so far, as records in a journal; the state that they come to, and its stage.
//!
//! The journal `meta.journal` has one record in each payload (`specs/Records.antt`). A record stands behind others only where
//! it is allowed there (`specs/Allowed.antt`). What the records come to is a [`MetaState`], field by field
//! (`specs/State.antt`), and how far that is its [`Stage`].
//!
//! [`Meta::open`] reads the records, and puts version 2 behind them where it is missing. [`Meta::put`] and
//! [`Meta::request_cutover`] put one more. The clauses to believe:
//!
//! - `opens` and `records` of `open`: the state and the records are those that the file has, and then the version.
//! - `prefix` and `all` of `put`: whatever it answers, each image of the disk has the records of before, or these and the new
//!   one; after Ok it has the new one.
//! - `refused` and `untouched` of `request_cutover`: it is refused just where the stage refuses it, and nothing is done then.
//!
//! `MetaStands` is what the metadata ask of the disk that they are lent, and callers carry it along: where it holds, every image
//! of the disk reads as the state that [`Meta::state`] shows ([`metadata_stand`]). After an error that is no
//! refusal the metadata are not live: open them again.
#![tactic(auto)]

mod allowed;
mod appending;
mod error;
mod fields;
mod laws;
mod limits;
mod meta;
mod opening;
mod reading;
mod record;
mod sides;
mod stage;
mod state;
mod state_laws;
mod taking;
mod writing;

pub use error::{MetaError, RequestError};
pub use laws::{metadata_stand, records_read_back};
pub use limits::{
    MAX_CHANNELS, MAX_SEGMENT, MAX_SEGMENT_BYTES, MAX_SNAPSHOT_BYTES, MAX_VSN, OPEN_SEGMENT_BYTES,
};
pub use meta::Meta;
pub use reading::read_record;
pub use record::MetaRecord;
pub use sides::{feeding, led_to};
pub use stage::{Stage, StageWhy};
pub use state::{MetaState, SegmentState, Segments, SnapshotState, Snapshots};
pub use state_laws::{
    closed_stays, consistent, records_join, records_say, refusals_tell, segments_stand,
    stages_go_on, states_grow,
};
pub use writing::payload_of;
