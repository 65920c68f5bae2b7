ghost use Rattle.std.specs.Prelude.{◌≡◌};
ghost use Rattle.voy_meta.specs.Stages.{request_refusal, stage_of};

use crate::sides::says_fall_back;
use crate::state::MetaState;
use voy_tables::Side;

/// How far the move has come: the last stage that was reached.
#[derive(Clone, Copy, Debug, PartialEq, Eq)]
pub enum Stage {
    /// Not all snapshots are recorded.
    Snapshot,
    /// All snapshots are.
    Changes,
    /// The cutover event of the source's exporter is committed.
    TargetEnded,
    /// The cutover to the target is done.
    TargetDone,
    /// The cutover event of the target's exporter is committed.
    SourceEnded,
    /// The cutover to the source is done.
    SourceDone,
}

/// Why a stage does not allow what was asked.
#[derive(Clone, Copy, Debug, PartialEq, Eq)]
pub enum StageWhy {
    /// Not all snapshots are recorded.
    SnapshotMissing,
    /// The cutover to this side was asked for before.
    Already { side: Side },
    /// The cutover to the target is not done.
    TargetNotDone,
    /// The cutover to the target was asked for without a fall-back.
    NoFallBack,
    /// The source's store is not loaded.
    NotLoaded,
}

impl MetaState {
    /// How far the move has come.
    #[tactic(auto, unfolding(crate::specs::Stages::stage_of))]
    pub fn stage(&self) -> Stage
        ensures { result ≡ stage_of self.now }
    {
        if self.done_source {
            Stage::SourceDone
        } else if self.ended_target {
            Stage::SourceEnded
        } else if self.done_target {
            Stage::TargetDone
        } else if self.ended_source {
            Stage::TargetEnded
        } else if self.has_snapshot() {
            Stage::Changes
        } else {
            Stage::Snapshot
        }
    }

    /// Why a cutover to this side may not be asked for, the first reason that holds.
    #[tactic(auto, unfolding(crate::specs::Stages::request_refusal))]
    pub fn request_refusal(&self, side: Side) -> Option<StageWhy>
        ensures { result ≡ request_refusal side self.now }
    {
        match side {
            Side::Target if !self.has_snapshot() => Some(StageWhy::SnapshotMissing),
            Side::Source if !self.done_target => Some(StageWhy::TargetNotDone),
            Side::Source if !says_fall_back(self.request_target) => Some(StageWhy::NoFallBack),
            _ if self.request(side).is_some() => Some(StageWhy::Already { side }),
            _ => None,
        }
    }
}
