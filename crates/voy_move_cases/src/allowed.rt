use crate::words::record_of;
use std::alloc::Global;
use voy_case_text::{Case, Trouble, base_of};
use voy_meta::{MetaState, StageWhy};
use voy_tables::Side;

/// Whether each record of a row `? RECORD` may come next behind those of the rows in front of it, and then the stage and
/// what it refuses.
pub fn allowed(alloc: Global, case: &Case) -> Result<String, Trouble> {
    let mut state = MetaState::new(alloc);
    let mut shown = String::new(alloc);
    'rows: for row in case.rows.lines() {
        match row.strip_prefix("? ") {
            Some(asked) => tell(alloc, &state, asked, &mut shown)?,
            None => take_row(alloc, case.all, row, &mut state)?,
        }
    }
    shown.push_str(stage_text(alloc, &state)?.as_str())?;
    Ok(shown)
}

/// What the records of the rows come to.
pub fn state(alloc: Global, case: &Case) -> Result<String, Trouble> {
    let mut state = MetaState::new(alloc);
    'rows: for row in case.rows.lines() {
        take_row(alloc, case.all, row, &mut state)?;
    }
    let stage = stage_text(alloc, &state)?;
    let shown = format!(in alloc; "{stage}; {state:?}")?;
    Ok(shown)
}

/// Takes the records of a row: those of a base, as `=BASE`, or those that it has itself, with commas between.
pub(crate) fn take_row(
    alloc: Global,
    all: &str,
    row: &str,
    state: &mut MetaState,
) -> Result<(), Trouble> {
    match row.strip_prefix("=") {
        Some(name) => take_all(base_of(alloc, all, name)?, state),
        None => take_all(row, state),
    }
}

fn take_all(records: &str, state: &mut MetaState) -> Result<(), Trouble> {
    'records: for words in records.split(", ") {
        let entry = record_of(words)?;
        if !state.allows(&entry) {
            return Err(Trouble::Case("a record in front that is not allowed"));
        }
        state.take(&entry)?;
    }
    Ok(())
}

/// Whether this record may come next.
fn tell(alloc: Global, state: &MetaState, words: &str, shown: &mut String) -> Result<(), Trouble> {
    let answer = if state.allows(&record_of(words)?) {
        "allowed"
    } else {
        "refused"
    };
    let next = format!(in alloc; "{words} {answer}; ")?;
    shown.push_str(next.as_str())?;
    Ok(())
}

/// The stage, and what it answers to a request of each side.
fn stage_text(alloc: Global, state: &MetaState) -> Result<String, Trouble> {
    let stage = state.stage();
    let target = why_text(state.request_refusal(Side::Target));
    let source = why_text(state.request_refusal(Side::Source));
    Ok(format!(in alloc; "stage {stage:?}, to target {target}, to source {source}")?)
}

fn why_text(why: Option<StageWhy>) -> &'static str {
    match why {
        None => "may be asked",
        Some(StageWhy::SnapshotMissing) => "SnapshotMissing",
        Some(StageWhy::Already { side: Side::Target }) => "Already target",
        Some(StageWhy::Already { side: Side::Source }) => "Already source",
        Some(StageWhy::TargetNotDone) => "TargetNotDone",
        Some(StageWhy::NoFallBack) => "NoFallBack",
        Some(StageWhy::NotLoaded) => "NotLoaded",
    }
}
