ghost use Rattle.std.specs.Prelude.{◌≡◌, ◌≢◌, ◌<◌, ◌≤◌, ◌⊎◌, ℕ, Err, Option, None, Some, IfErr, IfOk, IsOk, IsTrue, OnOk, true, false};
ghost use Rattle.voy_disk.specs.Faults.{HasCause};
ghost use Rattle.voy_disk.specs.Files.{IfTold};
ghost use Rattle.voy_event.specs.LawfulEvent.{IsLawfulChange, IsLawfulFrom};
ghost use Rattle.voy_export.specs.Calls.{IsUnnamed};
ghost use Rattle.voy_export.specs.Ends.{ChangesEnd};
ghost use Rattle.voy_export.specs.Recording.{cutover_of};
ghost use Rattle.voy_export.specs.Turns.{Gathers, Puts, StopsAt, end_left, kept_left, next_put, rest_of};
ghost use Rattle.voy_export.specs.declared.plan.Step.TheVariants.{Put, Stopped};
ghost use Rattle.voy_feed.specs.Feed.{FeedStands, bytes_left, last_kept};
ghost use Rattle.voy_feed.specs.Kept.{ChangeReading, behind_change, change_file, nothing_left};
ghost use Rattle.voy_meta.specs.Allowed.{spot_follows};
ghost use Rattle.voy_queue.specs.Asking.{has_place};
ghost use Rattle.voy_queue.specs.Writer.{closing_size, committed_end, is_live, writer_end, writer_role};

use crate::error::{ExportError, Which, Why};
use crate::limits::COMMIT_EVENTS;
use crate::plan::{Plan, Refusal, Step};
use std::alloc::{AllocError, Global};
use voy_disk::Disk;
use voy_event::{Event, LineWhy, Recorded, What};
use voy_feed::{Feed, FeedError, Keep, change_file};
use voy_queue::{End, Writer, puts_go_on};
use voy_schema::Schema;
use voy_tables::{Role, Spot};

/// Puts events until what is pending is to be committed, all is done or a line is refused. `from` is the last vsn in front of the export.
pub(crate) fn gather<D: Disk>(
    alloc: Global,
    schema: &Schema,
    feed: &mut Feed,
    keep: &mut Keep,
    recording: &mut D,
    writer: &mut Writer,
    plan: &mut Plan,
    from: u64,
) -> Result<Step, ExportError>
    requires feed { FeedStands feed.old (D.files recording.old) }
    requires live { IsTrue (is_live writer.old) }
    requires goes_on { (writer_end writer.old).ended ≡ false }
    requires place { last_kept keep.old ≡ (writer_end writer.old).spot }
    requires from { from ≤ (writer_end writer.old).last_vsn }
    ensures puts { IfOk result (λ step. IfTold (D.files recording.old) (λ fs. Gathers schema.now.tables writer.old writer.new
        (end_left schema.now.tables writer.old plan.old (kept_left schema.now.tables feed.old keep.old fs))
        (rest_of step (end_left schema.now.tables writer.new plan.new (kept_left schema.now.tables feed.new keep.new fs))))) }
    // what the next turn asks
    ensures feed { FeedStands feed.new (D.files recording.new) }
    ensures live { OnOk result (IsTrue (is_live writer.new)) }
    ensures goes_on { IfOk result (λ step. step ≡ Put → (writer_end writer.new).ended ≡ false) }
    ensures place { IfOk result (λ step. step ≡ Put → last_kept keep.new ≡ (writer_end writer.new).spot) }
    ensures shrinks { IfOk result (λ step. step ≡ Put → bytes_left feed.new < bytes_left feed.old) }
    ensures rises { OnOk result ((writer_end writer.old).last_vsn ≤ (writer_end writer.new).last_vsn) }
    ensures asked { OnOk result ((writer_end writer.new).ended ≡ true → plan.old.end ≡ true) }
    ensures still { IfOk result (λ step. step ≡ Put → plan.new.end ≡ plan.old.end) }
    ensures end { committed_end writer.new ≡ committed_end writer.old }
    ensures role { writer_role writer.new ≡ writer_role writer.old }
    ensures size { closing_size writer.new ≡ closing_size writer.old }
    ensures same { D.files recording.new ≡ D.files recording.old }
    ensures lender { D.lender recording.new ≡ D.lender recording.old }
    ensures cause { HasCause (ExportError.Fault Which.Recording) (D.faults recording.old) (D.faults recording.new) result }
    ensures no_export { IfErr result (λ error. error ≢ ExportError.Fault Which.Export) }
    ensures unnamed { IfErr result IsUnnamed }
{
    // The law that puts are pending in turn; there is nothing to run.
    puts_go_on();
    'events: loop {
        let step = put_next(alloc, schema, feed, keep, recording, writer, plan)?;
        match step {
            Step::Put => {
                if is_due(writer.end(), from) {
                    return Ok(Step::Put);
                }
            }
            _ => return Ok(step),
        }
    }
}

/// Whether what is pending is to be committed: its segment is closed, or the export has put so many events.
fn is_due(end: End, from: u64) -> bool
    requires { from ≤ end.last_vsn }
{
    end.closed || (end.last_vsn - from) % COMMIT_EVENTS == 0
}

/// Puts the next kept change, or the cutover where it is asked for and no change is left.
fn put_next<D: Disk>(
    alloc: Global,
    schema: &Schema,
    feed: &mut Feed,
    keep: &mut Keep,
    recording: &mut D,
    writer: &mut Writer,
    plan: &mut Plan,
) -> Result<Step, ExportError>
    requires feed { FeedStands feed.old (D.files recording.old) }
    requires live { IsTrue (is_live writer.old) }
    requires goes_on { (writer_end writer.old).ended ≡ false }
    requires place { last_kept keep.old ≡ (writer_end writer.old).spot }
    ensures puts { IfOk result (λ step. IfTold (D.files recording.old) (λ fs. Gathers schema.now.tables writer.old writer.new
        (end_left schema.now.tables writer.old plan.old (kept_left schema.now.tables feed.old keep.old fs))
        (rest_of step (end_left schema.now.tables writer.new plan.new (kept_left schema.now.tables feed.new keep.new fs))))) }
    ensures feed { FeedStands feed.new (D.files recording.new) }
    ensures live { OnOk result (IsTrue (is_live writer.new)) }
    ensures goes_on { IfOk result (λ step. step ≡ Put → (writer_end writer.new).ended ≡ false) }
    ensures place { IfOk result (λ step. step ≡ Put → last_kept keep.new ≡ (writer_end writer.new).spot) }
    ensures shrinks { IfOk result (λ step. step ≡ Put → bytes_left feed.new < bytes_left feed.old) }
    ensures rises { OnOk result ((writer_end writer.old).last_vsn ≤ (writer_end writer.new).last_vsn) }
    ensures asked { OnOk result ((writer_end writer.new).ended ≡ true → plan.old.end ≡ true) }
    ensures still { IfOk result (λ step. step ≡ Put → plan.new.end ≡ plan.old.end) }
    ensures end { committed_end writer.new ≡ committed_end writer.old }
    ensures role { writer_role writer.new ≡ writer_role writer.old }
    ensures size { closing_size writer.new ≡ closing_size writer.old }
    ensures same { D.files recording.new ≡ D.files recording.old }
    ensures lender { D.lender recording.new ≡ D.lender recording.old }
    ensures cause { HasCause (ExportError.Fault Which.Recording) (D.faults recording.old) (D.faults recording.new) result }
    ensures no_export { IfErr result (λ error. error ≢ ExportError.Fault Which.Export) }
    ensures unnamed { IfErr result IsUnnamed }
{
    if plan.is_over() {
        return Ok(Step::Finished);
    }
    match feed.next_kept(keep, recording, schema) {
        Ok(Some(_)) if plan.left == Some(0) => Ok(Step::Finished),
        Ok(Some(recorded)) => put_change(alloc, schema, writer, plan, feed.line(), recorded),
        Ok(None) => put_cutover(alloc, schema, writer, plan.end),
        Err(error) => stopped(alloc, writer.role(), error),
    }
}

/// Puts the event of a kept change.
fn put_change(
    alloc: Global,
    schema: &Schema,
    writer: &mut Writer,
    plan: &mut Plan,
    line: u64,
    recorded: Recorded,
) -> Result<Step, ExportError>
    requires live { IsTrue (is_live writer.old) }
    requires goes_on { (writer_end writer.old).ended ≡ false }
    requires lawful { IsLawfulChange schema.now.tables recorded.change }
    requires place { spot_follows (writer_end writer.old).spot (Some recorded.spot) ≡ true }
    requires more { plan.old.left ≢ Some 0 }
    ensures puts { IfOk result (λ step. (rest : ChangeReading) → Gathers schema.now.tables writer.old writer.new
        (end_left schema.now.tables writer.old plan.old (behind_change line recorded rest))
        (rest_of step (end_left schema.now.tables writer.new plan.new rest))) }
    ensures live { OnOk result (IsTrue (is_live writer.new)) }
    ensures goes_on { OnOk result ((writer_end writer.new).ended ≡ false) }
    ensures place { IfOk result (λ step. step ≡ Put → (writer_end writer.new).spot ≡ Some recorded.spot) }
    ensures rises { OnOk result ((writer_end writer.old).last_vsn ≤ (writer_end writer.new).last_vsn) }
    ensures still { plan.new.end ≡ plan.old.end }
    ensures end { committed_end writer.new ≡ committed_end writer.old }
    ensures role { writer_role writer.new ≡ writer_role writer.old }
    ensures size { closing_size writer.new ≡ closing_size writer.old }
    ensures memory { result ≡ Err ExportError.NoMemory ⊎ IsOk result }
{
    let Recorded { spot, change } = recorded;
    let step = put_event(
        alloc,
        schema,
        writer,
        line,
        What::Change(change),
        Some(spot),
    )?;
    *plan = plan.after_change();
    Ok(step)
}

/// Puts the cutover where it is asked for.
fn put_cutover(
    alloc: Global,
    schema: &Schema,
    writer: &mut Writer,
    asked: bool,
) -> Result<Step, ExportError>
    requires live { IsTrue (is_live writer.old) }
    requires goes_on { (writer_end writer.old).ended ≡ false }
    ensures puts { IfOk result (λ step. (max : Option ℕ) (rest : ChangesEnd) → Gathers schema.now.tables writer.old writer.new
        (end_left schema.now.tables writer.old (record { left = max; end = asked }) nothing_left) (rest_of step rest)) }
    ensures ends { IfOk result (λ step. step ≢ Put) }
    ensures live { OnOk result (IsTrue (is_live writer.new)) }
    ensures asked { OnOk result ((writer_end writer.new).ended ≡ true → asked ≡ true) }
    ensures rises { OnOk result ((writer_end writer.old).last_vsn ≤ (writer_end writer.new).last_vsn) }
    ensures end { committed_end writer.new ≡ committed_end writer.old }
    ensures role { writer_role writer.new ≡ writer_role writer.old }
    ensures size { closing_size writer.new ≡ closing_size writer.old }
    ensures memory { result ≡ Err ExportError.NoMemory ⊎ IsOk result }
{
    if !asked {
        return Ok(Step::Finished);
    }
    let what = cutover_of(writer.role());
    match put_event(alloc, schema, writer, 0, what, None)? {
        Step::Put => Ok(Step::Finished),
        step => Ok(step),
    }
}

/// What ends an exporter's part.
fn cutover_of(role: Role) -> What
    ensures { result ≡ cutover_of role }
{
    match role {
        Role::Source => What::CutoverTarget,
        Role::Target => What::CutoverSource,
    }
}

/// Puts an event, where a vsn and a segment are left for it.
fn put_event(
    alloc: Global,
    schema: &Schema,
    writer: &mut Writer,
    line: u64,
    what: What,
    spot: Option<Spot>,
) -> Result<Step, ExportError>
    requires live { IsTrue (is_live writer.old) }
    requires goes_on { (writer_end writer.old).ended ≡ false }
    requires lawful { IsLawfulFrom schema.now.tables (writer_role writer.old) what }
    requires placed { (vsn : ℕ) (role : Role) → has_place (writer_end writer.old) (record { vsn = vsn; role = role; what = what }) spot ≡ true }
    ensures puts { IfOk result (Puts schema.now.tables writer.old writer.new line (next_put writer.old what spot)) }
    ensures live { OnOk result (IsTrue (is_live writer.new)) }
    ensures end { committed_end writer.new ≡ committed_end writer.old }
    ensures role { writer_role writer.new ≡ writer_role writer.old }
    ensures size { closing_size writer.new ≡ closing_size writer.old }
    ensures memory { result ≡ Err ExportError.NoMemory ⊎ IsOk result }
{
    let role = writer.role();
    let Some(vsn) = writer.end().last_vsn.checked_add(1) else {
        return past(alloc, role, line);
    };
    let event = Event { vsn, role, what };
    if !writer.takes(&event, spot) {
        return past(alloc, role, line);
    }
    writer.put(schema, &event, spot)?;
    Ok(Step::Put)
}

/// That no vsn or segment is left for the event of this line.
fn past(alloc: Global, role: Role, line: u64) -> Result<Step, ExportError>
    ensures stops { IfOk result (λ step. step ≡ Stopped (Refusal.Limit (change_file role) line)) }
    ensures memory { result ≡ Err ExportError.NoMemory ⊎ IsOk result }
{
    let file = change_file(alloc, role)?;
    Ok(Step::Stopped(Refusal::Limit { file, line }))
}

/// What an error of the feed comes to.
fn stopped(alloc: Global, role: Role, error: FeedError) -> Result<Step, ExportError>
    requires no_missing { error ≢ FeedError.Missing }
    requires no_large { error ≢ FeedError.TooLarge }
    ensures stops { IfOk result (λ step. StopsAt role error step) }
    ensures fault { result ≡ Err (ExportError.Fault Which.Recording) → error ≡ FeedError.Fault }
    ensures no_export { IfErr result (λ error. error ≢ ExportError.Fault Which.Export) }
    ensures unnamed { IfErr result IsUnnamed }
{
    match error {
        FeedError::Line { line, why } => refused(alloc, role, line, why),
        FeedError::Fault => Err(ExportError::Fault(Which::Recording)),
        FeedError::NoMemory => Err(ExportError::NoMemory),
        FeedError::Missing | FeedError::TooLarge => unreachable!(),
    }
}

/// That this line of the change file has no reading.
fn refused(alloc: Global, role: Role, line: u64, why: LineWhy) -> Result<Step, ExportError>
    ensures stops { IfOk result (λ step. StopsAt role (FeedError.Line line why) step) }
    ensures memory { result ≡ Err ExportError.NoMemory ⊎ IsOk result }
{
    let file = change_file(alloc, role)?;
    let refusal = match why {
        LineWhy::TooLong => Refusal::Limit { file, line },
        why => Refusal::Line {
            file,
            line,
            why: Why::Line(why),
        },
    };
    Ok(Step::Stopped(refusal))
}
