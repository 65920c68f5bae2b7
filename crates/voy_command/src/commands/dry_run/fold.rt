ghost use Rattle.std.specs.Prelude.{◌≡◌, ◌==◌, ◌&&◌, not};
ghost use Rattle.voy_event.specs.LawfulEvent.{IsLawful};
ghost use Rattle.voy_tables.specs.Changes.{is_well_formed};
ghost use Rattle.voy_tables.specs.Lists.{empty_lists};
ghost use Rattle.voy_command.specs.Commands.DryRun.Outcome.{line_refusal};
ghost use Rattle.voy_event.specs.Events.{is_by_source};
ghost use Rattle.voy_command.specs.Commands.DryRun.Folding.{event_misfit, lists_with};
ghost use Rattle.voy_contents.specs.Tables.{lists_in, schema_in};

use crate::answer::{Answer, Cause, FileName};
use std::alloc::{AllocError, Global};
use voy_contents::Tables;
use voy_event::{Event, LineError, LineWhy, What, read_line};
use voy_schema::Schema;
use voy_tables::{Change, PlainError, Role};

/// The fold of the first events of a segment.
#[derive(Drop)]
pub struct Fold {
    /// The tables after them.
    pub tables: Tables,
    /// How many events there were, which is the vsn of the last.
    pub last: u64,
    /// Whether the last one was the cutover event.
    pub ended: bool,
}

impl Fold {
    ghost use Rattle.std.specs.Prelude.{◌≡◌, ◌+◌, ◌<◌, ◌-◌, ◌^◌, IfErr, IfOk, OnErr, OnOk, None, false, true};
    ghost use Rattle.voy_command.specs.Commands.DryRun.Folding.{GoesOn, IsNext, IsNoChange, IsNoFit, IsNoNext, Stops, Takes};

    /// No events yet, and no rows.
    pub fn new(alloc: Global, schema: Schema) -> Result<Fold, AllocError>
        ensures schema { IfOk result (λ fold. schema_in fold.tables ≡ schema.tables) }
        ensures lists { IfOk result (λ fold. lists_in fold.tables ≡ empty_lists schema.tables) }
        ensures last { IfOk result (λ fold. fold.last ≡ 0) }
        ensures ended { IfOk result (λ fold. fold.ended ≡ false) }
    {
        let tables = Tables::new(alloc, schema)?;
        Ok(Fold {
            tables,
            last: 0,
            ended: false,
        })
    }

    /// Takes the next line of the segment. After an error the fold is given up.
    pub fn take_line(&mut self, alloc: Global, line: &[u8]) -> Result<(), Answer>
        requires { self.old.last < 2 ^ 64 - 1 }
        ensures ok { OnOk result (GoesOn self.old line.now self.new) }
        ensures err { IfErr result (Stops self.old line.now) }
        ensures last { OnOk result (self.new.last ≡ self.old.last + 1) }
        ensures schema { schema_in self.new.tables ≡ schema_in self.old.tables }
    {
        let event = self.next_event(alloc, line)?;
        self.take_event(event)
    }

    /// The event that the line states, where it is the next one.
    fn next_event(&self, alloc: Global, line: &[u8]) -> Result<Event, Answer>
        requires { self.now.last < 2 ^ 64 - 1 }
        ensures ok { IfOk result (IsNext self.now line.now) }
        ensures lawful { IfOk result (IsLawful (schema_in self.now.tables)) }
        ensures err { IfErr result (IsNoNext self.now line.now) }
    {
        let number = self.last + 1;
        match read_line(alloc, self.tables.schema(), line) {
            Ok(event) => {
                if is_next(&event, number, self.ended) {
                    Ok(event)
                } else {
                    Err(line_refusal(number, LineWhy::BadValue))
                }
            }
            Err(LineError::Bad(why)) => Err(line_refusal(number, why)),
            Err(LineError::NoMemory) => Err(Answer::NoMemory),
        }
    }

    /// Does the event's change and counts the event.
    fn take_event(&mut self, event: Event) -> Result<(), Answer>
        requires { IsLawful (schema_in self.old.tables) event }
        ensures ok { OnOk result (Takes self.old event self.new) }
        ensures err { IfErr result (IsNoFit self.old event) }
        ensures schema { schema_in self.new.tables ≡ schema_in self.old.tables }
    {
        let Event { vsn, role: _, what } = event;
        match what {
            What::Change(change) => {
                self.do_change(vsn, change)?;
                self.ended = false;
            }
            What::CutoverTarget | What::CutoverSource => self.ended = true,
        }
        self.last = vsn;
        Ok(())
    }

    fn do_change(&mut self, vsn: u64, change: Change) -> Result<(), Answer>
        requires { is_well_formed (schema_in self.old.tables) change ≡ true }
        ensures ok { OnOk result (event_misfit (schema_in self.old.tables) (lists_in self.old.tables) (What.Change change) ≡ None) }
        ensures lists { OnOk result (lists_in self.new.tables ≡ lists_with (schema_in self.old.tables) (lists_in self.old.tables) (What.Change change)) }
        ensures err { IfErr result (IsNoChange self.old vsn change) }
        ensures schema { schema_in self.new.tables ≡ schema_in self.old.tables }
        ensures last { self.new.last ≡ self.old.last }
        ensures ended { self.new.ended ≡ self.old.ended }
    {
        match self.tables.apply(&change) {
            Ok(()) => Ok(()),
            Err(PlainError::Misfit(_)) => Err(Answer::Invalid { vsn }),
            Err(PlainError::NoMemory) => Err(Answer::NoMemory),
        }
    }
}

/// Whether the event has this vsn, is by the source's exporter, and stands behind no cutover.
fn is_next(event: &Event, vsn: u64, ended: bool) -> bool
    ensures { result ≡ ((event.now.vsn == vsn) && is_by_source event.now.role && not ended) }
{
    event.vsn == vsn && is_by_source(event.role) && !ended
}

fn is_by_source(role: Role) -> bool
    ensures { result ≡ is_by_source role }
{
    match role {
        Role::Source => true,
        Role::Target => false,
    }
}

/// What is answered of a line that is refused.
fn line_refusal(line: u64, why: LineWhy) -> Answer
    ensures { result ≡ line_refusal line why }
{
    match why {
        LineWhy::TooLong => Answer::TooLong {
            file: FileName::Segment,
            line,
        },
        _ => Answer::Refused(Cause::Segment { line, why }),
    }
}
