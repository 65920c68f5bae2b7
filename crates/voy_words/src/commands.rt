ghost use Rattle.std.specs.Prelude.{◌≡◌, option_map};
ghost use Rattle.clap.specs.Matches.{found_of};
ghost use Rattle.clap.specs.Walk.{first_of, rows_of};
ghost use Rattle.voy_words.specs.Reading.{asked, asked_by, asked_or, command_by, cutover_target_of, export_of, import_source_of, import_target_of, options_of, rehearse_of, says_true, stated};

use crate::asked::{Asked, Command};
use crate::grammar::{DRY_RUN, FALL_BACK};
use crate::numbers::{number_between, truth_of};
use crate::phrase::Phrase;
use crate::setting::Setting;
use clap::ArgMatches;
use voy_tables::Side;

/// Bytes of a segment, where the words do not say.
const DEFAULT_SEGMENT_BYTES: u32 = 16_777_216;

/// Rows of a batch, where the words do not say.
const DEFAULT_BATCH_ROWS: u32 = 20_000;

/// Events of a transaction, where the words do not say.
const DEFAULT_MAX_EVENTS: u32 = 500;

/// Events of a window, where the words do not say.
const DEFAULT_WINDOW: u32 = 8_192;

/// Jobs, where the words do not say.
const DEFAULT_JOBS: u32 = 1;

/// The command of the phrase with these values; `None` where one of them is out of its range.
pub fn command_by(phrase: Phrase, values: &ArgMatches) -> Option<Command>
    ensures { result ≡ command_by phrase (rows_of (found_of values.now)) }
{
    match phrase {
        Phrase::ExportFromSource => export_source(values),
        Phrase::ExportFromTarget => export_target(values),
        Phrase::ImportToTarget => import_target(values),
        Phrase::ImportToSource => import_source(values),
        Phrase::CutoverToTarget => cutover_target(values),
        Phrase::CutoverToSource => Some(Command::CutoverSource),
        Phrase::LoadSource => Some(Command::LoadSource),
        Phrase::CutoverStatus => Some(Command::Status),
        Phrase::Report => Some(Command::Report),
        Phrase::ShowTarget => Some(Command::Show { side: Side::Target }),
        Phrase::ShowSource => Some(Command::Show { side: Side::Source }),
        Phrase::Rehearse => rehearse(values),
    }
}

fn export_source(values: &ArgMatches) -> Option<Command>
    ensures { result ≡ export_of (λ max bytes. Command.ExportSource max bytes) (rows_of (found_of values.now)) }
{
    let max = asked(values, Setting::MaxChanges)?;
    let segment_bytes = asked_or(values, Setting::SegmentMaxBytes, DEFAULT_SEGMENT_BYTES)?;
    Some(Command::ExportSource {
        max: max.map(u64::from),
        segment_bytes: u64::from(segment_bytes),
    })
}

fn export_target(values: &ArgMatches) -> Option<Command>
    ensures { result ≡ export_of (λ max bytes. Command.ExportTarget max bytes) (rows_of (found_of values.now)) }
{
    let max = asked(values, Setting::MaxChanges)?;
    let segment_bytes = asked_or(values, Setting::SegmentMaxBytes, DEFAULT_SEGMENT_BYTES)?;
    Some(Command::ExportTarget {
        max: max.map(u64::from),
        segment_bytes: u64::from(segment_bytes),
    })
}

fn import_target(values: &ArgMatches) -> Option<Command>
    ensures { result ≡ import_target_of (rows_of (found_of values.now)) }
{
    let batch_rows = asked_or(values, Setting::BatchSize, DEFAULT_BATCH_ROWS)?;
    let options = options_of(values, batch_rows)?;
    Some(Command::ImportTarget {
        options,
        dry_run: says_true(values, DRY_RUN),
    })
}

fn import_source(values: &ArgMatches) -> Option<Command>
    ensures { result ≡ import_source_of (rows_of (found_of values.now)) }
{
    let options = options_of(values, DEFAULT_BATCH_ROWS)?;
    Some(Command::ImportSource { options })
}

fn cutover_target(values: &ArgMatches) -> Option<Command>
    ensures { result ≡ cutover_target_of (rows_of (found_of values.now)) }
{
    let text = value(values, FALL_BACK)?;
    let fall_back = truth_of(text)?;
    Some(Command::CutoverTarget { fall_back })
}

fn rehearse(values: &ArgMatches) -> Option<Command>
    ensures { result ≡ rehearse_of (rows_of (found_of values.now)) }
{
    let number = stated(values, Setting::Number)?;
    let changes = stated(values, Setting::Changes)?;
    let channels = stated(values, Setting::Channels)?;
    Some(Command::Rehearse {
        number: u64::from(number),
        changes: u64::from(changes),
        channels,
    })
}

/// What an import with batches of so many rows is asked to keep to.
#[tactic(auto, unfolding(crate::specs::Reading::options_of))]
fn options_of(values: &ArgMatches, batch_rows: u32) -> Option<Asked>
    ensures { result ≡ options_of batch_rows (rows_of (found_of values.now)) }
{
    let channels = asked(values, Setting::EventChannels)?;
    let max_events = asked_or(values, Setting::MaxEventsPerBatch, DEFAULT_MAX_EVENTS)?;
    let window = asked_or(values, Setting::Window, DEFAULT_WINDOW)?;
    let jobs = asked_or(values, Setting::ParallelJobs, DEFAULT_JOBS)?;
    Some(Asked {
        batch_rows,
        channels,
        max_events,
        window,
        jobs,
    })
}

/// The number that must be there.
fn stated(values: &ArgMatches, setting: Setting) -> Option<u32>
    ensures { result ≡ stated setting (rows_of (found_of values.now)) }
{
    asked(values, setting)?
}

/// The number, or its default where there is none; `None` where it is out of its range.
fn asked_or(values: &ArgMatches, setting: Setting, default: u32) -> Option<u32>
    ensures { result ≡ asked_or setting default (rows_of (found_of values.now)) }
{
    let number = asked(values, setting)?;
    Some(number.unwrap_or(default))
}

/// The number, where there is one; `None` where it is out of its range.
#[tactic(auto, unfolding(crate::specs::Reading::asked))]
fn asked(values: &ArgMatches, setting: Setting) -> Option<Option<u32>>
    ensures { result ≡ asked setting (rows_of (found_of values.now)) }
{
    match value(values, setting.name()) {
        Some(text) => {
            let number = number_between(text, setting.least(), setting.most())?;
            Some(Some(number))
        }
        None => Some(None),
    }
}

/// Whether the value of this name is `true`, as that of a flag that was given is.
fn says_true(values: &ArgMatches, name: &str) -> bool
    ensures { result ≡ says_true (first_of name.now (rows_of (found_of values.now))) }
{
    match value(values, name) {
        Some(text) => text == "true",
        None => false,
    }
}

/// The text that the words give by this name.
fn value<'a>(values: &ArgMatches<'a>, name: &str) -> Option<&'a str>
    ensures { option_map (λ text. text.now) result ≡ first_of name.now (rows_of (found_of values.now)) }
{
    values.get_str(name)
}
