ghost use Rattle.std.specs.Prelude.{◌≡◌, IfOk};
ghost use Rattle.clap.specs.Simple.{app_of, with_rule};
ghost use Rattle.voy_words.specs.Grammar.{bare_app, cutover_app, export_app, flag_rule, grammar_of, import_app, import_target_app, option_rule, rehearse_app, required_rule, word_rule};

use crate::phrase::Phrase;
use crate::setting::Setting;
use clap::{Arg, ArgAction, Command};
use std::alloc::{AllocError, Global};

/// The option without a value behind `import data to target`.
pub const DRY_RUN: &str = "dry-run";

/// The option behind `initiate cutover to target` that must be there.
pub const FALL_BACK: &str = "prepare-for-fall-back";

/// What may stand behind the phrase, as a command of `clap` without help and version.
pub fn grammar_of<'a>(alloc: Global, phrase: Phrase) -> Result<Command<'a>, AllocError>
    ensures { IfOk result (λ command. app_of command ≡ grammar_of phrase) }
{
    match phrase {
        Phrase::ExportFromSource | Phrase::ExportFromTarget => export_grammar(alloc),
        Phrase::ImportToTarget => import_target_grammar(alloc),
        Phrase::ImportToSource => import_grammar(alloc),
        Phrase::CutoverToTarget => cutover_grammar(alloc),
        Phrase::Rehearse => rehearse_grammar(alloc),
        Phrase::CutoverToSource
        | Phrase::LoadSource
        | Phrase::CutoverStatus
        | Phrase::Report
        | Phrase::ShowTarget
        | Phrase::ShowSource => Ok(bare_grammar(alloc)),
    }
}

#[tactic(auto, unfolding(crate::specs::Grammar::export_app))]
fn export_grammar<'a>(alloc: Global) -> Result<Command<'a>, AllocError>
    ensures { IfOk result (λ command. app_of command ≡ export_app) }
{
    let command = bare_grammar(alloc);
    let command = with_option(alloc, command, Setting::MaxChanges.name())?;
    let command = with_option(alloc, command, Setting::SegmentMaxBytes.name())?;
    Ok(command)
}

#[tactic(auto, unfolding(crate::specs::Grammar::import_app))]
fn import_grammar<'a>(alloc: Global) -> Result<Command<'a>, AllocError>
    ensures { IfOk result (λ command. app_of command ≡ import_app) }
{
    let command = bare_grammar(alloc);
    let command = with_option(alloc, command, Setting::EventChannels.name())?;
    let command = with_option(alloc, command, Setting::MaxEventsPerBatch.name())?;
    let command = with_option(alloc, command, Setting::Window.name())?;
    let command = with_option(alloc, command, Setting::ParallelJobs.name())?;
    Ok(command)
}

#[tactic(auto, unfolding(crate::specs::Grammar::import_target_app))]
fn import_target_grammar<'a>(alloc: Global) -> Result<Command<'a>, AllocError>
    ensures { IfOk result (λ command. app_of command ≡ import_target_app) }
{
    let command = import_grammar(alloc)?;
    let command = with_option(alloc, command, Setting::BatchSize.name())?;
    let command = with_flag(alloc, command, DRY_RUN)?;
    Ok(command)
}

#[tactic(auto, unfolding(crate::specs::Grammar::cutover_app))]
fn cutover_grammar<'a>(alloc: Global) -> Result<Command<'a>, AllocError>
    ensures { IfOk result (λ command. app_of command ≡ cutover_app) }
{
    let option = Arg::new(alloc, FALL_BACK).long(FALL_BACK).required(true);
    let command = bare_grammar(alloc).arg(option)?;
    Ok(command)
}

#[tactic(auto, unfolding(crate::specs::Grammar::rehearse_app))]
fn rehearse_grammar<'a>(alloc: Global) -> Result<Command<'a>, AllocError>
    ensures { IfOk result (λ command. app_of command ≡ rehearse_app) }
{
    let command = bare_grammar(alloc);
    let command = with_word(alloc, command, Setting::Number.name())?;
    let command = with_word(alloc, command, Setting::Changes.name())?;
    let command = with_word(alloc, command, Setting::Channels.name())?;
    Ok(command)
}

/// A command that takes no word.
fn bare_grammar<'a>(alloc: Global) -> Command<'a>
    ensures { app_of result ≡ bare_app }
{
    Command::new(alloc, "rest")
        .no_binary_name(true)
        .disable_help_flag(true)
        .disable_version_flag(true)
}

/// The command with the option `--name value` besides.
fn with_option<'a>(
    alloc: Global,
    command: Command<'a>,
    name: &'a str,
) -> Result<Command<'a>, AllocError>
    ensures { IfOk result (λ more. app_of more ≡ with_rule (app_of command.entry) (option_rule name.entry.now)) }
{
    let option = Arg::new(alloc, name).long(name);
    let command = command.arg(option)?;
    Ok(command)
}

/// The command with the option `--name` besides, which has no value.
fn with_flag<'a>(
    alloc: Global,
    command: Command<'a>,
    name: &'a str,
) -> Result<Command<'a>, AllocError>
    ensures { IfOk result (λ more. app_of more ≡ with_rule (app_of command.entry) (flag_rule name.entry.now)) }
{
    let flag = Arg::new(alloc, name).long(name).action(ArgAction::SetTrue);
    let command = command.arg(flag)?;
    Ok(command)
}

/// The command with one more word that must be there.
fn with_word<'a>(
    alloc: Global,
    command: Command<'a>,
    name: &'a str,
) -> Result<Command<'a>, AllocError>
    ensures { IfOk result (λ more. app_of more ≡ with_rule (app_of command.entry) (word_rule name.entry.now)) }
{
    let word = Arg::new(alloc, name).required(true);
    let command = command.arg(word)?;
    Ok(command)
}
