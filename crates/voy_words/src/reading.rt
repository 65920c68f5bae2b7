ghost use Rattle.std.specs.Prelude.{◌≡◌, IfErr, IfOk, map, option_and_then, option_map, string_bytes};
ghost use Rattle.std.specs.List.{list_any};
ghost use Rattle.clap.specs.Matches.{found_of};
ghost use Rattle.clap.specs.Walk.{Row, rows_of};
ghost use Rattle.voy_schema.specs.Refusal.{Refuses};
ghost use Rattle.voy_words.specs.Reading.{cause_of, command_by, command_of, is_dashes, reading};

use crate::asked::Command;
use crate::commands::command_by;
use crate::error::{Usage, WordsError};
use crate::grammar::grammar_of;
use crate::phrase::{Phrase, find_phrase};
use clap::error::ErrorKind;
use std::alloc::{AllocError, Global};

/// The command that these words ask for.
///
/// # Errors
///
/// [`Usage::Phrase`] where the words begin with no phrase, and [`Usage::Rest`] with the phrase's number where the words
/// behind it have no reading; want of memory at any time.
#[tactic(auto, unfolding(crate::specs::Reading::reading))]
pub fn read_words(alloc: Global, words: &[String]) -> Result<Command, WordsError>
    ensures ok { IfOk result (λ command. reading (map string_bytes words.now) ≡ Ok command) }
    ensures err { IfErr result (Refuses cause_of (reading (map string_bytes words.now))) }
{
    let Some((phrase, rest)) = find_phrase(words) else {
        return Err(WordsError::Usage(Usage::Phrase));
    };
    match read_rest(alloc, phrase, rest)? {
        Some(command) => Ok(command),
        None => Err(WordsError::Usage(Usage::Rest {
            phrase: phrase.number(),
        })),
    }
}

/// The command of this phrase with these words behind it; `None` where they have no reading.
#[tactic(auto, unfolding(crate::specs::Reading::command_of, crate::specs::Reading::values_of))]
fn read_rest(alloc: Global, phrase: Phrase, rest: &[String]) -> Result<Option<Command>, AllocError>
    ensures { IfOk result (λ command. command ≡ command_of phrase (map string_bytes rest.now)) }
{
    if has_dashes(rest) {
        return Ok(None);
    }
    let grammar = grammar_of(alloc, phrase)?;
    match grammar.try_get_matches_from(rest) {
        Ok(values) => Ok(command_by(phrase, &values)),
        Err(error) => match error.kind() {
            ErrorKind::OutOfMemory => Err(AllocError),
            _ => Ok(None),
        },
    }
}

/// Whether one of the words is `--`.
fn has_dashes(words: &[String]) -> bool
    ensures { result ≡ list_any is_dashes (map string_bytes words.now) }
{
    words.iter().any(|word| word.as_str() == "--")
}
