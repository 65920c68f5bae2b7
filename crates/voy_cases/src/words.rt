use std::alloc::Global;
use voy_case_text::{Case, Trouble, quoted};
use voy_tables::Side;
use voy_words::{Asked, Command, Usage, WordsError, export_dir, read_words};

/// What the words of each row ask for. A row is `$ WORDS` with blanks between; `''` is an empty word, and `␣` a blank
/// within one.
pub fn words(alloc: Global, case: &Case) -> Result<String, Trouble> {
    let mut shown = counted(alloc, case)?;
    for row in case.rows.lines() {
        let words = words_of(alloc, row)?;
        let answer = asked(alloc, &words)?;
        push_line(alloc, row, answer.as_str(), &mut shown)?;
    }
    Ok(shown)
}

/// The folder that the words of each row name.
pub fn folder(alloc: Global, case: &Case) -> Result<String, Trouble> {
    let mut shown = counted(alloc, case)?;
    for row in case.rows.lines() {
        let words = words_of(alloc, row)?;
        let answer = match export_dir(&words) {
            Some(folder) => quoted(alloc, folder)?,
            None => String::from_str(alloc, "none")?,
        };
        push_line(alloc, row, answer.as_str(), &mut shown)?;
    }
    Ok(shown)
}

/// How many rows the case has. A line for each follows.
fn counted(alloc: Global, case: &Case) -> Result<String, Trouble> {
    let count = case.rows.lines().count();
    let shown = format!(in alloc; "{count} rows")?;
    Ok(shown)
}

/// Appends a line with the row and its answer.
fn push_line(alloc: Global, row: &str, answer: &str, to: &mut String) -> Result<(), Trouble> {
    let words = row.strip_prefix("$ ").unwrap_or("(no words)");
    let line = format!(in alloc; "\n  {words} is {answer}")?;
    to.push_str(line.as_str())?;
    Ok(())
}

/// The words of a row.
fn words_of(alloc: Global, row: &str) -> Result<Vec<String>, Trouble> {
    let mut words = Vec::new(alloc);
    if row == "$" {
        return Ok(words);
    }
    let Some(text) = row.strip_prefix("$ ") else {
        return Err(Trouble::Case("no words"));
    };
    for word in text.split(' ') {
        let written = if word == "''" { "" } else { word };
        let word = written.replace(alloc, "␣", " ")?;
        if words.push(word).is_err() {
            return Err(Trouble::NoMemory);
        }
    }
    Ok(words)
}

/// What these words ask for, in words.
fn asked(alloc: Global, words: &[String]) -> Result<String, Trouble> {
    let shown = match read_words(alloc, words) {
        Ok(command) => return shown_command(alloc, command),
        Err(WordsError::Usage(Usage::Phrase)) => String::from_str(alloc, "no phrase")?,
        Err(WordsError::Usage(Usage::Rest { phrase })) => {
            format!(in alloc; "no reading behind phrase {phrase}")?
        }
        Err(WordsError::NoMemory) => return Err(Trouble::NoMemory),
    };
    Ok(shown)
}

fn shown_command(alloc: Global, command: Command) -> Result<String, Trouble> {
    let shown = match command {
        Command::ExportSource { max, segment_bytes } => {
            return shown_export(alloc, "source", max, segment_bytes);
        }
        Command::ExportTarget { max, segment_bytes } => {
            return shown_export(alloc, "target", max, segment_bytes);
        }
        Command::ImportTarget { options, dry_run } => {
            let options = shown_options(alloc, options)?;
            format!(in alloc; "import target, {options}, dry run {dry_run}")?
        }
        Command::ImportSource { options } => {
            let options = shown_options(alloc, options)?;
            format!(in alloc; "import source, {options}")?
        }
        Command::CutoverTarget { fall_back } => {
            format!(in alloc; "cutover target, fall back {fall_back}")?
        }
        Command::Rehearse {
            number,
            changes,
            channels,
        } => {
            format!(in alloc; "rehearse, number {number}, changes {changes}, channels {channels}")?
        }
        _ => String::from_str(alloc, plain_name(command))?,
    };
    Ok(shown)
}

/// The name of a command that has no options.
fn plain_name(command: Command) -> &'static str {
    match command {
        Command::CutoverSource => "cutover source",
        Command::LoadSource => "load source",
        Command::Status => "status",
        Command::Report => "report",
        Command::Show { side: Side::Target } => "show target",
        Command::Show { side: Side::Source } => "show source",
        _ => "another command",
    }
}

fn shown_export(
    alloc: Global,
    side: &str,
    max: Option<u64>,
    segment_bytes: u64,
) -> Result<String, Trouble> {
    let max = match max {
        Some(number) => format!(in alloc; "{number}")?,
        None => String::from_str(alloc, "none")?,
    };
    let shown = format!(in alloc; "export {side}, max {max}, segment bytes {segment_bytes}")?;
    Ok(shown)
}

fn shown_options(alloc: Global, options: Asked) -> Result<String, Trouble> {
    let Asked {
        batch_rows,
        channels,
        max_events,
        window,
        jobs,
    } = options;
    let channels = match channels {
        Some(number) => format!(in alloc; "{number}")?,
        None => String::from_str(alloc, "none")?,
    };
    let shown = format!(in alloc;
        "batch rows {batch_rows}, channels {channels}, max events {max_events}, window {window}, jobs {jobs}"
    )?;
    Ok(shown)
}
