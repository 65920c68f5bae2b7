use crate::trouble::Trouble;
use std::alloc::Global;

/// How many equal characters in a row are shown as their number.
const RUN: usize = 24;

/// The text on one line between double quotes, as Rust writes it. A run of 24 equal characters or more is shown as
/// `{1048573 a}`, so that a long text is shown whole.
pub fn quoted(alloc: Global, text: &str) -> Result<String, Trouble> {
    if text.len() < RUN {
        let short = format!(in alloc; "{text:?}")?;
        return Ok(short);
    }
    let mut shown = String::from_str(alloc, "\"")?;
    let mut run = Run::new();
    for next in text.chars() {
        if run.count > 0 && run.letter == next {
            run.count = run.count.saturating_add(1);
        } else {
            push_run(alloc, &run, &mut shown)?;
            run = Run {
                letter: next,
                count: 1,
            };
        }
    }
    push_run(alloc, &run, &mut shown)?;
    shown.push('"')?;
    Ok(shown)
}

/// A character that stands so many times in a row.
#[derive(Clone, Copy)]
struct Run {
    letter: char,
    count: usize,
}

impl Run {
    fn new() -> Run {
        Run {
            letter: ' ',
            count: 0,
        }
    }
}

fn push_run(alloc: Global, run: &Run, to: &mut String) -> Result<(), Trouble> {
    let (letter, count) = (run.letter, run.count);
    if count >= RUN {
        let shown = format!(in alloc; "{{{count} {letter}}}")?;
        to.push_str(shown.as_str())?;
        return Ok(());
    }
    for _ in 0..count {
        push_escaped(alloc, letter, to)?;
    }
    Ok(())
}

fn push_escaped(alloc: Global, letter: char, to: &mut String) -> Result<(), Trouble> {
    match letter {
        '\'' => to.push('\'')?,
        '"' => to.push_str("\\\"")?,
        _ => {
            let shown = format!(in alloc; "{letter:?}")?;
            let inner = shown.as_str().strip_prefix("'").unwrap_or("");
            to.push_str(inner.strip_suffix("'").unwrap_or(""))?;
        }
    }
    Ok(())
}

/// The bytes in hexadecimal.
pub fn hexadecimal(alloc: Global, bytes: &[u8]) -> Result<String, Trouble> {
    let shown = hex::encode(alloc, bytes)?;
    Ok(shown)
}

/// The bytes as a text, where they are one, and else in hexadecimal behind an `x`.
pub fn quoted_bytes(alloc: Global, bytes: &[u8]) -> Result<String, Trouble> {
    match str::from_utf8(bytes) {
        Ok(text) => quoted(alloc, text),
        Err(_) => {
            let digits = hexadecimal(alloc, bytes)?;
            let shown = format!(in alloc; "x{digits}")?;
            Ok(shown)
        }
    }
}

/// The words as they are.
pub fn told(alloc: Global, text: &str) -> Result<String, Trouble> {
    let told = String::from_str(alloc, text)?;
    Ok(told)
}
