ghost use Rattle.std.specs.Io.{WritesAtMost};

use std::alloc::Global;
use std::env::FillError;
use std::rt::Env;
use voy_case_text::{Case, Trouble, push_piece, quoted, quoted_bytes};
use voy_command::{Answer, refuse, words_of};
use voy_disk::MemSink;

/// A host whose arguments have these bytes, and which has no environment.
#[derive(Drop)]
struct ArgHost {
    alloc: Global,
    args: Vec<Vec<u8>>,
}

impl Alloc for ArgHost {
    type A = Global;

    fn alloc(&self) -> Global {
        self.alloc
    }
}

impl Env for ArgHost {
    fn arg(&self, i: usize, buf: &mut [u8]) -> Result<usize, FillError>
        ensures bound { WritesAtMost result buf.new }
    {
        let Some(arg) = self.args.get(i) else {
            return Err(FillError::NotPresent);
        };
        if buf.len() < arg.len() {
            return Err(FillError::TooLong);
        }
        buf[..arg.len()].copy_from_slice(arg.as_slice());
        Ok(arg.len())
    }

    fn var(&self, _name: &str, _buf: &mut [u8]) -> Result<usize, FillError> {
        Err(FillError::NotPresent)
    }

    fn var_at(&self, _i: usize, _buf: &mut [u8]) -> Result<usize, FillError> {
        Err(FillError::NotPresent)
    }
}

/// What the program makes of its arguments: the words behind its name, or else its status and what it tells. Each row is
/// the piece that one argument is.
pub fn args(alloc: Global, case: &Case) -> Result<String, Trouble> {
    let args = args_of(alloc, case)?;
    match words_of(&ArgHost { alloc, args }) {
        Ok(words) => shown_words(alloc, &words),
        Err(answer) => shown_refusal(alloc, answer),
    }
}

fn args_of(alloc: Global, case: &Case) -> Result<Vec<Vec<u8>>, Trouble> {
    let mut args = Vec::new(alloc);
    for row in case.rows.lines() {
        let mut arg = Vec::new(alloc);
        push_piece(alloc, case.all, row, &mut arg)?;
        if args.push(arg).is_err() {
            return Err(Trouble::NoMemory);
        }
    }
    Ok(args)
}

fn shown_words(alloc: Global, words: &[String]) -> Result<String, Trouble> {
    let mut shown = String::from_str(alloc, "words")?;
    for word in words {
        shown.push_str(" ")?;
        let word = quoted(alloc, word.as_str())?;
        shown.push_str(word.as_str())?;
    }
    Ok(shown)
}

fn shown_refusal(alloc: Global, answer: Answer) -> Result<String, Trouble> {
    let mut err = MemSink::new(alloc, 0);
    let status = refuse(alloc, answer, &mut err);
    let told = quoted_bytes(alloc, err.bytes())?;
    let shown = format!(in alloc; "{status}\n  err {told}")?;
    Ok(shown)
}
