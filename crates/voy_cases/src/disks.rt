use std::alloc::Global;
use voy_case_text::{
    Case, Trouble, error_text, first_word, name_of, number_of, numbers_of, push_piece,
    quoted_bytes, told,
};
use voy_disk::{Disk, DiskError, FaultPlan, MemDisk, Name, Numbers};

/// What the calls on a disk in memory answer, one behind the other, by the plan of the case's words.
pub fn disk(alloc: Global, case: &Case) -> Result<String, Trouble> {
    let mut disk = MemDisk::new(alloc, plan_of(alloc, case.words)?);
    let mut shown = String::new(alloc);
    for row in case.rows.lines() {
        let answer = call(alloc, case.all, &mut disk, row)?;
        if !shown.is_empty() && !answer.is_empty() {
            shown.push_str(", ")?;
        }
        shown.push_str(answer.as_str())?;
    }
    Ok(shown)
}

/// The plan of these words, with `, ` between: `fails N M ..`, `dead N`, from which call on all fail, and `leaves N`.
fn plan_of(alloc: Global, words: &str) -> Result<FaultPlan, Trouble> {
    let mut plan = FaultPlan::none(alloc);
    for part in words.split(", ") {
        let (verb, behind) = first_word(part);
        match verb {
            "" => {}
            "fails" => plan.fail = numbers_of(alloc, behind)?,
            "dead" => plan.dead_from = number_of(behind)?,
            "leaves" => plan.leaves = number_of(behind)?,
            _ => return Err(Trouble::Case("no such plan")),
        }
    }
    Ok(plan)
}

/// What one call answers.
fn call(alloc: Global, all: &str, disk: &mut MemDisk, row: &str) -> Result<String, Trouble> {
    let (verb, behind) = first_word(row);
    let (text, behind) = first_word(behind);
    match verb {
        "list" => list(alloc, disk),
        "calls" => Ok(format!(in alloc; "{} calls", disk.calls())?),
        "dead" => told(alloc, if disk.dead() { "dead" } else { "alive" }),
        "rename" => rename(
            alloc,
            disk,
            &name_of(alloc, text)?,
            &name_of(alloc, behind)?,
        ),
        _ => call_on(alloc, all, disk, &name_of(alloc, text)?, verb, behind),
    }
}

/// What a call on the file of this name answers.
fn call_on(
    alloc: Global,
    all: &str,
    disk: &mut MemDisk,
    name: &Name,
    verb: &str,
    behind: &str,
) -> Result<String, Trouble> {
    match verb {
        "put" => {
            let mut bytes = Vec::new(alloc);
            push_piece(alloc, all, behind, &mut bytes)?;
            disk.put_file(name, bytes.as_slice())?;
            told(alloc, "")
        }
        "show" => match disk.file(name) {
            Some(bytes) => quoted_bytes(alloc, bytes),
            None => told(alloc, "no file"),
        },
        "len" => len(alloc, disk, name),
        "read" => read(alloc, disk, name, behind),
        "create" => answer(alloc, disk.create(name)),
        "write" => write(alloc, all, disk, name, behind),
        "cut" => cut(alloc, disk, name, number_of(behind)?),
        "sync" => sync(alloc, disk, name),
        _ => Err(Trouble::Case("no such call")),
    }
}

fn answer(alloc: Global, answer: Result<(), DiskError>) -> Result<String, Trouble> {
    match answer {
        Ok(()) => told(alloc, "ok"),
        Err(error) => told(alloc, error_text(error)),
    }
}

/// The names in the order of the list, with `/` between.
fn list(alloc: Global, disk: &mut MemDisk) -> Result<String, Trouble> {
    let names = match disk.list() {
        Ok(names) => names,
        Err(error) => return told(alloc, error_text(error)),
    };
    let mut shown = String::new(alloc);
    for name in names.as_slice() {
        if !shown.is_empty() {
            shown.push_str("/")?;
        }
        shown.push_str(name.as_str())?;
    }
    Ok(shown)
}

fn len(alloc: Global, disk: &mut MemDisk, name: &Name) -> Result<String, Trouble> {
    match disk.len(name) {
        Ok(Some(length)) => Ok(format!(in alloc; "{length} bytes")?),
        Ok(None) => told(alloc, "no file"),
        Err(error) => told(alloc, error_text(error)),
    }
}

/// What a read at this place into so many bytes gives: `read NAME AT COUNT`.
fn read(alloc: Global, disk: &mut MemDisk, name: &Name, words: &str) -> Result<String, Trouble> {
    let (at, count) = first_word(words);
    let at = number_of(at)?;
    let count = number_of(count)? as usize;
    let mut into = vec![in alloc; b'-'; count]?;
    match disk.read_at(name, at, into.as_mut_slice()) {
        Ok(length) => {
            into.truncate(length);
            quoted_bytes(alloc, into.as_slice())
        }
        Err(error) => told(alloc, error_text(error)),
    }
}

/// `write NAME AT PIECE`
fn write(
    alloc: Global,
    all: &str,
    disk: &mut MemDisk,
    name: &Name,
    words: &str,
) -> Result<String, Trouble> {
    let (at, piece) = first_word(words);
    let at = number_of(at)?;
    let mut bytes = Vec::new(alloc);
    push_piece(alloc, all, piece, &mut bytes)?;
    let done = match disk.file(name) {
        Some(now) if at <= now.len() as u64 => disk.write_at(name, at, bytes.as_slice()),
        _ => return Err(Trouble::Case("a write that no caller may ask for")),
    };
    answer(alloc, done)
}

fn cut(alloc: Global, disk: &mut MemDisk, name: &Name, to: u64) -> Result<String, Trouble> {
    let done = match disk.file(name) {
        Some(now) if to <= now.len() as u64 => disk.cut(name, to),
        _ => return Err(Trouble::Case("a cut that no caller may ask for")),
    };
    answer(alloc, done)
}

fn sync(alloc: Global, disk: &mut MemDisk, name: &Name) -> Result<String, Trouble> {
    let done = match disk.file(name) {
        Some(_) => disk.sync(name),
        None => return Err(Trouble::Case("a sync that no caller may ask for")),
    };
    answer(alloc, done)
}

fn rename(alloc: Global, disk: &mut MemDisk, from: &Name, to: &Name) -> Result<String, Trouble> {
    let done = match (disk.file(from), disk.file(to)) {
        (Some(_), None) => disk.rename(from, to),
        _ => return Err(Trouble::Case("a renaming that no caller may ask for")),
    };
    answer(alloc, done)
}
