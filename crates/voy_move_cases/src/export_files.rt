use std::alloc::Global;
use voy_case_text::{
    Case, Trouble, first_line, first_word, name_of, number_of, quoted_bytes, told,
};
use voy_disk::{Disk, SureDisk};
use voy_journal::Journal;
use voy_meta::Meta;

/// A file of at most so many bytes is shown with them.
const SHOWN_BYTES: usize = 600;

/// The kinds of records, by the first byte of their payloads.
const KINDS: [&str; 8] = [
    "version", "snapshot", "queue", "request", "channels", "finished", "done", "loaded",
];

/// Makes the files of the rows `< DISK FILE COUNT` on the disk of that name. Each has the bytes of the rows below it, where there is a count so
/// many times, and each `#` among them is then the number of the time, from 1.
pub fn put_files(
    alloc: Global,
    case: &Case,
    files: &str,
    name: &str,
    disk: &mut SureDisk,
) -> Result<(), Trouble> {
    'files: for file in files.split("< ") {
        let (head, rows) = first_line(file);
        let (on, head) = first_word(head);
        if on != name {
            continue 'files;
        }
        let (file, count) = first_word(head);
        let mut bytes = case.with_rows(rows).bytes(alloc)?;
        if !count.is_empty() {
            bytes = repeated(alloc, bytes.as_slice(), number_of(count)?)?;
        }
        disk.put_file(&name_of(alloc, file)?, bytes.as_slice())?;
    }
    Ok(())
}

/// The bytes so many times, with the number of the time in place of each `#`.
fn repeated(alloc: Global, bytes: &[u8], count: u64) -> Result<Vec<u8>, Trouble> {
    let Ok(text) = str::from_utf8(bytes) else {
        return Err(Trouble::Case("no text to be repeated"));
    };
    let mut all = Vec::new(alloc);
    'times: for time in 1..=count {
        let digits = format!(in alloc; "{time}")?;
        let next = text.replace(alloc, "#", digits.as_str())?;
        all.extend_from_slice(next.as_bytes())?;
    }
    Ok(all)
}

/// How many records of each kind the metadata have, the committed bytes of each segment, and the files beside the metadata.
pub fn standing(alloc: Global, disk: &mut SureDisk) -> Result<String, Trouble> {
    let records = records_on(alloc, disk)?;
    let committed = committed_on(alloc, disk)?;
    let files = files_on(alloc, disk)?;
    Ok(format!(in alloc; "records{records}; committed{committed}{files}")?)
}

fn records_on(alloc: Global, disk: &mut SureDisk) -> Result<String, Trouble> {
    let Ok(opened) = Journal::open(alloc, disk, name_of(alloc, "meta.journal")?) else {
        return Err(Trouble::Apart("the metadata are damaged"));
    };
    let mut shown = String::new(alloc);
    for (at, kind) in KINDS.iter().enumerate() {
        let count = count_of(opened.payloads.as_slice(), at);
        if count > 0 {
            let next = format!(in alloc; " {count} {kind}")?;
            shown.push_str(next.as_str())?;
        }
    }
    Ok(shown)
}

/// How many of the payloads are records of the kind with this number, from 0.
fn count_of(payloads: &[Vec<u8>], kind: usize) -> usize {
    let mut count: usize = 0;
    for payload in payloads {
        if let Some(first) = payload.as_slice().first() {
            if *first as usize == kind.saturating_add(1) {
                count = count.saturating_add(1);
            }
        }
    }
    count
}

fn committed_on(alloc: Global, disk: &mut SureDisk) -> Result<String, Trouble> {
    let Ok(meta) = Meta::open(alloc, disk) else {
        return Err(Trouble::Apart("the metadata are damaged"));
    };
    let mut shown = String::new(alloc);
    for segment in meta.state().segments.as_slice() {
        let bytes = segment.bytes;
        let next = format!(in alloc; " {bytes}")?;
        shown.push_str(next.as_str())?;
    }
    Ok(shown)
}

fn files_on(alloc: Global, disk: &mut SureDisk) -> Result<String, Trouble> {
    let Ok(names) = disk.list() else {
        return Err(Trouble::NoMemory);
    };
    let mut shown = String::new(alloc);
    'files: for name in names.as_slice() {
        if name.as_str() == "meta.journal" {
            continue 'files;
        }
        let Some(bytes) = disk.file(name) else {
            return Err(Trouble::Apart("a listed file is absent"));
        };
        let (name, size, text) = (name.as_str(), bytes.len(), shown_bytes(alloc, bytes)?);
        let next = format!(in alloc; "; {name} {size}{text}")?;
        shown.push_str(next.as_str())?;
    }
    Ok(shown)
}

/// The bytes of a short file.
fn shown_bytes(alloc: Global, bytes: &[u8]) -> Result<String, Trouble> {
    if bytes.len() > SHOWN_BYTES {
        return told(alloc, "");
    }
    let text = quoted_bytes(alloc, bytes)?;
    Ok(format!(in alloc; " {text}")?)
}
