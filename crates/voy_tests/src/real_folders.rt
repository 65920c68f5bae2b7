//! Calls of a disk over a real folder, as lines of text (`disk_calls`). Between them stand calls of the host:
//! `make` makes the folder, `put TEXT NAME` writes a file, `folder NAME` and `link NAME` make a folder and a link
//! to the file `absent`, `remove NAME` removes a file, `bytes NAME` shows a file, and `kind` says what the folder is.
//! Of a host that counts and fails, `syncs` and `opens` are how often it was asked for a sync and to open a file, from
//! `fail` on its reads, writes, cuts and syncs fail, and from `mend` on they do not.

use crate::disk_calls::{answer, call_of, push_line, quoted};
use crate::flaky_host::{FlakyHost, Notes};
use std::fs;
use std::os::unix::fs::symlink;
use std::rt::Files;
use std::test::Fail;
use voy_disk::HostDisk;

const READS: &str = "\
len changes.ndjson = none
kind = folder
put 0123456789 changes.ndjson = ok
folder folder = ok
len changes.ndjson = 10
len absent = none
len folder = failed
read changes.ndjson 0 = '0123'
read changes.ndjson 7 = '789'
read changes.ndjson 10 = ''
read changes.ndjson 18446744073709551615 = ''
read absent 0 = ''
read folder 0 = failed
peek changes.ndjson 3 = 0
faults = 2
";

#[test]
fn a_real_folder_is_made_and_read(rt: HostRuntime) -> Result<(), Fail> {
    let found = over_folder(rt, "voy_disk_reads", "voy_disk_reads", READS)?;
    assert_eq!(rt; found.as_str(), READS);
    Ok(())
}

const WRITES: &str = "\
create file.log = ok
write file.log 0 0123456789 = ok
write file.log 2 ab = ok
write file.log 9 XYZ = ok
create file.log = ok
bytes file.log = '01ab45678XYZ'
";

#[test]
fn a_real_file_is_made_and_written(rt: HostRuntime) -> Result<(), Fail> {
    let found = over_folder(rt, "voy_disk_writes", "voy_disk_writes", WRITES)?;
    assert_eq!(rt; found.as_str(), WRITES);
    Ok(())
}

const CUTS: &str = "\
make = ok
put 0123456789 old.log = ok
cut old.log 3 = ok
sync old.log = ok
rename old.log new.log = ok
bytes new.log = '012'
len old.log = none
";

#[test]
fn a_real_file_is_cut_and_renamed(rt: HostRuntime) -> Result<(), Fail> {
    let found = over_folder(rt, "voy_disk_cuts", "voy_disk_cuts", CUTS)?;
    assert_eq!(rt; found.as_str(), CUTS);
    Ok(())
}

const LISTS: &str = "\
list = []
put x b.log = ok
put x a = ok
put x B = ok
put x no-name = ok
put x kein näme = ok
folder folder = ok
link dangling = ok
list = [B;a;b.log;]
faults = 0
";

#[test]
fn a_list_has_plain_files_with_names_in_byte_order(rt: HostRuntime) -> Result<(), Fail> {
    let found = over_folder(rt, "voy_disk_lists", "voy_disk_lists", LISTS)?;
    assert_eq!(rt; found.as_str(), LISTS);
    Ok(())
}

/// Calls of a folder in a folder that is absent, then of one at whose place a file stands, and once that is gone.
const INNER: &str = "\
len changes.ndjson = failed
make = ok
put x inner = ok
read changes.ndjson 0 = failed
list = failed
create changes.ndjson = failed
faults = 4
remove inner = ok
create changes.ndjson = ok
faults = 4
";

#[test]
fn a_folder_that_cannot_be_made_is_a_fault_until_it_can(rt: HostRuntime) -> Result<(), Fail> {
    let found = over_folder(rt, "voy_disk_outer", "voy_disk_outer/inner", INNER)?;
    assert_eq!(rt; found.as_str(), INNER);
    Ok(())
}

/// Calls that a real folder refuses, and how many faults there were after each. It has two files of ten bytes, a
/// folder and a link to nothing.
const REFUSED: &str = "\
make = ok
put 0123456789 first = ok
put 0123456789 second = ok
folder folder = ok
link link = ok
len folder = failed
faults = 1
read folder 0 = failed
faults = 2
create folder = failed
faults = 3
create link = failed
faults = 4
write absent 0 x = failed
faults = 5
write folder 0 x = failed
faults = 6
write first 11 x = failed
faults = 7
cut absent 0 = failed
faults = 8
cut folder 0 = failed
faults = 9
cut first 11 = failed
faults = 10
sync absent = failed
faults = 11
sync folder = failed
faults = 12
rename absent folder = failed
faults = 13
rename folder absent = failed
faults = 14
rename first second = failed
faults = 15
rename first first = failed
faults = 16
rename first link = failed
faults = 17
bytes first = '0123456789'
";

#[test]
fn each_refusal_of_a_real_folder_counts_and_changes_nothing(rt: HostRuntime) -> Result<(), Fail> {
    let found = over_folder(rt, "voy_disk_refuses", "voy_disk_refuses", REFUSED)?;
    assert_eq!(rt; found.as_str(), REFUSED);
    Ok(())
}

/// Calls, and how often the host was asked for a sync after each: the first name makes the folder's own
/// name safe too.
const SYNCED: &str = "\
make = ok
put 0123456789 first = ok
put 0123456789 second = ok
folder folder = ok
len first = 10
syncs = 0
create first = ok
syncs = 2
create absent = ok
syncs = 3
write first 10 x = ok
syncs = 3
cut first 11 = ok
syncs = 3
sync first = ok
syncs = 4
read first 0 = '0123'
syncs = 4
rename first free = ok
syncs = 5
list = [absent;free;second;]
syncs = 5
";

#[test]
fn each_sync_of_a_real_folder_is_asked_of_the_host(rt: HostRuntime) -> Result<(), Fail> {
    let found = over_flaky_folder(rt, "voy_disk_syncs", SYNCED)?;
    assert_eq!(rt; found.as_str(), SYNCED);
    Ok(())
}

/// Calls while the host fails, and how many faults there were after each.
const FAILING: &str = "\
make = ok
put 0123456789 first = ok
put 0123456789 second = ok
folder folder = ok
link link = ok
create first = ok
fail = ok
list = failed
faults = 1
read first 0 = failed
faults = 2
create first = failed
faults = 3
create absent = failed
faults = 4
write first 0 x = failed
faults = 5
cut first 2 = failed
faults = 6
sync first = failed
faults = 7
rename first free = failed
faults = 8
bytes free = '0123456789'
";

#[test]
fn each_failure_of_the_host_is_a_fault(rt: HostRuntime) -> Result<(), Fail> {
    let found = over_flaky_folder(rt, "voy_disk_fails", FAILING)?;
    assert_eq!(rt; found.as_str(), FAILING);
    Ok(())
}

/// Calls of an append and of another file, and how often a file was opened so far.
const OPENED: &str = "\
make = ok
put 0 log = ok
put 0123456789 other = ok
len log = 1
opens = 1
read log 0 = '0'
opens = 1
write log 1 abc = ok
opens = 2
sync log = ok
write log 0 1 = ok
sync log = ok
len log = 4
read log 0 = '1abc'
opens = 2
read other 0 = '0123'
opens = 3
write log 0 0 = ok
opens = 4
bytes log = '0abc'
";

#[test]
fn the_file_of_the_last_call_stays_open(rt: HostRuntime) -> Result<(), Fail> {
    let found = over_flaky_folder(rt, "voy_disk_opens", OPENED)?;
    assert_eq!(rt; found.as_str(), OPENED);
    Ok(())
}

/// A write, a cut and a sync that fail, each of a file of its own, and syncs once the host works again.
const LOST: &str = "\
make = ok
put 0123456789 written = ok
put 0123456789 shortened = ok
put 0123456789 synced = ok
put 0123456789 sound = ok
fail = ok
write written 0 x = failed
cut shortened 2 = failed
sync synced = failed
mend = ok
faults = 3
sync written = failed
sync shortened = failed
sync synced = failed
faults = 6
sync sound = ok
write written 0 y = ok
cut synced 3 = ok
sync written = failed
sync written = failed
sync synced = failed
rename synced renamed = ok
sync renamed = failed
sync sound = ok
faults = 10
bytes written = 'y123456789'
bytes renamed = '012'
";

#[test]
fn a_file_that_may_have_lost_bytes_syncs_no_more(rt: HostRuntime) -> Result<(), Fail> {
    let found = over_flaky_folder(rt, "voy_disk_loses", LOST)?;
    assert_eq!(rt; found.as_str(), LOST);
    Ok(())
}

/// The lines with the answers of a disk over the folder `at`, which is this folder or one in it.
fn over_folder(rt: HostRuntime, folder: &str, at: &str, lines: &str) -> Result<String, Fail> {
    let _ = fs::remove_dir_all(&rt, folder);
    let mut disk = HostDisk::new(rt, rt.alloc(), at)?;
    let mut found = String::new(rt.alloc());
    for line in lines.lines() {
        let call = call_of(line);
        let answer = answer_in(rt, folder, &mut disk, call)?;
        push_line(rt.alloc(), &mut found, call, answer.as_str())?;
    }
    fs::remove_dir_all(&rt, folder)?;
    Ok(found)
}

/// The same over a host that counts its syncs and fails.
fn over_flaky_folder(rt: HostRuntime, folder: &str, lines: &str) -> Result<String, Fail> {
    let _ = fs::remove_dir_all(&rt, folder);
    let notes = Notes::new();
    let host = FlakyHost {
        host: rt,
        notes: &notes,
    };
    let mut disk = HostDisk::new(host, rt.alloc(), folder)?;
    let mut found = String::new(rt.alloc());
    for line in lines.lines() {
        let call = call_of(line);
        let answer = match noted(rt, &notes, call)? {
            Some(answer) => answer,
            None => answer_in(rt, folder, &mut disk, call)?,
        };
        push_line(rt.alloc(), &mut found, call, answer.as_str())?;
    }
    fs::remove_dir_all(&rt, folder)?;
    Ok(found)
}

/// The answer to `syncs`, `opens`, `fail` or `mend`.
fn noted(rt: HostRuntime, notes: &Notes, call: &str) -> Result<Option<String>, Fail> {
    match call {
        "syncs" => Ok(Some(format!(in rt.alloc(); "{}", notes.syncs.get())?)),
        "opens" => Ok(Some(format!(in rt.alloc(); "{}", notes.opens.get())?)),
        "fail" | "mend" => {
            notes.fails.set(call == "fail");
            Ok(Some(String::from_str(rt.alloc(), "ok")?))
        }
        _ => Ok(None),
    }
}

/// What the host, or else the disk, answers to the call.
fn answer_in<R: Files + Drop>(
    rt: HostRuntime,
    folder: &str,
    disk: &mut HostDisk<R>,
    call: &str,
) -> Result<String, Fail> {
    let (kind, rest) = call.split_once(' ').unwrap_or((call, ""));
    match kind {
        "kind" => return kind_of(rt, folder),
        "bytes" => return bytes_of(rt, folder, rest),
        "make" => fs::create_dir(&rt, folder)?,
        "folder" => fs::create_dir(&rt, path(rt, folder, rest)?.as_str())?,
        "link" => symlink(&rt, "absent", path(rt, folder, rest)?.as_str())?,
        "remove" => fs::remove_file(&rt, path(rt, folder, rest)?.as_str())?,
        "put" => put(rt, folder, rest)?,
        _ => return answer(rt.alloc(), disk, call),
    }
    Ok(String::from_str(rt.alloc(), "ok")?)
}

fn put(rt: HostRuntime, folder: &str, words: &str) -> Result<(), Fail> {
    let (text, name) = words.split_once(' ').ok_or("no name")?;
    fs::write(&rt, path(rt, folder, name)?.as_str(), text)?;
    Ok(())
}

fn bytes_of(rt: HostRuntime, folder: &str, name: &str) -> Result<String, Fail> {
    let bytes = fs::read(&rt, path(rt, folder, name)?.as_str())?;
    quoted(rt.alloc(), bytes.as_slice())
}

fn kind_of(rt: HostRuntime, folder: &str) -> Result<String, Fail> {
    let kind = if fs::metadata(&rt, folder)?.is_dir() {
        "folder"
    } else {
        "no folder"
    };
    Ok(String::from_str(rt.alloc(), kind)?)
}

fn path(rt: HostRuntime, folder: &str, name: &str) -> Result<String, Fail> {
    Ok(format!(in rt.alloc(); "{folder}/{name}")?)
}
