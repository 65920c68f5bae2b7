use std::alloc::{AllocGlobal, Global};
use std::process::Abort;
use std::test::Fail;
use voy_disk::{Disk, MemDisk};
use voy_export::{ExportError, Which};
use voy_export_drive::{Order, Trouble, export};
use voy_meta::{Meta, MetaError, MetaRecord};
use voy_schema::Schema;
use voy_tables::{Role, Side};
use voy_test_disks::{failing_disk, name_of, stopping_disk};

pub(crate) const SCHEMA: &str =
    "{\"tables\":[{\"schema_name\":\"public\",\"table_name\":\"users\",\"columns\":[{\"name\":\"id\",\"type\":\"bigint\"}],\"primary_key\":[\"id\"],\"unique_keys\":[]},{\"schema_name\":\"public\",\"table_name\":\"notes\",\"columns\":[{\"name\":\"id\",\"type\":\"text\"}],\"primary_key\":[\"id\"],\"unique_keys\":[]}]}";

/// A segment is closed with its second change.
pub(crate) const SEGMENT_BYTES: u64 = 200;

/// How many changes each exporter has recorded.
const CHANGES: u64 = 5;

/// How many outages are tried at each call, and how many ways in which a call that fails leaves its file.
const CHOICES: u64 = 50;

const LEAVES: u64 = 10;

/// One step of the work.
#[derive(Clone, Copy)]
enum Step {
    Export { role: Role, max: Option<u64> },
    Put(MetaRecord),
}

/// Both exporters export all, in several exports, and a cutover at the end of each.
const STEPS: [Step; 7] = [
    Step::Export {
        role: Role::Source,
        max: Some(3),
    },
    Step::Put(MetaRecord::Request {
        side: Side::Target,
        fall_back: true,
    }),
    Step::Export {
        role: Role::Source,
        max: None,
    },
    Step::Put(MetaRecord::Done { side: Side::Target }),
    Step::Export {
        role: Role::Target,
        max: None,
    },
    Step::Put(MetaRecord::Request {
        side: Side::Source,
        fall_back: false,
    }),
    Step::Export {
        role: Role::Target,
        max: None,
    },
];

/// How many calls two disks had.
#[derive(Clone, Copy)]
struct Calls {
    recording: u64,
    export: u64,
}

/// The recorded change of this number; the third is given again.
fn push_change(alloc: Global, number: u64, lines: &mut String) -> Result<(), Fail> {
    let line = format!(in alloc;
        "{{\"commit\":{number},\"seq\":1,\"op\":\"c\",\"schema_name\":\"public\",\"table_name\":\"users\",\"key\":{{\"id\":\"{number}\"}},\"fields\":{{\"id\":\"{number}\"}},\"before_fields\":null}}\n"
    )?;
    lines.push_str(line.as_str())?;
    if number == 3 {
        lines.push_str(line.as_str())?;
    }
    Ok(())
}

/// Puts the recording of both exporters on a disk.
fn put_recording(alloc: Global, disk: &mut MemDisk) -> Result<(), Fail> {
    let mut lines = String::new(alloc);
    'changes: for number in 1..=CHANGES {
        push_change(alloc, number, &mut lines)?;
    }
    let lines = lines.as_str().as_bytes();
    disk.put_file(&name_of(alloc, "public.users.csv")?, b"id\n20\n10\n")?;
    disk.put_file(&name_of(alloc, "public.notes.csv")?, b"id\nn\n")?;
    disk.put_file(&name_of(alloc, "changes.ndjson")?, lines)?;
    disk.put_file(&name_of(alloc, "target_changes.ndjson")?, lines)?;
    Ok(())
}

/// Puts a record that may be put; false after a fault.
fn put_record<D: Disk>(alloc: Global, disk: &mut D, entry: MetaRecord) -> Result<bool, Fail> {
    let mut meta = match Meta::open(alloc, disk) {
        Ok(meta) => meta,
        Err(MetaError::Fault) => return Ok(false),
        Err(_) => return Err("metadata that do not open".into()),
    };
    if !meta.allowed(&entry) {
        return Ok(true);
    }
    match meta.put(disk, entry) {
        Ok(()) => Ok(true),
        Err(MetaError::Fault) => Ok(false),
        Err(_) => Err("a record that is not put".into()),
    }
}

/// Does one step; which disk failed, if one did.
fn take_step(
    alloc: Global,
    schema: &Schema,
    step: Step,
    recording: &mut MemDisk,
    disk: &mut MemDisk,
) -> Result<Option<Which>, Fail> {
    match step {
        Step::Export { role, max } => {
            let order = Order {
                role,
                max,
                segment_bytes: SEGMENT_BYTES,
            };
            match export(alloc, schema, recording, disk, order) {
                Ok(_) => Ok(None),
                Err(Trouble::Export(ExportError::Fault(which))) => Ok(Some(which)),
                Err(_) => Err("an export that answers otherwise".into()),
            }
        }
        Step::Put(entry) => {
            if put_record(alloc, disk, entry)? {
                Ok(None)
            } else {
                Ok(Some(Which::Export))
            }
        }
    }
}

/// Does all steps, up to the first at which a disk fails, and answers which one. A step that was done before adds nothing.
fn work(alloc: Global, recording: &mut MemDisk, disk: &mut MemDisk) -> Result<Option<Which>, Fail> {
    let schema = Schema::read(alloc, SCHEMA.as_bytes())?;
    'steps: for step in STEPS.iter() {
        let failed = take_step(alloc, &schema, *step, recording, disk)?;
        if failed.is_some() {
            return Ok(failed);
        }
    }
    Ok(None)
}

/// What the metadata come to, and each other file, byte for byte.
fn standing(alloc: Global, disk: &mut MemDisk) -> Result<String, Fail> {
    let meta = Meta::open(alloc, disk)?;
    let state = meta.state();
    let mut shown = format!(in alloc; "{state:?}")?;
    let names = disk.list()?;
    'names: for name in names.as_slice() {
        if name.as_str() == "meta.journal" {
            continue 'names;
        }
        let Some(bytes) = disk.file(name) else {
            return Err("a listed file is absent".into());
        };
        let Ok(text) = str::from_utf8(bytes) else {
            return Err("a file that is no text".into());
        };
        shown.push_str(name.as_str())?;
        shown.push_str(text)?;
    }
    Ok(shown)
}

/// What stands behind work that was never stopped.
fn unstopped(alloc: Global) -> Result<String, Fail> {
    let (mut recording, mut disk) = (stopping_disk(alloc, 0, 0), stopping_disk(alloc, 0, 0));
    put_recording(alloc, &mut recording)?;
    if work(alloc, &mut recording, &mut disk)?.is_some() {
        return Err("a fault that was not planned".into());
    }
    standing(alloc, &mut disk)
}

/// How many calls each disk has, where just this call of this disk fails; 0 for none.
fn calls_until(alloc: Global, on: Which, call: u64) -> Result<Calls, Fail> {
    let (mut recording, mut disk) = match on {
        Which::Recording => (failing_disk(alloc, call, 0)?, stopping_disk(alloc, 0, 0)),
        Which::Export => (stopping_disk(alloc, 0, 0), failing_disk(alloc, call, 0)?),
    };
    put_recording(alloc, &mut recording)?;
    work(alloc, &mut recording, &mut disk)?;
    Ok(Calls {
        recording: recording.calls(),
        export: disk.calls(),
    })
}

/// Work over these two disks, of which one fails, and the same again over what it left.
fn try_again(
    rt: &(impl Abort + AllocGlobal),
    on: Which,
    call: u64,
    whole: &str,
    recording: &mut MemDisk,
    disk: &mut MemDisk,
    outage: Option<u64>,
) -> Result<(), Fail> {
    let alloc = rt.alloc();
    put_recording(alloc, recording)?;
    let failed = work(alloc, recording, disk)?;
    assert_eq!(rt; failed, Some(on));
    if let Some(choice) = outage {
        recording.crash(choice)?;
        disk.crash(choice)?;
    }
    let again = work(alloc, recording, disk)?;
    let stand = standing(alloc, disk)?;
    assert_eq!(rt; again, None);
    assert!(rt;
        stand.as_str() == whole,
        "call {call} of {on:?}, outage {outage:?}"
    );
    Ok(())
}

/// The work, which this call of this disk stops, an outage of both disks, and the same work again.
fn try_stop(
    rt: &(impl Abort + AllocGlobal),
    on: Which,
    call: u64,
    choice: u64,
    whole: &str,
) -> Result<(), Fail> {
    let alloc = rt.alloc();
    let (mut recording, mut disk) = match on {
        Which::Recording => (
            stopping_disk(alloc, call, choice),
            stopping_disk(alloc, 0, 0),
        ),
        Which::Export => (
            stopping_disk(alloc, 0, 0),
            stopping_disk(alloc, call, choice),
        ),
    };
    try_again(rt, on, call, whole, &mut recording, &mut disk, Some(choice))
}

/// The work, of which just this call of this disk fails, and the same work again on the disks as left.
fn try_fault(
    rt: &(impl Abort + AllocGlobal),
    on: Which,
    call: u64,
    leaves: u64,
    whole: &str,
) -> Result<(), Fail> {
    let alloc = rt.alloc();
    let (mut recording, mut disk) = match on {
        Which::Recording => (
            failing_disk(alloc, call, leaves)?,
            stopping_disk(alloc, 0, 0),
        ),
        Which::Export => (
            stopping_disk(alloc, 0, 0),
            failing_disk(alloc, call, leaves)?,
        ),
    };
    try_again(rt, on, call, whole, &mut recording, &mut disk, None)
}

#[test]
fn all_is_exported_where_no_disk_fails(rt: HostRuntime) -> Result<(), Fail> {
    let alloc = rt.alloc();
    let (mut recording, mut disk) = (stopping_disk(alloc, 0, 0), stopping_disk(alloc, 0, 0));
    put_recording(alloc, &mut recording)?;
    let failed = work(alloc, &mut recording, &mut disk)?;
    let meta = Meta::open(alloc, &mut disk)?;
    let (last, tables) = (meta.state().last_vsn(), meta.state().snapshots.len());
    let ended = meta.state().ended(Role::Source) && meta.state().ended(Role::Target);
    assert_eq!(rt; failed, None);
    assert_eq!(rt; last, 2 * (CHANGES + 1));
    assert_eq!(rt; tables, 2);
    assert!(rt; ended);
    Ok(())
}

#[test]
fn no_disk_is_called_behind_a_call_that_failed(rt: HostRuntime) -> Result<(), Fail> {
    let alloc = rt.alloc();
    let all = calls_until(alloc, Which::Recording, 0)?;
    // the last call of the other disk stands in front of the one that fails: where that one fails, this one is not reached
    for call in 1..=all.recording {
        let here = calls_until(alloc, Which::Recording, call)?;
        let before = calls_until(alloc, Which::Export, here.export)?;
        assert_eq!(rt; here.recording, call);
        assert!(rt; before.recording < call, "call {call} of the recording");
    }
    for call in 1..=all.export {
        let here = calls_until(alloc, Which::Export, call)?;
        let before = calls_until(alloc, Which::Recording, here.recording)?;
        assert_eq!(rt; here.export, call);
        assert!(rt;
            here.recording == 0 || before.export < call,
            "call {call} of the export"
        );
    }
    Ok(())
}

#[test]
fn an_export_behind_a_stop_of_the_export_gives_the_same(rt: HostRuntime) -> Result<(), Fail> {
    let alloc = rt.alloc();
    let whole = unstopped(alloc)?;
    let all = calls_until(alloc, Which::Export, 0)?;
    for call in 1..=all.export {
        for choice in 0..CHOICES {
            try_stop(&rt, Which::Export, call, choice, whole.as_str())?;
        }
    }
    Ok(())
}

#[test]
fn an_export_behind_a_stop_of_the_recording_gives_the_same(rt: HostRuntime) -> Result<(), Fail> {
    let alloc = rt.alloc();
    let whole = unstopped(alloc)?;
    let all = calls_until(alloc, Which::Recording, 0)?;
    for call in 1..=all.recording {
        for choice in 0..CHOICES {
            try_stop(&rt, Which::Recording, call, choice, whole.as_str())?;
        }
    }
    Ok(())
}

#[test]
fn an_export_behind_a_fault_of_the_export_gives_the_same(rt: HostRuntime) -> Result<(), Fail> {
    let alloc = rt.alloc();
    let whole = unstopped(alloc)?;
    let all = calls_until(alloc, Which::Export, 0)?;
    for call in 1..=all.export {
        for leaves in 0..LEAVES {
            try_fault(&rt, Which::Export, call, leaves, whole.as_str())?;
        }
    }
    Ok(())
}

#[test]
fn an_export_behind_a_fault_of_the_recording_gives_the_same(rt: HostRuntime) -> Result<(), Fail> {
    let alloc = rt.alloc();
    let whole = unstopped(alloc)?;
    let all = calls_until(alloc, Which::Recording, 0)?;
    for call in 1..=all.recording {
        try_fault(&rt, Which::Recording, call, 0, whole.as_str())?;
    }
    Ok(())
}
