ghost use Rattle.std.specs.Prelude.{◌≡◌, ◌≢◌, ◌⊎◌, IfErr, IfOk};
ghost use Rattle.voy_disk.specs.HostDisk.{host_disk_folder};
ghost use Rattle.voy_disk.specs.Written.{GotFront};
ghost use Rattle.voy_command.specs.Answer.{status_of, text_on_err};
ghost use Rattle.voy_command.specs.Words.{IsBelow, folder_below};

use crate::answer::Answer;
use crate::commands::run;
use std::alloc::{AllocError, Global};
use std::env;
use std::io::ErrorKind;
use std::rt::Env;
use voy_disk::{HostDisk, HostSink, Place, Sink};
use voy_words::export_dir;

/// Runs the program over the folders below the one that its words name, and gives the exit status.
pub fn start(rt: HostRuntime) -> u8 {
    let mut out = HostSink::out(rt.stdout());
    let mut err = HostSink::err(rt.stderr());
    let words = match words_of(&rt) {
        Ok(words) => words,
        Err(stop) => return refuse(rt.alloc(), stop, &mut err),
    };
    let Some(folder) = export_dir(&words) else {
        return refuse(rt.alloc(), Answer::NoCommand, &mut err);
    };
    let Ok(mut place) = place_below(rt, folder) else {
        return refuse(rt.alloc(), Answer::NoMemory, &mut err);
    };
    let command = words.get(2..).unwrap_or(&[]);
    run(rt.alloc(), command, &mut place, &mut out, &mut err)
}

/// The words behind the program's name. Where one of its arguments is not UTF-8, they are no command.
pub fn words_of<R: Env + AllocGlobal>(rt: &R) -> Result<Vec<String>, Answer>
    ensures { IfErr result (λ a. (a ≡ Answer.NoCommand) ⊎ (a ≡ Answer.NoMemory)) }
{
    let args = match env::args(rt) {
        Ok(args) => args,
        Err(error) => return Err(unread_args(error.kind())),
    };
    let mut words = Vec::new(rt.alloc());
    for word in args.skip(1) {
        if words.push(word).is_err() {
            return Err(Answer::NoMemory);
        }
    }
    Ok(words)
}

/// What is answered where the arguments cannot be had. `InvalidData` is that of arguments that are not UTF-8.
fn unread_args(kind: ErrorKind) -> Answer
    ensures no_text { kind ≡ ErrorKind.InvalidData → result ≡ Answer.NoCommand }
    ensures no_memory { kind ≢ ErrorKind.InvalidData → result ≡ Answer.NoMemory }
{
    match kind {
        ErrorKind::InvalidData => Answer::NoCommand,
        _ => Answer::NoMemory,
    }
}

/// Tells an answer to a program that did nothing, and gives its exit status.
pub fn refuse<K: Sink>(alloc: Global, answer: Answer, err: &mut K) -> u8
    ensures status { result ≡ status_of answer }
    ensures told { GotFront (text_on_err answer) (K.written err.old) (K.written err.new) }
{
    answer.tell(alloc, err);
    answer.status()
}

/// The four disks below a folder, each a folder of its name.
fn place_below(rt: HostRuntime, folder: &str) -> Result<Place<HostDisk<HostRuntime>>, AllocError>
    ensures { IfOk result (λ place. IsBelow folder.now (host_disk_folder place.recording) (host_disk_folder place.export) (host_disk_folder place.target) (host_disk_folder place.source)) }
{
    let recording = disk_below(rt, folder, "recording")?;
    let export = disk_below(rt, folder, "export")?;
    let target = disk_below(rt, folder, "target")?;
    let source = disk_below(rt, folder, "source")?;
    Ok(Place {
        recording,
        export,
        target,
        source,
    })
}

fn disk_below(
    rt: HostRuntime,
    folder: &str,
    name: &str,
) -> Result<HostDisk<HostRuntime>, AllocError>
    ensures { IfOk result (λ disk. host_disk_folder disk ≡ folder_below folder.now name.now) }
{
    let path = format!(in rt.alloc(); "{folder}/{name}")?;
    HostDisk::new(rt, rt.alloc(), path.as_str())
}
