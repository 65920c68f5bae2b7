ghost use Rattle.std.specs.Prelude.{◌≡◌, true, Some, IfErr, IfOk};
ghost use Rattle.voy_disk.specs.Faults.{Rose};
ghost use Rattle.voy_disk.specs.Files.{IfTold, bytes_now};
ghost use Rattle.voy_report.specs.Show.{tables_text};
ghost use Rattle.voy_store.specs.Stored.{store_name};
ghost use Rattle.voy_txn.specs.Commits.{IsOneHistory};
ghost use Rattle.voy_txn.specs.Contents.{contents_of};
ghost use Rattle.voy_txn.specs.History.{History};
ghost use Rattle.voy_command.specs.Commands.Show.{KeepsStore, ShowsText, show_part};
ghost use Rattle.voy_command.specs.Commands.Show.Stops.{StopsStore, open_stop};
ghost use Rattle.voy_command.specs.Course.{Course, store_at};
ghost use Rattle.voy_command.specs.Part.{Does};

use crate::answer::{Answer, FileName, Which};
use crate::laws::stores_have_one_text;
use crate::print::print_text;
use crate::recorded::read_schema;
use std::alloc::Global;
use voy_disk::{Disk, Place, Sink};
use voy_report::show_text;
use voy_schema::{Bytes, Copies, Schema};
use voy_store::{JournalStore, OpenError};
use voy_tables::Side;
use voy_txn::Store;

/// Opens the store on the disk of that side by the recorded schema, which makes its journal where there is
/// none, and prints its tables.
pub fn show<D: Disk, K: Sink>(
    alloc: Global,
    side: Side,
    place: &mut Place<D>,
    out: &mut K,
) -> Answer
    ensures { let c : Course D K = record {
      files = D.files;
      faults = D.faults;
      written = K.written;
      failures = K.faults;
      old = record { place = place.old; out = out.old };
      new = record { place = place.new; out = out.new };
    } in
        Does (show_part side c) c result }
{
    // The law that completeness rests on; there is nothing to run.
    stores_have_one_text();
    let schema = match read_schema(alloc, &mut place.recording) {
        Ok(schema) => schema,
        Err(stop) => return stop,
    };
    let text = match read_side(alloc, side, schema, &mut place.target, &mut place.source) {
        Ok(text) => text,
        Err(stop) => return stop,
    };
    match print_text(text.as_slice(), out) {
        Ok(()) => Answer::Shown,
        Err(stop) => stop,
    }
}

/// The text of the store of that side.
fn read_side<D: Disk>(
    alloc: Global,
    side: Side,
    schema: Schema,
    target: &mut D,
    source: &mut D,
) -> Result<Bytes, Answer>
    ensures ok { IfOk result (λ text. IfTold (D.files (store_at side target.old source.old)) (λ fs.
        ShowsText schema.tables (bytes_now (fs store_name)) (D.files (store_at side target.new source.new)) text)) }
    ensures err { IfErr result (StopsStore side schema.tables (D.files (store_at side target.old source.old))
        (Rose (D.faults (store_at side target.old source.old)) (D.faults (store_at side target.new source.new)))) }
    ensures store { KeepsStore (D.files (store_at side target.old source.old)) (D.files (store_at side target.new source.new)) }
    ensures other { store_at side source.new target.new ≡ store_at side source.old target.old }
{
    match side {
        Side::Target => read_store(alloc, side, schema, target),
        Side::Source => read_store(alloc, side, schema, source),
    }
}

/// The text of the store on this disk.
fn read_store<D: Disk>(
    alloc: Global,
    side: Side,
    schema: Schema,
    disk: &mut D,
) -> Result<Bytes, Answer>
    ensures ok { IfOk result (λ text. IfTold (D.files disk.old) (λ fs. ShowsText schema.tables (bytes_now (fs store_name)) (D.files disk.new) text)) }
    ensures err { IfErr result (StopsStore side schema.tables (D.files disk.old) (Rose (D.faults disk.old) (D.faults disk.new))) }
    ensures store { KeepsStore (D.files disk.old) (D.files disk.new) }
{
    let Ok(of_store) = schema.copy() else {
        return Err(Answer::NoMemory);
    };
    match JournalStore::open(alloc, of_store, disk) {
        Ok(store) => {
            let text = text_of(alloc, &schema, &store);
            let _disk = store.into_disk();
            text
        }
        Err(refused) => Err(open_stop(side, refused.why)),
    }
}

/// The text of a store, which is that of its history where it tells one. A stop leaves just that history.
fn text_of<S: Store>(alloc: Global, schema: &Schema, store: &S) -> Result<Bytes, Answer>
    requires schema { schema.now.tables ≡ S.schema store.now }
    requires live { S.is_live store.now ≡ true }
    requires stands { S.stands store.now }
    ensures one { IsOneHistory (S.history store.now) (S.images store.now) }
    ensures ok { IfOk result (λ text. (history : History) → S.history store.now ≡ Some history
        → text ≡ tables_text schema.now.tables (contents_of schema.now.tables history).tables) }
    ensures err { IfErr result (λ stop. stop ≡ Answer.NoMemory) }
{
    let mut text = Bytes::new(alloc);
    match show_text(alloc, schema, store, &mut text) {
        Ok(()) => Ok(text),
        Err(_) => Err(Answer::NoMemory),
    }
}

/// What is answered of a store that was not opened.
fn open_stop(side: Side, why: OpenError) -> Answer
    ensures { result ≡ open_stop side why }
{
    match why {
        OpenError::Fault => Answer::Fault(Which::Store(side)),
        OpenError::Damaged { offset } => Answer::Damaged {
            disk: Which::Store(side),
            file: FileName::Journal,
            offset,
        },
        OpenError::NoMemory => Answer::NoMemory,
    }
}
