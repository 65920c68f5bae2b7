ghost use Rattle.std.specs.Prelude.{◌≡◌, ◌≤◌, ◌<◌, ℕ, suc, List, None, length, IfErr, IfOk, IfSome, IfNone, IsTrue, IsFalse, OnOk};
ghost use Rattle.voy_disk.specs.Faults.{HasCause};
ghost use Rattle.voy_disk.specs.Files.{Files, IfTold};
ghost use Rattle.voy_files.specs.declared.limits.TheConstants.{PIECE_BYTES};
ghost use Rattle.voy_meta.specs.declared.limits.TheConstants.{MAX_SEGMENT};
ghost use Rattle.voy_queue.specs.Reader.{ReadsCommitted, ahead_of, files_content, has_event, left};
ghost use Rattle.voy_queue.specs.Reading.{behind_event, nothing_left, reading_from, vsn_in_front};
ghost use Rattle.voy_queue.specs.Segment.{Tells};
ghost use Rattle.voy_schema.specs.declared.table.Table.{Table};

use crate::error::QueueError;
use crate::names::segment_file;
use crate::reader::Reader;
use crate::segment::OpenSegment;
use std::alloc::{AllocError, Global};
use voy_disk::Disk;
use voy_event::Event;
use voy_meta::MetaState;
use voy_schema::{Items, Schema};

impl Reader {
    /// A reader of the segments that `state` records, from the one of this number on.
    pub fn open(alloc: Global, state: &MetaState, from: u32) -> Result<Reader, AllocError>
        requires from { from ≤ length state.now.segments }
        requires numbered { length state.now.segments ≤ suc MAX_SEGMENT }
        ensures left { IfOk result (λ reader. (schema : List Table) (files : Files) →
            left schema reader files ≡ reading_from schema (files_content files) state.now from) }
        ensures committed { IfOk result (λ reader. (files : Files) → ReadsCommitted reader files) }
    {
        let mut segments = Items::new(alloc);
        segments.append_slice(state.segments.as_slice())?;
        let vsn = vsn_in_front(state, from);
        Ok(Reader {
            alloc,
            segments,
            next: from,
            vsn,
            current: None,
        })
    }

    /// The next event. `None` where no committed byte is left and nothing more must stand there. `Damaged` where the next line is not the one
    /// that must stand there, or is not whole. After an error the reader is given up.
    pub fn next<D: Disk>(
        &mut self,
        disk: &mut D,
        schema: &Schema,
    ) -> Result<Option<Event>, QueueError>
        ensures some { IfOk result (λ found. IfSome found (λ event. IfTold (D.files disk.old) (λ fs.
            left schema.now.tables self.old fs ≡ behind_event event (left schema.now.tables self.new fs)))) }
        ensures none { IfOk result (λ found. IfNone found (IfTold (D.files disk.old) (λ fs. left schema.now.tables self.old fs ≡ nothing_left))) }
        ensures still { IfOk result (λ found. IfNone found (IfTold (D.files disk.old) (λ fs. left schema.now.tables self.new fs ≡ nothing_left))) }
        ensures damaged { IfErr result (λ error. IfTold (D.files disk.old) (λ fs. Tells error (left schema.now.tables self.old fs))) }
        ensures committed { IfOk result (λ _. IfTold (D.files disk.old) (λ fs. ReadsCommitted self.old fs → ReadsCommitted self.new fs)) }
        ensures same { D.files disk.new ≡ D.files disk.old }
        ensures cause { HasCause QueueError.Fault (D.faults disk.old) (D.faults disk.new) result }
        ensures lender { D.lender disk.new ≡ D.lender disk.old }
    {
        if !self.find_event(disk)? {
            return Ok(None);
        }
        let event = self.take_event(disk, schema)?;
        Ok(Some(event))
    }

    /// The bytes that were read from the disk and not given yet, from where the next line begins: at most
    /// [`PIECE_BYTES`](voy_files::PIECE_BYTES).
    pub fn ahead(&self) -> &[u8]
        ensures bytes { result.now ≡ ahead_of self.now }
        ensures few { length result.now ≤ PIECE_BYTES }
    {
        match &self.current {
            Some(segment) => segment.lines.ahead(),
            None => &[],
        }
    }

    /// Goes on to a segment that has an event left; false where none has.
    fn find_event<D: Disk>(&mut self, disk: &mut D) -> Result<bool, QueueError>
        ensures found { IfOk result (λ found. IsTrue found → IsTrue (has_event self.new)) }
        ensures none { IfOk result (λ found. IsFalse found → IfTold (D.files disk.old) (λ fs. (schema : List Table) → left schema self.new fs ≡ nothing_left)) }
        ensures left { IfOk result (λ _. IfTold (D.files disk.old) (λ fs. (schema : List Table) → left schema self.new fs ≡ left schema self.old fs)) }
        ensures damaged { IfErr result (λ error. IfTold (D.files disk.old) (λ fs. (schema : List Table) → Tells error (left schema self.old fs))) }
        ensures committed { IfOk result (λ _. IfTold (D.files disk.old) (λ fs. ReadsCommitted self.old fs → ReadsCommitted self.new fs)) }
        ensures same { D.files disk.new ≡ D.files disk.old }
        ensures cause { HasCause QueueError.Fault (D.faults disk.old) (D.faults disk.new) result }
        ensures lender { D.lender disk.new ≡ D.lender disk.old }
    {
        while !self.has_event() {
            if !self.go_on(disk)? {
                return Ok(false);
            }
        }
        Ok(true)
    }

    /// Ends the segment that is read, which has no event left, and begins the next; false where there is none.
    fn go_on<D: Disk>(&mut self, disk: &mut D) -> Result<bool, QueueError>
        requires { IsFalse (has_event self.old) }
        ensures more { IfOk result (λ more. IsTrue more → (self.new.next ≡ suc self.old.next) × (self.old.next < length self.old.segments)) }
        ensures segments { self.new.segments ≡ self.old.segments }
        ensures none { IfOk result (λ more. IsFalse more → IfTold (D.files disk.old) (λ fs. (schema : List Table) → left schema self.new fs ≡ nothing_left)) }
        ensures left { IfOk result (λ _. IfTold (D.files disk.old) (λ fs. (schema : List Table) → left schema self.new fs ≡ left schema self.old fs)) }
        ensures damaged { IfErr result (λ error. IfTold (D.files disk.old) (λ fs. (schema : List Table) → Tells error (left schema self.old fs))) }
        ensures committed { IfOk result (λ _. (files : Files) → ReadsCommitted self.new files) }
        ensures same { D.files disk.new ≡ D.files disk.old }
        ensures cause { HasCause QueueError.Fault (D.faults disk.old) (D.faults disk.new) result }
        ensures lender { D.lender disk.new ≡ D.lender disk.old }
    {
        self.end_segment(disk)?;
        let begun = self.begin_segment()?;
        Ok(begun)
    }

    /// Whether the segment that is read has an event left.
    fn has_event(&self) -> bool
        ensures { result ≡ has_event self.now }
    {
        match &self.current {
            Some(segment) => self.vsn < segment.state.last_vsn,
            None => false,
        }
    }

    /// Ends the segment that is read, which has no event left.
    fn end_segment<D: Disk>(&mut self, disk: &mut D) -> Result<(), QueueError>
        requires { IsFalse (has_event self.old) }
        ensures none { IfOk result (λ _. self.new.current ≡ None) }
        ensures next { self.new.next ≡ self.old.next }
        ensures segments { self.new.segments ≡ self.old.segments }
        ensures left { IfOk result (λ _. IfTold (D.files disk.old) (λ fs. (schema : List Table) → left schema self.new fs ≡ left schema self.old fs)) }
        ensures damaged { IfErr result (λ error. IfTold (D.files disk.old) (λ fs. (schema : List Table) → Tells error (left schema self.old fs))) }
        ensures same { D.files disk.new ≡ D.files disk.old }
        ensures cause { HasCause QueueError.Fault (D.faults disk.old) (D.faults disk.new) result }
        ensures lender { D.lender disk.new ≡ D.lender disk.old }
    {
        if let Some(mut segment) = self.current.take() {
            segment.end(disk)?;
            self.vsn = segment.state.last_vsn;
        }
        Ok(())
    }

    /// Begins the next segment; false where there is none.
    fn begin_segment(&mut self) -> Result<bool, AllocError>
        requires { self.old.current ≡ None }
        ensures begun { IfOk result (λ begun. IsTrue begun → (self.new.next ≡ suc self.old.next) × (self.old.next < length self.old.segments)) }
        ensures segments { self.new.segments ≡ self.old.segments }
        ensures none { IfOk result (λ begun. IsFalse begun → (schema : List Table) (fs : Files) → left schema self.new fs ≡ nothing_left) }
        ensures left { IfOk result (λ _. (schema : List Table) (fs : Files) → left schema self.new fs ≡ left schema self.old fs) }
        ensures committed { IfOk result (λ _. (files : Files) → ReadsCommitted self.new files) }
        ensures next { IfErr result (λ _. self.new ≡ self.old) }
    {
        let Some(state) = self.segments.get(self.next as usize) else {
            return Ok(false);
        };
        let state = *state;
        let name = segment_file(self.alloc, self.next)?;
        self.current = Some(OpenSegment::new(self.alloc, name, self.next, state));
        self.next += 1;
        Ok(true)
    }

    /// The next event of the segment that is read.
    fn take_event<D: Disk>(&mut self, disk: &mut D, schema: &Schema) -> Result<Event, QueueError>
        requires { IsTrue (has_event self.old) }
        ensures some { IfOk result (λ event. IfTold (D.files disk.old) (λ fs.
            left schema.now.tables self.old fs ≡ behind_event event (left schema.now.tables self.new fs))) }
        ensures damaged { IfErr result (λ error. IfTold (D.files disk.old) (λ fs. Tells error (left schema.now.tables self.old fs))) }
        ensures committed { IfOk result (λ _. IfTold (D.files disk.old) (λ fs. ReadsCommitted self.old fs → ReadsCommitted self.new fs)) }
        ensures same { D.files disk.new ≡ D.files disk.old }
        ensures cause { HasCause QueueError.Fault (D.faults disk.old) (D.faults disk.new) result }
        ensures lender { D.lender disk.new ≡ D.lender disk.old }
    {
        let Some(mut segment) = self.current.take() else {
            unreachable!()
        };
        let vsn = self.vsn + 1;
        let event = segment.take_event(self.alloc, disk, schema, vsn)?;
        self.vsn = vsn;
        self.current = Some(segment);
        Ok(event)
    }
}

/// The vsn of the last event in front of the segment of this number.
fn vsn_in_front(state: &MetaState, number: u32) -> u64
    ensures { result ≡ vsn_in_front state.now number }
{
    let Some(before) = (number as usize).checked_sub(1) else {
        return 0;
    };
    match state.segments.get(before) {
        Some(segment) => segment.last_vsn,
        None => 0,
    }
}
