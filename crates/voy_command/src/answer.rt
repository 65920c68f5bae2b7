ghost use Rattle.std.specs.Prelude.{◌≡◌, ◌<◌, ◌++◌, codes, decimal, OnOk};
ghost use Rattle.voy_disk.specs.Written.{GotFront};
ghost use Rattle.voy_words.specs.Table.{number_of};
ghost use Rattle.voy_command.specs.Answer.{cause_file, cause_line, cause_why, disk_name, file_name, phrase_text, status_of, text_on_err, unbuilt_text};
ghost use Rattle.voy_command.specs.Stops.{disk_stop};

use itoa::Buffer;
use std::alloc::{AllocError, Global};
use voy_disk::{DiskError, Sink, write_all};
use voy_event::LineWhy;
use voy_schema::{Bytes, SchemaWhy};
use voy_tables::Side;
use voy_words::Phrase;

/// A disk of the place.
#[derive(Clone, Copy, Debug, PartialEq, Eq)]
pub enum Which {
    Recording,
    Export,
    /// The disk of this side's store.
    Store(Side),
}

impl Which {
    /// The name of its folder.
    #[tactic(auto, unfolding(crate::specs::Answer::disk_name))]
    fn name(self) -> &'static str
        ensures { result.now ≡ disk_name self }
    {
        match self {
            Which::Recording => "recording",
            Which::Export => "export",
            Which::Store(Side::Target) => "target",
            Which::Store(Side::Source) => "source",
        }
    }
}

/// A file that an answer names.
#[derive(Clone, Copy, Debug, PartialEq, Eq)]
pub enum FileName {
    /// The recording's schema.
    Schema,
    /// The first segment of the export.
    Segment,
    /// The journal of a store.
    Journal,
}

impl FileName {
    #[tactic(auto, unfolding(crate::specs::Answer::file_name))]
    fn text(self) -> &'static str
        ensures { result.now ≡ file_name self }
    {
        match self {
            FileName::Schema => "schema.json",
            FileName::Segment => "segment.0.ndjson",
            FileName::Journal => "store.journal",
        }
    }
}

/// The part of the recording that breaks a rule, and the rule.
#[derive(Clone, Copy, Debug, PartialEq, Eq)]
pub enum Cause {
    /// There is no schema.
    MissingSchema,
    /// A table of the schema, from 1, or 0 for the document.
    Schema { table: u32, why: SchemaWhy },
    /// A line of the segment, from 1.
    Segment { line: u64, why: LineWhy },
}

/// What is not built yet.
#[derive(Clone, Copy, Debug, PartialEq, Eq)]
pub enum Unbuilt {
    /// The command of this phrase.
    Command(Phrase),
    /// The reading of metadata, which a dry run needs where they are there.
    Metadata,
}

impl Unbuilt {
    #[tactic(auto, unfolding(crate::specs::Answer::unbuilt_text))]
    fn text(self) -> &'static str
        ensures { result.now ≡ unbuilt_text self }
    {
        match self {
            Unbuilt::Command(phrase) => phrase_text(phrase),
            Unbuilt::Metadata => "meta.journal",
        }
    }
}

/// What a command answers.
#[derive(Clone, Copy, Debug, PartialEq, Eq)]
pub enum Answer {
    /// The cutover event was reached.
    Done,
    /// The committed events ended before a cutover event.
    Waiting,
    /// The store was shown.
    Shown,
    /// No phrase of a command is a prefix of the words.
    NoCommand,
    /// The words after this phrase have no reading.
    NoReading(Phrase),
    /// This disk failed: its count of faults rose.
    Fault(Which),
    NoMemory,
    /// The file on this disk is damaged at this offset.
    Damaged {
        disk: Which,
        file: FileName,
        offset: u64,
    },
    /// The change with this vsn does not fit the fold of those before it.
    Invalid {
        vsn: u64,
    },
    /// The recording breaks a rule that is no limit.
    Refused(Cause),
    /// The output failed: its count of faults rose.
    OutputFault,
    /// A line of the file, from 1, or a row text in it, has too many bytes.
    TooLong {
        file: FileName,
        line: u64,
    },
    /// The command needs what is not built yet.
    NotBuilt(Unbuilt),
}

impl Answer {
    /// The exit status of the program.
    pub fn status(self) -> u8
        ensures { result ≡ status_of self }
    {
        match self {
            Answer::Done | Answer::Shown => 0,
            Answer::NoCommand | Answer::NoReading(_) => 1,
            Answer::Fault(_) => 2,
            Answer::NoMemory => 3,
            Answer::Waiting => 4,
            Answer::Damaged { .. } => 5,
            Answer::Invalid { .. } => 7,
            Answer::Refused(_) => 8,
            Answer::OutputFault => 9,
            Answer::TooLong { .. } => 10,
            Answer::NotBuilt(_) => 11,
        }
    }

    /// Writes the answer's text to `err`: whole, unless `err` fails or memory is not found, and then a
    /// prefix of it.
    pub fn tell<K: Sink>(self, alloc: Global, err: &mut K)
        ensures { GotFront (text_on_err self) (K.written err.old) (K.written err.new) }
    {
        let mut text = Bytes::new(alloc);
        if self.append_text(&mut text).is_err() {
            return;
        }
        let _ = write_all(err, text.as_slice());
    }

    /// Appends the answer's text.
    #[tactic(auto, unfolding(crate::specs::Answer::text_on_err))]
    fn append_text(self, to: &mut Bytes) -> Result<(), AllocError>
        ensures { OnOk result (to.new ≡ to.old ++ text_on_err self) }
    {
        match self {
            Answer::Done | Answer::Waiting | Answer::Shown => Ok(()),
            Answer::NoCommand => to.append_slice(b"voyager: no such command\n"),
            Answer::NoReading(phrase) => append_between(
                b"voyager: the words after \"",
                phrase_text(phrase),
                b"\" have no reading\n",
                to,
            ),
            Answer::Fault(disk) => {
                append_between(b"voyager: disk fault: ", disk.name(), b"\n", to)
            }
            Answer::NoMemory => to.append_slice(b"voyager: out of memory\n"),
            Answer::Damaged { disk, file, offset } => {
                append_damage(disk.name(), file.text(), offset, to)
            }
            Answer::Invalid { vsn } => {
                append_numbered(b"voyager: invalid stream at vsn ", vsn, b"\n", to)
            }
            Answer::Refused(cause) => append_refusal(
                cause.file().text(),
                cause.line(),
                cause.why(),
                to,
            ),
            Answer::OutputFault => to.append_slice(b"voyager: output fault\n"),
            Answer::TooLong { file, line } => append_limit(file.text(), line, to),
            Answer::NotBuilt(what) => {
                append_between(b"voyager: not built: ", what.text(), b"\n", to)
            }
        }
    }
}

impl Cause {
    /// The file that breaks a rule.
    fn file(self) -> FileName
        ensures { result ≡ cause_file self }
    {
        match self {
            Cause::MissingSchema | Cause::Schema { .. } => FileName::Schema,
            Cause::Segment { .. } => FileName::Segment,
        }
    }

    /// The line that its text names: for the schema the table.
    fn line(self) -> u64
        ensures { result ≡ cause_line self }
    {
        match self {
            Cause::MissingSchema => 0,
            Cause::Schema { table, .. } => table as u64,
            Cause::Segment { line, .. } => line,
        }
    }

    /// The rule.
    #[tactic(auto, unfolding(crate::specs::Answer::cause_why))]
    fn why(self) -> &'static str
        ensures { result.now ≡ cause_why self }
    {
        match self {
            Cause::MissingSchema => "missing",
            Cause::Schema { why, .. } => why.text(),
            Cause::Segment { why, .. } => why.text(),
        }
    }
}

/// A phrase as it is printed.
#[tactic(auto, unfolding(crate::specs::Answer::phrase_text))]
fn phrase_text(phrase: Phrase) -> &'static str
    ensures { result.now ≡ phrase_text phrase }
{
    match phrase {
        Phrase::ExportFromSource => "export data from source",
        Phrase::ExportFromTarget => "export data from target",
        Phrase::ImportToTarget => "import data to target",
        Phrase::ImportToSource => "import data to source",
        Phrase::CutoverToTarget => "initiate cutover to target",
        Phrase::CutoverToSource => "initiate cutover to source",
        Phrase::LoadSource => "load source",
        Phrase::CutoverStatus => "cutover status",
        Phrase::Report => "get data-migration-report",
        Phrase::ShowTarget => "show target",
        Phrase::ShowSource => "show source",
        Phrase::Rehearse => "rehearse",
    }
}

/// Appends the disk and file that are damaged, and the offset.
fn append_damage(disk: &str, file: &str, offset: u64, to: &mut Bytes) -> Result<(), AllocError>
    ensures { OnOk result (to.new ≡ to.old ++ (codes "voyager: damaged: " ++ (disk.now ++ codes "/" ++ file.now) ++ (codes " at " ++ decimal offset ++ codes "\n"))) }
{
    to.append_slice(b"voyager: damaged: ")?;
    append_path(disk, file, to)?;
    append_numbered(b" at ", offset, b"\n", to)?;
    Ok(())
}

/// Appends a file on a disk.
fn append_path(disk: &str, file: &str, to: &mut Bytes) -> Result<(), AllocError>
    ensures { OnOk result (to.new ≡ to.old ++ (disk.now ++ codes "/" ++ file.now)) }
{
    to.append_slice(disk.as_bytes())?;
    to.append_slice(b"/")?;
    to.append_slice(file.as_bytes())?;
    Ok(())
}

/// Appends the refusal of a line of a file, with the words for its cause.
fn append_refusal(file: &str, line: u64, why: &str, to: &mut Bytes) -> Result<(), AllocError>
    ensures { OnOk result (to.new ≡ to.old ++ (codes "voyager: recording: " ++ (file.now ++ codes " line " ++ decimal line) ++ (codes ": " ++ why.now ++ codes "\n"))) }
{
    to.append_slice(b"voyager: recording: ")?;
    append_line(file, line, to)?;
    append_between(b": ", why, b"\n", to)?;
    Ok(())
}

/// Appends the line of a file that is past a limit.
fn append_limit(file: &str, line: u64, to: &mut Bytes) -> Result<(), AllocError>
    ensures { OnOk result (to.new ≡ to.old ++ (codes "voyager: limit: " ++ (file.now ++ codes " line " ++ decimal line) ++ codes "\n")) }
{
    to.append_slice(b"voyager: limit: ")?;
    append_line(file, line, to)?;
    to.append_slice(b"\n")?;
    Ok(())
}

/// Appends a line of a file.
fn append_line(file: &str, line: u64, to: &mut Bytes) -> Result<(), AllocError>
    ensures { OnOk result (to.new ≡ to.old ++ (file.now ++ codes " line " ++ decimal line)) }
{
    to.append_slice(file.as_bytes())?;
    to.append_slice(b" line ")?;
    to.append_slice(Buffer::new().format(line).as_bytes())?;
    Ok(())
}

/// Appends a text between two others.
fn append_between(front: &[u8], text: &str, behind: &[u8], to: &mut Bytes) -> Result<(), AllocError>
    ensures { OnOk result (to.new ≡ to.old ++ (front.now ++ text.now ++ behind.now)) }
{
    to.append_slice(front)?;
    to.append_slice(text.as_bytes())?;
    to.append_slice(behind)?;
    Ok(())
}

/// Appends a decimal number between two texts.
pub(crate) fn append_numbered(
    front: &[u8],
    number: u64,
    behind: &[u8],
    to: &mut Bytes,
) -> Result<(), AllocError>
    ensures { OnOk result (to.new ≡ to.old ++ (front.now ++ decimal number ++ behind.now)) }
{
    to.append_slice(front)?;
    to.append_slice(Buffer::new().format(number).as_bytes())?;
    to.append_slice(behind)?;
    Ok(())
}

/// What is answered where that disk did not do its work.
pub(crate) fn disk_stop(which: Which, error: DiskError) -> Answer
    ensures { result ≡ disk_stop (Answer.Fault which) error }
{
    match error {
        DiskError::Failed => Answer::Fault(which),
        DiskError::NoMemory => Answer::NoMemory,
    }
}
