//! The file in which a run, an audit or a check is recorded as an event: made before it, and
//! replaced after it.
//!
//! Once the lock is held, which a check doesn't ask for, and before all else, where the file may
//! lie is judged (`judge_file` of pt_guard), what stands at its path with `.part` behind it is
//! asked for, and the file is made where nothing stands (`MakesEvent`). Where one of these refuses,
//! that is the status (`event_status`), and no run, audit or check is made. After it, and before
//! the lock is given back, another is made at the path with `.part` behind it and renamed to the
//! file (`EndsFile`); where that fails the status is 3. No other path is named in these calls.
//! Where no file is named none of them is made. Why there is no event, or none with an end, is told
//! by its own text (`TellsEvent`). The first text has what is made, in a word, its options, each
//! under its key (recorded_options.rt), and the folders as they were given (`BeginsWith`), and the
//! second has its members too, and the status, the counts and the fault of what was made
//! (`IsEndText`).
ghost use Rattle.std.specs.Prelude.{◌≡◌, ◌++◌, Err, IfOk, List, None, OnOk, Some, codes};
ghost use Rattle.std.specs.Prelude.{if◌then◌else◌, option_map, string_bytes, ℕ};
ghost use Rattle.std.specs.Result.{result_ok};
ghost use Rattle.pt_messages.specs.EventMembers.{event_members};
ghost use Rattle.pt_messages.specs.Members.{line_of};
ghost use Rattle.pt_host.specs.Events.{BeginsEvent, BeginsWith, EndsEvent, EndsFile, IsEndText};
ghost use Rattle.pt_host.specs.Events.{MakesBy, MakesEvent, MakesNew, MakesUnlessLeft, MovesOver};
ghost use Rattle.pt_host.specs.Events.{PutsDest, Replaces, event_head, event_status, fault_of};
ghost use Rattle.pt_host.specs.Told.{TellsEvent, TellsLong, event_text};

use crate::folders::Folders;
use crate::operation::{Conclusion, Operation};
use crate::status::{FAILED, REFUSED};
use crate::{Host, Machine, Text};
use pt_guard::{FileFault, judge_file};
use pt_messages::{Event, Reads, Words, escape};
use pt_move::Fault;
use pt_tree::MemoryFault;
use std::alloc::{AllocError, AllocGlobal, Global};
use std::io;
use std::io::ErrorKind;
use std::rt::Clock;
use thiserror::Error;

// What stands behind a file's path in the path of what is to replace it.
const PART: &str = ".part";

// What is told before why an event can't be begun, and before why it can't be ended.
const UNBEGUN: &str = "pairtree2ocfl: ";

const UNENDED: &str = "pairtree2ocfl: the event has no end: ";

/// Which of the two paths of an event.
#[derive(Clone, Copy, Debug, PartialEq, Eq)]
pub enum EventPath {
    /// That of its file.
    File,
    /// That of what is to replace the file, which has `.part` behind it.
    Part,
}

impl EventPath {
    // What stands in it behind the file's path.
    fn end(self) -> &'static str {
        match self {
            EventPath::File => "",
            EventPath::Part => PART,
        }
    }
}

/// Why an event can't be recorded in its file.
#[derive(Debug, Drop, Error)]
#[error("{}", self.text())]
pub enum EventFault {
    /// The file may not lie there.
    Place(FileFault),
    /// Something stands at this path of it.
    Stands(EventPath),
    /// The system can't tell what stands at its path with `.part` behind it, as where that has too
    /// long a name.
    Unseen(io::Error),
    /// It can't be written at this path, or moved there.
    Unwritten(EventPath, io::Error),
    /// A growth was refused.
    Memory,
}

impl EventFault {
    // Why a file can't be made at one of its paths, or moved there, by the system's error.
    fn at(path: EventPath, error: io::Error) -> EventFault
        ensures { result ≡ fault_of path error }
    {
        match error.kind() {
            ErrorKind::OutOfMemory => EventFault::Memory,
            ErrorKind::AlreadyExists => EventFault::Stands(path),
            _ => EventFault::Unwritten(path, error),
        }
    }

    /// Its text.
    pub fn text(&self) -> &'static str
        ensures { result.now ≡ event_text self.now }
    {
        match self {
            EventFault::Place(FileFault::Inside) => {
                "FILE of --event lies in SOURCE, DEST/ocfl or DEST/staging"
            }
            EventFault::Place(FileFault::Hidden) => {
                "the system cannot tell where FILE of --event lies"
            }
            EventFault::Stands(_) => "FILE of --event stands already, or FILE.part does",
            EventFault::Unseen(_) => "FILE.part of --event cannot be looked at",
            EventFault::Unwritten(_, _) => "cannot write FILE of --event",
            EventFault::Place(FileFault::Memory) | EventFault::Memory => "out of memory",
        }
    }

    // Its line behind a text: its own text, and behind that, where it has these, the path that it
    // speaks of and the system's reason. An error where a growth was refused.
    fn line(&self, alloc: Global, front: &str, file: &str) -> Result<String, AllocError>
        ensures { IfOk result (λ line. (rest : List ℕ)
            × (string_bytes line ≡ front.now ++ event_text self.now ++ rest)) }
    {
        let rest = self.rest(alloc, file)?;
        let mut line = String::from_str(alloc, front)?;
        line.push_str(self.text())?;
        line.push_str(rest.as_str())?;
        Ok(line)
    }

    // What stands behind its text in its line.
    fn rest(&self, alloc: Global, file: &str) -> Result<String, AllocError> {
        let file = escape(alloc, file)?;
        match self {
            EventFault::Place(_) | EventFault::Memory => String::from_str(alloc, "\n"),
            EventFault::Stands(path) => format!(in alloc; ": {file}{}\n", path.end()),
            EventFault::Unseen(error) => format!(in alloc; ": {file}{PART}: {error}\n"),
            EventFault::Unwritten(path, error) => {
                format!(in alloc; ": {file}{}: {error}\n", path.end())
            }
        }
    }
}

impl From<AllocError> for EventFault {
    ghost use Rattle.std.specs.Prelude.{◌≡◌};
    ghost use Rattle.pt_host.specs.declared.event.EventFault.TheVariants.{Memory};

    ghost from_gives = { λ _ e. e ≡ Memory };

    fn from(_: AllocError) -> Self {
        EventFault::Memory
    }
}

impl From<MemoryFault> for EventFault {
    ghost use Rattle.std.specs.Prelude.{◌≡◌};
    ghost use Rattle.pt_host.specs.declared.event.EventFault.TheVariants.{Memory};

    ghost from_gives = { λ _ e. e ≡ Memory };

    fn from(_: MemoryFault) -> Self {
        EventFault::Memory
    }
}

impl From<FileFault> for EventFault {
    ghost use Rattle.std.specs.Prelude.{◌≡◌};
    ghost use Rattle.pt_host.specs.declared.event.EventFault.TheVariants.{Place};

    ghost from_gives = { λ fault e. e ≡ Place fault };

    fn from(fault: FileFault) -> Self {
        EventFault::Place(fault)
    }
}

/// An event whose file was made: the file's path, that of what is to replace it, its text as it was
/// made, and what is recorded.
#[derive(Drop)]
pub(crate) struct EventFile {
    path: Text,
    part: Text,
    text: String,
    event: Event,
}

impl EventFile {
    // The file of what is asked for over two folders, as it begins; nothing is made. `Memory`
    // where a growth was refused.
    fn of<R: Reads + Clock + AllocGlobal, O: Operation>(
        rt: &R,
        path: &str,
        operation: &O,
        folders: Folders<'_>,
    ) -> Result<EventFile, MemoryFault>
        ensures path { IfOk result (λ file. file.path ≡ path.now) }
        ensures part { IfOk result (λ file. file.part ≡ path.now ++ codes ".part") }
        ensures begun { IfOk result (λ file. BeginsWith
            (event_head (O.word_of operation.now)
            (folders.entry.store.now, folders.entry.folder.now) O.with_dest
            (O.options_of operation.now)) (event_members file.event)) }
        ensures text { IfOk result (λ file. string_bytes file.text
            ≡ line_of (event_members file.event)) }
    {
        let mut event = Event::begin(rt, operation.word(), operation.members(rt.alloc())?)?;
        event.put_folder(rt, "source", folders.store)?;
        put_dest(rt, &mut event, operation, folders.folder)?;
        let text = event.line()?;
        let part = Text::join(rt.alloc(), path, PART)?;
        let path = Text::of(rt.alloc(), path)?;
        Ok(EventFile {
            path,
            part,
            text,
            event,
        })
    }

    // The paths of the file and of what is to replace it.
    fn paths(&self) -> EventPaths<'_>
        ensures file { result.file.now ≡ self.now.path }
        ensures part { result.part.now ≡ self.now.part }
    {
        EventPaths {
            file: self.path.as_str(),
            part: self.part.as_str(),
        }
    }
}

// The path of an event's file, and that of what is to replace it.
#[derive(Clone, Copy)]
struct EventPaths<'a> {
    file: &'a str,
    part: &'a str,
}

impl<'a> EventPaths<'a> {
    // Makes the file with a text, where it may lie beside a store and a destination, if there is
    // one, and nothing stands there or at the other path.
    fn make<R: AllocGlobal, H: Host>(
        self,
        rt: &R,
        host: &mut H,
        at: (&str, Option<&str>),
        text: &str,
    ) -> Result<(), EventFault>
        ensures { MakesEvent ⟦<H as Machine>⟧.words
            (at.entry.0.now, option_map (λ dest. dest.now) at.entry.1)
            (record { file = self.entry.file.now; part = self.entry.part.now; text = text.now })
            host.old host.new result }
    {
        judge_file(host, rt.alloc(), self.file, at.0, at.1)?;
        self.make_unless_left(host, text)
    }

    // The same where it may lie.
    fn make_unless_left<H: Host>(self, host: &mut H, text: &str) -> Result<(), EventFault>
        ensures { MakesUnlessLeft ⟦<H as Machine>⟧.words
            (record { file = self.entry.file.now; part = self.entry.part.now; text = text.now })
            host.old host.new result }
    {
        match host.look(self.part) {
            Ok(()) => Err(EventFault::Stands(EventPath::Part)),
            Err(error) => self.make_by(host, text, error),
        }
    }

    // The same where the look for what is to replace it gave this error: it is made where that says
    // that nothing stands there.
    fn make_by<H: Host>(self, host: &mut H, text: &str, error: io::Error) -> Result<(), EventFault>
        ensures { MakesBy ⟦<H as Machine>⟧.words (self.entry.file.now, text.now) (Err error)
            host.old host.new result }
    {
        match error.kind() {
            ErrorKind::NotFound | ErrorKind::NotADirectory => {
                make_new(host, (EventPath::File, self.file), text)
            }
            ErrorKind::OutOfMemory => Err(EventFault::Memory),
            _ => Err(EventFault::Unseen(error)),
        }
    }

    // Replaces the file by one with this text, if there was memory for that.
    fn finish<H: Host>(
        self,
        host: &mut H,
        text: Result<String, AllocError>,
    ) -> Result<(), EventFault>
        ensures { EndsFile ⟦<H as Machine>⟧.words (self.entry.file.now, self.entry.part.now)
            (λ bytes. option_map string_bytes (result_ok text) ≡ Some bytes)
            host.old host.new result }
    {
        self.replace(host, text?.as_str())
    }

    // Replaces the file by one with this text, which is made at the other path first.
    fn replace<H: Host>(self, host: &mut H, text: &str) -> Result<(), EventFault>
        ensures { Replaces ⟦<H as Machine>⟧.words
            (record { file = self.entry.file.now; part = self.entry.part.now; text = text.now })
            host.old host.new result }
    {
        make_new(host, (EventPath::Part, self.part), text)?;
        move_over(host, self.part, self.file)
    }
}

// The destination of what is asked for, if it has one.
fn dest_of<'a, O: Operation>(operation: &O, folder: &'a str) -> Option<&'a str>
    ensures { option_map (λ dest. dest.now) result
        ≡ (if O.with_dest then Some folder.entry.now else None) }
{
    if operation.has_dest() {
        Some(folder)
    } else {
        None
    }
}

// Puts the destination of what is asked for into its event, if it has one.
fn put_dest<R: Reads + AllocGlobal, O: Operation>(
    rt: &R,
    event: &mut Event,
    operation: &O,
    folder: &str,
) -> Result<(), AllocError>
    ensures { OnOk result (PutsDest O.with_dest folder.now
        (event_members event.old) (event_members event.new)) }
{
    if !operation.has_dest() {
        return Ok(());
    }
    event.put_folder(rt, "dest", folder)
}

// The text of an event of what ended so.
fn end_text<R: Clock + AllocGlobal>(
    rt: &R,
    mut event: Event,
    made: &Conclusion,
) -> Result<String, AllocError>
    ensures { IfOk result (λ text. IsEndText (event_members event) made.now (string_bytes text)) }
{
    event.end(rt, made.status, &made.outcome)?;
    event.line()
}

// Makes a file at one of an event's paths, where nothing stands.
fn make_new<H: Host>(host: &mut H, at: (EventPath, &str), text: &str) -> Result<(), EventFault>
    ensures { MakesNew ⟦<H as Machine>⟧.words at.entry.0 (at.entry.1.now, text.now)
        host.old host.new result }
{
    match host.create_new(at.1, text) {
        Ok(()) => Ok(()),
        Err(error) => Err(EventFault::at(at.0, error)),
    }
}

// Renames a file to another, and so replaces that.
fn move_over<H: Host>(host: &mut H, from: &str, to: &str) -> Result<(), EventFault>
    ensures { MovesOver ⟦<H as Machine>⟧.words (to.now, from.now) host.old host.new result }
{
    match host.move_file(from, to) {
        Ok(()) => Ok(()),
        Err(error) => Err(EventFault::at(EventPath::File, error)),
    }
}

/// Begins the event of what is asked for over a store and a destination, where a file is named for
/// it: makes the file, with what is known as the run, the audit or the check begins.
///
/// `Memory` where a growth was refused: of a text, before anything is asked, or by the system.
/// `Place` as of `judge_file`; then `Stands`, where something stands at the path with `.part`
/// behind it, also a link that leads nowhere, or at the file's; `Unseen`, where the system can't
/// tell what stands at the first; and `Unwritten`, where the file can't be made or written, of
/// which a part may then be left.
pub(crate) fn begin_event<R, H: Host, O: Operation>(
    rt: &R,
    host: &mut H,
    operation: &O,
    folders: Folders<'_>,
) -> Result<Option<EventFile>, EventFault>
where
    R: Reads + Clock + AllocGlobal,
    ensures { BeginsEvent ⟦<H as Machine>⟧.words
        (event_head (O.word_of operation.now)
        (folders.entry.store.now, folders.entry.folder.now) O.with_dest
        (O.options_of operation.now))
        (O.feedback_of operation.now).event host.old host.new result }
{
    let Some(path) = operation.feedback().event() else {
        return Ok(None);
    };
    let file = EventFile::of(rt, path, operation, folders)?;
    let dest = dest_of(operation, folders.folder);
    file.paths()
        .make(rt, host, (folders.store, dest), file.text.as_str())?;
    Ok(Some(file))
}

/// Ends an event, where one was begun, by how what it records ended, and gives the status: that, or
/// 3 where the end can't be recorded, of which standard error is told.
pub(crate) fn end_event<R: Clock + AllocGlobal, H: Host>(
    rt: &R,
    host: &mut H,
    event: Option<EventFile>,
    made: &Conclusion,
) -> u8
    ensures { EndsEvent ⟦<H as Machine>⟧.words event made.now host.old host.new result }
{
    let Some(file) = event else {
        return made.status;
    };
    let EventFile {
        path,
        part,
        event,
        ..
    } = file;
    let paths = EventPaths {
        file: path.as_str(),
        part: part.as_str(),
    };
    match paths.finish(host, end_text(rt, event, made)) {
        Ok(()) => made.status,
        Err(fault) => {
            tell(rt.alloc(), host, UNENDED, (&fault, paths.file));
            FAILED
        }
    }
}

// Says why an event isn't recorded, whose file is named so, behind a text.
fn tell<H: Host>(alloc: Global, host: &mut H, front: &str, why: (&EventFault, &str))
    ensures { TellsEvent ⟦<H as Machine>⟧.words front.now why.entry.0.now host.old host.new }
{
    let (fault, file) = why;
    match fault {
        EventFault::Memory | EventFault::Place(FileFault::Memory) => {
            host.tell(Words::Run.line_of(&Fault::Memory));
        }
        _ => tell_long(alloc, host, front, (fault, file)),
    }
}

// The same of what isn't want of memory. Where there is no memory for the path it isn't told.
fn tell_long<H: Host>(alloc: Global, host: &mut H, front: &str, why: (&EventFault, &str))
    ensures { TellsLong ⟦<H as Machine>⟧.words front.now (event_text why.entry.0.now)
        host.old host.new }
{
    let (fault, file) = why;
    match fault.line(alloc, front, file) {
        Ok(line) => host.tell(line.as_str()),
        Err(_) => {
            host.tell(front);
            host.tell(fault.text());
            host.tell("\n");
        }
    }
}

/// Says why an event can't be begun, whose file is named so, and gives the status of that.
pub(crate) fn end_unbegun<R: AllocGlobal, H: Host>(
    rt: &R,
    host: &mut H,
    fault: &EventFault,
    file: Option<&str>,
) -> u8
    ensures status { result ≡ event_status fault.now }
    ensures told { TellsEvent ⟦<H as Machine>⟧.words (codes "pairtree2ocfl: ") fault.now
        host.old host.new }
{
    tell(rt.alloc(), host, UNBEGUN, (fault, file.unwrap_or("")));
    match fault {
        EventFault::Place(FileFault::Inside | FileFault::Hidden)
        | EventFault::Stands(_)
        | EventFault::Unseen(_) => REFUSED,
        EventFault::Unwritten(_, _) | EventFault::Place(FileFault::Memory) | EventFault::Memory => {
            FAILED
        }
    }
}
