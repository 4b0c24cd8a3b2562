//! The record of a run, an audit or a check beside its log: what an archive's record of
//! preservation events wants of it (PREMIS 3.0, "Event"), as one JSON object on a line. It has two
//! texts: as it begins, and with how it ended.
ghost use Rattle.std.specs.Prelude.{◌≡◌, IfOk, OnOk, codes, string_bytes};
ghost use Rattle.pt_messages.specs.EventMembers.{BeginsAs, EndsSo, PutsFault, PutsFolder, PutsIf};
ghost use Rattle.pt_messages.specs.EventMembers.{event_members, fault_members};
ghost use Rattle.pt_messages.specs.Members.{line_of, members_of};

use crate::counted::LineCounts;
use crate::members::Members;
use crate::reads::{Reads, read_small};
use crate::reason::Explanation;
use crate::watch::Words;
use jiff::Timestamp;
use pt_move::Fault;
use std::alloc::{AllocError, AllocGlobal, Global};
use std::io;
use std::io::ErrorKind;
use std::rt::Clock;

/// The program's version, and the line of the toolchain that proves it.
pub const VERSION: &str = "0.2.0\nrattle-kit-13f logic dac8208d650f15bf";

const PROGRAM: &str = "pairtree2ocfl";

// Where Linux tells the name of the machine.
const HOST: &str = "/proc/sys/kernel/hostname";

/// The record of a run, an audit or a check. Each call that puts something into it or makes its
/// line gives an error where a growth was refused.
#[derive(Drop)]
pub struct Event {
    members: Members,
}

/// What a run, an audit or a check came to.
#[derive(Drop)]
pub struct Outcome {
    /// Which lines its log has.
    pub words: Words,
    /// How many it put.
    pub counts: LineCounts,
    /// The fault that ended it, if one did.
    pub fault: Option<Fault>,
    /// What is known of why.
    pub why: Explanation,
}

impl Outcome {
    /// No line was put, and no more is known of why than this fault, if there is one.
    pub fn without_lines(words: Words, fault: Option<Fault>) -> Outcome
        ensures words { result.words ≡ words }
        ensures fault { result.fault ≡ fault }
    {
        Outcome {
            words,
            counts: LineCounts::none(),
            fault,
            why: Explanation::Nothing,
        }
    }
}

impl Event {
    /// The record of what is done under this word with these options, as it begins. An error where
    /// a growth was refused.
    pub fn begin<R: Reads + Clock + AllocGlobal>(
        rt: &R,
        word: &str,
        options: Members,
    ) -> Result<Event, AllocError>
        ensures { IfOk result (λ event. BeginsAs word.now (members_of options)
            (event_members event)) }
    {
        let mut members = surroundings(rt)?;
        members.put_text("as", word)?;
        members.put_members("options", options)?;
        Ok(Event { members })
    }

    /// Puts a folder at a key: its path as it was given, and where that leads, links resolved, if
    /// it leads anywhere.
    pub fn put_folder<R: Reads + AllocGlobal>(
        &mut self,
        rt: &R,
        key: &str,
        path: &str,
    ) -> Result<(), AllocError>
        ensures { OnOk result (PutsFolder key.now path.now
            (event_members self.old) (event_members self.new)) }
    {
        let mut folder = self.members.empty();
        put_place(rt, &mut folder, path)?;
        folder.put_text("given", path)?;
        self.members.put_members(key, folder)
    }

    /// Puts how it ended: with this status, and so.
    pub fn end<R: Clock + AllocGlobal>(
        &mut self,
        rt: &R,
        status: u8,
        outcome: &Outcome,
    ) -> Result<(), AllocError>
        ensures { OnOk result (EndsSo (status, outcome.now)
            (event_members self.old) (event_members self.new)) }
    {
        put_moment(rt, &mut self.members, "end")?;
        self.members.put_number("status", u64::from(status))?;
        outcome.counts.put_into(&mut self.members, outcome.words)?;
        outcome.put_fault(&mut self.members)
    }

    /// The record as a line.
    pub fn line(&self) -> Result<String, AllocError>
        ensures { IfOk result (λ line. string_bytes line ≡ line_of (event_members self.now)) }
    {
        self.members.line()
    }
}

impl Outcome {
    // Puts the fault that ended it, if one did.
    fn put_fault(&self, event: &mut Members) -> Result<(), AllocError>
        ensures { OnOk result (PutsFault self.now (members_of event.old) (members_of event.new)) }
    {
        match &self.fault {
            Some(fault) => {
                let mut told = event.empty();
                self.why.put_into(&mut told)?;
                self.put_told(&mut told, fault)?;
                event.put_members("fault", told)
            }
            None => Ok(()),
        }
    }

    // Puts what is told of its fault: the number and the text.
    fn put_told(&self, told: &mut Members, fault: &Fault) -> Result<(), AllocError>
        ensures { OnOk result (members_of told.new
            ≡ fault_members self.now.words fault.now (members_of told.old)) }
    {
        told.put_number("number", u64::from(fault.number()))?;
        told.put_text("text", self.words.text_of(fault))
    }
}

// What is known of the program and its machine as it begins. An error where a growth was refused.
fn surroundings<R: Reads + Clock + AllocGlobal>(rt: &R) -> Result<Members, AllocError> {
    let mut members = Members::new(rt.alloc());
    members.put_text("program", PROGRAM)?;
    if let Some((version, toolchain)) = VERSION.split_once('\n') {
        members.put_text("version", version)?;
        members.put_text("toolchain", toolchain)?;
    }
    put_host(rt, &mut members)?;
    put_moment(rt, &mut members, "begin")?;
    Ok(members)
}

// Puts where a path leads, links resolved, if it leads anywhere.
fn put_place<R: Reads + AllocGlobal>(
    rt: &R,
    folder: &mut Members,
    path: &str,
) -> Result<(), AllocError>
    ensures { OnOk result (PutsIf (codes "resolved") (members_of folder.old)
        (members_of folder.new)) }
{
    match rt.find_place(rt.alloc(), path) {
        Ok(place) => folder.put_text("resolved", place.as_str()),
        Err(error) => pass_unless_wanting(&error),
    }
}

// Puts the name of the machine, where Linux tells it.
fn put_host<R: Reads + AllocGlobal>(rt: &R, members: &mut Members) -> Result<(), AllocError> {
    match read_small(rt, HOST) {
        Ok(Some(bytes)) => match str::from_utf8(bytes.as_slice()) {
            Ok(name) => members.put_text("host", name.trim_end()),
            Err(_) => Ok(()),
        },
        Ok(None) => Ok(()),
        Err(error) => pass_unless_wanting(&error),
    }
}

// Puts at a key the clock's moment. None is put where there is no clock.
fn put_moment<R: Clock + AllocGlobal>(
    rt: &R,
    members: &mut Members,
    key: &str,
) -> Result<(), AllocError>
    ensures { OnOk result (PutsIf key.now (members_of members.old) (members_of members.new)) }
{
    match moment_now(rt)? {
        Some(moment) => members.put_text(key, moment.as_str()),
        None => Ok(()),
    }
}

// The clock's moment to the second, in UTC, as RFC 3339 writes it; none where there is no clock.
fn moment_now<R: Clock + AllocGlobal>(rt: &R) -> Result<Option<String>, AllocError> {
    let Ok(passed) = rt.since_1970() else {
        return Ok(None);
    };
    let Ok(second) = i64::try_from(passed.as_secs()) else {
        return Ok(None);
    };
    match Timestamp::from_second(second) {
        Ok(moment) => Ok(Some(moment.to_string(rt.alloc())?)),
        Err(_) => Ok(None),
    }
}

// An error by which the system wants memory; another is passed over.
fn pass_unless_wanting(error: &io::Error) -> Result<(), AllocError> {
    match error.kind() {
        ErrorKind::OutOfMemory => Err(AllocError),
        _ => Ok(()),
    }
}
