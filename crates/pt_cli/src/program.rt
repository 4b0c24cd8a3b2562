//! The program on a machine: what each command does there, and which status that has.
//!
//! `names` writes the two names, by `names_to`, to the output that the machine lends, and the
//! status is by the answer (`TellsNames`). `names -` asks for the machine's input, which no other
//! command does, and writes the names of the identifiers in its lines, by `list_names`
//! (`TellsAll`). Help and the version are written to the machine's output: 0 where they were, or
//! nobody may read them any more, and else 3 (`TellsText`). Where the words that the program was
//! started with aren't text that is refused (2), and want of memory is 3. Why something is refused
//! or failed is told by the machine, but for a line of `names -` that is no identifier.
//!
//! The options that have a part in what is said of a run, an audit or a check: those of the job,
//! `--list`, `--ignore`, `--sync`, `--dry-run`, `--present-ok`, `--skips-ok`, `--extra`, `--read`
//! and `--dest` of a check, and `--expect`, whose log is asked for its end. `--verbose`,
//! `--progress`, `--interval` and `--quiet` are taken from the words too; what they then show is
//! tested.
ghost use Rattle.std.specs.Prelude.{◌≡◌, codes, map, string_bytes};
ghost use Rattle.std.specs.Process.{exit_status};
ghost use Rattle.pt_messages.specs.Expected.{AsksEnd};
ghost use Rattle.pt_cli.specs.Calls.{IsToldAs, TellsAsked, TellsNames, TellsText, TellsUnwritten};
ghost use Rattle.pt_cli.specs.Calls.{names_status};
ghost use Rattle.pt_cli.specs.Inputs.{beside};
ghost use Rattle.pt_cli.specs.Listing.{IsUntaken};
ghost use Rattle.pt_cli.specs.Statuses.{Declines, Ends, EndsWith, IsWordless, MakesAudit, MakesCheck};
ghost use Rattle.pt_cli.specs.Statuses.{MakesRun, Refuses};
ghost use Rattle.pt_host.specs.Told.{Tells};

use crate::input::{HasInput, InputMachine};
use crate::invocation::Invocation;
use crate::listing::{Untaken, take_list};
use crate::names_of_input::{is_of_input, write_names_of_input};
use crate::{
    Audit, CheckArgs, Command, Migrate, NamesArgs, NamesFault, Text, WordsFault, names_to,
    read_words,
};
use pt_host::status::{DONE, REFUSED};
use pt_host::{
    AuditOptions, CheckOptions, Host, Machine, Reads, ReadsFiles, RunOptions, Terminals,
    audit_guarded, check_store, end_with_fault, run_guarded,
};
use pt_move::{Fault, Job};
use pt_tree::write_out;
use std::alloc::AllocGlobal;
use std::io;
use std::process::ExitCode;
use std::rt::Clock;

/// Runs the program on the words that it was started with, on a machine, and gives its exit status:
/// 0 the names were written, all was carried, each object stands, nothing was told of a store, or
/// help or the version was asked for; 1 a run, an audit or a check ended whose log has other lines;
/// 2 the words or a line of the input were refused, or the folders lie in one another, or the
/// destination is a storage root itself, or the file of an event may not be made there; 3 a fault
/// of the run, a destination that another run has, an output or an event's file that failed, or
/// want of memory.
///
/// What the words lead to is said at `answer`.
pub fn run<R, H: Host + HasInput>(rt: &R, host: &mut H) -> ExitCode
where
    R: Invocation + Reads + Clock + Eprint + AllocGlobal + Terminals,
    ensures { Ends ⟦<H as Machine>⟧.words (R.starts rt.now) (EndsWith ⟦<H as Machine>⟧.words
        (beside (AsksEnd (⟦<R as ReadsFiles>⟧.file_words rt.now))
        (⟦<R as ReadsFiles>⟧.file_words rt.now)
        ⟦<H as InputMachine>⟧.input_words))
        host.old host.new (exit_status result) }
{
    match rt.words(rt.alloc()) {
        Ok(words) => ExitCode::from(answer(rt, host, words.as_slice())),
        Err(error) => ExitCode::from(wordless(host, &error)),
    }
}

// Says why no words could be had, and gives the status of that.
fn wordless<H: Host>(host: &mut H, error: &io::Error) -> u8
    ensures { IsWordless ⟦<H as Machine>⟧.words error.now host.old host.new result }
{
    match error.kind() {
        io::ErrorKind::OutOfMemory => end_with_fault(host, &Fault::Memory),
        _ => refuse_words(host, "pairtree2ocfl: the arguments are not text\n"),
    }
}

/// Does on a machine what words ask for, of which the first is the program's name, and gives the
/// status.
///
/// The words of `names` lead to the call that writes the two names to the machine's output, or,
/// with `-` for the identifier, to the one that writes the names of the identifiers on the
/// machine's input; those of `migrate` to the run that they ask for; those of `audit` to the audit;
/// those of `check` to the check; those that ask for help or the version to the writing of that;
/// and all others ask nothing of the machine.
pub fn answer<R, H: Host + HasInput>(rt: &R, host: &mut H, words: &[String]) -> u8
where
    R: Reads + Clock + Eprint + AllocGlobal + Terminals,
    ensures { EndsWith ⟦<H as Machine>⟧.words
        (beside (AsksEnd (⟦<R as ReadsFiles>⟧.file_words rt.now))
        (⟦<R as ReadsFiles>⟧.file_words rt.now)
        ⟦<H as InputMachine>⟧.input_words)
        (map string_bytes words.now) host.old host.new result }
{
    match read_words(rt.alloc(), words) {
        Ok(Command::Names(asked)) => write_asked(rt, host, &asked),
        Ok(Command::Migrate(asked)) => make_run(rt, host, asked),
        Ok(Command::Audit(asked)) => make_audit(rt, host, asked),
        Ok(Command::Check(asked)) => make_check(rt, host, asked),
        Err(fault) => refuse(host, &fault),
    }
}

// Tells what was asked of the parser alone, or why the words are refused.
fn refuse<H: Host>(host: &mut H, fault: &WordsFault) -> u8
    ensures { Declines ⟦<H as Machine>⟧.words fault.now host.old host.new result }
{
    match fault {
        WordsFault::Help(text) => tell(host, text),
        WordsFault::Version(text) => tell(host, text),
        WordsFault::Memory => end_with_fault(host, &Fault::Memory),
        _ => refuse_words(host, fault.line()),
    }
}

// Writes a text that was asked for to the machine's output.
fn tell<H: Host>(host: &mut H, text: &Text) -> u8
    ensures { TellsText ⟦<H as Machine>⟧.words text.now host.old host.new result }
{
    let mut host_io = host.lend();
    let written = write_out(&mut host_io.output, text.as_str().as_bytes());
    host.take_back(host_io);
    report_text(host, written)
}

// The status of writing a text that was asked for. Nobody may read it any more: that is no failure.
fn report_text<H: Host>(host: &mut H, written: io::Result<()>) -> u8
    ensures { IsToldAs ⟦<H as Machine>⟧.words written host.old host.new result }
{
    match written {
        Ok(()) => DONE,
        Err(error) if error.kind() == io::ErrorKind::BrokenPipe => DONE,
        Err(_) => end_with_fault(host, &Fault::Log),
    }
}

// Makes the run that the words ask for, of what its list takes, and gives its status.
fn make_run<R, H: Host>(rt: &R, host: &mut H, asked: Migrate) -> u8
where
    R: Reads + Clock + Eprint + AllocGlobal + Terminals,
    ensures { MakesRun ⟦<H as Machine>⟧.words (AsksEnd (⟦<R as ReadsFiles>⟧.file_words rt.now))
        (⟦<R as ReadsFiles>⟧.file_words rt.now) asked (host.old, host.new) result }
{
    let Migrate {
        options,
        source,
        dest,
        list,
    } = asked;
    let job = options.job;
    match take_list(rt, &list, job.share) {
        Ok(share) => {
            let job = Job { share, ..job };
            let options = RunOptions { job, ..options };
            run_guarded(rt, host, options, source.as_str(), dest.as_str())
        }
        Err(why) => refuse_list(host, why),
    }
}

// Makes the audit that the words ask for, of what its list takes, and gives its status.
fn make_audit<R, H: Host>(rt: &R, host: &mut H, asked: Audit) -> u8
where
    R: Reads + Clock + Eprint + AllocGlobal + Terminals,
    ensures { MakesAudit ⟦<H as Machine>⟧.words (AsksEnd (⟦<R as ReadsFiles>⟧.file_words rt.now))
        (⟦<R as ReadsFiles>⟧.file_words rt.now) asked (host.old, host.new) result }
{
    let Audit {
        options,
        source,
        dest,
        list,
    } = asked;
    let job = options.job;
    match take_list(rt, &list, job.share) {
        Ok(share) => {
            let job = Job { share, ..job };
            let options = AuditOptions { job, ..options };
            audit_guarded(rt, host, options, source.as_str(), dest.as_str())
        }
        Err(why) => refuse_list(host, why),
    }
}

// Says why no share takes a list, and gives the status of that.
fn refuse_list<H: Host>(host: &mut H, why: Untaken) -> u8
    ensures { IsUntaken ⟦<H as Machine>⟧.words why host.old host.new result }
{
    match why {
        Untaken::Refused(line) => refuse_words(host, line.as_str()),
        Untaken::Memory => end_with_fault(host, &Fault::Memory),
    }
}

// Makes the check that the words ask for, of what its list takes, and gives its status.
fn make_check<R, H: Host>(rt: &R, host: &mut H, asked: CheckArgs) -> u8
where
    R: Reads + Clock + Eprint + AllocGlobal + Terminals,
    ensures { MakesCheck ⟦<H as Machine>⟧.words (AsksEnd (⟦<R as ReadsFiles>⟧.file_words rt.now))
        (⟦<R as ReadsFiles>⟧.file_words rt.now) asked (host.old, host.new) result }
{
    let CheckArgs {
        options,
        source,
        list,
    } = asked;
    match take_list(rt, &list, options.share) {
        Ok(share) => {
            let options = CheckOptions { share, ..options };
            check_store(rt, host, options, source.as_str())
        }
        Err(why) => refuse_list(host, why),
    }
}

// Writes the names that are asked for, of an identifier or of those on the input.
fn write_asked<R, H>(rt: &R, host: &mut H, asked: &NamesArgs) -> u8
where
    R: Eprint + AllocGlobal,
    H: Host + HasInput,
    ensures { TellsAsked ⟦<H as Machine>⟧.words ⟦<H as InputMachine>⟧.input_words
        asked.now host.old host.new result }
{
    if is_of_input(asked) {
        return write_names_of_input(rt, host, asked);
    }
    write_names(rt, host, asked)
}

// Writes the names of an identifier to the machine's output, and gives the status of that.
fn write_names<R: AllocGlobal, H: Host>(rt: &R, host: &mut H, asked: &NamesArgs) -> u8
    ensures { TellsNames ⟦<H as Machine>⟧.words asked.now host.old host.new result }
{
    let (prefix, id) = (asked.prefix.as_str(), asked.id.as_str());
    let mut host_io = host.lend();
    let written = names_to(rt.alloc(), &asked.layout, prefix, id, &mut host_io.output);
    host.take_back(host_io);
    report_names(host, written)
}

// Says why the names weren't written, if they weren't, and gives the status.
fn report_names<H: Host>(host: &mut H, written: Result<(), NamesFault>) -> u8
    ensures status { result ≡ names_status written }
    ensures told { TellsUnwritten ⟦<H as Machine>⟧.words written host.old host.new }
{
    match written {
        Ok(()) => DONE,
        Err(NamesFault::Empty) => refuse_empty(host),
        Err(NamesFault::Write) => end_with_fault(host, &Fault::Log),
        Err(NamesFault::Memory) => end_with_fault(host, &Fault::Memory),
    }
}

// Says that an identifier is empty, and gives the status of that.
fn refuse_empty<H: Host>(host: &mut H) -> u8
    ensures status { result ≡ 2 }
    ensures told { Tells ⟦<H as Machine>⟧.words (codes "pairtree2ocfl: the identifier is empty\n")
        host.old host.new }
{
    refuse_words(host, "pairtree2ocfl: the identifier is empty\n")
}

// Says by this text why the words were refused.
fn refuse_words<H: Host>(host: &mut H, text: &str) -> u8
    ensures { Refuses ⟦<H as Machine>⟧.words 2 text.now host.old host.new result }
{
    host.tell(text);
    REFUSED
}
