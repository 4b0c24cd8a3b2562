//! A run from one folder to another, on a machine.
//!
//! Where the log is to be synced its file is asked for, and synced once; the log that `--expect`
//! names is asked for its end. What is lent is asked for; a run from the store's folder to
//! the destination's is made over it, with the job that is wanted, or a rehearsal of it; what was
//! lent is given back as the run left it.
//!
//! What `Migrates` of pt_move promises is said over what the run's devices tell of these folders at
//! the start (of the store's without the entries that are left out). Lines of what was present or
//! passed over don't count for the status where they are allowed (`uncarried`). Where the log has a
//! file and no fault ended the run, all that the output then holds was put onto the disk by it, or
//! nothing was written (`IsLogged`); and the log is blamed only where a piece of it couldn't be put
//! (`LogFailsBy`). The system of DEST is left as calls left it of a destination that is set as
//! wanted, or of a rehearsal over that, to its end (`Serves`).
ghost use Rattle.pt_messages.specs.Expected.{AsksEnd};
ghost use Rattle.pt_messages.specs.declared.watch.Words.TheVariants.{Run};
ghost use Rattle.pt_plan.specs.declared.fault.Fault.TheVariants.{Log};
ghost use Rattle.std.specs.Prelude.{◌≡◌, Err};
ghost use Rattle.pt_host.specs.Made.{Carries, FindsLog, Runs, run_call};
ghost use Rattle.pt_host.specs.Told.{CameTo};

use crate::devices::{DeviceParts, open_devices};
use crate::durable_log::Syncs;
use crate::folders::Folders;
use crate::guarded::make_guarded;
use crate::operation::{Conclusion, Guarded, Operation, has_list};
use crate::recorded_options::options_of_run;
use crate::running::run_over;
use crate::status::FAILED;
use crate::{Feedback, Host, Machine, RunOptions};
use pt_guard::Claim;
use pt_messages::{Members, Outcome, Reads, ReadsFiles, Terminals, Words, lines_expected, reason};
use pt_move::Fault;
use pt_name::UnmetIdentifiers;
use std::alloc::{AllocError, AllocGlobal, Global};
use std::io;
use std::io::ErrorKind;
use std::rt::Clock;

/// Carries a store into a destination on a machine, or rehearses that, and gives the exit status: 0
/// all was carried; 1 the log has lines that tell of what was not, unless the options say that
/// these are well, or no object was met of an identifier of the list; 2 the folders lie in one
/// another, or it isn't known where, or the destination is a storage root itself; 3 a fault, or
/// another run or an audit holds the destination. Standard error tells of 2 and 3, and of these
/// identifiers.
///
/// The guard is asked first, and the lock for this run alone. Where the run may begin, the log that
/// `--expect` names is looked at, if it names one, and the run is made over what the machine lends,
/// which is given back then; and at last the lock is given back. Where a file is
/// named for its event, that is made once the lock is held, before all else, and replaced before
/// the lock is given back; where it can't begin no run is made: 2 where the file may not lie there
/// or stands, else 3. Where its end can't be recorded: 3.
pub fn run_guarded<R, H: Host>(
    rt: &R,
    host: &mut H,
    options: RunOptions,
    source: &str,
    dest: &str,
) -> u8
where
    R: Reads + Clock + Eprint + AllocGlobal + Terminals,
    ensures { Runs ⟦<H as Machine>⟧.words (AsksEnd (⟦<R as ReadsFiles>⟧.file_words rt.now))
        (run_call options source.now dest.now) host.old host.new result }
{
    let folders = Folders {
        store: source,
        folder: dest,
    };
    make_guarded(rt, host, options, folders)
}

impl Guarded for RunOptions {
    ghost use Rattle.pt_guard.specs.declared.places.Claim.TheVariants.{Alone};

    ghost claims = { Alone };

    fn claim(&self) -> Claim {
        Claim::Alone
    }
}

impl Operation for RunOptions {
    ghost use Rattle.std.specs.Prelude.{true};
    ghost use Rattle.pt_host.specs.Made.{run_word};
    ghost use Rattle.pt_host.specs.RecordedOptions.{run_members};

    ghost list_of = { λ options. options.job.share.list };

    ghost feedback_of = { λ options. options.feedback };

    ghost word_of = { λ options. run_word options.rehearse };

    ghost with_dest = { true };

    ghost options_of = { λ options. run_members options };

    ghost makes = { λ words asks folders options hosts.
        Carries words asks (run_call options folders.0 folders.1) hosts.0 hosts.1 };

    fn has_list(&self) -> bool {
        has_list(&self.job.share)
    }

    fn feedback(&self) -> &Feedback {
        &self.feedback
    }

    fn word(&self) -> &'static str {
        if self.rehearse { "rehearsal" } else { "run" }
    }

    fn has_dest(&self) -> bool {
        true
    }

    fn members(&self, alloc: Global) -> Result<Members, AllocError> {
        options_of_run(alloc, self)
    }

    fn make<R, H: Host>(self, rt: &R, host: &mut H, folders: Folders<'_>) -> Conclusion
    where
        R: Reads + Clock + Eprint + AllocGlobal + Terminals,
    {
        let file = match synced_output(rt, host, self.sync) {
            Ok(file) => file,
            Err(_) => return unsynced_end(rt.alloc()),
        };
        let expected = lines_expected(rt, self.feedback.expected_log()).unwrap_or(None);
        let host_io = host.lend();
        let parts = DeviceParts { host_io, file };
        let devices = open_devices(rt.alloc(), parts, &self, folders);
        let (host_io, conclusion) = run_over(rt, devices, self, expected, folders);
        host.take_back(host_io);
        conclusion
    }
}

// The end of a run whose output can't be put onto its disk: that failed.
fn unsynced_end(alloc: Global) -> Conclusion
    ensures status { result.status ≡ 3 }
    ensures fault { CameTo Run (Err Log) result.outcome }
{
    Conclusion {
        status: FAILED,
        outcome: Outcome::without_lines(Words::Run, Some(Fault::Log)),
        unmet: UnmetIdentifiers::none(alloc),
    }
}

// The file that the machine's output goes to, where there is one and it is to be put onto its disk,
// synced once. Where syncing isn't wanted nothing is asked. Where it can't be opened, or has no
// such call, that is told, and the log isn't synced; where syncing it fails otherwise, that is the
// log's fault.
fn synced_output<R: Eprint, H: Host>(
    rt: &R,
    host: &mut H,
    sync: bool,
) -> io::Result<Option<H::File>>
    ensures { FindsLog ⟦<H as Machine>⟧.words sync host.old host.new result }
{
    if !sync {
        return Ok(None);
    }
    match host.output_file() {
        Ok(None) => Ok(None),
        Ok(Some(mut file)) => match file.sync() {
            Ok(()) => Ok(Some(file)),
            Err(error) if error.kind() == ErrorKind::InvalidInput => {
                reason::tell_unsynced(rt, &error);
                Ok(None)
            }
            Err(error) => Err(error),
        },
        Err(error) => {
            reason::tell_unsynced(rt, &error);
            Ok(None)
        }
    }
}
