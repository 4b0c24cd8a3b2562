//! An audit of the root in a folder against a store, on a machine: the guard, with a lock that
//! others may share, the audit over what the machine lends, which is given back, and the lock
//! (`Audits`).
ghost use Rattle.pt_messages.specs.Expected.{AsksEnd};
ghost use Rattle.pt_host.specs.Audits.{Audits, Compares, audit_call};

use crate::auditing::audit_over;
use crate::devices::DeviceParts;
use crate::folders::Folders;
use crate::guarded::make_guarded;
use crate::operation::{Conclusion, Guarded, Operation, has_list};
use crate::quick_audit::audit_by_lengths;
use crate::recorded_options::options_of_audit;
use crate::{AuditOptions, Feedback, Host, Machine};
use pt_guard::Claim;
use pt_messages::{Members, Reads, ReadsFiles, Terminals, lines_expected};
use std::alloc::{AllocError, AllocGlobal, Global};
use std::rt::Clock;

/// Holds the root in a destination against a store on a machine, and gives the exit status: 0 each
/// object stands as a run makes it, and, where extras are told too, the log has no line of these; 1
/// the log has lines that tell of others, or no object was met of an identifier of the list; 2 the
/// folders lie in one another, or it isn't known where, or the destination is a storage root
/// itself; 3 a fault, or a run holds the destination. Standard error tells of 2 and 3, and of these
/// identifiers.
///
/// The guard is asked first, and for a lock that other audits may share. Where the audit may begin
/// it is made over what the machine lends, which is given back then; and at last the lock is given
/// back. Where it ends well the output has got its log, of both folders as their systems keep them.
/// Nothing is made or changed in either folder. A device is blamed only where it failed
/// (`IsOfFailed`). Where a file is named for its event, that is made and replaced as of a run.
///
/// Skip lines count as others, unless the options say that they are well. The log that `--expect`
/// names may be one of a rehearsal, a run or an audit.
pub fn audit_guarded<R, H: Host>(
    rt: &R,
    host: &mut H,
    options: AuditOptions,
    source: &str,
    dest: &str,
) -> u8
where
    R: Reads + Clock + Eprint + AllocGlobal + Terminals,
    ensures { Audits ⟦<H as Machine>⟧.words (AsksEnd (⟦<R as ReadsFiles>⟧.file_words rt.now))
        (audit_call options source.now dest.now) host.old host.new result }
{
    let folders = Folders {
        store: source,
        folder: dest,
    };
    make_guarded(rt, host, options, folders)
}

impl Guarded for AuditOptions {
    ghost use Rattle.pt_guard.specs.declared.places.Claim.TheVariants.{Shared};

    ghost claims = { Shared };

    fn claim(&self) -> Claim {
        Claim::Shared
    }
}

impl Operation for AuditOptions {
    ghost use Rattle.std.specs.Prelude.{codes, true};
    ghost use Rattle.pt_host.specs.RecordedOptions.{audit_members};

    ghost list_of = { λ options. options.job.share.list };

    ghost feedback_of = { λ options. options.feedback };

    ghost word_of = { λ _. codes "audit" };

    ghost with_dest = { true };

    ghost options_of = { λ options. audit_members options };

    ghost makes = { λ words asks folders options hosts.
        Compares words asks (audit_call options folders.0 folders.1) hosts.0 hosts.1 };

    fn has_list(&self) -> bool {
        has_list(&self.job.share)
    }

    fn feedback(&self) -> &Feedback {
        &self.feedback
    }

    fn word(&self) -> &'static str {
        "audit"
    }

    fn has_dest(&self) -> bool {
        true
    }

    fn members(&self, alloc: Global) -> Result<Members, AllocError> {
        options_of_audit(alloc, self)
    }

    fn make<R, H: Host>(self, rt: &R, host: &mut H, folders: Folders<'_>) -> Conclusion
    where
        R: Reads + Clock + Eprint + AllocGlobal + Terminals,
    {
        let expected = lines_expected(rt, self.feedback.expected_log()).unwrap_or(None);
        let host_io = host.lend();
        // An audit's log can be made again, so it isn't put onto its disk.
        let file: Option<H::File> = None;
        let parts = DeviceParts { host_io, file };
        if self.quick {
            let (host_io, conclusion) = audit_by_lengths(rt, parts, self, expected, folders);
            host.take_back(host_io);
            return conclusion;
        }
        let (host_io, conclusion) = audit_over(rt, parts, self, expected, folders);
        host.take_back(host_io);
        conclusion
    }
}
