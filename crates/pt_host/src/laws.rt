//! What follows of a run from the promises of two, or of a check and a run; and what a check's room
//! is. Each law is the contract of a function that does nothing.
//!
//! Where a rehearsal and a run of one job over the same store and the same tree of DEST both end
//! well, and the log tells, both logs get the same text, and the status is the same
//! (`RehearsalTellsTheRun`). Where a check of the whole store read each file whole and told
//! nothing, no run over it answers `Source`, if the source tells the paths at which it fails, as
//! the check's did, has no such file open, and can count a failure more (`NoRunIsHaltedForSource`).
//! So it is with the program's own calls where the system of the store tells the paths at which it
//! fails (`NoRunIsHaltedAfterQuietCheck`); the real one doesn't. Where a run that is no rehearsal
//! answers `Dest`, a call of its destination failed (`DestFaultMeansFailedStep`), and where a
//! rehearsal does, a call of that did (`RehearsalFaultMeansFailedCall`). The fault of an audit comes
//! of what failed, too (`AuditFaultMeansFailedCall`).
ghost use Rattle.pt_host.specs.AuditFaultLaw.{AuditFaultMeansFailedCall};
ghost use Rattle.pt_host.specs.DestFaultLaw.{DestFaultMeansFailedStep};
ghost use Rattle.pt_host.specs.Machine.{host_io_words};
ghost use Rattle.pt_host.specs.QuietCheckLaw.{NoRunIsHaltedForSource};
ghost use Rattle.pt_host.specs.QuietStoreLaw.{NoRunIsHaltedAfterQuietCheck};
ghost use Rattle.pt_host.specs.RehearsalFaultLaw.{RehearsalFaultMeansFailedCall};
ghost use Rattle.pt_host.specs.RehearsalLaw.{RehearsalTellsTheRun};
ghost use Rattle.pt_host.specs.Room.{RoomIsThatOfStaging};

use crate::{Host, Machine};
use pt_folder::System;
use std::io::Write;

/// A rehearsal that ends well tells in its log what the run tells that it rehearses, where both
/// tell their devices and the run ends well too, and ends with the same status.
pub fn rehearsal_tells_the_run()
    ensures { RehearsalTellsTheRun }
{}

/// Where a check of the whole store read each file whole and told nothing, no run answers `Source`
/// over a source that tells the same tree, and that it fails at the same paths, with no file open
/// at which it fails, and a count of failures below 2^64 - 1. A folder tells those of its system.
pub fn no_run_is_halted_for_source()
    ensures { NoRunIsHaltedForSource }
{}

/// Where a check of the whole store on a machine read each file whole and ended with status 0, no
/// run on one answers `Source` over a store whose system tells the same tree, and that it fails at
/// the same paths below the store's folder. The real system tells neither.
pub fn no_run_is_halted_after_quiet_check<H: Host>()
    ensures { NoRunIsHaltedAfterQuietCheck ⟦<H as Machine>⟧.words }
{}

/// Where a run over what a machine lends, which is no rehearsal, answers `Dest`, a call of its
/// destination failed, of all those that it made: a call of the system did, or it was refused, as a
/// path is that is too long.
pub fn fault_of_dest_comes_of_a_failed_call<S: System, D: System, W: Write>()
    ensures { DestFaultMeansFailedStep D.System D.File.Handle.own D.File.Input D.Dir.Input
        (host_io_words S.forest S.failing D.kept W.contents) }
{}

/// Where a rehearsal over what a machine lends answers `Dest`, a call of it failed, of all those
/// that it made: a call of the system did, as it looked; or it was refused, as a path is that is too
/// long, and one at which it doesn't know what the run would find or make.
pub fn fault_of_a_rehearsal_comes_of_a_failed_call<S: System, D: System, W: Write>()
    ensures { RehearsalFaultMeansFailedCall D.System D.File.Handle.own D.File.Input D.Dir.Input
        (host_io_words S.forest S.failing D.kept W.contents) }
{}

/// Where a fault ended an audit on a machine, it comes of what failed. The store is blamed only
/// where its system fails at something that stands there, if it tells where it fails; the root only
/// where a call of it failed, of all those that the audit made; and the log only where a piece of
/// it couldn't be put.
pub fn fault_of_an_audit_comes_of_what_failed<H: Host>()
    ensures { AuditFaultMeansFailedCall ⟦<H as Machine>⟧.words }
{}

/// A path in an object is longer than a check has room for just where a run couldn't make the file,
/// since its path in `staging` would be longer than any that a run makes.
pub fn room_is_that_of_staging()
    ensures { RoomIsThatOfStaging }
{}
