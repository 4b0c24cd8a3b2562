//! What standard error is told of a command that doesn't come to its end, and the status of that.
ghost use Rattle.std.specs.Prelude.{◌≡◌};
ghost use Rattle.pt_host.specs.Ends.{guard_status};
ghost use Rattle.pt_host.specs.Told.{Tells, TellsEnd, own_line, refusal_line};

use crate::folders::Folders;
use crate::status::{FAILED, REFUSED};
use crate::{Host, Machine};
use pt_guard::GuardFault;
use pt_messages::{Explanation, Outcome, Words, reason};
use pt_move::Fault;
use std::alloc::AllocGlobal;

/// Says which fault ended the command, in its own words, and gives the status of faults.
pub fn end_with_fault<H: Host>(host: &mut H, fault: &Fault) -> u8
    ensures status { result ≡ 3 }
    ensures told { Tells ⟦<H as Machine>⟧.words (own_line fault.now) host.old host.new }
{
    host.tell(Words::Run.line_of(fault));
    FAILED
}

/// Says which fault ended a run, an audit or a check, in the words of its log, if one did.
pub(crate) fn tell_end<H: Host>(host: &mut H, outcome: &Outcome)
    ensures { TellsEnd ⟦<H as Machine>⟧.words outcome.now host.old host.new }
{
    if let Some(fault) = &outcome.fault {
        host.tell(outcome.words.line_of(fault));
    }
}

/// Says why the fault came that ended a run or an audit between these folders, if that is asked for
/// or is at the top of one of them.
pub(crate) fn tell_why<R>(rt: &R, outcome: &Outcome, verbose: bool, folders: Folders<'_>)
where
    R: Eprint + AllocGlobal,
{
    if let Some(fault) = &outcome.fault
        && let Explanation::Known(reason) = &outcome.why
        && (verbose || folders.have_at_top(fault, reason))
    {
        reason::tell(rt, reason);
    }
}

/// Says why a run or an audit may not begin, and gives the status of that.
pub(crate) fn end_with_refusal<H: Host>(host: &mut H, fault: GuardFault) -> u8
    ensures status { result ≡ guard_status fault }
    ensures told { Tells ⟦<H as Machine>⟧.words (refusal_line fault) host.old host.new }
{
    host.tell(line_of_refusal(fault));
    match fault {
        GuardFault::Overlap | GuardFault::Hidden | GuardFault::Root => REFUSED,
        GuardFault::Taken | GuardFault::Memory => FAILED,
    }
}

// What standard error is told of a run or an audit that may not begin.
fn line_of_refusal(fault: GuardFault) -> &'static str
    ensures { result.now ≡ refusal_line fault }
{
    match fault {
        GuardFault::Overlap => "pairtree2ocfl: SOURCE and DEST lie in one another\n",
        GuardFault::Hidden => "pairtree2ocfl: the system cannot tell where SOURCE and DEST lie\n",
        GuardFault::Root => {
            "pairtree2ocfl: DEST is a storage root itself: name the folder that holds it\n"
        }
        GuardFault::Taken => "pairtree2ocfl: another run has the destination\n",
        GuardFault::Memory => Words::Run.line_of(&Fault::Memory),
    }
}
