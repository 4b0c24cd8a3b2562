//! What is made on a machine over a store: a run, an audit or a check.
//!
//! Each says what its event records, and what making it comes to, and a run and an audit which lock
//! they want; how one is guarded, recorded and held against a list is the same for all
//! (guarded.rt).
ghost use Rattle.std.specs.Prelude.{◌≡◌, ℕ, Bool, IfOk, is_some, List, Option};
ghost use Rattle.pt_guard.specs.declared.places.Claim.{Claim};
ghost use Rattle.pt_messages.specs.Expected.{AsksEnd};
ghost use Rattle.pt_messages.specs.Members.{JsonMembers, members_of};
ghost use Rattle.pt_host.specs.Machine.{MachineWords};
ghost use Rattle.pt_host.specs.RecordedOptions.{AreRecorded};
ghost use Rattle.pt_host.specs.declared.operation.Conclusion.{Conclusion};
ghost use Rattle.pt_host.specs.declared.options.Feedback.{Feedback};

use crate::folders::Folders;
use crate::{Feedback, Host, Machine};
use pt_guard::Claim;
use pt_messages::{Members, Outcome, Reads, ReadsFiles, Terminals};
use pt_name::{Share, UnmetIdentifiers};
use std::alloc::{AllocError, AllocGlobal, Global};
use std::rt::Clock;

/// How a run, an audit or a check ended: its exit status, and what its event records of that.
#[derive(Drop)]
pub(crate) struct Conclusion {
    /// The exit status, but for what is unmet.
    pub status: u8,
    pub outcome: Outcome,
    /// The identifiers of its list of which no object was met, where it came to its end.
    pub unmet: UnmetIdentifiers,
}

/// Whether a list says which objects there are.
pub(crate) fn has_list(share: &Share) -> bool
    ensures { result ≡ is_some share.now.list }
{
    share.list().is_some()
}

/// A run, an audit or a check that is asked for, by all that its options say.
pub(crate) trait Operation {
    /// The identifiers of its list, if it has one.
    ghost list_of: { Self → Option (List (List ℕ)) };

    /// What is told of it beside its log.
    ghost feedback_of: { Self → Feedback };

    /// What is done, in a word.
    ghost word_of: { Self → List ℕ };

    /// Whether it has a destination.
    ghost with_dest: { Bool };

    /// What its event records of its options, whose list, if it has one, has a file of this name.
    ghost options_of: { Self → List ℕ → JsonMembers };

    /// Making it over these two folders takes a machine, by its words, from one state to another,
    /// which are a pair, and ends so. The log that `--expect` names is asked for its end.
    ghost makes: { {H : Type 0} → MachineWords H → (Option (List ℕ) → Type 0)
        → List ℕ × List ℕ → Self → H × H → Conclusion → Type 0 };

    /// Whether it has a list.
    fn has_list(&self) -> bool
        ensures { result ≡ is_some (list_of self.now) };

    /// What is told of it beside its log.
    fn feedback(&self) -> &Feedback
        ensures { result.now ≡ feedback_of self.now };

    /// What is done, in a word: `run`, `rehearsal`, `audit` or `check`.
    fn word(&self) -> &'static str
        ensures { result.now ≡ word_of self.now };

    /// Whether it has a destination, which is recorded then; else both its folders are the store.
    fn has_dest(&self) -> bool
        ensures { result ≡ with_dest };

    /// Every option by its name, with what it says or means where it isn't given; one that has
    /// nothing to say is left out. An error where a growth was refused.
    fn members(&self, alloc: Global) -> Result<Members, AllocError>
        ensures { IfOk result (λ made. AreRecorded (options_of self.now) (members_of made)) };

    /// Makes it over what the machine lends, which is given back, and gives how it ended. Of that
    /// nothing is told.
    fn make<R, H: Host>(self, rt: &R, host: &mut H, folders: Folders<'_>) -> Conclusion
    where
        R: Reads + Clock + Eprint + AllocGlobal + Terminals,
        ensures { makes ⟦<H as Machine>⟧.words (AsksEnd (⟦<R as ReadsFiles>⟧.file_words rt.now))
            (folders.entry.store.now, folders.entry.folder.now) self (host.old, host.new)
            result };
}

/// A run or an audit, which is made behind the guard.
pub(crate) trait Guarded: Operation {
    /// The lock that it asks for.
    ghost claims: { Claim };

    /// The lock that it asks for.
    fn claim(&self) -> Claim
        ensures { result ≡ claims };
}
