//! A folder that is read, of which each call is known.
//!
//! It is the folder's source in all that it does, answers and tells. Of its calls together it says
//! that, one after another, they lead from the folder as it was to what it is now, and what each of
//! them asked of the system (`ReadSteps`). So whoever has it read by what only knows a source knows
//! which calls failed (`HasFailedRead`).
ghost use Rattle.std.specs.Prelude.{◌≡◌};

use crate::explaining::KeepsFailure;
use pt_folder::{Failure, HostSource, System};
use pt_tree::{Block, Kind, Listing, ListsNamed, NamePath, Source, TreeFault};

/// A folder of the system as a source, of which each call is known.
#[derive(Drop)]
pub(crate) struct SteppedFolder<'a, S: System> {
    folder: HostSource<'a, S>,
}

impl<'a, S: System> SteppedFolder<'a, S> {
    /// The folder of this source.
    pub fn new(folder: HostSource<'a, S>) -> SteppedFolder<'a, S>
        ensures { result.folder ≡ folder.entry }
    {
        SteppedFolder { folder }
    }

    /// The source, as its calls left it.
    pub fn folder(&self) -> &HostSource<'a, S>
        ensures { result.now ≡ self.now.folder }
    {
        &self.folder
    }

    /// The source, as its calls left it.
    pub fn into_folder(self) -> HostSource<'a, S>
        ensures { result ≡ self.entry.folder }
    {
        self.folder
    }
}

impl<'a, S: System> Source for SteppedFolder<'a, S> {
    ghost use Rattle.std.specs.Prelude.{None, refl};
    ghost use Rattle.pt_folder.specs.Reading.{unread_open};
    ghost use Rattle.pt_folder.specs.SourceHeld.{proper_held};
    ghost use Rattle.pt_host.specs.ReadSteps.{IsStepped, stepped_itself, stepped_on};

    ghost told = { λ s. ⟦<HostSource<'a, S> as Source>⟧.told s.folder };

    // Where its system fails isn't told on: which calls failed is known by its steps.
    ghost failing = { λ _. None };

    ghost failed = { λ s. ⟦<HostSource<'a, S> as Source>⟧.failed s.folder };

    ghost called = { λ s. ⟦<HostSource<'a, S> as Source>⟧.called s.folder };

    ghost keeps = { λ a b. IsStepped a.folder b.folder };

    ghost is_kept = { λ a. stepped_itself a.folder };

    ghost keeps_on = { λ a b c p q. stepped_on a.folder b.folder c.folder p q };

    ghost keeps_failing = { λ _ _ _. refl };

    ghost proper = { λ s state is.
        proper_held (S.forest s.folder.syscalls.system s.folder.folder.path.now)
        (unread_open S.File.Input.bytes s.folder.reading) state
        (S.proper_law s.folder.syscalls.system s.folder.folder.path.now) is };

    fn failures(&self) -> u64 {
        self.folder.failures()
    }

    fn list(&mut self, path: &NamePath) -> Result<Listing, TreeFault> {
        self.folder.list(path)
    }

    fn kind(&mut self, path: &NamePath) -> Result<Option<Kind>, TreeFault> {
        self.folder.kind(path)
    }

    fn open(&mut self, path: &NamePath) -> Result<(), TreeFault> {
        self.folder.open(path)
    }

    fn next(&mut self, block: &mut Block) -> Result<(), TreeFault> {
        self.folder.next(block)
    }
}

impl<'a, S: System> ListsNamed for SteppedFolder<'a, S> {
    fn list_named(
        &mut self,
        path: &NamePath,
        refused: &mut Vec<Vec<u8>>,
    ) -> Result<Listing, TreeFault> {
        self.folder.list_named(path, refused)
    }
}

impl<'a, S: System> KeepsFailure for SteppedFolder<'a, S> {
    fn kept_failure(&self) -> Option<&Failure> {
        self.folder.last_failure()
    }
}
