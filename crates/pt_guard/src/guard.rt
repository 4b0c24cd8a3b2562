//! What is seen to before a run.
ghost use Rattle.std.specs.Prelude.{◌≡◌};
ghost use Rattle.pt_guard.specs.Guard.{Begins};

use crate::apart::{Nesting, overlap};
use crate::places::{Claim, LockAttempt, Places, is_wanting};
use std::alloc::{AllocError, Global};
use std::io;
use thiserror::Error;

/// Why a run may not begin. Nothing was read or made.
#[derive(Clone, Copy, Debug, PartialEq, Eq, Error)]
pub enum GuardFault {
    /// The destination is the store or lies in it, or the store lies in `ocfl` or `staging` of the
    /// destination.
    #[error("SOURCE and DEST lie in one another")]
    Overlap,
    /// One of the two stands, and the system can't tell where.
    #[error("the system cannot tell where SOURCE and DEST lie")]
    Hidden,
    /// The destination is a storage root or an object itself: it has an entry whose name begins as
    /// their declarations do.
    #[error("DEST is a storage root itself: name the folder that holds it")]
    Root,
    /// Another run or rehearsal holds the destination, or, where it is asked for alone, an audit
    /// does.
    #[error("another run has the destination")]
    Taken,
    /// A growth was refused, of ours or of the system's.
    #[error("out of memory")]
    Memory,
}

impl From<AllocError> for GuardFault {
    ghost use Rattle.std.specs.Prelude.{◌≡◌};
    ghost use Rattle.pt_guard.specs.declared.guard.GuardFault.TheVariants.{Memory};

    ghost from_gives = { λ _ e. e ≡ Memory };

    fn from(_: AllocError) -> Self {
        GuardFault::Memory
    }
}

/// How the destination's folder is held while a run or an audit goes on.
#[derive(Drop)]
pub enum FolderLock<L> {
    /// By this lock, until it is given back.
    Held(L),
    /// By none: it can't be locked, for this reason.
    Unheld(io::Error),
}

/// Sees to it that a run or an audit may begin: its folders lie apart, and nobody holds the
/// destination who keeps it from the lock that it asks for. It gives the lock by which the
/// destination's folder is held, or says why that can't be locked.
///
/// `Overlap` where the folders, links resolved, lie in one another, or are so by what the system
/// knows them by, whatever leads to them (as a second mount); `Hidden` where one stands and that
/// can't be found out. This is asked first. `Root` where the destination is a storage root or an
/// object itself (OCFL 1.1, "Root Structure", "Object Conformance Declaration"), so that its lock
/// isn't asked for; else `Taken` where another holds the lock so that it can't be had as it is
/// asked for. `Memory` where a growth was refused: of a path, before anything is asked, or by the
/// system, as its answer to what it was asked last, which is then neither `Hidden` nor a reason to
/// go on without the lock.
pub fn begin<S: Places>(
    system: &mut S,
    alloc: Global,
    claim: Claim,
    source: &str,
    dest: &str,
) -> Result<FolderLock<S::Lock>, GuardFault>
    ensures { Begins S.does claim (source.now, dest.now) system.old system.new result }
{
    match overlap(system, alloc, source, dest)? {
        Nesting::Inside => Err(GuardFault::Overlap),
        Nesting::Unknown => Err(GuardFault::Hidden),
        Nesting::Wanting => Err(GuardFault::Memory),
        Nesting::Apart => match system.hold(dest, claim) {
            LockAttempt::Held(lock) => Ok(FolderLock::Held(lock)),
            LockAttempt::Taken => Err(GuardFault::Taken),
            LockAttempt::Root => Err(GuardFault::Root),
            LockAttempt::Unknown(error) if is_wanting(&error) => Err(GuardFault::Memory),
            LockAttempt::Unknown(error) => Ok(FolderLock::Unheld(error)),
        },
    }
}
