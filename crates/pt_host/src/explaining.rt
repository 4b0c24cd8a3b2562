//! Why a folder failed, for a check and an audit, which tell that and go on.
ghost use Rattle.std.specs.Prelude.{◌≡◌, MatchOption, false, is_some};
ghost use Rattle.pt_folder.specs.Failure.{name_of};

use pt_check::{Explains, UnlistedFolder};
use pt_folder::{Failure, FailureReason, HostSource, System};
use pt_tree::{Ignoring, ListsNamed, MemoryFault, NamePath, Source, TreeFault, Watched, Watcher};
use std::alloc::Global;

/// A source over a folder, which keeps why its last call failed.
pub(crate) trait KeepsFailure: ListsNamed {
    /// Why its last call failed, if there was memory for its path.
    fn kept_failure(&self) -> Option<&Failure>;
}

impl<'a, S: System> KeepsFailure for HostSource<'a, S> {
    fn kept_failure(&self) -> Option<&Failure> {
        self.last_failure()
    }
}

impl<'a, S: System> KeepsFailure for Ignoring<HostSource<'a, S>> {
    fn kept_failure(&self) -> Option<&Failure> {
        self.source().last_failure()
    }
}

impl<S: KeepsFailure, W: Watcher + Drop> KeepsFailure for Watched<S, W> {
    fn kept_failure(&self) -> Option<&Failure> {
        self.source().kept_failure()
    }
}

/// Why a folder failed: the reason of its last failure.
#[derive(Drop)]
pub(crate) struct LastFailure;

impl<S: KeepsFailure> Explains<S> for LastFailure {
    ghost use Rattle.pt_host.specs.Checking.{says_anything};

    ghost says = { says_anything };

    // Where none was kept there was no memory for its path.
    fn reason(&self, alloc: Global, source: &S) -> Result<String, MemoryFault> {
        match source.kept_failure() {
            Some(failure) => reason_of(alloc, failure),
            None => Err(MemoryFault::Memory),
        }
    }

    // A folder that can't be listed since bytes in it are no name is listed without them, and each
    // such one is a reason. Where that fails too, why is one more.
    fn explain_listing(
        &self,
        alloc: Global,
        source: &mut S,
        path: &NamePath,
    ) -> Result<UnlistedFolder, MemoryFault> {
        let first = self.reason(alloc, source)?;
        if !is_for_name(source.kept_failure()) {
            return Ok(UnlistedFolder {
                reason: first,
                further: Vec::new(alloc),
                listing: None,
            });
        }
        // That the count is one of 64 bits, for the proof.
        let _failures = source.failures();
        let mut refused = Vec::new(alloc);
        let listing = match source.list_named(path, &mut refused) {
            Ok(listing) => Some(listing),
            Err(TreeFault::Device) => None,
            Err(TreeFault::Memory) => return Err(MemoryFault::Memory),
        };
        let (reason, mut further) = reasons_of(alloc, first, &refused)?;
        if listing.is_none() {
            further.push(self.reason(alloc, source)?)?;
        }
        Ok(UnlistedFolder {
            reason,
            further,
            listing,
        })
    }
}

// Whether a failure, if there is one, was for bytes that are no name.
fn is_for_name(failure: Option<&Failure>) -> bool
    ensures { MatchOption failure.entry (result ≡ false)
        (λ f. result ≡ is_some (name_of f.now)) }
{
    match failure {
        Some(failure) => failure.name().is_some(),
        None => false,
    }
}

// The first reason and the further ones for which a folder couldn't be listed in which these bytes
// are no names: each of them is one, and this reason alone where there are none.
fn reasons_of(
    alloc: Global,
    reason: String,
    refused: &[Vec<u8>],
) -> Result<(String, Vec<String>), MemoryFault> {
    let mut first = reason;
    let mut further = Vec::new(alloc);
    for (i, name) in refused.iter().enumerate() {
        let reason = reason_for(alloc, FailureReason::Name, name.as_slice())?;
        if i == 0 {
            first = reason;
        } else {
            further.push(reason)?;
        }
    }
    Ok((first, further))
}

// Why a call failed. Where it was for bytes that are no name, these stand behind it.
fn reason_of(alloc: Global, failure: &Failure) -> Result<String, MemoryFault> {
    match failure.name() {
        Some(name) => reason_for(alloc, failure.cause(), name),
        None => Ok(failure.cause().to_string(alloc)?),
    }
}

// A cause, and behind it bytes that are no name: each that is no printable character of ASCII is
// escaped, as `\xe9`, and `\`, `'` and `"` get a `\` in front.
fn reason_for(alloc: Global, cause: FailureReason, name: &[u8]) -> Result<String, MemoryFault> {
    Ok(format!(in alloc; "{cause}: {}", name.escape_ascii())?)
}
