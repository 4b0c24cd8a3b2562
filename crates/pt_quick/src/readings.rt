//! What was read of the files of an object, by the digests that are claimed for them.
ghost use Rattle.std.specs.Prelude.{◌≡◌, IfOk, OnOk, Some};
ghost use Rattle.pt_quick.specs.Claimed.{fits, no_claims, read_at, with_text};

use pt_object::Digest;
use pt_tree::MemoryFault;
use std::alloc::Global;
use std::collections::BTreeMap;
use std::marker::Model;

/// By each digest that is claimed for files, that of what was read of the last of them, seen as the
/// list of both.
#[derive(Drop)]
pub(crate) struct Readings {
    by_claimed: BTreeMap<Digest, Digest>,
}

impl Model for Readings {
    ghost use Rattle.pt_quick.specs.Claimed.{HeldDigests};

    ghost Value = { HeldDigests };

    ghost view = { λ r. r.by_claimed.entries };
}

impl Readings {
    /// None.
    pub(crate) fn new(alloc: Global) -> Readings
        ensures { read_at result ≡ no_claims }
    {
        Readings {
            by_claimed: BTreeMap::new(alloc),
        }
    }

    /// Notes the digest of what was read of a file, and tells whether the last one with the digest
    /// that is claimed for it was read as the same. `Memory` where a growth was refused.
    pub(crate) fn note(&mut self, claimed: &Digest, read: &Digest) -> Result<bool, MemoryFault>
        ensures fits { IfOk result (λ fit. fit ≡ fits (read_at self.old) claimed.now read.now) }
        ensures noted { OnOk result (read_at self.new
            ≡ with_text read.now (Some claimed.now) (read_at self.old)) }
    {
        let Ok(last) = self.by_claimed.insert(*claimed, *read) else {
            return Err(MemoryFault::Memory);
        };
        let Some(last) = last else {
            return Ok(true);
        };
        Ok(last == *read)
    }
}
