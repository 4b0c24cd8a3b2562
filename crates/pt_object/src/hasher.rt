#![tactic(auto, unfolding(crate::specs::Hasher::HasBeenFed))]

ghost use Rattle.std.specs.Prelude.{◌≡◌, [], ◌++◌, IfOk, List, ℕ};
ghost use Rattle.pt_object.specs.Algorithm.{digest_of};
ghost use Rattle.pt_object.specs.declared.algorithm.Algorithm.{Algorithm};

use crate::{Algorithm, Digest};
use pt_tree::{Block, MemoryFault};
use sha2::{Digest as _, Sha256, Sha512};

#[derive(Drop)]
enum Core {
    Sha512(Sha512),
    Sha256(Sha256),
}

/// The digest of what is fed to it, piece by piece. It takes no memory.
#[derive(Drop)]
pub struct Hasher {
    core: Core,
}

impl Hasher {
    ghost use Rattle.pt_object.specs.Hasher.{HasBeenFed};

    /// A hasher that has been fed nothing.
    pub fn start(algorithm: Algorithm) -> Hasher
        ensures { HasBeenFed algorithm result [] }
    {
        let core = match algorithm {
            Algorithm::Sha512 => Core::Sha512(Sha512::new()),
            Algorithm::Sha256 => Core::Sha256(Sha256::new()),
        };
        Hasher { core }
    }

    /// Feeds the bytes of a block, of any number, to it.
    pub fn feed(&mut self, block: &Block)
        ensures { (algorithm : Algorithm) (fed : List ℕ) →
            HasBeenFed algorithm self.old fed
            → HasBeenFed algorithm self.new (fed ++ block.now.items) }
    {
        self.feed_bytes(block.as_slice());
    }

    /// Feeds bytes, of any number, to it.
    pub fn feed_bytes(&mut self, bytes: &[u8])
        ensures { (algorithm : Algorithm) (fed : List ℕ) →
            HasBeenFed algorithm self.old fed
            → HasBeenFed algorithm self.new (fed ++ bytes.now) }
    {
        match &mut self.core {
            Core::Sha512(core) => core.update(bytes),
            Core::Sha256(core) => core.update(bytes),
        }
    }

    /// Another hasher that has been fed the same.
    /// `Memory` where a growth was refused.
    pub fn copy(&self) -> Result<Hasher, MemoryFault>
        ensures { (algorithm : Algorithm) (fed : List ℕ) →
            HasBeenFed algorithm self.now fed
            → IfOk result (λ copy. HasBeenFed algorithm copy fed) }
    {
        let core = match &self.core {
            Core::Sha512(core) => Core::Sha512(core.clone()?),
            Core::Sha256(core) => Core::Sha256(core.clone()?),
        };
        Ok(Hasher { core })
    }

    /// The digest of all that it has been fed.
    pub fn end(self) -> Digest
        ensures { (algorithm : Algorithm) (fed : List ℕ) → HasBeenFed algorithm self fed
            → result ≡ digest_of algorithm fed }
    {
        match self.core {
            Core::Sha512(core) => Digest::long(core.finalize()),
            Core::Sha256(core) => Digest::short(core.finalize()),
        }
    }
}
