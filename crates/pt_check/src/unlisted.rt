//! What is known of a folder that a source failed to list.
ghost use Rattle.std.specs.Prelude.{◌≡◌, ◌≤◌, ◌∷◌, ℕ, List, Bool, true, map, is_some, string_bytes};
ghost use Rattle.std.specs.Prelude.{IfOk, IfSome};
ghost use Rattle.pt_tree.specs.Source.{CanList, IsListed};

use pt_tree::{Listing, MemoryFault, NamePath, Source};
use std::alloc::Global;

/// Why a folder can't be listed, and what of it can be.
#[derive(Drop)]
pub struct UnlistedFolder {
    /// A reason, in words.
    pub reason: String,
    /// Further ones, as one for each further entry whose bytes are no name.
    pub further: Vec<String>,
    /// Its entries that have names, where nothing else keeps it from being listed.
    pub listing: Option<Listing>,
}

/// Why a source failed.
pub trait Explains<S: Source> {
    /// It may say of a folder at this path that it can't be listed for these reasons, and whether
    /// what has names in it can be.
    ghost says: { List (List ℕ) → List (List ℕ) → Bool → Bool };

    /// The reason of the source's last failure, in words. `Memory` where a growth was refused.
    fn reason(&self, alloc: Global, source: &S) -> Result<String, MemoryFault>;

    /// Why the source's last call failed, which was to list a folder, and what of that can be
    /// listed all the same. `Memory` where a growth was refused.
    ///
    /// The source may be called, and fail, again. Where it tells, each entry has a name, and what
    /// can be listed is all of them.
    fn explain_listing(
        &self,
        alloc: Global,
        source: &mut S,
        path: &NamePath,
    ) -> Result<UnlistedFolder, MemoryFault>
        requires { CanList (S.told source.old) path.now }
        ensures listing { IfOk result (λ unlisted. IfSome unlisted.listing
            (λ listing. IsListed (S.told source.old) path.now listing)) }
        ensures said { IfOk result (λ unlisted. says path.now
            (string_bytes unlisted.reason
            ∷ map (λ reason. string_bytes reason) unlisted.further.items)
            (is_some unlisted.listing) ≡ true) }
        ensures same { S.told source.new ≡ S.told source.old }
        ensures failures { S.failed source.old ≤ S.failed source.new }
        ensures keeps { S.keeps source.old source.new };
}
