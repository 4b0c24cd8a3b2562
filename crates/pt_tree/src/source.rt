//! What a source is, and the trees that it tells.
//!
//! A source's tree is a `Forest`: the entries of a directory in the order of their names, each a
//! file with its bytes, a directory with its own entries, or something else. What it tells is that
//! tree and what is left of the open file (`Reading`). It may also say where it fails (`Failing`).
//! It counts its failures up to 2^64 - 1 (`IsCounted`), and its calls (`IsOneMoreCall`).
ghost use Rattle.std.specs.Prelude.{◌≡◌, ℕ, [], Option, Some, true, IfOk, MatchResult, OnOk, OnErr};
ghost use Rattle.std.specs.Option.{option_map};
ghost use Rattle.pt_tree.specs.Failing.{Failing, ListsAs, LooksAs, OpensAs, ReadsAs, failing_paths};
ghost use Rattle.pt_tree.specs.Failures.{IsCounted, IsOneMoreCall};
ghost use Rattle.pt_tree.specs.Forest.{is_proper};
ghost use Rattle.pt_tree.specs.Source.{Reading, CanList, IsListed, CanLook, IsSeen, CanOpen};
ghost use Rattle.pt_tree.specs.Source.{CanRead, IsRead};
ghost use Rattle.pt_tree.specs.Source.{after_open, after_next, tree_in};

use crate::{Block, Kind, Listing, NamePath, TreeFault};

/// A tree of files to read from.
///
/// A source may tell what it holds: then contracts say what its calls give. It may also tell where
/// it fails. No call changes its tree, at which paths it fails, or whether it tells. Each call but
/// `failures` raises the number of calls by one, failed or not, told or not; a running program
/// can't ask for that number.
///
/// Each call answers `Device` only where the count of failures rose in it, or stood at its greatest
/// value, 2^64 - 1; and `Memory` where a growth was refused.
pub trait Source {
    /// What it tells, if it does: its tree, and what is left of the open file.
    ghost told: { Self → Option Reading };

    /// Where it fails, if it tells that: at which paths nothing is listed, or opened and read to
    /// its end, and a look at an entry may fail, while elsewhere no call fails; and whether reading
    /// the open file on fails so. Who tells this should tell its tree.
    ghost failing: { Self → Option Failing };

    /// How often it failed, up to 2^64 - 1.
    ghost failed: { Self → ℕ };

    /// It was called so many times.
    ghost called: { Self → ℕ → Type 0 };

    /// What no call changes beside: it is the first device still, as its calls left it.
    ghost keeps: { Self → Self → Type 0 };

    /// How often it failed.
    fn failures(&self) -> u64
        ensures { result ≡ failed self.now };

    /// The names and kinds in the directory at a path, in the order of the names' bytes. Links
    /// aren't followed.
    ///
    /// Where the source tells, a directory has to be there. The open file stays as it is.
    fn list(&mut self, path: &NamePath) -> Result<Listing, TreeFault>
        requires { CanList (told self.old) path.now }
        ensures listing { IfOk result (λ listing. IsListed (told self.old) path.now listing) }
        ensures same { told self.new ≡ told self.old }
        ensures fails { ListsAs (failing self.old) (failing self.new) path.now result }
        ensures failures { IsCounted (failed self.old) (failed self.new) result }
        ensures calls { IsOneMoreCall (called self.old) (called self.new) }
        ensures keeps { keeps self.old self.new };

    /// The kind of what stands at a path, links not followed; None where nothing does.
    ///
    /// Where the source tells, a directory has to be above the path; the top has none above. The
    /// open file stays as it is.
    fn kind(&mut self, path: &NamePath) -> Result<Option<Kind>, TreeFault>
        requires { CanLook (tree_in (told self.old)) path.now }
        ensures kind { IfOk result (λ here. IsSeen (tree_in (told self.old)) path.now here) }
        ensures same { told self.new ≡ told self.old }
        ensures fails { LooksAs (failing self.old) (failing self.new) path.now result }
        ensures failures { IsCounted (failed self.old) (failed self.new) result }
        ensures calls { IsOneMoreCall (called self.old) (called self.new) }
        ensures keeps { keeps self.old self.new };

    /// Makes the file at a path the open one, read from its start; after a fault the open file
    /// stays as it was.
    ///
    /// Where the source tells, a file has to be there.
    fn open(&mut self, path: &NamePath) -> Result<(), TreeFault>
        requires { CanOpen (told self.old) path.now }
        ensures opened { OnOk result (told self.new
            ≡ option_map (after_open path.now) (told self.old)) }
        ensures same { OnErr result (told self.new ≡ told self.old) }
        ensures fails { OpensAs (failing self.old) (failing self.new) path.now result }
        ensures failures { IsCounted (failed self.old) (failed self.new) result }
        ensures calls { IsOneMoreCall (called self.old) (called self.new) }
        ensures keeps { keeps self.old self.new };

    /// The block becomes the next bytes of the open file: 8,192 of them unless the file ends first,
    /// none at its end, and none again after it. On a fault the block is empty, and the file is
    /// read on from where it was.
    ///
    /// Where the source tells, a file has to be open.
    fn next(&mut self, block: &mut Block) -> Result<(), TreeFault>
        requires { CanRead (told self.old) }
        ensures block { MatchResult result (λ _. IsRead (told self.old) block.new.items)
            (λ _. block.new.items ≡ []) }
        ensures moved { OnOk result (told self.new ≡ option_map after_next (told self.old)) }
        ensures same { OnErr result (told self.new ≡ told self.old) }
        ensures fails { ReadsAs (failing self.old) (failing self.new) block.new.items result }
        ensures failures { IsCounted (failed self.old) (failed self.new) result }
        ensures calls { IsOneMoreCall (called self.old) (called self.new) }
        ensures keeps { keeps self.old self.new };

    /// It is itself.
    ghost is_kept: { (a : Self) → keeps a a };

    /// And so it is after further calls.
    ghost keeps_on: { (a b c : Self) → keeps a b → keeps b c → keeps a c };

    /// So it fails at the same paths.
    ghost keeps_failing: { (a b : Self) → keeps a b
        → failing_paths (failing b) ≡ failing_paths (failing a) };

    /// In each directory of a tree that is told the names rise, so that none comes twice.
    ghost proper: { (source : Self) (state : Reading) → told source ≡ Some state
        → is_proper state.tree ≡ true };
}
