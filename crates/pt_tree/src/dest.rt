//! What a destination is, and the trees that it tells.
//!
//! A destination's tree is a function (`Tree`): at each path a file's bytes, a folder, something
//! else, or nothing. A change is one equation: `put`, `added`, `moved`, `without`. `IsTree` says
//! that a folder is above each entry; `tree_of` shows a source's tree (`Forest`) as such a
//! function. What a destination tells is its tree and which file is open (`Writing`). It counts its
//! failures up to 2^64 - 1 (`IsCounted`) and, where it keeps that, how often it was asked what
//! stands (`AreAsManyCalls`).
ghost use Rattle.std.specs.Prelude.{◌≡◌, ℕ, [], Option, Some, IfOk, OnOk, OnErr, ⊤};
ghost use Rattle.std.specs.Option.{option_map};
ghost use Rattle.pt_tree.specs.Failures.{AreAsManyCalls, IsCounted, IsOneMoreCall};
ghost use Rattle.pt_tree.specs.Tree.{IsTree};
ghost use Rattle.pt_tree.specs.Dest.{Writing, IsKindAt, CanPeek, IsPeeked, MayMake, CanWrite};
ghost use Rattle.pt_tree.specs.Dest.{MayMove, LeavesPart};
ghost use Rattle.pt_tree.specs.Dest.{after_mkdir, after_create, after_append, after_finish};
ghost use Rattle.pt_tree.specs.Dest.{after_rename};

use crate::{Block, Kind, NamePath, TreeFault};

/// A tree of files to write into.
///
/// A destination may tell what it holds: then contracts say what its calls give and leave. No call
/// changes whether it tells. A failed call changes nothing, but for a failed `append`. It may count
/// how often it is asked what stands; `kind` and `peek` raise that number by one, failed or not,
/// and no other call does.
///
/// Each call answers `Device` only where the count of failures rose in it, or stood at its greatest
/// value, 2^64 - 1; and `Memory` where a growth was refused.
pub trait Dest {
    /// What it tells, if it does: its tree, and which file is open.
    ghost told: { Self → Option Writing };

    /// How often it failed, up to 2^64 - 1.
    ghost failed: { Self → ℕ };

    /// It was asked so many times what stands, by `kind` and `peek`. One that keeps no such number
    /// leaves it open.
    ghost looked: { Self → ℕ → Type 0 } = { λ _ _. ⊤ };

    /// What no call changes beside: it is the first device still, as its calls left it.
    ghost keeps: { Self → Self → Type 0 };

    /// How often it failed.
    fn failures(&self) -> u64
        ensures { result ≡ failed self.now };

    /// The kind of what stands at a path, links not followed; None where nothing does, also below
    /// what is no directory.
    fn kind(&mut self, path: &NamePath) -> Result<Option<Kind>, TreeFault>
        ensures kind { IfOk result (λ kind. IsKindAt (told self.old) path.now kind) }
        ensures same { told self.new ≡ told self.old }
        ensures failures { IsCounted (failed self.old) (failed self.new) result }
        ensures looks { IsOneMoreCall (looked self.old) (looked self.new) }
        ensures keeps { keeps self.old self.new };

    /// The block becomes the first bytes of the file at a path, up to 8,192. On a fault the block
    /// is empty.
    ///
    /// Where the destination tells, a file has to be there.
    fn peek(&mut self, path: &NamePath, block: &mut Block) -> Result<(), TreeFault>
        requires { CanPeek (told self.old) path.now }
        ensures block { OnOk result (IsPeeked (told self.old) path.now block.new.items) }
        ensures empty { OnErr result (block.new.items ≡ []) }
        ensures same { told self.new ≡ told self.old }
        ensures failures { IsCounted (failed self.old) (failed self.new) result }
        ensures looks { IsOneMoreCall (looked self.old) (looked self.new) }
        ensures keeps { keeps self.old self.new };

    /// Makes a directory. Where the destination tells, the path has to be absent and its parent a
    /// directory.
    fn mkdir(&mut self, path: &NamePath) -> Result<(), TreeFault>
        requires { MayMake (told self.old) path.now }
        ensures made { OnOk result (told self.new
            ≡ option_map (after_mkdir path.now) (told self.old)) }
        ensures same { OnErr result (told self.new ≡ told self.old) }
        ensures failures { IsCounted (failed self.old) (failed self.new) result }
        ensures looks { AreAsManyCalls (looked self.old) (looked self.new) }
        ensures keeps { keeps self.old self.new };

    /// Makes an empty file and opens it; a file that was open keeps its bytes. Where the
    /// destination tells, the path has to be absent and its parent a directory.
    fn create(&mut self, path: &NamePath) -> Result<(), TreeFault>
        requires { MayMake (told self.old) path.now }
        ensures made { OnOk result (told self.new
            ≡ option_map (after_create path.now) (told self.old)) }
        ensures same { OnErr result (told self.new ≡ told self.old) }
        ensures failures { IsCounted (failed self.old) (failed self.new) result }
        ensures looks { AreAsManyCalls (looked self.old) (looked self.new) }
        ensures keeps { keeps self.old self.new };

    /// Adds a piece to the open file, which stays open. A failed call leaves a part of the piece,
    /// from its start.
    ///
    /// Where the destination tells, a file has to be open.
    fn append(&mut self, piece: &[u8]) -> Result<(), TreeFault>
        requires { CanWrite (told self.old) }
        ensures added { OnOk result (told self.new
            ≡ option_map (after_append piece.now) (told self.old)) }
        ensures part { OnErr result (LeavesPart (told self.old) (told self.new) piece.now) }
        ensures failures { IsCounted (failed self.old) (failed self.new) result }
        ensures looks { AreAsManyCalls (looked self.old) (looked self.new) }
        ensures keeps { keeps self.old self.new };

    /// Closes the open file. Where the destination tells, a file has to be open.
    fn finish(&mut self) -> Result<(), TreeFault>
        requires { CanWrite (told self.old) }
        ensures closed { OnOk result (told self.new ≡ option_map after_finish (told self.old)) }
        ensures same { OnErr result (told self.new ≡ told self.old) }
        ensures failures { IsCounted (failed self.old) (failed self.new) result }
        ensures looks { AreAsManyCalls (looked self.old) (looked self.new) }
        ensures keeps { keeps self.old self.new };

    /// Moves what stands at `from`, with all below, to `to`; a file that is open there is closed.
    ///
    /// Where the destination tells, something has to stand at `from`; `to` has to be absent, its
    /// parent a directory, and not at or below `from`.
    fn rename(&mut self, from: &NamePath, to: &NamePath) -> Result<(), TreeFault>
        requires { MayMove (told self.old) from.now to.now }
        ensures moved { OnOk result (told self.new
            ≡ option_map (after_rename from.now to.now) (told self.old)) }
        ensures same { OnErr result (told self.new ≡ told self.old) }
        ensures failures { IsCounted (failed self.old) (failed self.new) result }
        ensures looks { AreAsManyCalls (looked self.old) (looked self.new) }
        ensures keeps { keeps self.old self.new };

    /// It is itself.
    ghost is_kept: { (a : Self) → keeps a a };

    /// And so it is after further calls.
    ghost keeps_on: { (a b c : Self) → keeps a b → keeps b c → keeps a c };

    /// What is told is a tree: a folder is above each entry.
    ghost is_tree: { (dest : Self) (state : Writing) → told dest ≡ Some state → IsTree state.tree };
}
