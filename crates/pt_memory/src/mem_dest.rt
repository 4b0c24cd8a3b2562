ghost use Rattle.std.specs.Prelude.{◌≡◌, ◌↔◌, ◌≤◌, [], length, take, true, None, Some, IsOk};
ghost use Rattle.std.specs.Prelude.{IsTrue, IfOk, OnOk, OnErr, ⊤};
ghost use Rattle.std.specs.Option.{option_copied, option_map};
ghost use Rattle.pt_memory.specs.Entries.{forest_of};
ghost use Rattle.pt_tree.specs.Dest.{added_to, open_unless_below};
ghost use Rattle.pt_tree.specs.Tree.{tree_of};
ghost use Rattle.pt_tree.specs.Forest.{is_proper};

use crate::PlantFault;
use crate::entries::{Entries, at, same};
use crate::fuse::Fuse;
use crate::moving::{append, rename, take};
use crate::opening::fill;
use crate::planting::{dir_leaf, file_in, file_leaf, free_name, kind_in, plant, refusal};
use pt_tree::{Block, Dest, Kind, MemoryFault, NamePath, TreeFault};
use std::alloc::Global;
use thiserror::Error;

/// Why nothing is taken away.
#[derive(Clone, Copy, Debug, PartialEq, Eq, Error)]
pub enum TakeFault {
    /// Nothing stands at the path, or it is the top.
    #[error("nothing stands at the path")]
    Absent,
}

impl TakeFault {
    ghost use Rattle.pt_memory.specs.MemDest.{take_number};

    /// The fault's number: 1.
    pub fn number(&self) -> u8
        ensures { result ≡ take_number self.now }
    {
        match self {
            TakeFault::Absent => 1,
        }
    }
}

/// A tree of files in memory, to write into. It always tells.
#[derive(Debug, Drop)]
pub struct MemDest {
    alloc: Global,
    entries: Entries,
    writing: Option<NamePath>,
    fuse: Fuse,
    ghost proper: { is_proper (forest_of entries) ≡ true },
}

impl MemDest {
    ghost use Rattle.pt_memory.specs.MemDest.{dest_tree, dest_state, new_dest, after_plant};
    ghost use Rattle.pt_memory.specs.MemDest.{after_take, dest_fused, take_refusal, with_tree};
    ghost use Rattle.pt_memory.specs.Planting.{plant_refusal};
    ghost use Rattle.pt_tree.specs.Refusal.{Answers};
    ghost use Rattle.pt_tree.specs.Tree.{Bytes, Folder, added, bytes_of, kind_of_entry};

    /// An empty tree, without a fuse.
    pub fn new(alloc: Global) -> MemDest
        ensures { dest_state result ≡ new_dest }
    {
        MemDest {
            alloc,
            entries: Entries::End,
            writing: None,
            fuse: Fuse::new(),
        }
    }

    /// Plants a file with these bytes. Refused, in this order, as `NoParent` where the path's
    /// parent is no directory, as `Taken` where something stands at the path, the top among it, and
    /// as `Memory`. Refused, it changes nothing.
    pub fn plant_file(&mut self, path: &NamePath, bytes: &[u8]) -> Result<(), PlantFault>
        ensures answer { Answers (plant_refusal (dest_tree self.old) path.now)
            PlantFault.Memory result
            (λ _. dest_state self.new ≡ after_plant path.now (Bytes bytes.now)
            (dest_state self.old)) }
        ensures err { OnErr result (dest_state self.new ≡ dest_state self.old) }
    {
        let name = free_name(&self.entries, path)?;
        let leaf = file_leaf(self.alloc, name, bytes)?;
        plant(&mut self.entries, path, leaf);
        Ok(())
    }

    /// Plants an empty directory; refused as `plant_file` is.
    pub fn plant_dir(&mut self, path: &NamePath) -> Result<(), PlantFault>
        ensures answer { Answers (plant_refusal (dest_tree self.old) path.now)
            PlantFault.Memory result
            (λ _. dest_state self.new ≡ after_plant path.now Folder (dest_state self.old)) }
        ensures err { OnErr result (dest_state self.new ≡ dest_state self.old) }
    {
        let name = free_name(&self.entries, path)?;
        let leaf = dir_leaf(self.alloc, name)?;
        plant(&mut self.entries, path, leaf);
        Ok(())
    }

    /// Removes what stands at a path, with all below, and closes a file that is open there.
    /// `Absent` where nothing stands, and for the top; then nothing is changed.
    pub fn take_away(&mut self, path: &NamePath) -> Result<(), TakeFault>
        ensures answer { Answers (take_refusal (dest_tree self.old) path.now)
            TakeFault.Absent result
            (λ _. dest_state self.new ≡ after_take path.now (dest_state self.old)) }
        ensures taken { take_refusal (dest_tree self.old) path.now ≡ None → IsOk result }
        ensures err { OnErr result (dest_state self.new ≡ dest_state self.old) }
    {
        if path.is_empty() || at(&self.entries, path.names()).is_none() {
            return Err(TakeFault::Absent);
        }
        take(&mut self.entries, path);
        close_within(&mut self.writing, path);
        Ok(())
    }

    /// The bytes of the file at a path; None where no file is there.
    pub fn file(&self, path: &NamePath) -> Option<&[u8]>
        ensures { option_copied result ≡ bytes_of (dest_tree self.now path.now) }
    {
        file_in(&self.entries, path)
    }

    /// The kind of what stands at a path; None where nothing does.
    pub fn kind_at(&self, path: &NamePath) -> Option<Kind>
        ensures { result ≡ option_map kind_of_entry (dest_tree self.now path.now) }
    {
        kind_in(&self.entries, path)
    }

    /// Adds a piece to the file at a path, whichever is open; without memory for it nothing is
    /// changed. Where no file is there, nothing is.
    pub fn add_to(&mut self, path: &NamePath, piece: &[u8]) -> Result<(), MemoryFault>
        ensures added { OnOk result (dest_state self.new
            ≡ with_tree (added (dest_tree self.old) path.now piece.now) (dest_state self.old)) }
        ensures err { OnErr result (dest_state self.new ≡ dest_state self.old) }
    {
        append(&mut self.entries, path, piece)
    }

    /// Adds the first so many bytes of a piece, as `add_to` does: how many they are.
    pub fn add_part(
        &mut self,
        path: &NamePath,
        piece: &[u8],
        count: usize,
    ) -> Result<usize, MemoryFault>
        requires { count ≤ length piece.now }
        ensures added { IfOk result (λ n. dest_state self.new
            ≡ with_tree (added (dest_tree self.old) path.now (take n piece.now))
            (dest_state self.old)) }
        ensures count { IfOk result (λ n. n ≡ count) }
        ensures err { OnErr result (dest_state self.new ≡ dest_state self.old) }
    {
        self.add_to(path, &piece[..count])?;
        Ok(count)
    }

    /// Whether the two trees are equal. Open files, fuses and counts aren't compared.
    pub fn same(&self, other: &MemDest) -> bool
        ensures { IsTrue result ↔ (dest_tree self.now ≡ dest_tree other.now) }
    {
        same(&self.entries, &other.entries)
    }

    /// After `Some(k)` the next k calls of the trait pass and every later one answers `Device`, a
    /// failing `append` leaving half of its piece, rounded down; `None` takes the fuse out.
    /// `failures` is never counted.
    pub fn fuse(&mut self, calls: Option<u64>)
        ensures { dest_state self.new ≡ dest_fused calls (dest_state self.old) }
    {
        self.fuse.left = calls;
    }
}

// Closes the open file if it is at or below a path.
fn close_within(writing: &mut Option<NamePath>, path: &NamePath)
    ensures { writing.new ≡ open_unless_below path.now writing.old }
{
    if let Some(file) = writing
        && file.is_within(path)
    {
        *writing = None;
    }
}

impl Dest for MemDest {
    ghost use Rattle.std.specs.Prelude.{Some, Ok};
    ghost use Rattle.pt_tree.specs.Dest.{CanPeek, CanWrite, IsKindAt, IsPeeked, LeavesPart};
    ghost use Rattle.pt_tree.specs.Dest.{MayMake, MayMove, after_append, after_create};
    ghost use Rattle.pt_tree.specs.Dest.{after_finish, after_mkdir, after_rename};
    ghost use Rattle.pt_tree.specs.Failures.{IsCounted};
    ghost use Rattle.pt_memory.specs.Fuse.{is_blown};
    ghost use Rattle.pt_memory.specs.MemDest.{Appends, Makes, Passes, after_dest_call, dest_state};
    ghost use Rattle.pt_memory.specs.MemDest.{dest_told};
    ghost use Rattle.pt_memory.specs.MemDestTells.{tree_told};
    ghost use Rattle.pt_tree.specs.Tree.{kind_of_entry, bytes_of};

    ghost told = { dest_told };

    ghost failed = { λ d. d.fuse.failures };

    ghost keeps = { λ _ _. ⊤ };

    ghost is_kept = { λ _. tt };

    ghost keeps_on = { λ _ _ _ _ _. tt };

    ghost is_tree = { tree_told };

    fn failures(&self) -> u64 {
        self.fuse.failures
    }

    fn kind(&mut self, path: &NamePath) -> Result<Option<Kind>, TreeFault>
        ensures gives { Passes (is_blown self.old.fuse) (dest_state self.old)
            (dest_state self.new) result
            ((result ≡ Ok (option_map kind_of_entry ((dest_state self.old).told.tree path.now)))
            × (dest_state self.new ≡ after_dest_call (dest_state self.old)
            (dest_state self.old).told)) }
        ensures kind { IfOk result (λ kind. IsKindAt (dest_told self.old) path.now kind) }
        ensures same { dest_told self.new ≡ dest_told self.old }
        ensures failures { IsCounted self.old.fuse.failures self.new.fuse.failures result }
    {
        self.fuse.pass()?;
        Ok(kind_in(&self.entries, path))
    }

    fn peek(&mut self, path: &NamePath, block: &mut Block) -> Result<(), TreeFault>
        requires { CanPeek (dest_told self.old) path.now }
        ensures gives { Passes (is_blown self.old.fuse) (dest_state self.old)
            (dest_state self.new) result
            ((result ≡ Ok tt) × (dest_state self.new
            ≡ after_dest_call (dest_state self.old) (dest_state self.old).told)) }
        ensures block { OnOk result (IsPeeked (dest_told self.old) path.now block.new.items) }
        ensures empty { OnErr result (block.new.items ≡ []) }
        ensures same { dest_told self.new ≡ dest_told self.old }
        ensures failures { IsCounted self.old.fuse.failures self.new.fuse.failures result }
    {
        block.clear();
        self.fuse.pass()?;
        let Some(bytes) = file_in(&self.entries, path) else {
            unreachable!()
        };
        fill(block, bytes);
        Ok(())
    }

    fn mkdir(&mut self, path: &NamePath) -> Result<(), TreeFault>
        requires { MayMake (dest_told self.old) path.now }
        ensures gives { Passes (is_blown self.old.fuse) (dest_state self.old)
            (dest_state self.new) result
            (Makes (dest_state self.old) (dest_state self.new) result
            (after_mkdir path.now (dest_state self.old).told)) }
        ensures made { OnOk result (dest_told self.new
            ≡ option_map (after_mkdir path.now) (dest_told self.old)) }
        ensures same { OnErr result (dest_told self.new ≡ dest_told self.old) }
        ensures failures { IsCounted self.old.fuse.failures self.new.fuse.failures result }
    {
        self.fuse.pass()?;
        let Some((_, name)) = path.split() else {
            unreachable!()
        };
        let leaf = dir_leaf(self.alloc, name)?;
        plant(&mut self.entries, path, leaf);
        Ok(())
    }

    fn create(&mut self, path: &NamePath) -> Result<(), TreeFault>
        requires { MayMake (dest_told self.old) path.now }
        ensures gives { Passes (is_blown self.old.fuse) (dest_state self.old)
            (dest_state self.new) result
            (Makes (dest_state self.old) (dest_state self.new) result
            (after_create path.now (dest_state self.old).told)) }
        ensures made { OnOk result (dest_told self.new
            ≡ option_map (after_create path.now) (dest_told self.old)) }
        ensures same { OnErr result (dest_told self.new ≡ dest_told self.old) }
        ensures failures { IsCounted self.old.fuse.failures self.new.fuse.failures result }
    {
        self.fuse.pass()?;
        let Some((_, name)) = path.split() else {
            unreachable!()
        };
        let writing = path.copy()?;
        let leaf = file_leaf(self.alloc, name, &[])?;
        plant(&mut self.entries, path, leaf);
        self.writing = Some(writing);
        Ok(())
    }

    fn append(&mut self, piece: &[u8]) -> Result<(), TreeFault>
        requires { CanWrite (dest_told self.old) }
        ensures gives { Appends (is_blown self.old.fuse) (dest_state self.old)
            (dest_state self.new) result piece.now }
        ensures added { OnOk result (dest_told self.new
            ≡ option_map (after_append piece.now) (dest_told self.old)) }
        ensures part { OnErr result (LeavesPart (dest_told self.old)
            (dest_told self.new) piece.now) }
        ensures failures { IsCounted self.old.fuse.failures self.new.fuse.failures result }
    {
        if self.fuse.is_blown() {
            return match add(&mut self.entries, &self.writing, &piece[..piece.len() / 2]) {
                Ok(()) => Err(self.fuse.fail()),
                Err(_) => Err(TreeFault::Memory),
            };
        }
        self.fuse.pass()?;
        match add(&mut self.entries, &self.writing, piece) {
            Ok(()) => Ok(()),
            Err(_) => Err(TreeFault::Memory),
        }
    }

    fn finish(&mut self) -> Result<(), TreeFault>
        requires { CanWrite (dest_told self.old) }
        ensures gives { Passes (is_blown self.old.fuse) (dest_state self.old)
            (dest_state self.new) result
            ((result ≡ Ok tt) × (dest_state self.new
            ≡ after_dest_call (dest_state self.old) (after_finish (dest_state self.old).told))) }
        ensures closed { OnOk result (dest_told self.new
            ≡ option_map after_finish (dest_told self.old)) }
        ensures same { OnErr result (dest_told self.new ≡ dest_told self.old) }
        ensures failures { IsCounted self.old.fuse.failures self.new.fuse.failures result }
    {
        self.fuse.pass()?;
        self.writing = None;
        Ok(())
    }

    fn rename(&mut self, from: &NamePath, to: &NamePath) -> Result<(), TreeFault>
        requires { MayMove (dest_told self.old) from.now to.now }
        ensures gives { Passes (is_blown self.old.fuse) (dest_state self.old)
            (dest_state self.new) result
            (Makes (dest_state self.old) (dest_state self.new) result
            (after_rename from.now to.now (dest_state self.old).told)) }
        ensures moved { OnOk result (dest_told self.new
            ≡ option_map (after_rename from.now to.now) (dest_told self.old)) }
        ensures same { OnErr result (dest_told self.new ≡ dest_told self.old) }
        ensures failures { IsCounted self.old.fuse.failures self.new.fuse.failures result }
    {
        self.fuse.pass()?;
        rename(&mut self.entries, from, to)?;
        close_within(&mut self.writing, from);
        Ok(())
    }
}

// Adds a piece to the open file.
fn add(entries: &mut Entries, writing: &Option<NamePath>, piece: &[u8]) -> Result<(), MemoryFault>
    requires { is_proper (forest_of entries.old) ≡ true }
    ensures ok { OnOk result (tree_of (forest_of entries.new)
        ≡ added_to (tree_of (forest_of entries.old)) writing.now piece.now) }
    ensures err { OnErr result (tree_of (forest_of entries.new) ≡ tree_of (forest_of entries.old)) }
    ensures proper { is_proper (forest_of entries.new) ≡ true }
{
    match writing {
        Some(path) => append(entries, path, piece),
        None => Ok(()),
    }
}

// What the trait's calls need, as tests.
impl MemDest {
    ghost use Rattle.pt_tree.specs.Dest.{MayMake, MayMove, CanPeek};
    ghost use Rattle.pt_memory.specs.MemDest.{dest_told};

    /// Whether something may be made at a path: nothing is there, and its parent is a directory.
    pub fn may_make(&self, path: &NamePath) -> bool
        ensures { IsTrue result ↔ MayMake (dest_told self.now) path.now }
    {
        refusal(&self.entries, path).is_none()
    }

    /// Whether what is at `from` may be moved to `to`: something is there, and `to` may be made and
    /// isn't at or below it.
    pub fn may_move(&self, from: &NamePath, to: &NamePath) -> bool
        ensures { IsTrue result ↔ MayMove (dest_told self.now) from.now to.now }
    {
        if to.is_within(from) {
            return false;
        }
        if kind_in(&self.entries, from).is_none() {
            return false;
        }
        refusal(&self.entries, to).is_none()
    }

    /// Whether a file is at a path.
    pub fn has_file(&self, path: &NamePath) -> bool
        ensures { IsTrue result ↔ CanPeek (dest_told self.now) path.now }
    {
        self.file(path).is_some()
    }
}
