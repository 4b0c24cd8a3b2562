ghost use Rattle.std.proofs.Common.{◌∙◌, refl};
ghost use Rattle.std.specs.Prelude.{◌≡◌, ◌↔◌, ◌<◌, [], Some, None, IsTrue, IfOk, MatchResult, OnOk};
ghost use Rattle.std.specs.Prelude.{OnErr, length};
ghost use Rattle.std.specs.Prelude.{true};
ghost use Rattle.std.specs.Option.{option_copied, option_map};
ghost use Rattle.pt_memory.specs.Entries.{forest_of};
ghost use Rattle.pt_tree.specs.declared.faults.TreeFault.TheVariants.{Device};
ghost use Rattle.pt_tree.specs.Forest.{is_proper};

use crate::PlantFault;
use crate::entries::{Entries, Found, at, list};
use crate::fuse::Fuse;
use crate::moving::rewrite;
use crate::opening::{open, read_on};
use crate::planting::{dir_in, dir_leaf, file_in, file_leaf, free_name, other_leaf, plant};
use pt_tree::{Block, Kind, Listing, MemoryFault, NamePath, Source, TreeFault};
use std::alloc::Global;

/// A tree of files in memory, to read from. It always tells; and without a fuse, that it never
/// fails.
#[derive(Debug, Drop)]
pub struct MemSource {
    alloc: Global,
    entries: Entries,
    fuse: Fuse,
    calls: u64,
    ghost proper: { is_proper (forest_of entries) ≡ true },
}

impl MemSource {
    ghost use Rattle.pt_memory.specs.MemSource.{source_state, source_tree, new_state, fused};
    ghost use Rattle.pt_memory.specs.MemSource.{after_refusal, after_source_call, swapped};
    ghost use Rattle.pt_memory.specs.MemSource.{IsPlanted, KindGives};
    ghost use Rattle.pt_memory.specs.MemSource.{ListGives, OpenGives, NextGives};
    ghost use Rattle.pt_memory.specs.Fuse.{fuse_answer};
    ghost use Rattle.pt_tree.specs.Forest.{file_at, kind_at, listing_at};
    ghost use Rattle.pt_tree.specs.Refusal.{Answers};
    ghost use Rattle.pt_memory.specs.Planting.{plant_refusal};
    ghost use Rattle.pt_tree.specs.Tree.{tree_of, Bytes, Folder, Special};

    /// An empty tree, without a fuse.
    pub fn new(alloc: Global) -> MemSource
        ensures { source_state result ≡ new_state }
    {
        MemSource {
            alloc,
            entries: Entries::End,
            fuse: Fuse::new(),
            calls: 0,
        }
    }

    /// Plants a file with these bytes. Refused, in this order, as `NoParent` where the path's
    /// parent is no directory, as `Taken` where something stands at the path, the top among it, and
    /// as `Memory`. Refused, it changes nothing.
    pub fn plant_file(&mut self, path: &NamePath, bytes: &[u8]) -> Result<(), PlantFault>
        ensures answer { Answers (plant_refusal (tree_of (source_tree self.old)) path.now)
            PlantFault.Memory result
            (λ _. IsPlanted (Bytes bytes.now) path.now (source_state self.old)
            (source_state self.new)) }
        ensures err { OnErr result (source_state self.new ≡ source_state self.old) }
    {
        let name = free_name(&self.entries, path)?;
        let leaf = file_leaf(self.alloc, name, bytes)?;
        plant(&mut self.entries, path, leaf);
        Ok(())
    }

    /// Plants an empty directory; refused as `plant_file` is.
    pub fn plant_dir(&mut self, path: &NamePath) -> Result<(), PlantFault>
        ensures answer { Answers (plant_refusal (tree_of (source_tree self.old)) path.now)
            PlantFault.Memory result
            (λ _. IsPlanted Folder path.now (source_state self.old) (source_state self.new)) }
        ensures err { OnErr result (source_state self.new ≡ source_state self.old) }
    {
        let name = free_name(&self.entries, path)?;
        let leaf = dir_leaf(self.alloc, name)?;
        plant(&mut self.entries, path, leaf);
        Ok(())
    }

    /// Plants something that is neither a file nor a directory; refused as `plant_file` is.
    pub fn plant_other(&mut self, path: &NamePath) -> Result<(), PlantFault>
        ensures answer { Answers (plant_refusal (tree_of (source_tree self.old)) path.now)
            PlantFault.Memory result
            (λ _. IsPlanted Special path.now (source_state self.old) (source_state self.new)) }
        ensures err { OnErr result (source_state self.new ≡ source_state self.old) }
    {
        let name = free_name(&self.entries, path)?;
        let leaf = other_leaf(self.alloc, name)?;
        plant(&mut self.entries, path, leaf);
        Ok(())
    }

    /// The bytes of the file at a path; None where no file is there.
    pub fn file(&self, path: &NamePath) -> Option<&[u8]>
        ensures { option_copied result ≡ file_at (source_tree self.now) path.now }
    {
        file_in(&self.entries, path)
    }

    /// The kind of what stands at a path; None where nothing does.
    pub fn kind_at(&self, path: &NamePath) -> Option<Kind>
        ensures { result ≡ kind_at (source_tree self.now) path.now }
    {
        match at(&self.entries, path.names()) {
            Some(Found::File(_)) => Some(Kind::File),
            Some(Found::Dir(_)) => Some(Kind::Dir),
            Some(Found::Other) => Some(Kind::Other),
            None => None,
        }
    }

    /// The names and kinds of the directory at a path; None where none is there.
    /// `Memory` where a growth was refused.
    pub fn listing(&self, path: &NamePath) -> Result<Option<Listing>, MemoryFault>
        ensures { IfOk result (λ listing. listing ≡ listing_at (source_tree self.now) path.now) }
    {
        match at(&self.entries, path.names()) {
            Some(Found::Dir(inside)) => Ok(Some(list(self.alloc, inside)?)),
            _ => Ok(None),
        }
    }

    /// After `Some(k)` the next k calls of the trait pass and every later one answers `Device`;
    /// `None` takes the fuse out. `failures` is never counted.
    pub fn fuse(&mut self, calls: Option<u64>)
        ensures { source_state self.new ≡ fused calls (source_state self.old) }
    {
        self.fuse.left = calls;
    }

    // The allocator that it was made with.
    pub(crate) fn alloc(&self) -> Global {
        self.alloc
    }

    // The file at a path holds other bytes; an open file is read on in them.
    pub(crate) fn replace(&mut self, path: &NamePath, bytes: Vec<u8>)
        requires { 0 < length path.now }
        ensures { source_state self.new ≡ swapped path.now bytes.items (source_state self.old) }
    {
        rewrite(&mut self.entries, path, bytes);
    }

    // One more call, by the fuse.
    fn count_call(&mut self) -> Result<(), TreeFault>
        ensures state { source_state self.new ≡ after_source_call (source_state self.old) }
        ensures answer { result ≡ fuse_answer (source_state self.old).fuse }
    {
        self.calls = self.calls.wrapping_add(1);
        self.fuse.pass()
    }

    // One more call, which fails also where the fuse lets it pass.
    pub(crate) fn refuse(&mut self) -> TreeFault
        ensures state { source_state self.new ≡ after_refusal (source_state self.old) }
        ensures answer { result ≡ Device }
    {
        match self.count_call() {
            Ok(()) => self.fuse.fail(),
            Err(fault) => fault,
        }
    }

    // `list` of the trait, on any tree and path: what is no directory is a failure.
    pub(crate) fn list_at(&mut self, path: &NamePath) -> Result<Listing, TreeFault>
        ensures { ListGives (source_state self.old) (source_state self.new) path.now result }
    {
        self.count_call()?;
        let Some(Found::Dir(inside)) = at(&self.entries, path.names()) else {
            return Err(self.fuse.fail());
        };
        match list(self.alloc, inside) {
            Ok(listing) => Ok(listing),
            Err(_) => Err(TreeFault::Memory),
        }
    }

    // `kind` of the trait, on any tree and path.
    pub(crate) fn look_at(&mut self, path: &NamePath) -> Result<Option<Kind>, TreeFault>
        ensures { KindGives (source_state self.old) (source_state self.new) path.now result }
    {
        self.count_call()?;
        Ok(self.kind_at(path))
    }

    // `open` of the trait, on any tree and path: what is no file is a failure.
    pub(crate) fn open_at(&mut self, path: &NamePath) -> Result<(), TreeFault>
        ensures { OpenGives (source_state self.old) (source_state self.new) path.now result }
    {
        self.count_call()?;
        let Some(Found::File(_)) = at(&self.entries, path.names()) else {
            return Err(self.fuse.fail());
        };
        open(&mut self.entries, path.names());
        Ok(())
    }

    // `next` of the trait, also where no file is open: then it is a failure.
    pub(crate) fn next_of(&mut self, block: &mut Block) -> Result<(), TreeFault>
        ensures gives { NextGives (source_state self.old)
            (source_state self.new) block.new.items result }
        ensures empty { OnErr result (block.new.items ≡ []) }
    {
        block.clear();
        self.count_call()?;
        if read_on(&mut self.entries, block) {
            Ok(())
        } else {
            Err(self.fuse.fail())
        }
    }
}

impl Source for MemSource {
    ghost use Rattle.std.specs.Prelude.{Some};
    ghost use Rattle.pt_tree.specs.Source.{CanList, IsListed, IsSeen, CanOpen, CanRead, IsRead};
    ghost use Rattle.pt_tree.specs.Source.{after_open, after_next, tree_in};
    ghost use Rattle.pt_tree.specs.Failing.{ListsAs, LooksAs, OpensAs, ReadsAs};
    ghost use Rattle.pt_tree.specs.Failures.{IsCounted, IsOneMoreCall};
    ghost use Rattle.pt_memory.specs.MemSource.{source_state, source_called, KindGives, ListGives};
    ghost use Rattle.pt_memory.specs.MemSource.{OpenGives, NextGives};
    ghost use Rattle.pt_memory.specs.MemSourceTells.{KeepsFuse, source_failing, source_told};
    ghost use Rattle.pt_memory.specs.MemSourceTells.{keeps_failing, proper_told};

    ghost told = { source_told };

    ghost failing = { source_failing };

    ghost failed = { λ s. s.fuse.failures };

    ghost called = { source_called };

    ghost keeps = { KeepsFuse };

    ghost is_kept = { λ _. refl };

    ghost keeps_on = { λ _ _ _ p q. q ∙ p };

    ghost keeps_failing = { keeps_failing };

    ghost proper = { proper_told };

    fn failures(&self) -> u64 {
        self.fuse.failures
    }

    fn list(&mut self, path: &NamePath) -> Result<Listing, TreeFault>
        requires { CanList (source_told self.old) path.now }
        ensures gives { ListGives (source_state self.old) (source_state self.new) path.now result }
        ensures listing { IfOk result (λ listing.
            IsListed (source_told self.old) path.now listing) }
        ensures same { source_told self.new ≡ source_told self.old }
        ensures fails { ListsAs (source_failing self.old) (source_failing self.new)
            path.now result }
        ensures failures { IsCounted self.old.fuse.failures self.new.fuse.failures result }
        ensures calls { IsOneMoreCall (source_called self.old) (source_called self.new) }
    {
        self.list_at(path)
    }

    fn kind(&mut self, path: &NamePath) -> Result<Option<Kind>, TreeFault>
        ensures gives { KindGives (source_state self.old) (source_state self.new) path.now result }
        ensures kind { IfOk result (λ here.
            IsSeen (tree_in (source_told self.old)) path.now here) }
        ensures same { source_told self.new ≡ source_told self.old }
        ensures fails { LooksAs (source_failing self.old) (source_failing self.new)
            path.now result }
        ensures failures { IsCounted self.old.fuse.failures self.new.fuse.failures result }
        ensures calls { IsOneMoreCall (source_called self.old) (source_called self.new) }
    {
        self.look_at(path)
    }

    fn open(&mut self, path: &NamePath) -> Result<(), TreeFault>
        requires { CanOpen (source_told self.old) path.now }
        ensures gives { OpenGives (source_state self.old) (source_state self.new) path.now result }
        ensures opened { OnOk result (source_told self.new
            ≡ option_map (after_open path.now) (source_told self.old)) }
        ensures same { OnErr result (source_told self.new ≡ source_told self.old) }
        ensures fails { OpensAs (source_failing self.old) (source_failing self.new)
            path.now result }
        ensures failures { IsCounted self.old.fuse.failures self.new.fuse.failures result }
        ensures calls { IsOneMoreCall (source_called self.old) (source_called self.new) }
    {
        self.open_at(path)
    }

    fn next(&mut self, block: &mut Block) -> Result<(), TreeFault>
        requires { CanRead (source_told self.old) }
        ensures gives { NextGives (source_state self.old)
            (source_state self.new) block.new.items result }
        ensures block { MatchResult result (λ _. IsRead (source_told self.old) block.new.items)
            (λ _. block.new.items ≡ []) }
        ensures moved { OnOk result (source_told self.new
            ≡ option_map after_next (source_told self.old)) }
        ensures same { OnErr result (source_told self.new ≡ source_told self.old) }
        ensures fails { ReadsAs (source_failing self.old) (source_failing self.new)
            block.new.items result }
        ensures failures { IsCounted self.old.fuse.failures self.new.fuse.failures result }
        ensures calls { IsOneMoreCall (source_called self.old) (source_called self.new) }
    {
        self.next_of(block)
    }
}

// What the trait's calls need, as tests.
impl MemSource {
    ghost use Rattle.pt_tree.specs.Source.{CanList, CanOpen};
    ghost use Rattle.pt_memory.specs.MemSourceTells.{source_told};

    /// Whether a file is at a path.
    pub fn has_file(&self, path: &NamePath) -> bool
        ensures { IsTrue result ↔ CanOpen (source_told self.now) path.now }
    {
        self.file(path).is_some()
    }

    /// Whether a directory is at a path.
    pub fn has_dir(&self, path: &NamePath) -> bool
        ensures { IsTrue result ↔ CanList (source_told self.now) path.now }
    {
        dir_in(&self.entries, path)
    }
}
