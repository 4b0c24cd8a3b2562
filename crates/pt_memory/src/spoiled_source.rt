ghost use Rattle.std.proofs.Common.{refl};
ghost use Rattle.std.specs.Prelude.{◌≡◌, [], false, IfOk, MatchResult, OnErr, OnOk};
ghost use Rattle.std.specs.Option.{option_map};

use crate::MemSource;
use pt_tree::{Block, Kind, Listing, NamePath, Source, TreeFault};

/// A tree of files in memory of which what stands at some paths can't be listed or read. It always
/// tells; and without a fuse, that it fails at these paths and nowhere else.
///
/// A file at one of them is opened as any other, so that whoever only opens it sees no failure; but
/// each `next` of it fails, and leaves it where it was. A look at an entry of a directory at one of
/// them fails. A call that fails so is a call like any other, also for a fuse, and answers
/// `Device`.
#[derive(Debug, Drop)]
pub struct SpoiledSource {
    source: MemSource,
    spoiled: Vec<NamePath>,
    is_open_spoiled: bool,
}

impl SpoiledSource {
    ghost use Rattle.pt_memory.specs.SpoiledSource.{is_spoiled};
    ghost use Rattle.pt_tree.specs.Path.{parent};

    /// Takes a tree over as it is, with its fuse and its counts. What stands at these paths can't
    /// be listed, or opened and read, from now on; nothing has to stand there. A file that is open
    /// already is read on, wherever it stands.
    pub fn new(source: MemSource, paths: Vec<NamePath>) -> SpoiledSource
        ensures source { result.source ≡ source }
        ensures paths { result.spoiled ≡ paths }
        ensures open { result.is_open_spoiled ≡ false }
    {
        SpoiledSource {
            source,
            spoiled: paths,
            is_open_spoiled: false,
        }
    }

    /// The tree, in which everything can be read.
    pub fn source(&self) -> &MemSource
        ensures { result.now ≡ self.now.source }
    {
        &self.source
    }

    // Whether nothing can be read at a path.
    fn is_spoiled(&self, path: &NamePath) -> bool
        ensures { result ≡ is_spoiled self.now.spoiled.items path.now }
    {
        self.spoiled.contains(path)
    }

    // Whether the directory above a path can't be listed; the top has none above, and stands for
    // it.
    fn is_spoiled_above(&self, path: &NamePath) -> bool
        ensures { result ≡ is_spoiled self.now.spoiled.items (parent path.now) }
    {
        let above = match path.split() {
            Some((above, _)) => above,
            None => path.names(),
        };
        self.spoiled.iter().any(|other| other.names() == above)
    }
}

impl Source for SpoiledSource {
    ghost use Rattle.pt_tree.specs.Failing.{ListsAs, LooksAs, OpensAs, ReadsAs};
    ghost use Rattle.pt_tree.specs.Failures.{IsCounted, IsOneMoreCall};
    ghost use Rattle.pt_tree.specs.Source.{CanList, CanOpen, CanRead, IsListed, IsRead, IsSeen};
    ghost use Rattle.pt_tree.specs.Source.{after_next, after_open, tree_in};
    ghost use Rattle.pt_memory.specs.MemSource.{source_called};
    ghost use Rattle.pt_memory.specs.MemSourceTells.{source_told, proper_told};
    ghost use Rattle.pt_memory.specs.SpoiledSource.{KeepsSpoiled, SpoiledKindGives};
    ghost use Rattle.pt_memory.specs.SpoiledSource.{SpoiledListGives, SpoiledNextGives};
    ghost use Rattle.pt_memory.specs.SpoiledSource.{SpoiledOpenGives, keeps_failing, keeps_on};
    ghost use Rattle.pt_memory.specs.SpoiledSource.{spoiled_failing, spoiled_state};

    ghost told = { λ s. source_told s.source };

    ghost failing = { spoiled_failing };

    ghost failed = { λ s. s.source.fuse.failures };

    ghost called = { λ s. source_called s.source };

    ghost keeps = { KeepsSpoiled };

    ghost is_kept = { λ _. (refl, refl) };

    ghost keeps_on = { keeps_on };

    ghost keeps_failing = { keeps_failing };

    ghost proper = { λ s. proper_told s.source };

    fn failures(&self) -> u64 {
        self.source.failures()
    }

    fn list(&mut self, path: &NamePath) -> Result<Listing, TreeFault>
        requires { CanList (source_told self.old.source) path.now }
        ensures gives { SpoiledListGives (spoiled_state self.old) (spoiled_state self.new)
            path.now result }
        ensures listing { IfOk result (λ listing.
            IsListed (source_told self.old.source) path.now listing) }
        ensures same { source_told self.new.source ≡ source_told self.old.source }
        ensures fails { ListsAs (spoiled_failing self.old) (spoiled_failing self.new)
            path.now result }
        ensures failures { IsCounted self.old.source.fuse.failures
            self.new.source.fuse.failures result }
        ensures calls { IsOneMoreCall (source_called self.old.source)
            (source_called self.new.source) }
        ensures keeps { KeepsSpoiled self.old self.new }
    {
        if self.is_spoiled(path) {
            return Err(self.source.refuse());
        }
        self.source.list(path)
    }

    fn kind(&mut self, path: &NamePath) -> Result<Option<Kind>, TreeFault>
        ensures gives { SpoiledKindGives (spoiled_state self.old) (spoiled_state self.new)
            path.now result }
        ensures kind { IfOk result (λ here.
            IsSeen (tree_in (source_told self.old.source)) path.now here) }
        ensures same { source_told self.new.source ≡ source_told self.old.source }
        ensures fails { LooksAs (spoiled_failing self.old) (spoiled_failing self.new)
            path.now result }
        ensures failures { IsCounted self.old.source.fuse.failures
            self.new.source.fuse.failures result }
        ensures calls { IsOneMoreCall (source_called self.old.source)
            (source_called self.new.source) }
        ensures keeps { KeepsSpoiled self.old self.new }
    {
        if self.is_spoiled_above(path) {
            return Err(self.source.refuse());
        }
        self.source.kind(path)
    }

    fn open(&mut self, path: &NamePath) -> Result<(), TreeFault>
        requires { CanOpen (source_told self.old.source) path.now }
        ensures gives { SpoiledOpenGives (spoiled_state self.old) (spoiled_state self.new)
            path.now result }
        ensures opened { OnOk result (source_told self.new.source
            ≡ option_map (after_open path.now) (source_told self.old.source)) }
        ensures same { OnErr result (source_told self.new.source ≡ source_told self.old.source) }
        ensures fails { OpensAs (spoiled_failing self.old) (spoiled_failing self.new)
            path.now result }
        ensures failures { IsCounted self.old.source.fuse.failures
            self.new.source.fuse.failures result }
        ensures calls { IsOneMoreCall (source_called self.old.source)
            (source_called self.new.source) }
        ensures keeps { KeepsSpoiled self.old self.new }
    {
        let is_spoiled = self.is_spoiled(path);
        self.source.open(path)?;
        self.is_open_spoiled = is_spoiled;
        Ok(())
    }

    fn next(&mut self, block: &mut Block) -> Result<(), TreeFault>
        requires { CanRead (source_told self.old.source) }
        ensures gives { SpoiledNextGives (spoiled_state self.old) (spoiled_state self.new)
            block.new.items result }
        ensures block { MatchResult result
            (λ _. IsRead (source_told self.old.source) block.new.items)
            (λ _. block.new.items ≡ []) }
        ensures moved { OnOk result (source_told self.new.source
            ≡ option_map after_next (source_told self.old.source)) }
        ensures same { OnErr result (source_told self.new.source ≡ source_told self.old.source) }
        ensures fails { ReadsAs (spoiled_failing self.old) (spoiled_failing self.new)
            block.new.items result }
        ensures failures { IsCounted self.old.source.fuse.failures
            self.new.source.fuse.failures result }
        ensures calls { IsOneMoreCall (source_called self.old.source)
            (source_called self.new.source) }
    {
        if self.is_open_spoiled {
            block.clear();
            return Err(self.source.refuse());
        }
        self.source.next(block)
    }
}
