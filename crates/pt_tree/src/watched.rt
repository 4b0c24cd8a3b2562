//! A source that is watched. It is a source, also past what is no name, by the contracts of the
//! source within.
ghost use Rattle.std.specs.Prelude.{◌≡◌};

use crate::{Block, Kind, Listing, ListsNamed, NamePath, Source, TreeFault};

/// Who is told of the calls of a watched source.
pub trait Watcher {
    /// What is at a path is about to be listed or opened.
    fn come_to(&mut self, path: &NamePath);

    /// A block of the open file is about to be read.
    fn read_on(&mut self);

    /// So many bytes of it were read.
    fn add_bytes(&mut self, count: usize);
}

/// A source that is watched, and is the source in all else.
#[derive(Drop)]
pub struct Watched<S: Source, W> {
    source: S,
    watcher: W,
}

impl<S: Source, W: Drop> Watched<S, W> {
    /// A source of whose calls but looks this one is told.
    pub fn new(source: S, watcher: W) -> Watched<S, W>
        ensures { result.source ≡ source }
    {
        Watched { source, watcher }
    }

    /// Who is told.
    pub fn watcher(&self) -> &W {
        &self.watcher
    }

    /// The source that is watched, as the calls left it.
    pub fn source(&self) -> &S
        ensures { result.now ≡ self.now.source }
    {
        &self.source
    }

    /// The source that was watched, as the calls left it.
    pub fn into_source(self) -> S
        ensures { result ≡ self.source }
    {
        self.source
    }
}

impl<S: Source, W: Watcher> Source for Watched<S, W> {
    ghost told = { λ w. S.told w.source };

    ghost failing = { λ w. S.failing w.source };

    ghost failed = { λ w. S.failed w.source };

    ghost called = { λ w. S.called w.source };

    ghost keeps = { λ a b. S.keeps a.source b.source };

    ghost is_kept = { λ a. S.is_kept a.source };

    ghost keeps_on = { λ a b c p q. S.keeps_on a.source b.source c.source p q };

    ghost keeps_failing = { λ a b p. S.keeps_failing a.source b.source p };

    ghost proper = { λ w. S.proper w.source };

    fn failures(&self) -> u64 {
        self.source.failures()
    }

    fn list(&mut self, path: &NamePath) -> Result<Listing, TreeFault> {
        self.watcher.come_to(path);
        self.source.list(path)
    }

    fn kind(&mut self, path: &NamePath) -> Result<Option<Kind>, TreeFault> {
        self.source.kind(path)
    }

    fn open(&mut self, path: &NamePath) -> Result<(), TreeFault> {
        self.watcher.come_to(path);
        self.source.open(path)
    }

    fn next(&mut self, block: &mut Block) -> Result<(), TreeFault> {
        self.watcher.read_on();
        self.source.next(block)?;
        self.watcher.add_bytes(block.len());
        Ok(())
    }
}

impl<S: ListsNamed, W: Watcher> ListsNamed for Watched<S, W> {
    // The folder was come to as it was listed first.
    fn list_named(
        &mut self,
        path: &NamePath,
        refused: &mut Vec<Vec<u8>>,
    ) -> Result<Listing, TreeFault> {
        self.source.list_named(path, refused)
    }
}
