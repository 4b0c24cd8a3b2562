//! A source of which it is known where its failures come from.
//!
//! It is the source within in all that it does, answers and tells. Of its calls together it says
//! that the count of failures changed only if the source fails at something that stands in it,
//! where it tells where it fails (`FailsOnlyWhereStands`).
ghost use Rattle.std.specs.Prelude.{◌≡◌};

use pt_tree::{Block, Kind, Listing, NamePath, Source, TreeFault};

/// A source of which it is known where its failures come from.
#[derive(Drop)]
pub(crate) struct Traced<S: Source> {
    source: S,
}

impl<S: Source> Traced<S> {
    /// This source.
    pub fn new(source: S) -> Traced<S>
        ensures { result.source ≡ source }
    {
        Traced { source }
    }

    /// The source, as its calls left it.
    pub fn into_source(self) -> S
        ensures { result ≡ self.source }
    {
        self.source
    }
}

impl<S: Source> Source for Traced<S> {
    ghost use Rattle.pt_state.specs.SourceFailures.{source_view};
    ghost use Rattle.pt_host.specs.StoreFailures.{IsTraced, stands_itself, stands_on};

    ghost told = { λ t. S.told t.source };

    ghost failing = { λ t. S.failing t.source };

    ghost failed = { λ t. S.failed t.source };

    ghost called = { λ t. S.called t.source };

    ghost keeps = { λ a b. IsTraced S.Source a.source b.source };

    ghost is_kept = { λ a. record {
      keeps = S.is_kept a.source;
      fails = stands_itself (source_view S.Source.own a.source);
    } };

    ghost keeps_on = { λ a b c p q. record {
      keeps = S.keeps_on a.source b.source c.source p.keeps q.keeps;
      fails = stands_on (source_view S.Source.own a.source) (source_view S.Source.own b.source)
          (source_view S.Source.own c.source) p.fails q.fails;
    } };

    ghost keeps_failing = { λ a b p. S.keeps_failing a.source b.source p.keeps };

    ghost proper = { λ t. S.proper t.source };

    fn failures(&self) -> u64 {
        self.source.failures()
    }

    fn list(&mut self, path: &NamePath) -> Result<Listing, TreeFault> {
        self.source.list(path)
    }

    fn kind(&mut self, path: &NamePath) -> Result<Option<Kind>, TreeFault> {
        self.source.kind(path)
    }

    fn open(&mut self, path: &NamePath) -> Result<(), TreeFault> {
        self.source.open(path)
    }

    fn next(&mut self, block: &mut Block) -> Result<(), TreeFault> {
        self.source.next(block)
    }
}
