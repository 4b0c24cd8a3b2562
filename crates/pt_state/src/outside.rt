//! What stands outside a run: its three devices as one, each call of which answers why the run
//! halts.
ghost use Rattle.std.proofs.Common.{◌∙◌, refl};
ghost use Rattle.std.specs.Prelude.{◌≡◌, ◌+◌, ◌≤◌, ℕ, true, Some, IfErr, OnOk};
ghost use Rattle.pt_object.specs.Script.{MakeFolder};
ghost use Rattle.pt_plan.specs.Lines.{Line, line_text};
ghost use Rattle.pt_plan.specs.Turn.{Did, FailsPartway};
ghost use Rattle.pt_plan.specs.SourceFailures.{FailsOnlyWhereAsked, IsAskedFor};
ghost use Rattle.pt_plan.specs.DeviceStates.{DeviceStates, Adds, Creates, Finishes, Makes, Opens};
ghost use Rattle.pt_plan.specs.DeviceStates.{Peeks, Reads, Renames, asks, does, tells};
ghost use Rattle.pt_tree.specs.Dest.{Writing, CanPeek, CanWrite, MayMake, MayMove};
ghost use Rattle.pt_tree.specs.Forest.{is_proper};
ghost use Rattle.pt_tree.specs.Path.{parent};
ghost use Rattle.pt_tree.specs.Source.{Reading, CanList, CanLook, CanOpen, CanRead, tree_in};
ghost use Rattle.pt_tree.specs.Tree.{IsTree};
ghost use Rattle.pt_state.specs.Counting.{AtMostCalls, calls_after, calls_more, calls_most};
ghost use Rattle.pt_state.specs.Counting.{calls_none, calls_still};
ghost use Rattle.pt_state.specs.Outside.{Called, Found, Listed, Looked, Wrote, states_of};
ghost use Rattle.pt_state.specs.SourceFailures.{fails_nowhere, fails_on, source_view};

use pt_plan::Fault;
use pt_tree::{Block, Dest, Kind, Listing, Log, NamePath, Source};

/// What stands outside a run: a source, a destination and a log.
///
/// A call that fails for its device halts the run for that device, and one that wants memory for
/// want of memory. It changes nothing then, but for `append` and `put`, which leave a part of what
/// they were to add. Only `put` halts it for the log.
pub trait Io {
    /// What the three tell, and how often each failed.
    ghost states: { Self → DeviceStates };

    /// It is over the same three devices; the source was called at most so many times more, and
    /// failed only where a run asks it, or at the file that was open; and the destination was asked
    /// at most so many times more what stands.
    ghost within: { ℕ → ℕ → Self → Self → Type 0 };

    /// Lists a directory of the source, one of the pairtree, or the top where it has no store.
    fn list(&mut self, path: &NamePath) -> Result<Listing, Fault>
        requires listed { CanList (states self.old).source path.now }
        requires asked_for { IsAskedFor path.now }
        ensures { Listed states (within 1 0) path.now self.old self.new result };

    /// Asks what stands at a path of the source, right in its top.
    fn look(&mut self, path: &NamePath) -> Result<Option<Kind>, Fault>
        requires looked { CanLook (tree_in (states self.old).source) path.now }
        requires asked_for { IsAskedFor (parent path.now) }
        ensures { Looked states (within 1 0) path.now self.old self.new result };

    /// Opens a file of the source, that of the prefix or one of the pairtree.
    fn open(&mut self, path: &NamePath) -> Result<(), Fault>
        requires opened { CanOpen (states self.old).source path.now }
        requires asked_for { IsAskedFor path.now }
        ensures { Called states (within 1 0) (asks (Opens path.now)) self.old self.new result };

    /// Reads the next block of the open file of the source.
    fn next(&mut self, block: &mut Block) -> Result<(), Fault>
        requires { CanRead (states self.old).source }
        ensures { Called states (within 1 0) (asks (Reads block.new.items))
            self.old self.new result };

    /// Asks what stands at a path of the destination.
    fn kind(&mut self, path: &NamePath) -> Result<Option<Kind>, Fault>
        ensures { Found states (within 0 1) path.now self.old self.new result };

    /// Reads the first block of a file of the destination.
    fn peek(&mut self, path: &NamePath, block: &mut Block) -> Result<(), Fault>
        requires { CanPeek (states self.old).dest path.now }
        ensures { Called states (within 0 1) (does (Peeks path.now block.new.items))
            self.old self.new result };

    /// Makes a directory in the destination.
    fn mkdir(&mut self, path: &NamePath) -> Result<(), Fault>
        requires { MayMake (states self.old).dest path.now }
        ensures { Called states (within 0 0) (does (Makes (MakeFolder path.now)))
            self.old self.new result };

    /// Makes an empty file in the destination, which is then the open one.
    fn create(&mut self, path: &NamePath) -> Result<(), Fault>
        requires { MayMake (states self.old).dest path.now }
        ensures { Called states (within 0 0) (does (Creates path.now)) self.old self.new result };

    /// Adds a piece to the destination's open file.
    fn append(&mut self, piece: &[u8]) -> Result<(), Fault>
        requires { CanWrite (states self.old).dest }
        ensures { Wrote states (within 0 0) (does (Adds piece.now)) self.old self.new result };

    /// Closes the destination's open file.
    fn finish(&mut self) -> Result<(), Fault>
        requires { CanWrite (states self.old).dest }
        ensures { Called states (within 0 0) (does Finishes) self.old self.new result };

    /// Moves what stands at a path of the destination to another.
    fn rename(&mut self, from: &NamePath, to: &NamePath) -> Result<(), Fault>
        requires { MayMove (states self.old).dest from.now to.now }
        ensures { Called states (within 0 0) (does (Renames from.now to.now))
            self.old self.new result };

    /// Puts the text of a line at the end of the log.
    fn put(&mut self, text: &[u8]) -> Result<(), Fault>
        ensures ok { (line : Line) → text.now ≡ line_text line → OnOk result (Did (tells line)
            (states self.old) (states self.new)) }
        ensures err { (line : Line) → text.now ≡ line_text line
            → IfErr result (λ why. FailsPartway (tells line) why (states self.old)
            (states self.new)) }
        ensures calls { within 0 0 self.old self.new };

    /// Nothing was called.
    ghost none: { (a : Self) → within 0 0 a a };

    /// No more is no more than more.
    ghost most: { (a b : Self) (m n k l : ℕ) → within m k a b → m ≤ n → k ≤ l → within n l a b };

    /// A change of the destination or a call of the log is none that is counted.
    ghost still: { (a b c : Self) (n k : ℕ) → within n k a b → within 0 0 b c → within n k a c };

    /// Nor is one before it.
    ghost after: { (a b c : Self) (n k : ℕ) → within 0 0 a b → within n k b c → within n k a c };

    /// Calls are followed by others.
    ghost more: { (a b c : Self) (m n k l : ℕ) → within m k a b → within n l b c
        → within (m + n) (k + l) a c };

    /// In each directory of a source that tells the names rise.
    ghost proper: { (o : Self) (told : Reading) → (states o).source ≡ Some told
        → is_proper told.tree ≡ true };

    /// What a destination tells is a tree.
    ghost is_tree: { (o : Self) (told : Writing) → (states o).dest ≡ Some told → IsTree told.tree };
}

/// The three devices of a run.
#[derive(Drop)]
pub struct Devices<'s, 'd, 'l, S: Source, D: Dest, L: Log> {
    /// What is read.
    pub source: &'s mut S,
    /// What is written.
    pub dest: &'d mut D,
    /// What the lines are put to.
    pub log: &'l mut L,
}

impl<'s, 'd, 'l, S: Source, D: Dest, L: Log> Io for Devices<'s, 'd, 'l, S, D, L> {
    ghost states = { λ o. states_of S.Source D.Dest L.Log o.source.now o.dest.now o.log.now };

    ghost within = { λ n k a b. (b.source.ghost_name ≡ a.source.ghost_name)
        × (b.dest.ghost_name ≡ a.dest.ghost_name) × (b.log.ghost_name ≡ a.log.ghost_name)
        × S.keeps a.source.now b.source.now × D.keeps a.dest.now b.dest.now
        × L.keeps a.log.now b.log.now
        × AtMostCalls n (S.called a.source.now) (S.called b.source.now)
        × AtMostCalls k (D.looked a.dest.now) (D.looked b.dest.now)
        × FailsOnlyWhereAsked (source_view S.Source a.source.now)
        (source_view S.Source b.source.now) };

    ghost none = { λ a. (
      refl,
      refl,
      refl,
      S.is_kept a.source.now,
      D.is_kept a.dest.now,
      L.is_kept a.log.now,
      calls_none (S.called a.source.now),
      calls_none (D.looked a.dest.now),
      fails_nowhere _,
    ) };

    ghost most = { λ a b m n k l p few looks. (
      p.0,
      p.1,
      p.2,
      p.3,
      p.4,
      p.5,
      calls_most (S.called a.source.now) (S.called b.source.now) m n p.6 few,
      calls_most (D.looked a.dest.now) (D.looked b.dest.now) k l p.7 looks,
      p.8,
    ) };

    ghost still = { λ a b c n k p q. (
      q.0 ∙ p.0,
      q.1 ∙ p.1,
      q.2 ∙ p.2,
      S.keeps_on a.source.now b.source.now c.source.now p.3 q.3,
      D.keeps_on a.dest.now b.dest.now c.dest.now p.4 q.4,
      L.keeps_on a.log.now b.log.now c.log.now p.5 q.5,
      calls_still (S.called a.source.now) (S.called b.source.now) (S.called c.source.now) n p.6 q.6,
      calls_still (D.looked a.dest.now) (D.looked b.dest.now) (D.looked c.dest.now) k p.7 q.7,
      fails_on _ _ _ p.8 q.8,
    ) };

    ghost after = { λ a b c n k p q. (
      q.0 ∙ p.0,
      q.1 ∙ p.1,
      q.2 ∙ p.2,
      S.keeps_on a.source.now b.source.now c.source.now p.3 q.3,
      D.keeps_on a.dest.now b.dest.now c.dest.now p.4 q.4,
      L.keeps_on a.log.now b.log.now c.log.now p.5 q.5,
      calls_after (S.called a.source.now) (S.called b.source.now) (S.called c.source.now) n p.6 q.6,
      calls_after (D.looked a.dest.now) (D.looked b.dest.now) (D.looked c.dest.now) k p.7 q.7,
      fails_on _ _ _ p.8 q.8,
    ) };

    ghost more = { λ a b c m n k l p q. (
      q.0 ∙ p.0,
      q.1 ∙ p.1,
      q.2 ∙ p.2,
      S.keeps_on a.source.now b.source.now c.source.now p.3 q.3,
      D.keeps_on a.dest.now b.dest.now c.dest.now p.4 q.4,
      L.keeps_on a.log.now b.log.now c.log.now p.5 q.5,
      calls_more (S.called a.source.now) (S.called b.source.now) (S.called c.source.now)
          m n p.6 q.6,
      calls_more (D.looked a.dest.now) (D.looked b.dest.now) (D.looked c.dest.now) k l p.7 q.7,
      fails_on _ _ _ p.8 q.8,
    ) };

    ghost proper = { λ o told is. S.proper o.source.now told is };

    ghost is_tree = { λ o told is. D.is_tree o.dest.now told is };

    fn list(&mut self, path: &NamePath) -> Result<Listing, Fault> {
        match self.source.list(path) {
            Ok(listing) => {
                let _entries = listing.len();
                Ok(listing)
            }
            Err(fault) => Err(Fault::of_source(fault)),
        }
    }

    fn look(&mut self, path: &NamePath) -> Result<Option<Kind>, Fault> {
        self.source.kind(path).map_err(Fault::of_source)
    }

    fn open(&mut self, path: &NamePath) -> Result<(), Fault> {
        self.source.open(path).map_err(Fault::of_source)
    }

    fn next(&mut self, block: &mut Block) -> Result<(), Fault> {
        self.source.next(block).map_err(Fault::of_source)
    }

    fn kind(&mut self, path: &NamePath) -> Result<Option<Kind>, Fault> {
        self.dest.kind(path).map_err(Fault::of_dest)
    }

    fn peek(&mut self, path: &NamePath, block: &mut Block) -> Result<(), Fault> {
        self.dest.peek(path, block).map_err(Fault::of_dest)
    }

    fn mkdir(&mut self, path: &NamePath) -> Result<(), Fault> {
        self.dest.mkdir(path).map_err(Fault::of_dest)
    }

    fn create(&mut self, path: &NamePath) -> Result<(), Fault> {
        self.dest.create(path).map_err(Fault::of_dest)
    }

    fn append(&mut self, piece: &[u8]) -> Result<(), Fault> {
        self.dest.append(piece).map_err(Fault::of_dest)
    }

    fn finish(&mut self) -> Result<(), Fault> {
        self.dest.finish().map_err(Fault::of_dest)
    }

    fn rename(&mut self, from: &NamePath, to: &NamePath) -> Result<(), Fault> {
        self.dest.rename(from, to).map_err(Fault::of_dest)
    }

    fn put(&mut self, text: &[u8]) -> Result<(), Fault> {
        self.log.put(text).map_err(Fault::of_log)
    }
}
