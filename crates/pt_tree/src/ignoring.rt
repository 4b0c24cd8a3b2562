//! A source as if the entries with some names weren't there.
//!
//! It tells the source's tree without them (`without`), and with that meets `Source`, all calls: a
//! listing is the source's without them, in its order, a file that is read is the source's, and a
//! look past one of the names finds nothing, told or not (`is_past`). So all that `migrate` of
//! pt_move promises of a run over it is said of the store without them.
#![tactic(auto, using(crate::proofs::ToldWithout::ignoring))]

ghost use Rattle.std.proofs.Common.{◌∙◌, refl};
ghost use Rattle.std.specs.Prelude.{◌≡◌, ◌+◌, ◌-◌, [], IfOk, MatchResult, None, OnErr, OnOk};
ghost use Rattle.std.specs.Prelude.{length, min, true};
ghost use Rattle.pt_tree.specs.Failing.{ListsAs, LooksAs, OpensAs, ReadsAs};
ghost use Rattle.pt_tree.specs.Failures.{IsCounted, IsOneMoreCall, greatest_count};
ghost use Rattle.pt_tree.specs.Listing.{left_in};
ghost use Rattle.std.specs.Option.{option_map};
ghost use Rattle.pt_tree.specs.Source.{CanList, CanLook, CanOpen, CanRead, IsListed, IsRead};
ghost use Rattle.pt_tree.specs.Source.{IsSeen};
ghost use Rattle.pt_tree.specs.Source.{after_next, after_open, tree_in};
ghost use Rattle.pt_tree.specs.Ignoring.{LeavesOut, is_past, told_without};
ghost use Rattle.pt_tree.specs.ProperLeft.{proper_left};

use crate::{Block, Ignored, Kind, Listing, ListsNamed, NamePath, Source, TreeFault};

/// A source as if the entries with some names weren't there, whatever they are and hold.
///
/// Where the source tells, this one tells its tree without them, in every directory. Each call is
/// one call of the source, and fails where that fails.
#[derive(Drop)]
pub struct Ignoring<S: Source> {
    source: S,
    names: Ignored,
    left_out: u64,
}

impl<S: Source> Ignoring<S> {
    /// A source without the entries that have these names.
    pub fn new(source: S, names: Ignored) -> Ignoring<S>
        ensures source { result.source ≡ source }
        ensures names { result.names ≡ names }
        ensures left_out { result.left_out ≡ 0 }
    {
        Ignoring {
            source,
            names,
            left_out: 0,
        }
    }

    /// The source with all its entries.
    pub fn source(&self) -> &S
        ensures { result.now ≡ self.now.source }
    {
        &self.source
    }

    /// The source with all its entries, as the calls left it.
    pub fn into_source(self) -> S
        ensures { result ≡ self.source }
    {
        self.source
    }

    /// How many entries were left out of what was listed, up to 2^64 - 1.
    ///
    /// None at first; a listing that is answered adds as many as were left out of the source's, and
    /// each other call none (`LeavesOut`). Of a source that doesn't tell no contract says what it
    /// lists, and so no clause of `list` how many were left out: they are counted there too,
    /// exactly, as a function of its own says (`take_out`).
    pub fn left_out(&self) -> u64
        ensures { result ≡ self.now.left_out }
    {
        self.left_out
    }

    // Whether one of the names on a path, its last among them, is left out.
    fn leads_past(&self, path: &NamePath) -> bool
        ensures { result ≡ is_past self.now.names path.now }
    {
        path.names()
            .iter()
            .any(|name| self.names.names().contains(name))
    }

    // Takes the entries that have its names out of a listing, and counts them.
    fn take_out(&mut self, listing: &mut Listing)
        ensures left { listing.new ≡ left_in self.old.names listing.old }
        ensures counted { self.new.left_out
            ≡ min (self.old.left_out + (length listing.old - length listing.new)) greatest_count }
        ensures same { self.new ≡ record self.old { left_out = self.new.left_out } }
    {
        let all = listing.len();
        listing.leave_out(self.names.names());
        let gone = all.saturating_sub(listing.len()) as u64;
        self.left_out = self.left_out.saturating_add(gone);
    }
}

impl<S: Source> Source for Ignoring<S> {
    ghost told = { λ i. told_without i.names (S.told i.source) };

    ghost failing = { λ i. S.failing i.source };

    ghost failed = { λ i. S.failed i.source };

    ghost called = { λ i. S.called i.source };

    ghost keeps = { λ a b. (b.names ≡ a.names) × S.keeps a.source b.source };

    ghost is_kept = { λ a. (refl, S.is_kept a.source) };

    ghost keeps_on = { λ a b c p q. (q.0 ∙ p.0, S.keeps_on a.source b.source c.source p.1 q.1) };

    ghost keeps_failing = { λ a b p. S.keeps_failing a.source b.source p.1 };

    ghost proper = { λ i state is. proper_left i.names (S.told i.source) state
        (S.proper i.source) is };

    fn failures(&self) -> u64 {
        self.source.failures()
    }

    fn list(&mut self, path: &NamePath) -> Result<Listing, TreeFault>
        requires { CanList (told_without self.old.names (S.told self.old.source)) path.now }
        ensures listing { IfOk result
            (IsListed (told_without self.old.names (S.told self.old.source)) path.now) }
        ensures same { told_without self.new.names (S.told self.new.source)
            ≡ told_without self.old.names (S.told self.old.source) }
        ensures fails { ListsAs (S.failing self.old.source) (S.failing self.new.source)
            path.now result }
        ensures failures { IsCounted (S.failed self.old.source) (S.failed self.new.source) result }
        ensures calls { IsOneMoreCall (S.called self.old.source) (S.called self.new.source) }
        ensures keeps { (self.new.names ≡ self.old.names)
            × S.keeps self.old.source self.new.source }
        ensures left_out { MatchResult result (LeavesOut (S.told self.old.source) path.now
            self.old.names self.old.left_out self.new.left_out)
            (λ _. self.new.left_out ≡ self.old.left_out) }
    {
        let mut listing = self.source.list(path)?;
        self.take_out(&mut listing);
        Ok(listing)
    }

    fn kind(&mut self, path: &NamePath) -> Result<Option<Kind>, TreeFault>
        requires { CanLook (tree_in (told_without self.old.names (S.told self.old.source)))
            path.now }
        ensures kind { IfOk result
            (IsSeen (tree_in (told_without self.old.names (S.told self.old.source))) path.now) }
        ensures same { told_without self.new.names (S.told self.new.source)
            ≡ told_without self.old.names (S.told self.old.source) }
        ensures fails { LooksAs (S.failing self.old.source) (S.failing self.new.source)
            path.now result }
        ensures failures { IsCounted (S.failed self.old.source) (S.failed self.new.source) result }
        ensures calls { IsOneMoreCall (S.called self.old.source) (S.called self.new.source) }
        ensures keeps { (self.new.names ≡ self.old.names)
            × (self.new.left_out ≡ self.old.left_out)
            × S.keeps self.old.source self.new.source }
        ensures past { is_past self.old.names path.now ≡ true → IfOk result (λ here. here ≡ None) }
    {
        let here = self.source.kind(path)?;
        if self.leads_past(path) {
            return Ok(None);
        }
        Ok(here)
    }

    fn open(&mut self, path: &NamePath) -> Result<(), TreeFault>
        requires { CanOpen (told_without self.old.names (S.told self.old.source)) path.now }
        ensures opened { OnOk result (told_without self.new.names (S.told self.new.source)
            ≡ option_map (after_open path.now)
            (told_without self.old.names (S.told self.old.source))) }
        ensures same { OnErr result (told_without self.new.names (S.told self.new.source)
            ≡ told_without self.old.names (S.told self.old.source)) }
        ensures fails { OpensAs (S.failing self.old.source) (S.failing self.new.source)
            path.now result }
        ensures failures { IsCounted (S.failed self.old.source) (S.failed self.new.source) result }
        ensures calls { IsOneMoreCall (S.called self.old.source) (S.called self.new.source) }
        ensures keeps { (self.new.names ≡ self.old.names)
            × (self.new.left_out ≡ self.old.left_out)
            × S.keeps self.old.source self.new.source }
    {
        self.source.open(path)
    }

    fn next(&mut self, block: &mut Block) -> Result<(), TreeFault>
        requires { CanRead (told_without self.old.names (S.told self.old.source)) }
        ensures block { MatchResult result (λ _. IsRead
            (told_without self.old.names (S.told self.old.source)) block.new.items)
            (λ _. block.new.items ≡ []) }
        ensures moved { OnOk result (told_without self.new.names (S.told self.new.source)
            ≡ option_map after_next (told_without self.old.names (S.told self.old.source))) }
        ensures same { OnErr result (told_without self.new.names (S.told self.new.source)
            ≡ told_without self.old.names (S.told self.old.source)) }
        ensures fails { ReadsAs (S.failing self.old.source) (S.failing self.new.source)
            block.new.items result }
        ensures failures { IsCounted (S.failed self.old.source) (S.failed self.new.source) result }
        ensures calls { IsOneMoreCall (S.called self.old.source) (S.called self.new.source) }
        ensures keeps { (self.new.names ≡ self.old.names)
            × (self.new.left_out ≡ self.old.left_out)
            × S.keeps self.old.source self.new.source }
    {
        self.source.next(block)
    }
}

impl<S: ListsNamed> ListsNamed for Ignoring<S> {
    fn list_named(
        &mut self,
        path: &NamePath,
        refused: &mut Vec<Vec<u8>>,
    ) -> Result<Listing, TreeFault>
        requires { CanList (told_without self.old.names (S.Source.told self.old.source)) path.now }
        ensures listing { IfOk result
            (IsListed (told_without self.old.names (S.Source.told self.old.source)) path.now) }
        ensures same { told_without self.new.names (S.Source.told self.new.source)
            ≡ told_without self.old.names (S.Source.told self.old.source) }
        ensures failures { IsCounted (S.Source.failed self.old.source)
            (S.Source.failed self.new.source) result }
        ensures calls { IsOneMoreCall (S.Source.called self.old.source)
            (S.Source.called self.new.source) }
        ensures keeps { (self.new.names ≡ self.old.names)
            × S.Source.keeps self.old.source self.new.source }
        ensures left_out { IfOk result (LeavesOut (S.Source.told self.old.source) path.now
            self.old.names self.old.left_out self.new.left_out) }
        ensures none { OnErr result (self.new.left_out ≡ self.old.left_out) }
    {
        let mut listing = self.source.list_named(path, refused)?;
        self.take_out(&mut listing);
        Ok(listing)
    }
}
