//! How a walk lists a folder, and tells that it can't.
ghost use Rattle.std.specs.Prelude.{◌≡◌, ◌∷◌, cond, false, map, string_bytes, IfOk, IsSome};
ghost use Rattle.std.specs.Prelude.{OnErr, OnOk, Some};
ghost use Rattle.std.specs.Option.{ForSome};
ghost use Rattle.pt_check.specs.FolderListing.{IfEntries, MatchListing};
ghost use Rattle.pt_extra.specs.Lines.{Unlisted};
ghost use Rattle.pt_extra.specs.Walk.{Fails, FailsPast, Keeps, Tells, TellsFront, TellsReasons};
ghost use Rattle.pt_extra.specs.Walk.{TellsReasonsFront};
ghost use Rattle.pt_extra.specs.Walk.{TellsUnlisted, TellsUnlistedFront, found_one, found_unlisted};
ghost use Rattle.pt_tree.specs.Forest.{dir_at, listing_at};
ghost use Rattle.pt_tree.specs.Source.{tree_in};

use crate::Extras;
use crate::lines::unlisted_line;
use pt_check::{Explains, FolderListing, UnlistedFolder};
use pt_plan::Fault;
use pt_tree::{Log, NamePath, Source, TreeFault};

impl<S: Source, R: Source, L: Log, E: Explains<R> + Drop> Extras<S, R, L, E> {
    // What can be listed of the folder at a path, which in the destination is this. That not all of
    // it can is told.
    #[tactic(auto, using(pt_tree::proofs::Told::listed_in))]
    pub(crate) fn list(
        &mut self,
        path: &NamePath,
        folder: &NamePath,
    ) -> Result<FolderListing, Fault>
        requires { ForSome (tree_in (R.told self.old.root))
            (λ tree. IsSome (dir_at tree folder.now)) }
        ensures listed { IfOk result (λ found. IfEntries found
            (λ found. ForSome (tree_in (R.told self.old.root))
            (λ tree. listing_at tree folder.now ≡ Some found.listing))) }
        ensures told { IfOk result (λ found. MatchListing found
            (TellsUnlisted S.Source R.Source L.Log path.now self.old self.new)
            (λ found. cond found.is_whole (self.new ≡ record self.old { root = self.new.root })
            (TellsUnlisted S.Source R.Source L.Log path.now self.old self.new))) }
        ensures stops { OnErr result
            (TellsUnlistedFront S.Source R.Source L.Log path.now self.old self.new) }
        ensures keeps { Keeps S.Source R.Source L.Log self.old self.new }
        ensures fails { FailsPast S.Source R.Source L.Log self.old self.new result }
    {
        // That the count is one of 64 bits, for the proof.
        let _failures = self.root.failures();
        match self.root.list(folder) {
            Ok(listing) => Ok(FolderListing::whole(listing)),
            Err(TreeFault::Device) => self.list_part(path, folder),
            Err(TreeFault::Memory) => Err(Fault::Memory),
        }
    }

    // Tells that the root failed to list a folder, by a line for each reason. Gives what of it can
    // be listed all the same.
    #[tactic(auto, using(pt_tree::proofs::Told::listed_in))]
    fn list_part(&mut self, path: &NamePath, folder: &NamePath) -> Result<FolderListing, Fault>
        requires { ForSome (tree_in (R.told self.old.root))
            (λ tree. IsSome (dir_at tree folder.now)) }
        ensures listed { IfOk result (λ found. IfEntries found
            (λ found. ForSome (tree_in (R.told self.old.root))
            (λ tree. listing_at tree folder.now ≡ Some found.listing))) }
        ensures part { IfOk result (λ found. IfEntries found (λ found. found.is_whole ≡ false)) }
        ensures told { OnOk result
            (TellsReasons S.Source R.Source L.Log path.now self.old self.new) }
        ensures stops { OnErr result
            (TellsReasonsFront S.Source R.Source L.Log path.now self.old self.new) }
        ensures keeps { Keeps S.Source R.Source L.Log self.old self.new }
        ensures fails { FailsPast S.Source R.Source L.Log self.old self.new result }
    {
        let UnlistedFolder {
            reason,
            further,
            listing,
        } = self
            .explains
            .explain_listing(self.alloc, &mut self.root, folder)?;
        self.tell_reasons(path, reason.as_str(), &further)?;
        Ok(FolderListing::in_part(listing))
    }

    // Tells that the folder at a path can't be listed whole, for these reasons.
    fn tell_reasons(
        &mut self,
        path: &NamePath,
        reason: &str,
        further: &[String],
    ) -> Result<(), Fault>
        ensures told { OnOk result (Tells S.Source R.Source L.Log (found_unlisted path.now
            (reason.now ∷ map (λ reason. string_bytes reason) further.now)) self.old self.new) }
        ensures stops { OnErr result (TellsFront S.Source R.Source L.Log (found_unlisted path.now
            (reason.now ∷ map (λ reason. string_bytes reason) further.now)) self.old self.new) }
        ensures keeps { Keeps S.Source R.Source L.Log self.old self.new }
        ensures fails { Fails S.Source R.Source L.Log self.old self.new result }
    {
        self.tell_unlisted(path, reason)?;
        self.tell_each(path, further)
    }

    // Tells that the folder at a path can't be listed whole, for each of these reasons.
    fn tell_each(&mut self, path: &NamePath, reasons: &[String]) -> Result<(), Fault>
        ensures told { OnOk result (Tells S.Source R.Source L.Log (found_unlisted path.now
            (map (λ reason. string_bytes reason) reasons.now)) self.old self.new) }
        ensures stops { OnErr result (TellsFront S.Source R.Source L.Log (found_unlisted path.now
            (map (λ reason. string_bytes reason) reasons.now)) self.old self.new) }
        ensures keeps { Keeps S.Source R.Source L.Log self.old self.new }
        ensures fails { Fails S.Source R.Source L.Log self.old self.new result }
    {
        for reason in reasons {
            self.tell_unlisted(path, reason.as_str())?;
        }
        Ok(())
    }

    // Tells that the folder at a path can't be listed whole, for this reason.
    fn tell_unlisted(&mut self, path: &NamePath, reason: &str) -> Result<(), Fault>
        ensures told { OnOk result (Tells S.Source R.Source L.Log
            (found_one (Unlisted reason.now path.now)) self.old self.new) }
        ensures stops { OnErr result (TellsFront S.Source R.Source L.Log
            (found_one (Unlisted reason.now path.now)) self.old self.new) }
        ensures keeps { Keeps S.Source R.Source L.Log self.old self.new }
        ensures fails { Fails S.Source R.Source L.Log self.old self.new result }
    {
        let line = unlisted_line(self.alloc, reason, path)?;
        self.put(line.as_bytes(), self.numbers.with_stray())
    }
}
