//! The walk over a root.
//!
//! What is found of a folder of the root (`found_at`): of an object, which has a declaration, that
//! it is stray where its identifier can't be read; where that is chosen, that it is stray if its
//! place is another, and that it is extra if no object stands in the store where its identifier
//! belongs, as a run judges what is listed there (`of_object`, `is_held`); else nothing. Of another
//! folder that it is stray where it is empty, or lies as deep as objects do; else what is found of
//! its entries. A file, link or special file is stray, but for the root's own (`is_own`). What is
//! stray and has no identifier is found by the first share alone (`of_unnamed`).
//!
//! Where the store is divided by its folders, the root is by its entries: all at and below an entry
//! is of the share that its name gives (`entry_of`), and the others don't look at it (`looks_at`).
ghost use Rattle.std.specs.Prelude.{◌≡◌, ◌<◌, ◌∷◌, [], IfOk, IsSome, OnErr, OnOk, length};
ghost use Rattle.std.specs.Option.{ForSome};
ghost use Rattle.std.specs.String.{string_bytes};
ghost use Rattle.pt_tree.specs.Source.{tree_in};
ghost use Rattle.pt_extra.specs.Counting.{no_numbers, with_finding};
ghost use Rattle.pt_extra.specs.Findings.{is_held};
ghost use Rattle.pt_extra.specs.Lines.{Extra, ExtraFinding, Stray, line_text, texts};
ghost use Rattle.pt_extra.specs.Unlisted.{IsToldIn};
ghost use Rattle.pt_extra.specs.Walk.{Fails, FailsPast, IsToldBelow, Keeps, Puts, Tells};
ghost use Rattle.pt_extra.specs.Walk.{TellsFront, TellsFrontPast};
ghost use Rattle.pt_extra.specs.Walk.{TellsPast, against, found_bare, found_named, found_one};
ghost use Rattle.pt_extra.specs.Walk.{found_there, found_unnamed, walk_state};
ghost use Rattle.pt_object.specs.WellKnown.{known_text};
ghost use Rattle.pt_object.specs.declared.well_known.WellKnownName.TheVariants as known;
ghost use Rattle.pt_plan.specs.TurnStart.{is_dir_kind, kind_in};
ghost use Rattle.pt_plan.specs.TurnWalk.{in_root};
ghost use Rattle.pt_tree.specs.Forest.{dir_at, listing_at, listing_of};
ghost use Rattle.pt_tree.specs.Log.{AppendsFront};

use crate::identifier::identifier_at;
use crate::lines::{extra_line, stray_line};
use crate::parts::{is_object, is_part};
use crate::shares::{looks_at, takes, tells_of};
use crate::store::{has_folder, has_object};
use crate::{ExtraDevices, ExtraNumbers};
use pt_check::{Explains, FolderListing};
use pt_move::Job;
use pt_object::WellKnownName;
use pt_plan::Fault;
use pt_state::paths::in_storage_root;
use pt_tree::{Kind, Listing, Log, NamePath, Source};
use std::alloc::Global;

/// A walk over the storage root that stands: against what it is held, and what it has told.
#[derive(Drop)]
pub struct Extras<S, R, L, E> {
    pub(crate) store: S,
    pub(crate) root: R,
    pub(crate) log: L,
    pub(crate) explains: E,
    pub(crate) job: Job,
    pub(crate) prefix: String,
    pub(crate) numbers: ExtraNumbers,
    pub(crate) alloc: Global,
}

impl<S: Source, R: Source, L: Log, E: Explains<R> + Drop> Extras<S, R, L, E> {
    /// A walk over the root in a destination, held against a store, each of whose identifiers
    /// begins with this prefix, as a run with this job sees it. Nothing is told yet.
    pub fn new(
        alloc: Global,
        devices: ExtraDevices<S, R, L, E>,
        job: Job,
        prefix: String,
    ) -> Extras<S, R, L, E>
        ensures devices { (result.store ≡ devices.store) × (result.root ≡ devices.root)
            × (result.log ≡ devices.log) }
        ensures against { (result.job ≡ job) × (result.prefix ≡ prefix) }
        ensures numbers { result.numbers ≡ no_numbers }
    {
        Extras {
            store: devices.store,
            root: devices.root,
            log: devices.log,
            explains: devices.explains,
            job,
            prefix,
            numbers: ExtraNumbers::none(),
            alloc,
        }
    }

    /// Walks the root, and tells what the store lacks. Gives how many lines there are. That the
    /// root fails to list a folder is told, and passed.
    ///
    /// `Source` where the store can't be listed, `Dest` where the root can't be looked at or read,
    /// `Log` where a line couldn't be put, and `Memory` where a growth was refused. The log has a
    /// front of the lines then.
    pub fn run(&mut self) -> Result<ExtraNumbers, Fault>
        ensures told { OnOk result
            (TellsPast S.Source R.Source L.Log IsToldIn self.old self.new) }
        ensures stops { OnErr result
            (TellsFrontPast S.Source R.Source L.Log IsToldIn self.old self.new) }
        ensures numbers { IfOk result (λ numbers. numbers ≡ self.new.numbers) }
        ensures keeps { Keeps S.Source R.Source L.Log self.old self.new }
        ensures fails { FailsPast S.Source R.Source L.Log self.old self.new result }
    {
        if !self.has_root()? {
            return Ok(self.numbers);
        }
        let names = self.job.layout.count() as usize + 1;
        let top = NamePath::new(self.alloc);
        self.visit(&top, names)?;
        Ok(self.numbers)
    }

    /// Store, root and log, as the walk left them.
    pub fn into_devices(self) -> ExtraDevices<S, R, L, E>
        ensures { (result.store ≡ self.store) × (result.root ≡ self.root)
            × (result.log ≡ self.log) }
    {
        ExtraDevices {
            store: self.store,
            root: self.root,
            log: self.log,
            explains: self.explains,
        }
    }

    // A folder at a path of the root, below which so many names lead to an object, and all that
    // stands in it.
    fn visit(&mut self, path: &NamePath, left: usize) -> Result<(), Fault>
        requires { ForSome (tree_in (R.told self.old.root))
            (λ tree. IsSome (dir_at tree (in_root path.now))) }
        ensures told { OnOk result (TellsPast S.Source R.Source L.Log
            (IsToldBelow path.now left) self.old self.new) }
        ensures stops { OnErr result (TellsFrontPast S.Source R.Source L.Log
            (IsToldBelow path.now left) self.old self.new) }
        ensures keeps { Keeps S.Source R.Source L.Log self.old self.new }
        ensures fails { FailsPast S.Source R.Source L.Log self.old self.new result }
    {
        let folder = in_storage_root(self.alloc, path)?;
        let FolderListing::Entries(found) = self.list(path, &folder)? else {
            return Ok(());
        };
        if is_object(&found.listing) {
            return self.judge(path, &folder, &found.listing);
        }
        if left == 0 {
            return self.meet_bare(path, found.is_whole);
        }
        if found.listing.is_empty() {
            return self.meet_bare(path, found.is_whole);
        }
        for i in 0..found.listing.len() {
            let Some((name, kind)) = found.listing.get(i) else {
                unreachable!()
            };
            if is_part(path, name, kind) {
                continue;
            }
            let entry = path.child(name)?;
            if !looks_at(&self.job.share, &entry) {
                continue;
            }
            if let Kind::Dir = kind {
                self.visit(&entry, left - 1)?;
                continue;
            }
            self.meet_stray(&entry)?;
        }
        Ok(())
    }

    // Whether the destination has a storage root.
    fn has_root(&mut self) -> Result<bool, Fault>
        ensures has { IfOk result (λ has. ForSome (tree_in (R.told self.old.root))
            (λ t. has ≡ is_dir_kind (kind_in (listing_of t) (known_text known.StorageRoot)))) }
        ensures rest { self.new ≡ record self.old { root = self.new.root } }
        ensures keeps { Keeps S.Source R.Source L.Log self.old self.new }
        ensures fails { Fails S.Source R.Source L.Log self.old self.new result }
    {
        has_folder(self.alloc, &mut self.root, WellKnownName::StorageRoot).map_err(Fault::of_dest)
    }

    // Judges the object at a path, whose folder in the destination lists these.
    fn judge(&mut self, path: &NamePath, folder: &NamePath, listing: &Listing) -> Result<(), Fault>
        requires { ForSome (tree_in (R.told self.old.root))
            (λ tree. listing_at tree folder.now ≡ Some listing.now) }
        ensures told { OnOk result (Tells S.Source R.Source L.Log
            (found_there path.now folder.now) self.old self.new) }
        ensures stops { OnErr result (TellsFront S.Source R.Source L.Log
            (found_there path.now folder.now) self.old self.new) }
        ensures keeps { Keeps S.Source R.Source L.Log self.old self.new }
        ensures fails { Fails S.Source R.Source L.Log self.old self.new result }
    {
        let id = identifier_at(self.alloc, &mut self.root, folder, listing).map_err(
            Fault::of_dest,
        )?;
        match id {
            Some(id) => self.judge_named(path, id),
            None => self.meet_stray(path),
        }
    }

    // Judges the object at a path, which has this identifier.
    fn judge_named(&mut self, path: &NamePath, id: String) -> Result<(), Fault>
        requires { 0 < length (string_bytes id) }
        ensures told { OnOk result (Tells S.Source R.Source L.Log
            (found_named path.now (string_bytes id)) self.old self.new) }
        ensures stops { OnErr result (TellsFront S.Source R.Source L.Log
            (found_named path.now (string_bytes id)) self.old self.new) }
        ensures keeps { Keeps S.Source R.Source L.Log self.old self.new }
        ensures fails { Fails S.Source R.Source L.Log self.old self.new result }
    {
        if !takes(self.alloc, &self.job.share, path, id.as_str())? {
            return Ok(());
        }
        let place = self.job.layout.place(self.alloc, id.as_bytes())?;
        if *path != place {
            return self.tell_stray(path);
        }
        if self.store_has(id.as_str())? {
            return Ok(());
        }
        self.tell_extra(path, id)
    }

    // Whether the store has an object where an identifier belongs.
    fn store_has(&mut self, id: &str) -> Result<bool, Fault>
        ensures has { IfOk result (λ has. ForSome (tree_in (S.told self.old.store))
            (λ s. has ≡ is_held (against self.old s) id.now)) }
        ensures rest { self.new ≡ record self.old { store = self.new.store } }
        ensures keeps { Keeps S.Source R.Source L.Log self.old self.new }
        ensures fails { Fails S.Source R.Source L.Log self.old self.new result }
    {
        has_object(
            self.alloc,
            &mut self.store,
            &self.job,
            self.prefix.as_str(),
            id,
        )
        .map_err(Fault::of_source)
    }

    // A bare folder at a path, which was listed whole, or else was told already, is stray.
    fn meet_bare(&mut self, path: &NamePath, is_whole: bool) -> Result<(), Fault>
        ensures told { OnOk result (Tells S.Source R.Source L.Log
            (found_bare path.now is_whole) self.old self.new) }
        ensures stops { OnErr result (TellsFront S.Source R.Source L.Log
            (found_bare path.now is_whole) self.old self.new) }
        ensures keeps { Keeps S.Source R.Source L.Log self.old self.new }
        ensures fails { Fails S.Source R.Source L.Log self.old self.new result }
    {
        if is_whole {
            return self.meet_stray(path);
        }
        Ok(())
    }

    // What stands at a path is stray and has no identifier: the first share tells it, or the one
    // whose entry of the root it stands at or below, where the store is divided by its folders.
    fn meet_stray(&mut self, path: &NamePath) -> Result<(), Fault>
        ensures told { OnOk result (Tells S.Source R.Source L.Log
            (found_unnamed path.now) self.old self.new) }
        ensures stops { OnErr result (TellsFront S.Source R.Source L.Log
            (found_unnamed path.now) self.old self.new) }
        ensures keeps { Keeps S.Source R.Source L.Log self.old self.new }
        ensures fails { Fails S.Source R.Source L.Log self.old self.new result }
    {
        if !tells_of(self.alloc, &self.job.share, path)? {
            return Ok(());
        }
        self.tell_stray(path)
    }

    // Tells that what stands at a path is stray.
    fn tell_stray(&mut self, path: &NamePath) -> Result<(), Fault>
        ensures told { OnOk result (Tells S.Source R.Source L.Log
            (found_one (Stray path.now)) self.old self.new) }
        ensures stops { OnErr result (TellsFront S.Source R.Source L.Log
            (found_one (Stray path.now)) self.old self.new) }
        ensures keeps { Keeps S.Source R.Source L.Log self.old self.new }
        ensures fails { Fails S.Source R.Source L.Log self.old self.new result }
    {
        let line = stray_line(self.alloc, path)?;
        self.put(line.as_bytes(), self.numbers.with_stray())
    }

    // Tells that the store doesn't have the object at a path, which has this identifier.
    fn tell_extra(&mut self, path: &NamePath, id: String) -> Result<(), Fault>
        ensures told { OnOk result (Tells S.Source R.Source L.Log
            (found_one (Extra (string_bytes id) path.now)) self.old self.new) }
        ensures stops { OnErr result (TellsFront S.Source R.Source L.Log
            (found_one (Extra (string_bytes id) path.now)) self.old self.new) }
        ensures keeps { Keeps S.Source R.Source L.Log self.old self.new }
        ensures fails { Fails S.Source R.Source L.Log self.old self.new result }
    {
        let line = extra_line(self.alloc, id, path)?;
        self.put(line.as_slice(), self.numbers.with_extra())
    }

    // Puts the line of a finding, with which these are the numbers.
    pub(crate) fn put(&mut self, line: &[u8], numbers: ExtraNumbers) -> Result<(), Fault>
        ensures put { (finding : ExtraFinding) → line.now ≡ line_text finding
            → numbers ≡ with_finding finding self.old.numbers → OnOk result
            (Puts (finding ∷ []) (walk_state L.Log self.old) (walk_state L.Log self.new)) }
        ensures part { (finding : ExtraFinding) → line.now ≡ line_text finding → OnErr result
            (AppendsFront (L.told self.old.log) (L.told self.new.log) (texts (finding ∷ []))) }
        ensures keeps { Keeps S.Source R.Source L.Log self.old self.new }
        ensures fails { Fails S.Source R.Source L.Log self.old self.new result }
    {
        self.log.put(line).map_err(Fault::of_log)?;
        self.numbers = numbers;
        Ok(())
    }
}
