//! The walk of a check over all that lies below a folder of a store.
//!
//! Where it ends well and the source tells (`Checks`), the top is listed, the file of the prefix is
//! read, and told where it is none or reads otherwise than it looks (`ReadsPrefix`), and what a
//! store must have is told where it is missing. Then pairtree_root and all that stands in it is
//! visited (`Visits`): each entry of each folder that could be listed once, in the order of the
//! names, a folder before its entries. Each file is opened, and read whole where that is wanted.
//! Where a folder can't be listed or a file opened or read, its path is told with a reason, the
//! source's count of failures rose, and the walk goes on with the next entry (`Enters`, `Opens`). A
//! folder deeper below pairtree_root than the limit of a run, 600, is told, and not listed.
//!
//! Of a folder that couldn't be listed each reason that `Explains` gives is told, and no other
//! (`TellsReasons`). Where it gives a listing of what has names there, that is visited; the folder
//! isn't judged then, as a site or as anything, and has no object (`Begins`). So its shorties are
//! sites where it is one, and its other folders are `Beside`; in an object they are that object's
//! still. In a tree that is told each entry has a name, so that all are visited.
//!
//! The code keeps, and no contract says: of two sites with one identifier at least one has other
//! names than its own, and is told, since a site's names follow from the text that they join to.
//! And between two entries a check holds the listings on the way to where it stands, and numbers:
//! nothing grows with the objects.
ghost use Rattle.std.specs.Prelude.{◌≡◌, [], cond, false, length};
ghost use Rattle.std.specs.Prelude.{IfOk, IsSome, OnOk, Some};
ghost use Rattle.std.specs.Option.{ForSome};
ghost use Rattle.pt_check.specs.Counting.{no_numbers};
ghost use Rattle.pt_check.specs.Faults.{LogFailsAs};
ghost use Rattle.pt_check.specs.FolderListing.{IfEntries, MatchListing, has_entries};
ghost use Rattle.pt_check.specs.Found.{found_folder};
ghost use Rattle.pt_check.specs.Shares.{is_own_in as is_own_in_folder, unmet_behind};
ghost use Rattle.pt_check.specs.Visits.{ChecksAll, ChecksShare, Finds, Judges, Keeps, Meets, Opens, OpensIf};
ghost use Rattle.pt_check.specs.Visits.{TellsReasons, TellsUnlisted, VisitsFolder, Where, begun};
ghost use Rattle.pt_check.specs.Visits.{check_state, ended, finding_of as finding_of_items};
ghost use Rattle.pt_check.specs.Visits.{found_by, tree_by, with_folder};
ghost use Rattle.pt_name.specs.Share.{whole};
ghost use Rattle.pt_tree.specs.Forest.{dir_at, file_at, listing_at};
ghost use Rattle.pt_tree.specs.Path.{joined};
ghost use Rattle.pt_tree.specs.declared.kind.Kind.TheVariants as kind;
ghost use Rattle.pt_walk.specs.Left.{bytes_at, inside_at};

use crate::judging::{
    count_trouble, entry_trouble, finding_of, folder_trouble, is_renamed, names_below,
    reserved_trouble, room_trouble, size_trouble, width_trouble,
};
use crate::reading::open_whole;
use crate::shares::{is_all, is_own_object, is_own_way, is_walked};
use crate::unlisted::{Explains, UnlistedFolder};
use crate::{
    CheckDevices, FolderListing, FoundFolder, ListedEntries, Numbers, Part, Trouble, Wants, Within,
};
use pt_name::{Share, UnmetIdentifiers};
use pt_plan::Fault;
use pt_tree::{Kind, Listing, Log, MemoryFault, Name, NamePath, Source, TreeFault};
use pt_walk::Finding;
use std::alloc::Global;

/// A check under way: what it goes over, and what it has counted.
#[derive(Drop)]
pub struct Check<S, L, E> {
    pub(crate) source: S,
    pub(crate) log: L,
    pub(crate) explains: E,
    pub(crate) wants: Wants,
    pub(crate) share: Share,
    pub(crate) unmet: UnmetIdentifiers,
    pub(crate) numbers: Numbers,
    pub(crate) alloc: Global,
}

impl<S: Source, L: Log, E: Explains<S> + Drop> Check<S, L, E> {
    /// A check of the whole store whose folder a source is, which tells a log. Nothing is counted
    /// yet.
    pub fn new(alloc: Global, devices: CheckDevices<S, L, E>, wants: Wants) -> Check<S, L, E>
        ensures source { result.source ≡ devices.source }
        ensures log { result.log ≡ devices.log }
        ensures wants { result.wants ≡ wants }
        ensures share { result.share ≡ whole }
        ensures unmet { result.unmet ≡ [] }
        ensures numbers { result.numbers ≡ no_numbers }
    {
        let CheckDevices {
            source,
            log,
            explains,
        } = devices;
        Check {
            source,
            log,
            explains,
            wants,
            share: Share::whole(),
            unmet: UnmetIdentifiers::none(alloc),
            numbers: Numbers::none(),
            alloc,
        }
    }

    /// The same check of this share of the store: it tells and counts what is the share's own, and
    /// walks no folder that the share doesn't.
    pub fn of_share(self, share: Share) -> Check<S, L, E>
        ensures { result ≡ record self { share = share } }
    {
        Check { share, ..self }
    }

    /// Checks the store, and gives the numbers of its last line. What the source fails at is told,
    /// and passed. The identifiers that are read count as met, where the share has a list.
    ///
    /// `Log` where a line couldn't be put, and `Memory` where a growth was refused.
    pub fn run(&mut self) -> Result<Numbers, Fault>
        ensures checked { IfOk result (λ numbers. ForSome (tree_by S.told self.old)
            (λ tree. ChecksShare E.says self.old.share self.old.wants tree numbers
            (check_state S.Source L.Log self.old) (check_state S.Source L.Log self.new))) }
        ensures keeps { Keeps S.Source L.Log self.old self.new }
        ensures fault { LogFailsAs (L.failed self.old.log) (L.failed self.new.log) result }
    {
        self.unmet = UnmetIdentifiers::of(self.alloc, &self.share)?;
        self.check_all()
    }

    // Looks at the top of the store, visits what is below, and tells the numbers.
    fn check_all(&mut self) -> Result<Numbers, Fault>
        ensures checked { IfOk result (λ numbers. ForSome (tree_by S.told self.old)
            (λ tree. ChecksAll E.says self.old.share self.old.wants tree numbers
            (check_state S.Source L.Log self.old) (check_state S.Source L.Log self.new))) }
        ensures keeps { Keeps S.Source L.Log self.old self.new }
        ensures fault { LogFailsAs (L.failed self.old.log) (L.failed self.new.log) result }
    {
        let top = NamePath::new(self.alloc);
        let own = is_own_way(&self.share, &top)?;
        match self.list(&top)? {
            FolderListing::Entries(found) => {
                let prefix = self.look_at_prefix(&found.listing, own)?;
                self.look(&found.listing, prefix.as_str(), own)?;
                self.tell_numbers()
            }
            FolderListing::Nothing => self.tell_numbers(),
        }
    }

    /// The source and the log, as the check left them, and the identifiers of its share's list of
    /// which it met no object.
    pub fn into_parts(self) -> ((S, L), UnmetIdentifiers)
        ensures source { result.0.0 ≡ self.source }
        ensures log { result.0.1 ≡ self.log }
        ensures unmet { result.1 ≡ self.unmet }
    {
        ((self.source, self.log), self.unmet)
    }

    // A folder at a path in a store of this prefix, which is this part of it, and below which
    // folders may stand so deep, and all that lies in it. What can't be read is told, and passed.
    // `Log` where a line couldn't be put, `Memory` where a growth was refused.
    pub(crate) fn visit(
        &mut self,
        path: &NamePath,
        prefix: &str,
        part: Part,
        left: u64,
    ) -> Result<(), Fault>
        requires { ForSome (tree_by S.told self.old) (λ tree. IsSome (dir_at tree path.now)) }
        ensures visited { OnOk result (ForSome (tree_by S.told self.old)
            (λ tree. VisitsFolder E.says self.old.share self.old.wants part.own
            (record { path = path.now; prefix = prefix.now; here = part.within; left = left })
            (inside_at tree path.now)
            (check_state S.Source L.Log self.old) (check_state S.Source L.Log self.new))) }
        ensures keeps { Keeps S.Source L.Log self.old self.new }
        ensures fault { LogFailsAs (L.failed self.old.log) (L.failed self.new.log) result }
    {
        if left == 0 {
            return self.tell_own(part.own, path, Some(Trouble::Deep));
        }
        let FolderListing::Entries(found) = self.list(path)? else {
            return Ok(());
        };
        let folder = self.find(path, prefix, part, &found)?;
        self.judge_found(path, prefix, folder, &found)?;
        for i in 0..found.listing.len() {
            let Some((name, kind)) = found.listing.get(i) else {
                unreachable!()
            };
            let entry = path.child(name)?;
            let held = folder.entry(&self.share, &entry, name, kind)?;
            let bytes = self.meet(&entry, held, name, kind)?;
            if let Kind::Dir = kind {
                let inside = folder.child(name, bytes, held.own);
                let before = self.begin(inside.within, held.within);
                if is_walked(&self.share, &entry, inside)? {
                    self.visit(&entry, prefix, inside, left - 1)?;
                }
                self.end(inside.within, before);
                continue;
            }
            self.visit_leaf(&entry, held, kind)?;
        }
        Ok(())
    }

    // What a folder at a path is found to be, which is this part of a store of this prefix, and
    // whether what lies in it is the share's own; the identifier that the names of a site with an
    // object read is met. What a folder is that wasn't listed whole can't be said: it is taken for
    // one that only leads on.
    fn find(
        &mut self,
        path: &NamePath,
        prefix: &str,
        part: Part,
        found: &ListedEntries,
    ) -> Result<FoundFolder, MemoryFault>
        ensures found { IfOk result (λ folder. folder ≡ found_folder self.old.wants self.old.share
            (path.now, prefix.now) part found.now.is_whole found.now.listing) }
        ensures met { OnOk result (self.new.unmet ≡ unmet_behind self.old.share
            (path.now, prefix.now) (found_by found.now.is_whole self.old.wants.form part.within
            found.now.listing) self.old.unmet) }
        ensures rest { self.new ≡ record self.old { unmet = self.new.unmet } }
    {
        let finding = if found.is_whole {
            finding_of(self.wants.form, part.within, &found.listing)
        } else {
            Finding::Interior
        };
        let own = self.is_own_in(path, prefix, finding, part.own)?;
        Ok(FoundFolder {
            part: Part { own, ..part },
            finding,
            length: path.join()?.len() as u64,
        })
    }

    // Whether what lies in a folder, which is found to be this, and is the share's own or not, is
    // the share's own. The identifier that the names of a site with an object read is met.
    fn is_own_in(
        &mut self,
        path: &NamePath,
        prefix: &str,
        finding: Finding,
        own: bool,
    ) -> Result<bool, MemoryFault>
        ensures own { IfOk result (λ is. is ≡ is_own_in_folder self.old.wants.layout self.old.share
            (path.now, prefix.now) finding own) }
        ensures met { OnOk result (self.new.unmet ≡ unmet_behind self.old.share
            (path.now, prefix.now) finding self.old.unmet) }
        ensures rest { self.new ≡ record self.old { unmet = self.new.unmet } }
    {
        match finding {
            Finding::Candidate(_) | Finding::Gathered if !is_all(&self.share) => {
                is_own_object(
                    &self.share,
                    self.wants.layout,
                    prefix,
                    path,
                    &mut self.unmet,
                )
            }
            _ => Ok(own),
        }
    }

    // Opens an entry that is no folder, in this part of a store, if it is a file and the share's
    // own.
    fn visit_leaf(&mut self, path: &NamePath, part: Part, here: Kind) -> Result<(), Fault>
        requires { ForSome (tree_by S.told self.old)
            (λ tree. here ≡ kind.File → IsSome (file_at tree path.now)) }
        ensures opened { OnOk result (ForSome (tree_by S.told self.old)
            (λ tree. Where part.own (OpensIf self.old.wants.reads path.now (part.within, here)
            (bytes_at tree path.now))
            (check_state S.Source L.Log self.old) (check_state S.Source L.Log self.new))) }
        ensures keeps { Keeps S.Source L.Log self.old self.new }
        ensures fault { LogFailsAs (L.failed self.old.log) (L.failed self.new.log) result }
    {
        match here {
            Kind::File if part.own => self.open(path, part.within),
            _ => Ok(()),
        }
    }

    // Where an object begins with a folder, it has no files yet. Gives the numbers so far.
    fn begin(&mut self, within: Within, above: Within) -> Numbers
        ensures numbers { self.new.numbers ≡ begun within above self.old.numbers }
        ensures before { result ≡ self.old.numbers }
        ensures rest { self.new ≡ record self.old { numbers = self.new.numbers } }
    {
        let before = self.numbers;
        if within.starts_object(above) {
            self.numbers = before.with_object_begun();
        }
        before
    }

    // Behind a folder that is in no object, the object at hand is the one that was before it.
    fn end(&mut self, within: Within, before: Numbers)
        ensures numbers { self.new.numbers ≡ ended within before self.old.numbers }
        ensures rest { self.new ≡ record self.old { numbers = self.new.numbers } }
    {
        match within {
            Within::Object(_) => {}
            _ => self.numbers = self.numbers.back_at(before),
        }
    }

    // Counts a site so deep below pairtree_root, and its object's own folder if that is renamed.
    // One that is gathered is where its object begins.
    fn count(&mut self, depth: usize, renamed: bool, within: Within, finding: Finding)
        ensures numbers { self.new.numbers
            ≡ with_folder depth renamed within finding self.old.numbers }
        ensures rest { self.new ≡ record self.old { numbers = self.new.numbers } }
    {
        if let Within::Site(_) = within {
            let numbers = match finding {
                Finding::Gathered => self.numbers.with_site(depth, true).with_object_begun(),
                Finding::Candidate(_) => self.numbers.with_site(depth, true),
                _ => self.numbers.with_site(depth, false),
            };
            self.numbers = numbers.with_renamed(renamed);
        }
    }

    // Judges a folder that was listed whole, as below, where what lies in it is the share's own.
    // What another one is can't be said: it isn't judged, and counts as no site.
    fn judge_found(
        &mut self,
        path: &NamePath,
        prefix: &str,
        folder: FoundFolder,
        found: &ListedEntries,
    ) -> Result<(), Fault>
        requires { folder.finding ≡ found_by found.now.is_whole self.old.wants.form
            folder.part.within found.now.listing }
        ensures judged { OnOk result (cond found.now.is_whole
            (Where folder.part.own
            (Judges self.old.wants (path.now, prefix.now) folder.part.within found.now.listing)
            (check_state S.Source L.Log self.old) (check_state S.Source L.Log self.new))
            (check_state S.Source L.Log self.new ≡ check_state S.Source L.Log self.old)) }
        ensures keeps { Keeps S.Source L.Log self.old self.new }
        ensures fault { LogFailsAs (L.failed self.old.log) (L.failed self.new.log) result }
    {
        if found.is_whole && folder.part.own {
            self.judge(path, prefix, folder, &found.listing)
        } else {
            Ok(())
        }
    }

    // Judges a folder of a store of this prefix by what it lists, and is found to be: it is
    // counted, and told if there is trouble.
    fn judge(
        &mut self,
        path: &NamePath,
        prefix: &str,
        folder: FoundFolder,
        listing: &Listing,
    ) -> Result<(), Fault>
        requires { folder.finding ≡ finding_of_items self.old.wants.form folder.part.within
            listing.now }
        ensures judged { OnOk result (Judges self.old.wants
            (path.now, prefix.now) folder.part.within listing.now
            (check_state S.Source L.Log self.old) (check_state S.Source L.Log self.new)) }
        ensures keeps { Keeps S.Source L.Log self.old self.new }
        ensures fault { LogFailsAs (L.failed self.old.log) (L.failed self.new.log) result }
    {
        let within = folder.part.within;
        let finding = folder.finding;
        let depth = names_below(path).len();
        let renamed = is_renamed(self.alloc, path, listing, finding)?;
        self.count(depth, renamed, within, finding);
        let layout = self.wants.layout;
        let trouble = folder_trouble(self.alloc, within, finding, path)?;
        self.tell_if(path, trouble)?;
        let trouble = reserved_trouble(layout, prefix, finding, path)?;
        self.tell_if(path, trouble)?;
        self.tell_if(path, width_trouble(path, listing))
    }

    // Meets an entry of this part of a store: it is counted, and told if there is trouble, where it
    // is the share's own. Gives how many bytes its path has.
    fn meet(&mut self, path: &NamePath, part: Part, name: &Name, kind: Kind) -> Result<u64, Fault>
        ensures met { OnOk result (Where part.own
            (Meets self.old.wants path.now part.within (name.now, kind))
            (check_state S.Source L.Log self.old) (check_state S.Source L.Log self.new)) }
        ensures length { IfOk result (λ bytes. bytes ≡ length (joined path.now)) }
        ensures keeps { Keeps S.Source L.Log self.old self.new }
        ensures fault { LogFailsAs (L.failed self.old.log) (L.failed self.new.log) result }
    {
        let bytes = path.join()?.len() as u64;
        if !part.own {
            return Ok(bytes);
        }
        let within = part.within;
        let held = self.numbers.held;
        let room = self.wants.room;
        self.numbers = self.numbers.with_entry(kind, bytes);
        self.tell_if(path, count_trouble(within, kind, held))?;
        self.tell_if(path, entry_trouble(within, name, kind, bytes))?;
        self.tell_if(path, room_trouble(room, within, kind, bytes))?;
        Ok(bytes)
    }

    // What of a folder can be listed. That not all of it can is told, whosever the folder is: what
    // is missed there may be the share's own.
    #[tactic(auto, using(pt_tree::proofs::Told::listed_in))]
    fn list(&mut self, path: &NamePath) -> Result<FolderListing, Fault>
        requires { ForSome (tree_by S.told self.old) (λ tree. IsSome (dir_at tree path.now)) }
        ensures listed { IfOk result (λ found. MatchListing found
            (TellsUnlisted E.says path.now false (check_state S.Source L.Log self.old)
            (check_state S.Source L.Log self.new))
            (λ found. ForSome (tree_by S.told self.old)
            (λ tree. listing_at tree path.now ≡ Some found.listing))) }
        ensures found { IfOk result (λ found. IfEntries found
            (λ found. Finds E.says path.now found.is_whole
            (check_state S.Source L.Log self.old) (check_state S.Source L.Log self.new))) }
        ensures keeps { Keeps S.Source L.Log self.old self.new }
        ensures fault { LogFailsAs (L.failed self.old.log) (L.failed self.new.log) result }
    {
        match self.source.list(path) {
            Ok(listing) => Ok(FolderListing::whole(listing)),
            Err(TreeFault::Device) => self.list_part(path),
            Err(TreeFault::Memory) => Err(Fault::Memory),
        }
    }

    // Tells that the source failed to list a folder, by a line for each reason. Gives what of it
    // can be listed all the same.
    #[tactic(auto, using(pt_tree::proofs::Told::listed_in))]
    fn list_part(&mut self, path: &NamePath) -> Result<FolderListing, Fault>
        requires { ForSome (tree_by S.told self.old) (λ tree. IsSome (dir_at tree path.now)) }
        ensures listed { IfOk result (λ found. IfEntries found
            (λ found. ForSome (tree_by S.told self.old)
            (λ tree. listing_at tree path.now ≡ Some found.listing))) }
        ensures part { IfOk result (λ found. IfEntries found (λ found. found.is_whole ≡ false)) }
        ensures told { IfOk result (λ found. TellsReasons E.says path.now (has_entries found)
            (check_state S.Source L.Log self.old) (check_state S.Source L.Log self.new)) }
        ensures keeps { Keeps S.Source L.Log self.old self.new }
        ensures fault { LogFailsAs (L.failed self.old.log) (L.failed self.new.log) result }
    {
        let UnlistedFolder {
            reason,
            further,
            listing,
        } = self
            .explains
            .explain_listing(self.alloc, &mut self.source, path)?;
        self.tell_reasons(path, reason.as_str(), &further)?;
        Ok(FolderListing::in_part(listing))
    }

    // Opens a file in a folder that is this, and reads it whole where that is wanted; where that
    // can't be done it is told.
    fn open(&mut self, path: &NamePath, within: Within) -> Result<(), Fault>
        requires { ForSome (tree_by S.told self.old) (λ tree. IsSome (file_at tree path.now)) }
        ensures opened { OnOk result (ForSome (tree_by S.told self.old)
            (λ tree. Opens self.old.wants.reads path.now within (bytes_at tree path.now)
            (check_state S.Source L.Log self.old) (check_state S.Source L.Log self.new))) }
        ensures keeps { Keeps S.Source L.Log self.old self.new }
        ensures fault { LogFailsAs (L.failed self.old.log) (L.failed self.new.log) result }
    {
        let reads = self.wants.reads;
        match open_whole(&mut self.source, path, reads) {
            Ok(bytes) => {
                self.numbers = self.numbers.with_opened(reads, within, bytes);
                self.tell_if(path, size_trouble(bytes))
            }
            Err(TreeFault::Device) => self.tell_failure(path),
            Err(TreeFault::Memory) => Err(Fault::Memory),
        }
    }
}
