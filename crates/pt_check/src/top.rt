//! What a check looks at in the top of a store: the prefix, and what a store must have.
ghost use Rattle.std.specs.Prelude.{◌≡◌, [], string_bytes, take, IfOk, IsSome, OnOk, Some};
ghost use Rattle.std.specs.Option.{ForSome};
ghost use Rattle.pt_check.specs.Faults.{LogFailsAs};
ghost use Rattle.pt_check.specs.Visits.{Keeps, Looks, ReadsFront, ReadsPrefix, check_state};
ghost use Rattle.pt_check.specs.Visits.{missing as missing_by, prefix_path, tree_by};
ghost use Rattle.pt_plan.specs.Store.{prefix_file};
ghost use Rattle.pt_plan.specs.TurnStart.{kind_in as kind_in_items};
ghost use Rattle.pt_tree.specs.Forest.{file_at, listing_at};
ghost use Rattle.pt_walk.specs.Left.{bytes_at};

use crate::checking::Check;
use crate::prefix::open_prefix;
use crate::unlisted::Explains;
use crate::{Part, Trouble, Within};
use pt_object::WellKnownName;
use pt_plan::Fault;
use pt_plan::kinds::{is_dir, is_file, kind_in};
use pt_tree::{Kind, KnownName, Listing, Log, NamePath, Source, TreeFault};
use pt_walk::{At, Limits};

// What is told of an entry that a store must have, by whether it is there.
fn missing(is_there: bool) -> Option<Trouble>
    ensures { result ≡ missing_by is_there }
{
    if is_there {
        None
    } else {
        Some(Trouble::Missing)
    }
}

impl<S: Source, L: Log, E: Explains<S> + Drop> Check<S, L, E> {
    // Looks at the file of the prefix, where the top of a store lists one, and tells of it where
    // the top is the share's own. Gives the prefix, empty where none is known.
    pub(crate) fn look_at_prefix(&mut self, listing: &Listing, own: bool) -> Result<String, Fault>
        requires { ForSome (tree_by S.told self.old)
            (λ tree. listing_at tree [] ≡ Some listing.now) }
        ensures looked { IfOk result (λ prefix. ForSome (tree_by S.told self.old)
            (λ tree. ReadsPrefix own (kind_in_items listing.now prefix_file)
            (bytes_at tree prefix_path) (string_bytes prefix)
            (check_state S.Source L.Log self.old) (check_state S.Source L.Log self.new))) }
        ensures keeps { Keeps S.Source L.Log self.old self.new }
        ensures fault { LogFailsAs (L.failed self.old.log) (L.failed self.new.log) result }
    {
        let path = NamePath::of_known(self.alloc, &[WellKnownName::PrefixFile])?;
        match kind_in(listing, WellKnownName::PrefixFile.text().as_bytes()) {
            None => Ok(String::new(self.alloc)),
            Some(Kind::File) => self.read_prefix(&path, own),
            Some(_) => {
                self.tell_own(own, &path, Some(Trouble::Prefix))?;
                Ok(String::new(self.alloc))
            }
        }
    }

    // Reads the front of the prefix file, and tells what there is to tell of it, or that it can't
    // be read. Gives the prefix, as above.
    fn read_prefix(&mut self, file: &NamePath, own: bool) -> Result<String, Fault>
        requires { ForSome (tree_by S.told self.old) (λ tree. IsSome (file_at tree file.now)) }
        ensures read { IfOk result (λ prefix. ForSome (tree_by S.told self.old)
            (λ tree. ReadsFront own file.now (take 8192 (bytes_at tree file.now))
            (string_bytes prefix)
            (check_state S.Source L.Log self.old) (check_state S.Source L.Log self.new))) }
        ensures keeps { Keeps S.Source L.Log self.old self.new }
        ensures fault { LogFailsAs (L.failed self.old.log) (L.failed self.new.log) result }
    {
        match open_prefix(self.alloc, &mut self.source, file) {
            Ok(front) => {
                self.tell_own(own, file, front.trouble)?;
                Ok(front.prefix)
            }
            Err(TreeFault::Device) => {
                self.tell_failure(file)?;
                Ok(String::new(self.alloc))
            }
            Err(TreeFault::Memory) => Err(Fault::Memory),
        }
    }

    // Looks at what the top of a store of this prefix lists, and visits `pairtree_root`, both the
    // share's own or not.
    pub(crate) fn look(&mut self, listing: &Listing, prefix: &str, own: bool) -> Result<(), Fault>
        requires { ForSome (tree_by S.told self.old)
            (λ tree. listing_at tree [] ≡ Some listing.now) }
        ensures looked { OnOk result (ForSome (tree_by S.told self.old)
            (λ tree. Looks E.says self.old.share self.old.wants own prefix.now tree
            (check_state S.Source L.Log self.old) (check_state S.Source L.Log self.new))) }
        ensures keeps { Keeps S.Source L.Log self.old self.new }
        ensures fault { LogFailsAs (L.failed self.old.log) (L.failed self.new.log) result }
    {
        let version = NamePath::of_known(self.alloc, &[WellKnownName::VersionFile])?;
        let root = NamePath::of_known(self.alloc, &[WellKnownName::PairtreeRoot])?;
        let marked = is_file(kind_in(listing, WellKnownName::VersionFile.text().as_bytes()));
        self.tell_own(own, &version, missing(marked))?;
        if is_dir(kind_in(listing, WellKnownName::PairtreeRoot.text().as_bytes())) {
            let part = Part {
                within: Within::Site(At::Root),
                own,
            };
            self.visit(&root, prefix, part, Limits::greatest().depth() + 1)
        } else {
            self.tell_own(own, &root, Some(Trouble::Missing))
        }
    }
}
