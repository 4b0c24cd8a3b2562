ghost use Rattle.std.specs.Prelude.{◌≡◌, slice_get};
ghost use Rattle.pt_tree.specs.declared.kind.Kind.TheVariants as kind;
ghost use Rattle.pt_walk.specs.Site.{divided as divided_finding, found};
ghost use Rattle.pt_walk.specs.Site.{is_shorty as is_shorty_item, non_shorties};
ghost use Rattle.pt_walk.specs.Site.{without_object as without_object_finding};
ghost use Rattle.pt_walk.specs.NonShorties.{non_shorty_kind, one_more, summary};

use crate::Cause;
use pt_tree::{Kind, Listing, Name};

/// Where a site stands: it is the top directory `pairtree_root`, or its own name has two bytes, or
/// one.
#[derive(Clone, Copy, Debug, PartialEq, Eq)]
pub enum At {
    /// It is `pairtree_root`.
    Root,
    /// Its name has two bytes.
    Pair,
    /// Its name has one byte.
    Last,
}

/// Whether what a site holds beside its shorties makes an object where it is more than one
/// directory.
#[derive(Clone, Copy, Debug, PartialEq, Eq)]
pub enum Form {
    /// It makes none.
    Plain,
    /// It makes one object of all.
    Gathering,
}

/// What a site is found to be.
#[derive(Clone, Copy, Debug, PartialEq, Eq)]
pub enum Finding {
    /// It only leads on.
    Interior,
    /// It is passed over, and its cause is told.
    Skip(Cause),
    /// Its entry of this index, from 0 on, is the directory of an object.
    Candidate(usize),
    /// All that it holds beside its shorties is an object.
    Gathered,
}

/// What a site is, by what its directory holds. It takes no memory.
///
/// A shorty is a directory whose name has one or two bytes, one piece of a cleaned identifier
/// (Pairtree 0.1, "Identifier string cleaning" and "Mapping identifiers to paths"). The top
/// directory only leads on where it holds nothing but shorties, and else is passed over as `root`.
/// Any other site is passed over as `empty` where it holds nothing, only leads on where it holds
/// nothing but shorties, and where it holds one directory beside its shorties and nothing else that
/// directory is the candidate. Otherwise it is passed over as `split` in the form `Plain`, and is
/// an object of its own in the form `Gathering`.
pub fn judge(listing: &Listing, at: At, form: Form) -> Finding
    ensures { result ≡ found listing.now at form }
{
    match (at, non_shorties_of(listing)) {
        (At::Root, NonShorties::None) => Finding::Interior,
        (At::Root, _) => Finding::Skip(Cause::Root),
        (_, NonShorties::None) => without_object(listing),
        (_, NonShorties::One(index, Kind::Dir)) => Finding::Candidate(index),
        _ => find_divided(form),
    }
}

// The entries that are no shorties, as far as they are told apart.
#[derive(Clone, Copy)]
enum NonShorties {
    None,
    One(usize, Kind),
    Several,
}

impl NonShorties {
    // These and one more.
    fn and(self, index: usize, kind: Kind) -> NonShorties
        ensures { result ≡ one_more self index kind }
    {
        match self {
            NonShorties::None => NonShorties::One(index, kind),
            _ => NonShorties::Several,
        }
    }
}

fn non_shorties_of(listing: &Listing) -> NonShorties
    ensures { result ≡ summary (non_shorties listing.now) }
{
    let mut found = NonShorties::None;
    for i in 0..listing.len() {
        if let Some(kind) = non_shorty(listing, i) {
            found = found.and(i, kind);
        }
    }
    found
}

// The kind of the i-th entry, where it is no shorty.
fn non_shorty(listing: &Listing, i: usize) -> Option<Kind>
    ensures { result ≡ non_shorty_kind (slice_get listing.now i) }
{
    match listing.get(i) {
        Some((name, kind)) if !is_shorty(name, kind) => Some(kind),
        _ => None,
    }
}

/// Whether an entry is a shorty: a directory whose name has one or two bytes, one piece of a
/// cleaned identifier (Pairtree 0.1, "Mapping identifiers to paths").
pub fn is_shorty(name: &Name, kind: Kind) -> bool
    ensures { result ≡ is_shorty_item (name.now, kind) }
{
    kind == Kind::Dir && matches!(name.bytes().len(), 1 | 2)
}

// A site that holds no object: it holds nothing at all, or shorties.
fn without_object(listing: &Listing) -> Finding
    ensures { result ≡ without_object_finding listing.now }
{
    if listing.is_empty() {
        Finding::Skip(Cause::Empty)
    } else {
        Finding::Interior
    }
}

// A site that holds more than shorties and one directory.
fn find_divided(form: Form) -> Finding
    ensures { result ≡ divided_finding form }
{
    match form {
        Form::Plain => Finding::Skip(Cause::Split),
        Form::Gathering => Finding::Gathered,
    }
}
