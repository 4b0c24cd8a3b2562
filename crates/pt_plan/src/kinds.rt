//! What kind of entry stands somewhere.
#![tactic(auto, using(crate::proofs::ListedKinds::finding_kind))]

ghost use Rattle.std.specs.Prelude.{◌≡◌, slice_get};
ghost use Rattle.pt_plan.specs.ListedKinds.{kind_if_named};
ghost use Rattle.pt_plan.specs.TurnStart.{is_dir_kind, is_file_kind, kind_in as kind_listed};

use pt_tree::{Kind, Listing};

/// Whether a file stands there, from the kind of what stands there, or none.
pub fn is_file(kind: Option<Kind>) -> bool
    ensures { result ≡ is_file_kind kind }
{
    matches!(kind, Some(Kind::File))
}

/// Whether a directory stands there, from the kind of what stands there, or none.
pub fn is_dir(kind: Option<Kind>) -> bool
    ensures { result ≡ is_dir_kind kind }
{
    matches!(kind, Some(Kind::Dir))
}

/// The kind of the entry of this name, if one is listed.
pub fn kind_in(listing: &Listing, name: &[u8]) -> Option<Kind>
    ensures { result ≡ kind_listed listing.now name.now }
{
    for i in 0..listing.len() {
        if let Some(kind) = kind_at(listing, i, name) {
            return Some(kind);
        }
    }
    None
}

// The kind of the entry of this index, if it has this name.
fn kind_at(listing: &Listing, i: usize, name: &[u8]) -> Option<Kind>
    ensures { result ≡ kind_if_named (slice_get listing.now i) name.now }
{
    match listing.get(i) {
        Some((entry, kind)) => {
            if entry.bytes() == name {
                Some(kind)
            } else {
                None
            }
        }
        None => None,
    }
}
