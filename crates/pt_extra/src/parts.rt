//! What of a root is its own, and what is an object.
ghost use Rattle.std.specs.Prelude.{◌≡◌};
ghost use Rattle.std.specs.Str.{bytes_eq};
ghost use Rattle.pt_extra.specs.Findings.{is_copy as is_copy_name, is_object as is_object_of};
ghost use Rattle.pt_extra.specs.Findings.{is_own as is_own_entry, is_part as is_part_of};
ghost use Rattle.pt_extra.specs.Findings.{is_text as is_text_name};
ghost use Rattle.pt_object.specs.WellKnown.{known_text};

use pt_object::WellKnownName;
use pt_plan::kinds::{is_file, kind_in};
use pt_tree::{Kind, KnownName, Listing, Name, NamePath};

// An object's declaration in OCFL 1.0, which a root of 1.1 may have too.
const OLDER: &str = "0=ocfl_object_1.0";

// The specification of OCFL's extensions.
const OF_EXTENSIONS: &str = "ocfl_extensions_1.0.md";

/// Whether a folder that lists these is an object's root (OCFL 1.1, "Object Structure").
pub(crate) fn is_object(listing: &Listing) -> bool
    ensures { result ≡ is_object_of listing.now }
{
    is_file(kind_in(listing, WellKnownName::Declaration.text().as_bytes()))
        || is_file(kind_in(listing, OLDER.as_bytes()))
}

/// Whether an entry of the folder at this path of a root is the root's own (OCFL 1.1, "Root
/// Structure").
pub(crate) fn is_part(path: &NamePath, name: &Name, kind: Kind) -> bool
    ensures { result ≡ is_part_of path.now name.now kind }
{
    path.is_empty() && is_own(name, kind)
}

// Whether an entry of the top of a root is the root's own.
fn is_own(name: &Name, kind: Kind) -> bool
    ensures { result ≡ is_own_entry name.now kind }
{
    match kind {
        Kind::File => is_known(name, WellKnownName::RootDeclaration) || is_text(name),
        Kind::Dir => is_known(name, WellKnownName::Extensions),
        Kind::Other => false,
    }
}

// Whether a file of this name says what a root is: its layout, or a specification.
fn is_text(name: &Name) -> bool
    ensures { result ≡ is_text_name name.now }
{
    is_known(name, WellKnownName::LayoutFile) || is_copy(name)
}

// Whether a file of this name is a copy of a specification: OCFL's, or that of its extensions.
fn is_copy(name: &Name) -> bool
    ensures { result ≡ is_copy_name name.now }
{
    name.bytes().starts_with(b"ocfl_1.1.") || name.bytes() == OF_EXTENSIONS.as_bytes()
}

// Whether a name is this one.
fn is_known(name: &Name, known: WellKnownName) -> bool
    ensures { result ≡ bytes_eq name.now (known_text known) }
{
    name.bytes() == known.text().as_bytes()
}
