//! The well-known names of a Pairtree store, a storage root and an object.
use pt_tree::KnownName;

/// The names that a run knows beforehand: of the entries of a Pairtree store, and of what it makes.
#[derive(Clone, Copy, Debug)]
pub enum WellKnownName {
    /// The file that marks a Pairtree store (Pairtree 0.1).
    VersionFile,
    /// The file of a store's prefix (Pairtree 0.1).
    PrefixFile,
    /// The directory of a store's pairtree (Pairtree 0.1).
    PairtreeRoot,
    /// The storage root in the destination.
    StorageRoot,
    /// Where a root or an object is made in the destination.
    Staging,
    /// The folder of a root's extensions (OCFL 1.1, "Storage Extensions").
    Extensions,
    /// The folder of the layout's configuration in it (extension 0003).
    Extension,
    /// The layout's configuration in that folder.
    Configuration,
    /// A storage root's declaration (OCFL 1.1, "Root Conformance Declaration").
    RootDeclaration,
    /// What describes a storage root's layout (OCFL 1.1, "Root Structure").
    LayoutFile,
    /// An object's declaration (OCFL 1.1, "Object Conformance Declaration").
    Declaration,
    /// The folder of an object's version (OCFL 1.1, "Version Directories").
    Version,
    /// The folder of a version's contents (OCFL 1.1, "Content Directory").
    Content,
    /// An inventory (OCFL 1.1, "Inventory").
    Inventory,
    /// The sidecar of an inventory by SHA-512 (OCFL 1.1, "Inventory Digest").
    Sha512Sidecar,
    /// The sidecar of an inventory by SHA-256.
    Sha256Sidecar,
}

impl KnownName for WellKnownName {
    ghost use Rattle.pt_object.specs.WellKnown.{known_is_name, known_text};

    ghost known_text = { known_text };

    ghost known_is_name = { known_is_name };

    fn text(self) -> &'static str {
        match self {
            WellKnownName::VersionFile => "pairtree_version0_1",
            WellKnownName::PrefixFile => "pairtree_prefix",
            WellKnownName::PairtreeRoot => "pairtree_root",
            WellKnownName::StorageRoot => "ocfl",
            WellKnownName::Staging => "staging",
            WellKnownName::Extensions => "extensions",
            WellKnownName::Extension => "0003-hash-and-id-n-tuple-storage-layout",
            WellKnownName::Configuration => "config.json",
            WellKnownName::RootDeclaration => "0=ocfl_1.1",
            WellKnownName::LayoutFile => "ocfl_layout.json",
            WellKnownName::Declaration => "0=ocfl_object_1.1",
            WellKnownName::Version => "v1",
            WellKnownName::Content => "content",
            WellKnownName::Inventory => "inventory.json",
            WellKnownName::Sha512Sidecar => "inventory.json.sha512",
            WellKnownName::Sha256Sidecar => "inventory.json.sha256",
        }
    }
}
