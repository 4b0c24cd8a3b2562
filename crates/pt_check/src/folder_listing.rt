//! What of a folder could be listed.
ghost use Rattle.std.specs.Prelude.{◌≡◌};
ghost use Rattle.pt_check.specs.FolderListing.{in_part, whole_listing};

use pt_tree::Listing;

/// What of a folder could be listed.
#[derive(Drop)]
pub enum FolderListing {
    /// Entries of it.
    Entries(ListedEntries),
    /// Nothing.
    Nothing,
}

/// All entries of a folder, or those that have names.
#[derive(Drop)]
pub struct ListedEntries {
    /// The entries.
    pub listing: Listing,
    /// Whether they are all.
    pub is_whole: bool,
}

impl FolderListing {
    /// All entries of a folder.
    pub fn whole(listing: Listing) -> FolderListing
        ensures { result ≡ whole_listing listing }
    {
        FolderListing::Entries(ListedEntries {
            listing,
            is_whole: true,
        })
    }

    /// What has names in a folder that can't be listed whole, if that can be listed.
    pub fn in_part(listing: Option<Listing>) -> FolderListing
        ensures { result ≡ in_part listing }
    {
        match listing {
            Some(listing) => FolderListing::Entries(ListedEntries {
                listing,
                is_whole: false,
            }),
            None => FolderListing::Nothing,
        }
    }
}
