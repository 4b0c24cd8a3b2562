//! A law on what a walk over a root finds: the contract of a function that does nothing.
ghost use Rattle.pt_extra.specs.ShareLaws.{FolderSharesFindTheWhole};

/// The shares of a store by folders find together in a root, of which the listings are told, what
/// the whole finds there: each finding of the whole is just one share's, and there is no other.
pub fn folder_shares_find_the_whole()
    ensures { FolderSharesFindTheWhole }
{}
