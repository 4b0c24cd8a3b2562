//! Laws of the definitions, for callers to cite: on a tree that is seen by lengths and a walk
//! through it, and on an object that is looked over. Each is the contract of a function that does
//! nothing.
ghost use Rattle.pt_quick.specs.ClaimedLaws.{InventoryClaimsItsRows};
ghost use Rattle.pt_quick.specs.DepthLaws.{FilesAreMeasured, FoldersAreMeasured, KindsStay};
ghost use Rattle.pt_quick.specs.DepthLaws.{ListingsStayAt, StaysProper, TreesAreMeasured};
ghost use Rattle.pt_quick.specs.QuickLaws.{AlikeFilesAreAsLong, CarriedFilesAreSeen};
ghost use Rattle.pt_quick.specs.QuickLaws.{InsideIsMeasured, OtherBytesArentRead};
ghost use Rattle.pt_quick.specs.QuickLaws.{QuickFindsTheSame};
ghost use Rattle.pt_quick.specs.QuickLaws.{RowsOfFilesHaveDigests, StandingObjectIsAlike};
ghost use Rattle.pt_quick.specs.SeenLaws.{LengthsAreTold, LongFilesAreMarked};
ghost use Rattle.pt_quick.specs.SitesMeasured.{ItemsAreSeen, OutcomesAreSeen, SitesAreSeen};
ghost use Rattle.pt_quick.specs.SitesMeasured.{StoreStays};

/// A file deeper than so many names has the text of its length, and any other its own bytes.
pub fn files_are_measured()
    ensures { FilesAreMeasured }
{}

/// A directory is seen by what is left of the depth.
pub fn folders_are_measured()
    ensures { FoldersAreMeasured }
{}

/// Path by path: of deep files the texts of their lengths stand, and all else as it is.
pub fn trees_are_measured()
    ensures { TreesAreMeasured }
{}

/// In each directory the names rise where they rose.
pub fn stays_proper()
    ensures { StaysProper }
{}

/// What stands at a path, if anything does, is of the same kind.
pub fn kinds_stay()
    ensures { KindsStay }
{}

/// Each directory lists the same names and kinds.
pub fn listings_stay()
    ensures { ListingsStayAt }
{}

/// Of files shorter than 2^64 bytes the texts that are seen are equal only where the lengths are.
pub fn lengths_are_told()
    ensures { LengthsAreTold }
{}

/// The text of a length has more than twenty bytes just where the length is over the greatest.
pub fn long_files_are_marked()
    ensures { LongFilesAreMarked }
{}

/// What stands at the top of a store and is read there, its prefix too, is the same where all files
/// but those at its top are seen by lengths.
pub fn store_stays()
    ensures { StoreStays }
{}

/// A walk through it comes to the same directories, and meets each in the same way.
pub fn sites_are_seen()
    ensures { SitesAreSeen }
{}

/// Each has the same identifier, or the same cause why it has none.
pub fn items_are_seen()
    ensures { ItemsAreSeen }
{}

/// And the same comes of each object whose files are shorter than 2^64 bytes, with the same cause,
/// where the walk carries files of at most `LONGEST_TEXT` bytes.
pub fn outcomes_are_seen()
    ensures { OutcomesAreSeen }
{}

/// An inventory that was made of some rows, with digests of its algorithm, claims just their
/// digests for rows with the same paths.
pub fn inventory_claims_its_rows()
    ensures { InventoryClaimsItsRows }
{}

/// What is found of an object hangs on the bytes of its own files alone.
pub fn other_bytes_arent_read()
    ensures { OtherBytesArentRead }
{}

/// At a place of a root whose contents are seen by lengths an object is seen so: the files below
/// the content folder by lengths, and the others as they are.
pub fn inside_is_measured()
    ensures { InsideIsMeasured }
{}

/// The files that a walk by lengths carries are seen as `quick_finds_the_same` asks.
pub fn carried_files_are_seen()
    ensures { CarriedFilesAreSeen }
{}

/// A quick audit never tells as differing what a whole audit finds to be the same, but where two
/// files of the object have one digest and other lengths.
pub fn quick_finds_the_same()
    ensures { QuickFindsTheSame }
{}

/// Each file of an object that is alike is as long as the file that stands for it.
pub fn alike_files_are_as_long()
    ensures { AlikeFilesAreAsLong }
{}

/// An object that stands just as it is sought is alike, so `look_over` finds it the same.
pub fn standing_object_is_alike()
    ensures { StandingObjectIsAlike }
{}

/// The rows of files have digests of their algorithm, as `look_over` asks of an object's.
pub fn rows_of_files_have_digests()
    ensures { RowsOfFilesHaveDigests }
{}
