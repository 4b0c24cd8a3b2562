//! Laws on the definitions of a run. Each is the contract of a function that does nothing.
//!
//! - What is carried and told grows item by item; an item is taken against the root and the items
//!   before it (`taken_against_earlier`, `carried_grows`, `text_grows`, `all_items_are_all`). The
//!   files of each carried object come in order, none leading to another, as the laws on objects
//!   ask (`files_come_in_order`, `carried_files_come_in_order`).
//! - The root with one item more is the root with the object's tuple folders and its object moved
//!   in from `staging`, whole (`after_grows`, `after_stays`, `begins_with_the_base`; by
//!   `folders_grow`, `root_is_made_in_place`, `object_is_moved_in`, `root_is_moved_in`,
//!   `root_is_its_own`, `roots_have_no_gaps`).
//! - The numbers of the end line are those of the items carried, of the items whose place is taken,
//!   and of the others that have a line; each line is counted once, and the numbers grow line by
//!   line (`end_line_tells_numbers`, `lines_tell_numbers`, `each_line_is_counted`, `counts_grow`).
//! - After any number of items something stands at an item's place exactly where it stood in the
//!   root, or an earlier item against whose object there is no cause has that place
//!   (`place_stands_where_taken`, `next_place_stands_where_taken`, `named_is_not_reserved`).
//! - Over the root that any fault may leave, once `staging` is taken away, a run can end and leaves
//!   the very root that an undisturbed run over the first root leaves; so it is after any number of
//!   faults (`rerun_ends_alike`, `root_stays_without_staging`). Another limit of turns changes
//!   nothing of it (`turns_have_no_part`).
//! - Of the shares of a store, 1 to N, each carried over the same root, three laws hold for every
//!   job, source, root and N (`shares_tell_the_whole`, `shares_leave_the_whole`,
//!   `shares_meet_in_folders`); and of any choices of shares and texts that divide a store's
//!   identifiers (`Divide`) the same. Of shares by folders they hold where no two sites have
//!   objects of one place (`folder_shares_tell_the_whole` and its neighbours).
ghost use Rattle.pt_plan.specs.ItemLaws.{AllItemsAreAll, BeginsWithTheBase, CarriedGrows};
ghost use Rattle.pt_plan.specs.ItemLaws.{IsTakenAgainstEarlier, TextGrows, WhatStandsStays};
ghost use Rattle.pt_plan.specs.FileLaws.{CarriedFilesComeInOrder, FilesComeInOrder};
ghost use Rattle.pt_plan.specs.PlaceLaws.{NamedIsNotReserved, NextPlaceStandsWhereTaken};
ghost use Rattle.pt_plan.specs.PlaceLaws.{PlaceStandsWhereTaken, WayStaysFree};
ghost use Rattle.pt_plan.specs.CountLaws.{CountsGrow, EachLineIsCounted, EndLineTellsNumbers};
ghost use Rattle.pt_plan.specs.CountLaws.{LinesTellNumbers};
ghost use Rattle.pt_plan.specs.RerunLaws.{RerunEndsAlike, RerunLeavesTheSame};
ghost use Rattle.pt_plan.specs.RerunLaws.{RootStaysWithoutStaging, TurnsHaveNoPart};
ghost use Rattle.pt_plan.specs.GrowthLaws.{AfterGrows, AfterStays, FoldersGrow, ObjectIsMovedIn};
ghost use Rattle.pt_plan.specs.GrowthLaws.{RootIsItsOwn, RootIsMadeInPlace, RootIsMovedIn};
ghost use Rattle.pt_plan.specs.GrowthLaws.{RootsHaveNoGaps};
ghost use Rattle.pt_plan.specs.FixityLaws.{FaultsLeaveWhatIsKept, RowsMakeWholeObjects};
ghost use Rattle.pt_plan.specs.ShareLaws.{ChoicesLeaveTheWhole, ChoicesMeetInFolders};
ghost use Rattle.pt_plan.specs.ShareLaws.{ChoicesTellTheWhole};
ghost use Rattle.pt_plan.specs.ShareLaws.{FolderSharesLeaveTheWhole, FolderSharesMeetInFolders};
ghost use Rattle.pt_plan.specs.ShareLaws.{FolderSharesTellTheWhole};
ghost use Rattle.pt_plan.specs.ShareLaws.{SharesLeaveTheWhole, SharesMeetInFolders};
ghost use Rattle.pt_plan.specs.ShareLaws.{SharesTellTheWhole};
ghost use Rattle.pt_plan.specs.WholeLaws.{CarriedHaveTheirFiles, CarriedStandWhole};

/// In the order of the walk the files of a directory have logical paths that come in order, none
/// leading to another: what the laws on objects ask of them.
pub fn files_come_in_order()
    ensures { FilesComeInOrder }
{}

/// So do the files of each object that is carried from a source whose names rise, whatever root
/// stands.
pub fn carried_files_come_in_order()
    ensures { CarriedFilesComeInOrder }
{}

/// An item is taken or not against the root and the items before it.
pub fn taken_against_earlier()
    ensures { IsTakenAgainstEarlier }
{}

/// With one item more, its object, if it is carried, comes last.
pub fn carried_grows()
    ensures { CarriedGrows }
{}

/// With one item more, its line, if it has one, comes last.
pub fn text_grows()
    ensures { TextGrows }
{}

/// With all items, the root is the one after the whole run, and the text is the log but for the end
/// line.
pub fn all_items_are_all()
    ensures { AllItemsAreAll }
{}

/// Before any item, the root is the one that stands, or else a new one.
pub fn begins_with_the_base()
    ensures { BeginsWithTheBase }
{}

/// What stands in the root that stood, or in a new one, stands after any number of items as it was.
pub fn what_stands_stays()
    ensures { WhatStandsStays }
{}

/// The place of a named item isn't that of the root's own extensions.
pub fn named_is_not_reserved()
    ensures { NamedIsNotReserved }
{}

/// At a place that isn't reserved something stands after the first items exactly where it is taken
/// by them: no place is a root file, a folder above one, a tuple directory, or inside another
/// object.
pub fn place_stands_where_taken()
    ensures { PlaceStandsWhereTaken }
{}

/// So it is at the place of the next item.
pub fn next_place_stands_where_taken()
    ensures { NextPlaceStandsWhereTaken }
{}

/// The lines of the first items tell how many of these are carried, how many places are taken, and
/// how many are passed over.
pub fn lines_tell_numbers()
    ensures { LinesTellNumbers }
{}

/// The end line tells these numbers of all items.
pub fn end_line_tells_numbers()
    ensures { EndLineTellsNumbers }
{}

/// Each line is counted once.
pub fn each_line_is_counted()
    ensures { EachLineIsCounted }
{}

/// With one item more, each number of the lines grows by that of the item's own line.
pub fn counts_grow()
    ensures { CountsGrow }
{}

/// The root that any fault leaves of a run over no root or a usable one is one that a run can end
/// with, and a whole run over it leaves what one undisturbed run over the first leaves. So it is
/// after any number of such faults.
pub fn rerun_ends_alike()
    ensures { RerunEndsAlike }
{}

/// What any fault leaves of a run that might have ended well is, once `staging` is taken away, a
/// start from which a run may end well, and that run then leaves the very destination that one
/// undisturbed run leaves: the same root, and all beside it as it was.
pub fn rerun_leaves_the_same()
    ensures { RerunLeavesTheSame }
{}

/// Taking `staging` away leaves the storage root.
pub fn root_stays_without_staging()
    ensures { RootStaysWithoutStaging }
{}

/// In the storage root of a destination nothing stands below a path where nothing stands.
pub fn roots_have_no_gaps()
    ensures { RootsHaveNoGaps }
{}

/// With one item more that is carried, the root has its tuple directories and its object at its
/// place, and is as it was elsewhere.
pub fn after_grows()
    ensures { AfterGrows }
{}

/// With one item more that is not carried, the root stays.
pub fn after_stays()
    ensures { AfterStays }
{}

/// One tuple directory more is made where nothing stands, and is there where a folder stands.
pub fn folders_grow()
    ensures { FoldersGrow }
{}

/// What is made at a path below the destination's storage root is made in that root.
pub fn root_is_made_in_place()
    ensures { RootIsMadeInPlace }
{}

/// What stands in `staging`, moved to a place of the storage root, stands at that place of the
/// root.
pub fn object_is_moved_in()
    ensures { ObjectIsMovedIn }
{}

/// A new root, moved out of `staging`, is the destination's storage root.
pub fn root_is_moved_in()
    ensures { RootIsMovedIn }
{}

/// A destination with its own storage root is itself.
pub fn root_is_its_own()
    ensures { RootIsItsOwn }
{}

/// What a fault leaves of a source that tells is such as is left of any source: objects at places
/// where nothing stood, each whole.
pub fn faults_leave_what_is_kept()
    ensures { FaultsLeaveWhatIsKept }
{}

/// An object made of rows of which none leads to another is whole, with what is held where their
/// contents are stored. It is the object of those files where that has the rows' digests.
pub fn rows_make_whole_objects()
    ensures { RowsMakeWholeObjects }
{}

/// The limit of turns has no part in what is carried and told: a run with another one leaves the
/// same root.
pub fn turns_have_no_part()
    ensures { TurnsHaveNoPart }
{}

/// The way to a place is as free after the first items as it was in the root: no object and no root
/// file comes to stand in it.
pub fn way_stays_free()
    ensures { WayStaysFree }
{}

/// Each object that is carried of the first items stands whole at its place in the root after them:
/// its OCFL object, path by path, and nothing else below it (OCFL 1.1, "Object Structure").
pub fn carried_stand_whole()
    ensures { CarriedStandWhole }
{}

/// In the destination that a run leaves that ends well, the state of the version of each object
/// that is carried is its files, where no two of them whose bytes differ have one digest (OCFL 1.1,
/// "Version Block").
pub fn carried_have_their_files()
    ensures { CarriedHaveTheirFiles }
{}

/// The logs of all shares of a store have together the lines of the whole's, each line in the log
/// of one share: whatever is asked of lines, as many of the whole's, but for the end line, are such
/// as of the shares' together. So the numbers of their end lines add up.
pub fn shares_tell_the_whole()
    ensures { SharesTellTheWhole }
{}

/// Over one root, what stands at a path after a run of the whole stands there after the run of some
/// share, as it is, and nothing else stands there after any share's.
pub fn shares_leave_the_whole()
    ensures { SharesLeaveTheWhole }
{}

/// Where two shares have something at a path, it stood in the root that both began with (over no
/// root, in the new one: its own files), or else is a folder.
pub fn shares_meet_in_folders()
    ensures { SharesMeetInFolders }
{}

/// So it is of the lines of shares by folders, `skip` lines too, where no two sites of the store
/// have objects of one place.
pub fn folder_shares_tell_the_whole()
    ensures { FolderSharesTellTheWhole }
{}

/// And of what they leave.
pub fn folder_shares_leave_the_whole()
    ensures { FolderSharesLeaveTheWhole }
{}

/// And of where two of them have something.
pub fn folder_shares_meet_in_folders()
    ensures { FolderSharesMeetInFolders }
{}

/// Over one root, what stands at a path after a run of the whole stands there after the run of some
/// choice, as it is, and nothing else stands there after any choice's: where each identifier of the
/// store is of one choice, and those of one place are of the same. Choices are shares by
/// identifiers, and shares of what begins with some texts or stands in a list.
pub fn choices_leave_the_whole()
    ensures { ChoicesLeaveTheWhole }
{}

/// Where two such choices have something at a path, it stood in the root that both began with, or
/// else is a folder.
#[tactic(auto, using(crate::proofs::SharedRoots::choices_meet_in_folders))]
pub fn choices_meet_in_folders()
    ensures { ChoicesMeetInFolders }
{}

/// The logs of all such choices have together the lines of the whole's that aren't of what is
/// passed over, each line in the log of one choice.
#[tactic(auto, using(crate::proofs::SharedItems::choices_tell_the_whole))]
pub fn choices_tell_the_whole()
    ensures { ChoicesTellTheWhole }
{}
