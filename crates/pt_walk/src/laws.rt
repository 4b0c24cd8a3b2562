//! Laws on what a walk finds, and on what of it is still to come. Each is the contract of a
//! function that does nothing.
ghost use Rattle.pt_walk.specs.SitesReached.{ListedSitesAreReached, ReachedSitesAreListed};
ghost use Rattle.pt_walk.specs.ObjectPaths.{FilesPartInOrder, GatheredIsProper};
ghost use Rattle.pt_walk.specs.ObjectLaws.{CountsInTurn, LooksBehindGoodEntries, GoodEntriesGrow};
ghost use Rattle.pt_walk.specs.ObjectLaws.{BadEntryIsFirst, SplitsAtTheFirstBad};
ghost use Rattle.pt_walk.specs.SiteLaws.{PairFindsAsLast, CandidateIsTheOnlyNonShorty};
ghost use Rattle.pt_walk.specs.SiteLaws.{InteriorHoldsShorties, LastNameSaysWhere};
ghost use Rattle.pt_walk.specs.SiteWalk.{StartsWithTheTop, EntersTheNextSite, PassesTheNextSite};
ghost use Rattle.pt_walk.specs.SiteWalk.{PassesNonShorties, LeavesTheSite, EndsWithTheTop};
ghost use Rattle.pt_walk.specs.ObjectWalk.{StartsWithTheObject, StartsWithTheGathered};
ghost use Rattle.pt_walk.specs.ObjectWalk.{ReadsTheNextFile, MeetsTheNextOther};
ghost use Rattle.pt_walk.specs.ObjectWalk.{EntersTheNextDirectory, PassesTheNextShorty};
ghost use Rattle.pt_walk.specs.ObjectWalk.{LeavesTheDirectory, EndsWithTheObject};
ghost use Rattle.pt_walk.specs.TrailLaws.{FitsWhenEntered, FitsWhenMoved, DirectoryIsThere};
ghost use Rattle.pt_walk.specs.TrailLaws.{FileIsThere, ListingIsThere};
ghost use Rattle.pt_walk.specs.TrailLaws.{PathGrows, HoldsWhatIsListed, PathSplits};
ghost use Rattle.pt_walk.specs.TrailLaws.{PathHasANameForEach, ReadsBelowADirectory};

/// How many bytes its own name has changes nothing in what a site is found to be.
pub fn pair_finds_as_last()
    ensures { PairFindsAsLast }
{}

/// A walk through the sites starts with the top directory: all other sites are still to come when
/// its listing is entered.
pub fn starts_with_the_top()
    ensures { StartsWithTheTop }
{}

/// Where a shorty is entered that is listed, it is the next site, and the other sites are still to
/// come from its listing on.
pub fn enters_the_next_site()
    ensures { EntersTheNextSite }
{}

/// Where a shorty isn't listed, it comes next, and the others are still to come from the next entry
/// on.
pub fn passes_the_next_site()
    ensures { PassesTheNextSite }
{}

/// Passing an entry that is no shorty leaves out no site.
pub fn passes_non_shorties()
    ensures { PassesNonShorties }
{}

/// Leaving a listing at its end, and moving on by one in the listing around it, leaves out no site.
pub fn leaves_the_site()
    ensures { LeavesTheSite }
{}

/// At the end of the top directory no site is still to come.
pub fn ends_with_the_top()
    ensures { EndsWithTheTop }
{}

/// A walk through an object starts in its directory: all its entries are still to come.
pub fn starts_with_the_object()
    ensures { StartsWithTheObject }
{}

/// A walk through an object that is gathered starts in its site: all its entries but its shorties
/// are still to come.
pub fn starts_with_the_gathered()
    ensures { StartsWithTheGathered }
{}

/// A file at the innermost place is the next entry of the object; the others are still to come from
/// the next place on.
pub fn reads_the_next_file()
    ensures { ReadsTheNextFile }
{}

/// What is neither a file nor a directory, at the innermost place, is the next entry of the object.
pub fn meets_the_next_other()
    ensures { MeetsTheNextOther }
{}

/// A directory of the object that is entered is its next entry; the others are still to come from
/// its listing on.
pub fn enters_the_next_directory()
    ensures { EntersTheNextDirectory }
{}

/// Passing a shorty of a gathered site leaves out no entry of the object.
pub fn passes_the_next_shorty()
    ensures { PassesTheNextShorty }
{}

/// Leaving a listing of the object at its end, and moving on by one in the one around it, leaves
/// out no entry.
pub fn leaves_the_directory()
    ensures { LeavesTheDirectory }
{}

/// At the end of the object's own listing none of its entries is still to come.
pub fn ends_with_the_object()
    ensures { EndsWithTheObject }
{}

/// A trail through a tree is one still when the listing of the directory at its innermost place is
/// entered.
pub fn fits_when_entered()
    ensures { FitsWhenEntered }
{}

/// A trail through a tree is one still when its innermost place moves, and when its innermost
/// listing is left.
pub fn fits_when_moved()
    ensures { FitsWhenMoved }
{}

/// A directory at the innermost place stands at that path in the tree.
pub fn directory_is_there()
    ensures { DirectoryIsThere }
{}

/// A file at the innermost place stands at that path in the tree.
pub fn file_is_there()
    ensures { FileIsThere }
{}

/// The innermost listing is that of the directory at its path.
pub fn listing_is_there()
    ensures { ListingIsThere }
{}

/// The path of a listing that is entered is the path before and the name of the entry.
pub fn path_grows()
    ensures { PathGrows }
{}

/// A trail through a tree holds as many records as the directories from the top down to the
/// innermost have entries.
pub fn holds_what_is_listed()
    ensures { HoldsWhatIsListed }
{}

/// A candidate is a directory with a longer name than a shorty has, and every other entry of its
/// site is a shorty.
pub fn candidate_is_the_only_non_shorty()
    ensures { CandidateIsTheOnlyNonShorty }
{}

/// A site that only leads on holds shorties alone.
pub fn interior_holds_shorties()
    ensures { InteriorHoldsShorties }
{}

/// Where a site stands goes by the last name of its path.
pub fn last_name_says_where()
    ensures { LastNameSaysWhere }
{}

/// The files of some entries and then of others are those of the first and then of the others; so
/// it is with the number of directories without entries.
pub fn counts_in_turn()
    ensures { CountsInTurn }
{}

/// Behind entries none of which is bad, the first bad one is that of the others.
pub fn looks_behind_good_entries()
    ensures { LooksBehindGoodEntries }
{}

/// An entry for which there is no cause is one more of those that are not bad.
pub fn good_entries_grow()
    ensures { GoodEntriesGrow }
{}

/// An entry for which there is a cause, behind entries none of which is bad, is the first bad one.
pub fn bad_entry_is_first()
    ensures { BadEntryIsFirst }
{}

/// The first bad entry of an object stands behind those before it, and there is a cause for it;
/// without one no entry is bad.
pub fn splits_at_the_first_bad()
    ensures { SplitsAtTheFirstBad }
{}

/// The path of the innermost listing is that of any listing around it and the names from there on.
pub fn path_splits()
    ensures { PathSplits }
{}

/// The path of the innermost listing has as many names as there are listings around it.
pub fn path_has_a_name_for_each()
    ensures { PathHasANameForEach }
{}

/// The paths of an object's files are one or more names each, rise name by name, and none is
/// another or leads to it.
pub fn files_part_in_order()
    ensures { FilesPartInOrder }
{}

/// What a proper site holds beside its shorties is proper.
pub fn gathered_is_proper()
    ensures { GatheredIsProper }
{}

/// What stands below a directory of a tree is what stands in it, and a directory of a proper tree
/// is proper.
pub fn reads_below_a_directory()
    ensures { ReadsBelowADirectory }
{}

/// Each site that is listed is a directory that shorties lead to, none of them below a name of one
/// byte, and no more of them than the limit allows.
pub fn listed_sites_are_reached()
    ensures { ListedSitesAreReached }
{}

/// Each directory that shorties lead to so is a site that is listed.
pub fn reached_sites_are_listed()
    ensures { ReachedSitesAreListed }
{}
