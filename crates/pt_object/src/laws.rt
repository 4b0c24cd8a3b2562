//! Laws of the definitions, for callers to cite.
//!
//! On tables: noting all rows in order gives the distinct ones (`noting_gives_distinct`), and keeps
//! the first path of each (`noting_keeps_first`). Reading the inventory's text as JSON gives its
//! tree (`inventory_reads_as_its_tree`).
//!
//! On objects and roots, for every list of files whose paths rise and lead to no other: each item
//! of a script may be made after those before it (`script_can_be_made`,
//! `script_of_rows_can_be_made`, `root_script_can_be_made`); carried out to its end it makes the
//! object, or the root, in `staging`, and changes nothing else (`script_makes_the_object`,
//! `script_of_rows_makes_the_object`, `root_script_makes_the_root`); what was made there stands at
//! its place once it is moved (`moved_stands_there`); the object of rows is that of files with the
//! bytes stored for them (`rows_are_files`); the state of the object's version is the list of
//! files, where no two whose bytes differ have one digest (`state_is_the_files`).
ghost use Rattle.pt_object.specs.Distinct.{NotingGivesDistinct, NotingKeepsFirst};
ghost use Rattle.pt_object.specs.InventoryLaws.{InventoryReadsAsItsTree};
ghost use Rattle.pt_object.specs.ObjectLaws.{LastFileTellsFolders, MovedStandsThere};
ghost use Rattle.pt_object.specs.ObjectLaws.{PathsInOrderAreApart, PieceMakesMore};
ghost use Rattle.pt_object.specs.ObjectLaws.{RootScriptCanBeMade, RootScriptMakesTheRoot};
ghost use Rattle.pt_object.specs.ObjectLaws.{RowsAreFiles, ScriptCanBeMade};
ghost use Rattle.pt_object.specs.ObjectLaws.{ScriptMakesTheObject, ScriptOfRowsCanBeMade};
ghost use Rattle.pt_object.specs.ObjectLaws.{ScriptOfRowsMakesTheObject};
ghost use Rattle.pt_object.specs.VersionLaws.{StateIsTheFiles};

/// Noting all rows in order gives the distinct files: those with whose digest there is no earlier
/// row.
pub fn noting_gives_distinct()
    ensures { NotingGivesDistinct }
{}

/// Of all rows noted in order, the path that is found is that of the first row with the digest.
pub fn noting_keeps_first()
    ensures { NotingKeepsFirst }
{}

/// Reading the text of an inventory as JSON gives its tree, whatever its identifier, rows,
/// description and algorithm.
pub fn inventory_reads_as_its_tree()
    ensures { InventoryReadsAsItsTree }
{}

/// Each item of the script of some rows may be made after those before it, in any destination
/// without `staging`, where no path of the rows is another or leads to it.
pub fn script_of_rows_can_be_made()
    ensures { ScriptOfRowsCanBeMade }
{}

/// The script of some rows makes their object in `staging` and changes nothing else.
pub fn script_of_rows_makes_the_object()
    ensures { ScriptOfRowsMakesTheObject }
{}

/// Each item of the script of an object may be made after those before it, in any destination
/// without `staging`, for all files whose paths come in order and none of which leads to another.
pub fn script_can_be_made()
    ensures { ScriptCanBeMade }
{}

/// The script of an object, carried out to its end, makes the object in `staging` and changes
/// nothing else (OCFL 1.1, "Object Structure").
pub fn script_makes_the_object()
    ensures { ScriptMakesTheObject }
{}

/// Each item of the script of a storage root may be made after those before it, in any destination
/// without `staging`.
pub fn root_script_can_be_made()
    ensures { RootScriptCanBeMade }
{}

/// The script of a storage root makes its three files with the folders above them in `staging` and
/// changes nothing else (OCFL 1.1, "Root Structure").
pub fn root_script_makes_the_root()
    ensures { RootScriptMakesTheRoot }
{}

/// Where paths come in order and none leads to another, no two of them are one or lead to one
/// another.
pub fn paths_in_order_are_apart()
    ensures { PathsInOrderAreApart }
{}

/// Wherever the object of some files stands, the state of its version is those files, in order
/// (OCFL 1.1, "Inventory", "Version Block"): for all files whose paths are logical paths that come
/// in order, none leading to another, where no two files whose bytes differ have one digest.
pub fn state_is_the_files()
    ensures { StateIsTheFiles }
{}

/// What was put at a path where nothing stood, and is then moved to another path, stands there as
/// if it had been put there.
pub fn moved_stands_there()
    ensures { MovedStandsThere }
{}

/// Of stored files in order, the last one alone tells which folders above the next one stand: those
/// that lead to it too.
pub fn last_file_tells_folders()
    ensures { LastFileTellsFolders }
{}

/// The object of some rows and its script are those of files: the rows' paths, each with what is
/// held where its content is stored, if that has the row's digest.
pub fn rows_are_files()
    ensures { RowsAreFiles }
{}

/// A piece added to a file that was made with some bytes makes the file with both.
pub fn piece_makes_more()
    ensures { PieceMakesMore }
{}
