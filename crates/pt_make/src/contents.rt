//! The turns that make an object's contents: a row whose content is stored is passed; of any other
//! the folders on the way are made, one a turn, and then its file, for which the source's is
//! opened.
ghost use Rattle.std.specs.Prelude.{◌≡◌, [], IfOk, Some, slice_get};
ghost use Rattle.pt_plan.specs.Enabled.{MayMakeContent};
ghost use Rattle.pt_plan.specs.TurnMake.{content_at, is_stored as is_stored_of};
ghost use Rattle.pt_state.specs.States.{held_of};
ghost use Rattle.pt_state.specs.Turns.{TakesTurn};
ghost use Rattle.pt_tree.specs.Dest.{MayMake};
ghost use Rattle.pt_tree.specs.Source.{CanOpen};
ghost use Rattle.pt_make.specs.Making.{DigestTells, IsAtContent, IsNextCopy, IsNextFolder, IsStep};
ghost use Rattle.pt_make.specs.Making.{content_phase};

use pt_object::{Hasher, Row, Rows};
use pt_plan::{Fault, Object, Part, Phase, Position, Stage};
use pt_state::paths::{source_path, staged_content_path};
use pt_state::{Io, State};
use pt_tree::{MemoryFault, NamePath};

/// The content of an object at a position of its rows.
#[derive(Drop)]
pub struct ObjectContent {
    /// The object that is made in `staging`.
    pub object: Object,
    /// Where it stands in the object's rows.
    pub position: Position,
}

// The file of a content that is next to be made, with the one that it is copied from.
#[derive(Drop)]
struct FileCopy {
    to: NamePath,
    from: NamePath,
    length: u64,
}

// What is next of the contents.
#[derive(Drop)]
enum Step {
    // The row's content is stored, and it is passed.
    Pass(Part),
    // The folder of this path is made.
    Folder(NamePath),
    // The file is made.
    File(FileCopy),
}

/// Passes a row whose content is stored already; else makes the next folder of its content path, or
/// its file.
pub(crate) fn make_content<O: Io>(
    state: &mut State,
    content: ObjectContent,
    out: &mut O,
) -> Result<Phase, Fault>
    requires at { IsAtContent state.old.rows state.old.contents content.position }
    requires may { MayMakeContent (O.states out.old).source (O.states out.old).dest content.object
        (held_of state.old []) content.position }
    ensures turn { TakesTurn O.Io (1, 0) (content_phase content)
        (state.old, out.old) (state.new, out.new) result }
{
    match next_step(state, &content)? {
        Step::Pass(next) => Ok(Phase::Carrying(content.object, Stage::Make(next))),
        Step::Folder(path) => make_folder(state, content, &path, out),
        Step::File(copy) => open_copy(state, content, &copy, out),
    }
}

// What is next of a content.
fn next_step(state: &State, content: &ObjectContent) -> Result<Step, MemoryFault>
    requires { IsAtContent state.now.rows state.now.contents content.now.position }
    ensures { IfOk result (IsStep state.now content.now) }
{
    let position = content.position;
    let _rows = state.rows.len();
    let Some(row) = state.rows.get(position.row) else {
        unreachable!()
    };
    if !is_stored(state, position, row) {
        let row = position.row + 1;
        let next = next_content(&state.rows, Position { row, ..position });
        return Ok(Step::Pass(next));
    }
    let names = row.path.len();
    if position.directories < names {
        let path = staged_content_path(state.alloc, &row.path, position.directories)?;
        return Ok(Step::Folder(path));
    }
    let to = staged_content_path(state.alloc, &row.path, names)?;
    let from = source_path(state.alloc, &content.object, &state.trail, &row.path)?;
    let length = row.length;
    Ok(Step::File(FileCopy { to, from, length }))
}

/// The part at a position: the content there, or what follows the contents.
pub(crate) fn next_content(rows: &Rows, position: Position) -> Part
    ensures { result ≡ content_at rows.now position }
{
    if position.row < rows.len() {
        Part::Content(position)
    } else {
        Part::VersionInventory
    }
}

// Whether the content of a row is the one at its position, so that it is stored at the row's path.
// Their digests tell what their paths would, which may be long.
fn is_stored(state: &State, position: Position, row: &Row) -> bool
    requires row { slice_get state.now.rows position.row ≡ Some row.now }
    requires tells { DigestTells state.now.rows state.now.contents position }
    ensures { result ≡ is_stored_of state.now.contents position.stored row.now.path }
{
    match state.contents.get(position.stored) {
        Some(content) => content.digest == row.digest,
        None => false,
    }
}

// Makes the folder of this path, which is next on the way to a content.
fn make_folder<O: Io>(
    state: &State,
    content: ObjectContent,
    path: &NamePath,
    out: &mut O,
) -> Result<Phase, Fault>
    requires next { IsNextFolder state.now content.position path.now }
    requires may { MayMake (O.states out.old).dest path.now }
    ensures turn { TakesTurn O.Io (0, 0) (content_phase content)
        (state.now, out.old) (state.now, out.new) result }
{
    out.mkdir(path)?;
    let ObjectContent { object, position } = content;
    let directories = position.directories + 1;
    let next = Position {
        directories,
        ..position
    };
    Ok(Phase::Carrying(object, Stage::Make(Part::Content(next))))
}

// Makes the file of a content, and opens the one that it is copied from.
fn open_copy<O: Io>(
    state: &mut State,
    content: ObjectContent,
    copy: &FileCopy,
    out: &mut O,
) -> Result<Phase, Fault>
    requires next { IsNextCopy state.old content copy.now }
    requires may { MayMake (O.states out.old).dest copy.now.to
        × CanOpen (O.states out.old).source copy.now.from }
    ensures turn { TakesTurn O.Io (1, 0) (content_phase content)
        (state.old, out.old) (state.new, out.new) result }
{
    out.create(&copy.to)?;
    out.open(&copy.from)?;
    state.hasher = Hasher::start(state.job.algorithm);
    let ObjectContent { object, position } = content;
    Ok(Phase::Carrying(object, Stage::Copy(position, copy.length)))
}
