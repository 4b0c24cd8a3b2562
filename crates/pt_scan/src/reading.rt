//! The turns that read a file of an object, for its digest and its length.
ghost use Rattle.std.specs.Prelude.{◌≡◌, ◌<◌, ◌+◌, IfOk, [], length};
ghost use Rattle.pt_plan.specs.Turn.{Did};
ghost use Rattle.pt_plan.specs.DeviceStates.{DeviceStates, Reads, asks};
ghost use Rattle.pt_plan.specs.TurnScan.{logical_path as logical_path_of};
ghost use Rattle.pt_plan.specs.declared.phase.Phase.TheVariants as phase;
ghost use Rattle.pt_plan.specs.declared.phase.Stage.TheVariants as stage;
ghost use Rattle.pt_tree.specs.Source.{CanRead};
ghost use Rattle.pt_state.specs.Outside.{Turned};
ghost use Rattle.pt_state.specs.Turns.{EndsTurn, TakesTurn};
ghost use Rattle.pt_scan.specs.Blocks.{IsNextBlock, KeepsBlock};
ghost use Rattle.pt_scan.specs.Scanning.{CanPassOver, CanReadOn, IsAtEntry};

use crate::scanning::give_up;
use pt_object::Hasher;
use pt_plan::{Fault, Object, Phase, Stage};
use pt_state::{Io, State};
use pt_tree::{MemoryFault, NamePath};
use pt_walk::{Cause, Trail};
use std::mem;

/// Reads one block of the open file, of which so many bytes were read, at most 2^43. The block is
/// fed to the hasher, and reading goes on; at the end of the file its row and its content are
/// noted, and the scan goes on behind it. Where the file is longer than the limit the object is
/// told in the log and passed over, and the walk goes on at its site.
///
/// Halts for `Source` where the file can't be read, for `Log` where the line can't be put, and for
/// `Memory` where a growth is refused. What is held stays then, but for the block, the hasher, and
/// a row that was noted without its content.
pub fn read<O: Io>(
    state: &mut State,
    object: Object,
    bytes: u64,
    out: &mut O,
) -> Result<Phase, Fault>
    requires may { CanRead (O.states out.old).source }
    requires reads { CanReadOn object bytes state.old }
    ensures turn { TakesTurn O.Io (1, 0) (phase.Carrying object (stage.Read bytes))
        (state.old, out.old) (state.new, out.new) result }
    ensures block { IfOk result (IsNextBlock (O.states out.old).source state.new.block.items) }
{
    out.next(&mut state.block)?;
    take_block(state, object, bytes, out)
}

// Takes the block that was read: it is fed to the hasher, unless the file is too long; an empty one
// ends the file.
fn take_block<O: Io>(
    state: &mut State,
    object: Object,
    bytes: u64,
    out: &mut O,
) -> Result<Phase, Fault>
    requires { CanReadOn object bytes state.old }
    ensures turn { EndsTurn O.Io
        (asks (Reads state.old.block.items)) (phase.Carrying object (stage.Read bytes))
        (state.old, out.old) (state.new, out.new) result }
    ensures block { IfOk result (KeepsBlock state.old.block.items state.new.block.items) }
{
    if state.block.is_empty() {
        return end_file(state, object, bytes);
    }
    let more = bytes + state.block.len() as u64;
    if more > state.job.limits.file_bytes() {
        return pass_object(state, object, bytes, out);
    }
    state.hasher.feed(&state.block);
    Ok(Phase::Carrying(object, Stage::Read(more)))
}

// Notes the row of a file that was read to its end.
fn end_file(state: &mut State, object: Object, bytes: u64) -> Result<Phase, Fault>
    requires { CanReadOn object bytes state.old }
    ensures turn { (before after : DeviceStates) → Did (asks (Reads [])) before after → Turned
        (phase.Carrying object (stage.Read bytes)) state.old state.new before after result }
    ensures scans { IfOk result (λ next. next ≡ phase.Carrying object stage.Scan) }
    ensures unmet { state.new.unmet ≡ state.old.unmet }
{
    let names = logical_path(&object, &state.trail)?;
    let path = NamePath::of_names(state.alloc, names.names())?;
    let hasher = mem::replace(&mut state.hasher, Hasher::start(state.job.algorithm));
    let digest = hasher.end();
    state.rows.push(&path, &digest, bytes)?;
    state.contents.note(&digest, &path)?;
    state.trail.advance();
    Ok(Phase::Carrying(object, Stage::Scan))
}

// The logical path of the file at the trail's place. The names that lead to the object aren't made
// for it.
fn logical_path(object: &Object, trail: &Trail) -> Result<NamePath, MemoryFault>
    requires there { IsAtEntry object.now trail.now }
    ensures { IfOk result (λ path. path ≡ logical_path_of object.now trail.now) }
{
    trail.inner_path(trail.len() - object.names_before())
}

// Passes over the object, of which a file is too long.
fn pass_object<O: Io>(
    state: &mut State,
    object: Object,
    bytes: u64,
    out: &mut O,
) -> Result<Phase, Fault>
    requires long { (0 < length state.old.block.items)
        × (state.old.job.limits.file_bytes < bytes + length state.old.block.items) }
    requires passes { CanPassOver object state.old }
    ensures turn { EndsTurn O.Io
        (asks (Reads state.old.block.items)) (phase.Carrying object (stage.Read bytes))
        (state.old, out.old) (state.new, out.new) result }
    ensures walks { IfOk result (λ next. next ≡ phase.Walk) }
{
    give_up(state, &object, Cause::Limit, out)?;
    Ok(Phase::Walk)
}
