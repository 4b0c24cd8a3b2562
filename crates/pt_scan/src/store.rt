//! The source has to be a Pairtree store with a good prefix.
#![tactic(auto, using(crate::proofs::StoreTurns::starting))]

ghost use Rattle.std.specs.Prelude.{◌≡◌, [], ◌∷◌, None, IfOk, IfErr};
ghost use Rattle.std.specs.String.{string_bytes};
ghost use Rattle.pt_name.specs.Prefix.{prefix_refusal, without_line_ends};
ghost use Rattle.pt_plan.specs.Enabled.{MayOpenPrefix};
ghost use Rattle.pt_plan.specs.declared.phase.Opening.TheVariants as opening;
ghost use Rattle.pt_plan.specs.declared.phase.Phase.TheVariants as phase;
ghost use Rattle.pt_object.specs.WellKnown.{known_text};
ghost use Rattle.pt_state.specs.Outside.{Looked, Turned};
ghost use Rattle.pt_state.specs.Turns.{TakesTurn};
ghost use Rattle.pt_state.specs.declared.state.State.{State};
ghost use Rattle.pt_scan.specs.Store.{PrefixFails};

use pt_name::{PrefixFault, UnmetIdentifiers, read_prefix};
use pt_object::WellKnownName;
use pt_plan::kinds::{is_dir, is_file};
use pt_plan::{Fault, Opening, Phase};
use pt_state::files::read_first;
use pt_state::{Io, State};
use pt_tree::{Block, Kind, NamePath};
use std::alloc::Global;

/// Looks at what a Pairtree store has at its top (Pairtree 0.1): the file `pairtree_version0_1`,
/// the directory `pairtree_root` and the prefix file. However much else stands there, that is three
/// looks. Of the list's identifiers none was met yet.
///
/// Halts for `NotPairtree` where there is no such file or no such directory, for `Source` where a
/// look fails or a top without the file can't be listed, and for `Memory` where a growth is
/// refused.
pub fn begin<O: Io>(state: &mut State, out: &mut O) -> Result<Phase, Fault>
    ensures turn { TakesTurn O.Io (3, 0) (phase.Opening opening.Begin)
        (state.old, out.old) (state.new, out.new) result }
{
    state.unmet = UnmetIdentifiers::of(state.alloc, &state.job.share)?;
    look_at_store(state.alloc, out)
}

// Looks at what stands at the top.
fn look_at_store<O: Io>(alloc: Global, out: &mut O) -> Result<Phase, Fault>
    ensures turn { (state : State) → Turned (phase.Opening opening.Begin) state state
        (O.states out.old) (O.states out.new) result }
    ensures few { O.within 3 0 out.old out.new }
{
    let version = look_at_top(alloc, WellKnownName::VersionFile, out)?;
    if !is_file(version) {
        // A folder that isn't there is no folder without that file, so it has to be readable.
        out.list(&NamePath::new(alloc))?;
        return Err(Fault::NotPairtree);
    }
    let pairtree = look_at_top(alloc, WellKnownName::PairtreeRoot, out)?;
    if !is_dir(pairtree) {
        return Err(Fault::NotPairtree);
    }
    let prefix = look_at_top(alloc, WellKnownName::PrefixFile, out)?;
    Ok(Phase::Opening(Opening::Prefix(prefix)))
}

// Asks what stands at a name of the top.
fn look_at_top<O: Io>(
    alloc: Global,
    name: WellKnownName,
    out: &mut O,
) -> Result<Option<Kind>, Fault>
    ensures { Looked O.states (O.within 1 0) (known_text name ∷ []) out.old out.new result }
{
    let path = NamePath::of_known(alloc, &[name])?;
    out.look(&path)
}

/// Reads the prefix file, if it is there.
///
/// Halts for `Prefix` where it is no file, has more than 1,024 bytes, or isn't UTF-8 without the
/// line ends at its end, for `Source` where it can't be opened or read, and for `Memory` where a
/// growth is refused. What is held stays then, but for the block.
pub fn find_prefix<O: Io>(
    state: &mut State,
    here: Option<Kind>,
    out: &mut O,
) -> Result<Phase, Fault>
    requires { MayOpenPrefix (O.states out.old).source here }
    ensures turn { TakesTurn O.Io (2, 0) (phase.Opening (opening.Prefix here))
        (state.old, out.old) (state.new, out.new) result }
{
    match here {
        None => return Ok(Phase::Opening(Opening::Staging)),
        Some(Kind::File) => {}
        Some(_) => return Err(Fault::Prefix),
    }
    let path = NamePath::of_known(state.alloc, &[WellKnownName::PrefixFile])?;
    read_first(out, &path, &mut state.block)?;
    state.prefix = prefix_of(state.alloc, &state.block)?;
    Ok(Phase::Opening(Opening::Staging))
}

// The prefix in the prefix file's first block.
fn prefix_of(alloc: Global, block: &Block) -> Result<String, Fault>
    ensures ok { IfOk result (λ prefix. (prefix_refusal block.now.items ≡ None)
        × (string_bytes prefix ≡ without_line_ends block.now.items)) }
    ensures err { IfErr result (PrefixFails block.now.items) }
{
    match read_prefix(alloc, block.as_slice()) {
        Ok(prefix) => Ok(prefix),
        Err(PrefixFault::Memory) => Err(Fault::Memory),
        Err(_) => Err(Fault::Prefix),
    }
}
