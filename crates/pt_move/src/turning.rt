//! One turn: what is done at each phase.
ghost use Rattle.std.specs.Prelude.{◌<◌, []};
ghost use Rattle.pt_plan.specs.declared.phase.Opening.TheVariants as opening;
ghost use Rattle.pt_plan.specs.declared.phase.Phase.TheVariants as phase;
ghost use Rattle.pt_move.specs.Running.{IsNew};
ghost use Rattle.pt_plan.specs.Enabled.{Enabled};
ghost use Rattle.pt_scan.specs.Blocks.{ReadsNext};
ghost use Rattle.pt_state.specs.Turns.{TakesTurn};
ghost use Rattle.pt_state.specs.States.{held_of, job_of, kept_of};
ghost use Rattle.pt_move.specs.Bounds.{IsBounded, most_calls, most_looks};
ghost use Rattle.pt_move.specs.Stands.{CanAdd, Stands};
ghost use Rattle.pt_move.specs.Turning.{HasFed, TakesCounted};

use pt_make::{ObjectContent, copying, making, placing, root, telling};
use pt_name::UnmetIdentifiers;
use pt_object::{Contents, Hasher, Rows};
use pt_plan::{Fault, Opening, Phase, Stage};
use pt_scan::{judging, reading, scanning, store, walking};
use pt_state::{Io, Job, Report, State};
use pt_tree::Block;
use pt_walk::Trail;
use std::alloc::Global;

/// What a run holds that is to begin: nothing, and nothing is counted.
pub fn new_state(alloc: Global, job: Job) -> State
    ensures { IsNew job (record { phase = phase.Opening opening.Begin; state = result }) }
{
    let hasher = Hasher::start(job.algorithm);
    State {
        alloc,
        job,
        prefix: String::new(alloc),
        trail: Trail::new(alloc),
        rows: Rows::new(alloc),
        contents: Contents::new(alloc),
        block: Block::new(),
        hasher,
        unmet: UnmetIdentifiers::none(alloc),
        counts: Report {
            done: 0,
            present: 0,
            skipped: 0,
            turns: 0,
        },
    }
}

/// Makes the turn of a phase, which is counted as it begins, and gives the next phase, or why the
/// run halts: `Source`, `Dest` and `Log` where that device failed, `Memory` where a growth was
/// refused, the others where the definition of a turn says so (`Turn` of pt_plan), and never
/// `Turns` or `Ended`. It is such a turn, whatever the devices tell.
pub fn turn<O: Io>(state: &mut State, phase: Phase, out: &mut O) -> Result<Phase, Fault>
    requires permits { Enabled (job_of state.old.job) phase (held_of state.old [])
        (O.states out.old).source (O.states out.old).dest }
    requires stands { Stands phase state.old }
    requires fed { HasFed phase state.old.job.algorithm state.old.hasher }
    requires bounded { IsBounded (job_of state.old.job) phase (kept_of state.old []) }
    requires within { state.old.counts.turns < state.old.job.limits.turns }
    ensures turn { TakesCounted O.Io (most_calls phase, most_looks phase) phase
        (state.old, out.old) (state.new, out.new) result }
{
    // (it says for the proof that the limit is at most 2^40, so that one turn more can be counted)
    let _most = state.job.limits.turns();
    state.counts.turns += 1;
    turn_at(state, phase, out)
}

// Makes the turn of a phase, and gives the next one.
fn turn_at<O: Io>(state: &mut State, phase: Phase, out: &mut O) -> Result<Phase, Fault>
    requires permits { Enabled (job_of state.old.job) phase (held_of state.old [])
        (O.states out.old).source (O.states out.old).dest }
    requires stands { Stands phase state.old }
    requires adds { CanAdd phase state.old }
    ensures turn { TakesTurn O.Io (most_calls phase, most_looks phase) phase
        (state.old, out.old) (state.new, out.new) result }
    ensures block { ReadsNext phase (O.states out.old).source state.new.block.items result }
{
    match phase {
        Phase::Opening(opening) => match opening {
            Opening::Begin => store::begin(state, out),
            Opening::Prefix(kind) => store::find_prefix(state, kind, out),
            Opening::Staging => root::look_at_staging(state, out),
            Opening::Root => root::look_at_root(state, out),
            Opening::RootMake(item) => root::make_root(state, item, out),
            Opening::RootRename => root::rename_root(state, out),
            Opening::RootCheck(file) => root::check_root(state, file, out),
            Opening::OpenRoot => walking::open_root(state, out),
        },
        Phase::Judge => judging::judge(state, out),
        Phase::Carrying(object, stage) => match stage {
            Stage::Open => scanning::open_object(state, object, out),
            Stage::Scan => scanning::scan(state, object, out),
            Stage::Read(bytes) => reading::read(state, object, bytes, out),
            Stage::Make(part) => making::make(state, object, part, out),
            Stage::Copy(position, left) => {
                let content = ObjectContent { object, position };
                copying::copy(state, content, left, out)
            }
            Stage::Tuples(index) => placing::make_tuple(state, object, index, out),
            Stage::Rename => placing::rename(state, object, out),
            Stage::Line => telling::tell_done(state, object, out),
        },
        Phase::Walk => walking::walk(state, out),
        Phase::End => telling::tell_end(state, out),
        Phase::Ended => unreachable!(),
    }
}
