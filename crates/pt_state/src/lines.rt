//! Puts the lines of a run's log. A line is counted where it was put whole.
//!
//! Each function halts for `Log` where its line can't be put, and for `Memory` where a growth is
//! refused. Nothing is counted then; a part of the line may stand in the log.
ghost use Rattle.std.specs.Prelude.{◌<◌, ◌^◌};
ghost use Rattle.pt_plan.specs.Lines.{Present as PresentLine, Skipped as SkippedLine};
ghost use Rattle.pt_plan.specs.Lines.{End as EndLine};
ghost use Rattle.pt_plan.specs.DeviceStates.{tells};
ghost use Rattle.pt_plan.specs.ToldLines.{done_of};
ghost use Rattle.pt_state.specs.Turns.{Told, WroteBy};

use crate::{Io, Report};
use pt_name::PlacedObject;
use pt_plan::Fault;
use pt_plan::lines::{ToldObject, done_line, end_line, present_line, skip_line};
use pt_tree::NamePath;
use pt_walk::Cause;
use std::alloc::Global;

/// Tells that an object was carried.
pub fn put_done<O: Io>(
    alloc: Global,
    out: &mut O,
    object: &ToldObject<'_>,
    counts: &mut Report,
) -> Result<(), Fault>
    requires { counts.old.done < 2 ^ 40 }
    ensures { Told O.Io (done_of object.now)
        (counts.old, out.old) (counts.new, out.new) result }
{
    let done = done_line(alloc, object)?;
    out.put(done.as_bytes())?;
    counts.done += 1;
    Ok(())
}

/// Tells that the place of an object at this path is taken already.
pub fn put_present<O: Io>(
    alloc: Global,
    out: &mut O,
    at: &NamePath,
    object: &PlacedObject,
    counts: &mut Report,
) -> Result<(), Fault>
    requires { counts.old.present < 2 ^ 40 }
    ensures { Told O.Io (PresentLine at.now object.now.id object.now.place)
        (counts.old, out.old) (counts.new, out.new) result }
{
    let present = present_line(alloc, at, &object.id, &object.place)?;
    out.put(present.as_bytes())?;
    counts.present += 1;
    Ok(())
}

/// Tells that a site, or a shorty that isn't walked, was passed over.
pub fn put_skip<O: Io>(
    alloc: Global,
    out: &mut O,
    at: &NamePath,
    cause: Cause,
    counts: &mut Report,
) -> Result<(), Fault>
    requires { counts.old.skipped < 2 ^ 40 }
    ensures { Told O.Io (SkippedLine at.now cause)
        (counts.old, out.old) (counts.new, out.new) result }
{
    let skip = skip_line(alloc, at, cause)?;
    out.put(skip.as_bytes())?;
    counts.skipped += 1;
    Ok(())
}

/// Tells that the run is done.
pub fn put_end<O: Io>(alloc: Global, out: &mut O, counts: &Report) -> Result<(), Fault>
    ensures { WroteBy O.Io (tells (EndLine counts.now.done counts.now.present
        counts.now.skipped)) out.old out.new result }
{
    let end = end_line(alloc, counts.done, counts.present, counts.skipped)?;
    out.put(end.as_bytes())
}
