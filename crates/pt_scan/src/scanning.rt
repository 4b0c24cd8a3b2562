//! The turns that scan an object: its directories are listed and entered, its files opened.
ghost use Rattle.std.specs.Prelude.{◌≡◌, ◌<◌, ◌+◌, ◌-◌, ◌==◌, ◌&&◌, ◌^◌, IfOk, IsTrue, None, Ok};
ghost use Rattle.std.specs.Prelude.{cond, drop, false, length, nat_lt, not};
ghost use Rattle.pt_plan.specs.Enabled.{MayEnter, MayOpen};
ghost use Rattle.pt_plan.specs.TurnScan.{is_in_site as is_in_site_of};
ghost use Rattle.pt_plan.specs.TurnScan.{logical_path as logical_path_of, to_site};
ghost use Rattle.pt_plan.specs.TurnWalk.{in_pairtree};
ghost use Rattle.pt_plan.specs.DeviceStates.{DeviceStates};
ghost use Rattle.pt_plan.specs.declared.phase.Phase.{Phase};
ghost use Rattle.pt_plan.specs.declared.phase.Phase.TheVariants as phase;
ghost use Rattle.pt_plan.specs.declared.phase.Stage.TheVariants as stage;
ghost use Rattle.pt_tree.specs.Path.{joined};
ghost use Rattle.pt_walk.specs.Site.{is_shorty as is_shorty_entry};
ghost use Rattle.pt_walk.specs.Trail.{current_entry, is_dir_entry, names_to, trail_path};
ghost use Rattle.pt_state.specs.Outside.{Turned};
ghost use Rattle.pt_state.specs.Turns.{TakesTurn, TakesTurnAt};
ghost use Rattle.pt_scan.specs.Scanning.{CanEnter, CanPassOver, CanScan, Entered, GaveUp, GivesUp};
ghost use Rattle.pt_scan.specs.Scanning.{IsAtEntry, IsAtFile, IsInObject, IsSite, MeetsDirectory};

use crate::walking::listed_path;
use pt_object::Hasher;
use pt_plan::{Fault, Object, Part, Phase, Stage};
use pt_state::lines::put_skip;
use pt_state::paths::entry_in_pairtree;
use pt_state::site::back_to_site;
use pt_state::{Io, State};
use pt_tree::{Kind, MemoryFault, Name, NamePath};
use pt_walk::{Cause, Trail, is_shorty};
use std::alloc::Global;

/// Enters the directory that encapsulates an object, at whose place the walk stands; a gathered
/// object starts in its site. Where the directory is too deep the object is told in the log and
/// passed over, and the walk goes on at its site.
///
/// Halts for `Source` where the directory can't be listed, for `Log` where the line can't be put,
/// and for `Memory` where a growth is refused; what is held stays then.
pub fn open_object<O: Io>(state: &mut State, object: Object, out: &mut O) -> Result<Phase, Fault>
    requires may { object.gathered ≡ false → MayEnter (O.states out.old).source state.old.trail }
    requires directory { object.gathered ≡ false
        → IsTrue (is_dir_entry (current_entry state.old.trail)) }
    requires passes { CanPassOver object state.old }
    requires empty { object.empty < 2 ^ 40 }
    ensures turn { TakesTurn O.Io (1, 0) (phase.Carrying object stage.Open)
        (state.old, out.old) (state.new, out.new) result }
{
    if object.gathered {
        state.trail.seek(0);
        return Ok(Phase::Carrying(object, Stage::Scan));
    }
    enter_directory(state, object, out)
}

/// Looks at the next entry of an object: a directory is entered, a file opened; at its end a
/// listing is left, and the object is made after the outermost. What is too deep, too many or too
/// long, and what is neither a directory nor a file, is a cause against the object: it is told in
/// the log and passed over, and the walk goes on at its site.
///
/// Halts for `Source` where a directory can't be listed or a file not be opened, for `Log` where
/// the line can't be put, and for `Memory` where a growth is refused; what is held stays then.
pub fn scan<O: Io>(state: &mut State, object: Object, out: &mut O) -> Result<Phase, Fault>
    requires enter { MayEnter (O.states out.old).source state.old.trail }
    requires open { MayOpen (O.states out.old).source state.old.trail }
    requires scans { CanScan object state.old }
    requires empty { object.empty < 2 ^ 40 }
    ensures turn { TakesTurn O.Io (1, 0) (phase.Carrying object stage.Scan)
        (state.old, out.old) (state.new, out.new) result }
{
    let in_site = is_in_site(&object, &state.trail);
    match state.trail.current() {
        Some((name, kind)) => {
            if is_passed(in_site, name, kind) {
                state.trail.advance();
                return Ok(Phase::Carrying(object, Stage::Scan));
            }
            match kind {
                Kind::Dir => enter_directory(state, object, out),
                Kind::File => meet_file(state, object, out),
                Kind::Other => pass_object(state, object, Cause::Other, out),
            }
        }
        None => Ok(leave_listing(state, object, in_site)),
    }
}

// Whether the innermost listing is that of an object's site.
fn is_in_site(object: &Object, trail: &Trail) -> bool
    ensures { result ≡ is_in_site_of object.now trail.now }
{
    trail.len() == object.site
}

// Whether an entry is a shorty of an object's site, which isn't of the object.
fn is_passed(in_site: bool, name: &Name, kind: Kind) -> bool
    ensures { result ≡ (in_site && is_shorty_entry (name.now, kind)) }
{
    in_site && is_shorty(name, kind)
}

// Passes over the object for this cause.
fn pass_object<O: Io>(
    state: &mut State,
    object: Object,
    cause: Cause,
    out: &mut O,
) -> Result<Phase, Fault>
    requires { CanPassOver object state.old }
    ensures turn { TakesTurnAt O.Io (0, 0) (λ here. GivesUp here object cause state.old)
        (state.old, out.old) (state.new, out.new) result }
{
    give_up(state, &object, cause, out)?;
    Ok(Phase::Walk)
}

// Enters the directory of an object at the trail's place, unless it is too deep.
fn enter_directory<O: Io>(state: &mut State, object: Object, out: &mut O) -> Result<Phase, Fault>
    requires enter { CanEnter (O.states out.old).source state.old.trail }
    requires passes { CanPassOver object state.old }
    requires empty { object.empty < 2 ^ 40 }
    ensures turn { TakesTurnAt O.Io (1, 0) (λ here. MeetsDirectory here object state.old)
        (state.old, out.old) (state.new, out.new) result }
{
    if state.trail.len() as u64 > state.job.limits.depth() {
        return pass_object(state, object, Cause::Limit, out);
    }
    let is_empty = enter(state, out)?;
    Ok(Phase::Carrying(with_directory(object, is_empty), Stage::Scan))
}

// Lists the directory at the trail's place and enters it; gives whether it has no entries.
fn enter<O: Io>(state: &mut State, out: &mut O) -> Result<bool, Fault>
    requires enter { CanEnter (O.states out.old).source state.old.trail }
    ensures { Entered O.Io (state.old, out.old) (state.new, out.new) result }
{
    let path = listed_path(state)?;
    let listing = out.list(&path)?;
    let is_empty = listing.is_empty();
    state.trail.enter(listing)?;
    Ok(is_empty)
}

// An object of which one directory more was met, which may have no entries.
fn with_directory(mut object: Object, is_empty: bool) -> Object
    requires { object.empty < 2 ^ 40 }
    ensures { result ≡ record object { empty = object.empty + cond is_empty 1 0 } }
{
    if is_empty {
        object.empty += 1;
    }
    object
}

// Opens the file at the trail's place, unless it is one too many, or its logical path is too long.
fn meet_file<O: Io>(state: &mut State, object: Object, out: &mut O) -> Result<Phase, Fault>
    requires file { IsAtFile state.old.trail }
    requires may { MayOpen (O.states out.old).source state.old.trail }
    requires scans { CanScan object state.old }
    ensures turn { TakesTurn O.Io (1, 0) (phase.Carrying object stage.Scan)
        (state.old, out.old) (state.new, out.new) result }
{
    if state.rows.len() as u64 >= state.job.limits.files() {
        return pass_object(state, object, Cause::Limit, out);
    }
    let path = entry_in_pairtree(state.alloc, &state.trail, 0)?;
    let logical = logical_names(&object, &state.trail, &path);
    if is_longer(logical, state.job.limits.path_bytes()) {
        return pass_object(state, object, Cause::Limit, out);
    }
    out.open(&path)?;
    state.hasher = Hasher::start(state.job.algorithm);
    Ok(Phase::Carrying(object, Stage::Read(0)))
}

// Of the path in the source of the entry at the trail's place, the names of the logical path: those
// behind the object's directory.
fn logical_names<'a>(object: &Object, trail: &Trail, path: &'a NamePath) -> &'a [Name]
    requires names { path.now ≡ in_pairtree (names_to trail.now) }
    requires there { IsAtEntry object.now trail.now }
    ensures { result.now ≡ logical_path_of object.now trail.now }
{
    let _listings = trail.len();
    &path.names()[object.names_before() + 1..]
}

// Whether the names with `/` between have more bytes than so many.
fn is_longer(names: &[Name], most: u64) -> bool
    ensures { result ≡ nat_lt most (length (joined names.now)) }
{
    let mut bytes: u128 = 0;
    for (i, name) in names.iter().enumerate() {
        if i > 0 {
            bytes += 1;
        }
        bytes += name.bytes().len() as u128;
    }
    bytes > most as u128
}

// Leaves the innermost listing at its end: the object is made, if it was its outermost, or else the
// scan goes on behind it.
fn leave_listing(state: &mut State, object: Object, in_site: bool) -> Phase
    requires none { current_entry state.old.trail ≡ None }
    requires in_site { in_site ≡ is_in_site_of object state.old.trail }
    requires inside { IsInObject object state.old.trail }
    ensures turn { (w : DeviceStates) → Turned (phase.Carrying object stage.Scan)
        state.old state.new w w (Ok result) }
    ensures unmet { state.new.unmet ≡ state.old.unmet }
{
    if in_site {
        return Phase::Carrying(object, Stage::Make(Part::Staging));
    }
    let _listings = state.trail.len();
    state.trail.leave();
    if is_left(&object, &state.trail) {
        return Phase::Carrying(object, Stage::Make(Part::Staging));
    }
    state.trail.advance();
    Phase::Carrying(object, Stage::Scan)
}

// Whether the listing that was left is that of the directory that encapsulates an object.
fn is_left(object: &Object, trail: &Trail) -> bool
    ensures { result ≡ (not object.now.gathered && length trail.now == object.now.site) }
{
    !object.gathered && trail.len() == object.site
}

// Tells why an object isn't carried, goes back to its site and forgets it.
pub(crate) fn give_up<O: Io>(
    state: &mut State,
    object: &Object,
    cause: Cause,
    out: &mut O,
) -> Result<(), Fault>
    requires { CanPassOver object.now state.old }
    ensures { GaveUp O.Io object.now cause (state.old, out.old) (state.new, out.new) result }
{
    let path = site_path(state.alloc, object, &state.trail)?;
    put_skip(state.alloc, out, &path, cause, &mut state.counts)?;
    leave_object(&mut state.trail, object.site);
    back_to_site(&mut state.trail, &mut state.rows, &mut state.contents);
    Ok(())
}

// The path of an object's site, from below `pairtree_root` on.
fn site_path(alloc: Global, object: &Object, trail: &Trail) -> Result<NamePath, MemoryFault>
    requires { IsSite object.now trail.now }
    ensures { IfOk result (λ path. path ≡ trail_path (to_site object.now trail.now)) }
{
    let _listings = trail.len();
    let innermost = trail.path()?;
    let path = NamePath::new(alloc).with_names(&innermost.names()[..object.site - 1])?;
    Ok(path)
}

// Leaves the listings of an object, whose site is this many listings deep.
fn leave_object(trail: &mut Trail, site: usize)
    ensures { trail.new ≡ drop (length trail.old - site) trail.old }
{
    let inner = trail.len().saturating_sub(site);
    for _ in 0..inner {
        trail.leave();
    }
}
