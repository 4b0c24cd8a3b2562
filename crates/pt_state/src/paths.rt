//! The paths of a run, in the source and in the destination. Each is answered `Memory` where a
//! growth was refused.
ghost use Rattle.std.specs.Prelude.{◌≡◌, ◌++◌, IfOk, take, length, ◌≤◌, option_to_list};
ghost use Rattle.std.specs.Option.{option_map};
ghost use Rattle.pt_plan.specs.TurnMake.{staged_content, path_of_source};
ghost use Rattle.pt_object.specs.Scripts.{staging};
ghost use Rattle.pt_plan.specs.TurnWalk.{in_pairtree as in_pairtree_of, in_root};
ghost use Rattle.pt_tree.specs.Listing.{Item};
ghost use Rattle.pt_walk.specs.Trail.{current_entry, names_to, trail_path};

use pt_object::WellKnownName;
use pt_plan::Object;
use pt_tree::{MemoryFault, Name, NamePath};
use pt_walk::Trail;
use std::alloc::Global;

/// The path in the source of what stands at a path below its `pairtree_root`.
pub fn in_pairtree(mut path: NamePath) -> Result<NamePath, MemoryFault>
    ensures { IfOk result (λ whole. whole ≡ in_pairtree_of path) }
{
    let root = Name::of_known(path.allocator(), WellKnownName::PairtreeRoot)?;
    path.push_front(root)?;
    Ok(path)
}

/// A path of the storage root, in the destination.
pub fn in_storage_root(alloc: Global, path: &NamePath) -> Result<NamePath, MemoryFault>
    ensures { IfOk result (λ whole. whole ≡ in_root path.now) }
{
    NamePath::of_known_with_room(alloc, &[WellKnownName::StorageRoot], path.len())?.with_names(
        path.names(),
    )
}

/// The path of the storage root that has the first so many names of a path there, or all if it has
/// fewer.
pub fn front_in_storage_root(
    alloc: Global,
    path: &NamePath,
    names: usize,
) -> Result<NamePath, MemoryFault>
    ensures { IfOk result (λ whole. whole ≡ in_root (take names path.now)) }
{
    let most = names.min(path.len());
    NamePath::of_known_with_room(alloc, &[WellKnownName::StorageRoot], most)?.with_names(
        &path.names()[..most],
    )
}

/// A path of `staging`, in the destination.
pub fn in_staging(alloc: Global, path: &NamePath) -> Result<NamePath, MemoryFault>
    ensures { IfOk result (λ whole. whole ≡ staging ++ path.now) }
{
    NamePath::of_known_with_room(alloc, &[WellKnownName::Staging], path.len())?.with_names(
        path.names(),
    )
}

/// The path of the entry at a trail's place, from below `pairtree_root` on; the innermost listing's
/// at its end.
pub fn entry_path(trail: &Trail) -> Result<NamePath, MemoryFault>
    ensures { IfOk result (λ path. path ≡ names_to trail.now) }
{
    with_entry(trail.path()?, trail)
}

/// The path of that entry in the source, with room for so many more names.
pub fn entry_in_pairtree(alloc: Global, trail: &Trail, room: usize) -> Result<NamePath, MemoryFault>
    ensures { IfOk result (λ path. path ≡ in_pairtree_of (names_to trail.now)) }
{
    with_entry(path_in_pairtree(alloc, trail, room)?, trail)
}

// The path in the source of a trail's innermost listing, with room for its entry and for so many
// more names. It is made from its first name on, so that none has to move, as `in_pairtree` of the
// trail's path.
fn path_in_pairtree(alloc: Global, trail: &Trail, room: usize) -> Result<NamePath, MemoryFault>
    ensures { IfOk result (λ path. path ≡ in_pairtree_of (trail_path trail.now)) }
{
    let room = trail.len().saturating_add(room);
    let root = NamePath::of_known_with_room(alloc, &[WellKnownName::PairtreeRoot], room)?;
    trail.path_below(root)
}

// A path with the name of the entry at a trail's place behind it, if there is one.
fn with_entry(mut path: NamePath, trail: &Trail) -> Result<NamePath, MemoryFault>
    ensures { IfOk result (λ longer. longer ≡ path
        ++ option_to_list (option_map (λ (item : Item). item.0) (current_entry trail.now))) }
{
    if let Some((name, _)) = trail.current() {
        path.push(name.copy()?)?;
    }
    Ok(path)
}

/// The path of an object, from below `pairtree_root` on: its directory's, or its site's where it is
/// gathered.
pub fn object_path(object: &Object, trail: &Trail) -> Result<NamePath, MemoryFault>
    ensures { IfOk result (λ path. path ≡ path_of_source object.now trail.now) }
{
    if object.gathered {
        trail.path()
    } else {
        entry_path(trail)
    }
}

/// The path in the source of the file with a logical path.
pub fn source_path(
    alloc: Global,
    object: &Object,
    trail: &Trail,
    path: &NamePath,
) -> Result<NamePath, MemoryFault>
    ensures { IfOk result (λ whole. whole
        ≡ in_pairtree_of (path_of_source object.now trail.now ++ path.now)) }
{
    let room = path.len();
    let directory = if object.gathered {
        path_in_pairtree(alloc, trail, room)?
    } else {
        entry_in_pairtree(alloc, trail, room)?
    };
    directory.with_names(path.names())
}

/// The content path in `staging` that has so many names of a logical path.
pub fn staged_content_path(
    alloc: Global,
    path: &NamePath,
    names: usize,
) -> Result<NamePath, MemoryFault>
    requires { names ≤ length path.now }
    ensures { IfOk result (λ whole. whole ≡ staged_content (take names path.now)) }
{
    let above = [
        WellKnownName::Staging,
        WellKnownName::Version,
        WellKnownName::Content,
    ];
    NamePath::of_known_with_room(alloc, &above, names)?.with_names(&path.names()[..names])
}
