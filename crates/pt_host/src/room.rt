ghost use Rattle.std.specs.Prelude.{◌≡◌, ◌+◌};
ghost use Rattle.pt_host.specs.Room.{place_overhead, room_in as room_in_folder};

use pt_name::Layout;

// The greatest length of a path: Linux's PATH_MAX, less the NUL.
const LONGEST: usize = 4095;

/// The greatest length of a path that may be made in `staging`: so long that the same entry can be
/// reached at the longest place of the layout, whose last name has 165 bytes. It is exactly 4,095
/// less what that place is longer than `staging`.
pub fn longest_made(layout: &Layout) -> usize
    ensures { result + place_overhead layout.now ≡ 4095 }
{
    let tuple = layout.size() as usize + 1;
    LONGEST - (layout.count() as usize * tuple + 163)
}

// How many bytes a path in `staging` has before a file's path in its object: those of
// `/staging/v1/content/`.
const CONTENT_FRONT: usize = 20;

/// The greatest length of a file's path in its object of which a run can make a file, in the folder
/// at a path.
pub(crate) fn room_in(dest: &str, layout: &Layout) -> u64
    ensures { result ≡ room_in_folder dest.now layout.now }
{
    longest_made(layout)
        .saturating_sub(CONTENT_FRONT)
        .saturating_sub(dest.len()) as u64
}
