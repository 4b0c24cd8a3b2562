//! The numbers of a check are those of what was visited (`with_site`, `with_entry`,
//! `with_opened`); `told` is that of the lines. The last line has them, and they are its answer.
ghost use Rattle.std.specs.Prelude.{◌≡◌, ◌<◌, length};
ghost use Rattle.pt_check.specs.Counting.{back_at, counted_at, no_numbers, with_bytes, with_entry};
ghost use Rattle.pt_check.specs.Counting.{stops_run, told_of, with_length, with_line};
ghost use Rattle.pt_check.specs.Counting.{with_object_begun, with_opened, with_renamed, with_site};

use crate::breakdown::{DEPTHS, LENGTHS, digits};
use crate::line_kind::KINDS;
use crate::{LineKind, Trouble, Within};
use pt_tree::Kind;

/// What a check counts, each number up to 2^64 - 1.
#[derive(Clone, Copy, Debug, PartialEq, Eq)]
pub struct Numbers {
    /// The lines that told of something.
    pub told: u64,
    /// The sites that were listed.
    pub sites: u64,
    /// Those that have an object.
    pub objects: u64,
    /// The folders below `pairtree_root`.
    pub folders: u64,
    /// The files.
    pub files: u64,
    /// The bytes of those that were read.
    pub bytes: u64,
    /// The most bytes that were read of one object.
    pub largest: u64,
    /// The length of the longest path, from the store's folder on.
    pub longest: u64,
    /// The files since an object began last: those of the object at hand, so far.
    pub held: u64,
    /// The bytes that were read of these.
    pub held_bytes: u64,
    /// The lines of each kind that told of something, by the kind's number.
    pub kinds: [u64; KINDS],
    /// The sites by their depth below `pairtree_root`, and at the last place all that are as deep
    /// or deeper.
    pub sites_at: [u64; DEPTHS],
    /// Those that have an object, in the same way.
    pub objects_at: [u64; DEPTHS],
    /// The objects whose own folder has another name than those of their site join to.
    pub renamed: u64,
    /// The files that were read whole, by the digits of their length; at the first place those that
    /// are empty.
    pub files_of: [u64; LENGTHS],
    /// The bytes of these, in the same way.
    pub bytes_of: [u64; LENGTHS],
}

// Counts so many more at a place.
fn count_at(counts: &mut [u64], place: usize, more: u64)
    requires { place < length counts.old }
    ensures { counts.new ≡ counted_at place more counts.old }
{
    counts[place] = counts[place].saturating_add(more);
}

impl Numbers {
    /// Of nothing yet.
    pub fn none() -> Numbers
        ensures { result ≡ no_numbers }
    {
        Numbers {
            told: 0,
            sites: 0,
            objects: 0,
            folders: 0,
            files: 0,
            bytes: 0,
            largest: 0,
            longest: 0,
            held: 0,
            held_bytes: 0,
            kinds: [0; KINDS],
            sites_at: [0; DEPTHS],
            objects_at: [0; DEPTHS],
            renamed: 0,
            files_of: [0; LENGTHS],
            bytes_of: [0; LENGTHS],
        }
    }

    /// With a line more, of this kind.
    pub fn with_line(self, kind: LineKind) -> Numbers
        ensures { result ≡ with_line kind self }
    {
        let mut kinds = self.kinds;
        let number = usize::from(kind.number());
        kinds[number] = kinds[number].saturating_add(1);
        Numbers {
            told: self.told.saturating_add(1),
            kinds,
            ..self
        }
    }

    /// How many lines of this kind there are.
    pub fn told_of(&self, kind: LineKind) -> u64
        ensures { result ≡ told_of kind self.now }
    {
        self.kinds[usize::from(kind.number())]
    }

    /// Whether something was told that would stop a run.
    pub fn stops_run(&self) -> bool
        ensures { result ≡ stops_run self.now }
    {
        self.told_of(LineKind::Unreadable) > 0
            || self.told_of(LineKind::Troubled(Trouble::Missing)) > 0
            || self.told_of(LineKind::Troubled(Trouble::Prefix)) > 0
            || self.told_of(LineKind::Troubled(Trouble::Place)) > 0
    }

    /// With a site more, so deep below `pairtree_root`, which has an object or not.
    pub fn with_site(self, depth: usize, has_object: bool) -> Numbers
        ensures { result ≡ with_site depth has_object self }
    {
        let class = depth.min(DEPTHS - 1);
        let objects = u64::from(has_object);
        let mut sites_at = self.sites_at;
        let mut objects_at = self.objects_at;
        count_at(&mut sites_at, class, 1);
        count_at(&mut objects_at, class, objects);
        Numbers {
            sites: self.sites.saturating_add(1),
            objects: self.objects.saturating_add(objects),
            sites_at,
            objects_at,
            ..self
        }
    }

    /// With an object more whose own folder has another name than those of its site join to, where
    /// that is so.
    pub fn with_renamed(self, is_renamed: bool) -> Numbers
        ensures { result ≡ with_renamed is_renamed self }
    {
        Numbers {
            renamed: self.renamed.saturating_add(u64::from(is_renamed)),
            ..self
        }
    }

    /// With an entry of this kind more, whose path has so many bytes.
    pub fn with_entry(self, kind: Kind, length: u64) -> Numbers
        ensures { result ≡ with_entry kind length self }
    {
        let longest = self.longest.max(length);
        match kind {
            Kind::File => Numbers {
                files: self.files.saturating_add(1),
                longest,
                held: self.held.saturating_add(1),
                ..self
            },
            Kind::Dir => Numbers {
                folders: self.folders.saturating_add(1),
                longest,
                ..self
            },
            Kind::Other => Numbers { longest, ..self },
        }
    }

    /// With a file opened, in a folder that is this, and read whole or not, of which so many bytes
    /// were read.
    pub fn with_opened(self, reads: bool, within: Within, bytes: u64) -> Numbers
        ensures { result ≡ with_opened reads within bytes self }
    {
        let numbers = self.with_bytes(within, bytes);
        if reads {
            numbers.with_length(bytes)
        } else {
            numbers
        }
    }

    // With so many bytes read of a file, in a folder that is this.
    fn with_bytes(self, within: Within, bytes: u64) -> Numbers
        ensures { result ≡ with_bytes within bytes self }
    {
        let total = self.bytes.saturating_add(bytes);
        match within {
            Within::Object(_) => {
                let held_bytes = self.held_bytes.saturating_add(bytes);
                Numbers {
                    bytes: total,
                    largest: self.largest.max(held_bytes),
                    held_bytes,
                    ..self
                }
            }
            _ => Numbers {
                bytes: total,
                ..self
            },
        }
    }

    // With a file of this length, which was read whole.
    fn with_length(self, bytes: u64) -> Numbers
        ensures { result ≡ with_length bytes self }
    {
        let class = digits(bytes);
        let mut files_of = self.files_of;
        let mut bytes_of = self.bytes_of;
        count_at(&mut files_of, class, 1);
        count_at(&mut bytes_of, class, bytes);
        Numbers {
            files_of,
            bytes_of,
            ..self
        }
    }

    /// With an object begun: it has no files yet.
    pub fn with_object_begun(self) -> Numbers
        ensures { result ≡ with_object_begun self }
    {
        Numbers {
            held: 0,
            held_bytes: 0,
            ..self
        }
    }

    /// With the object at hand that there was before, when the numbers were those.
    pub fn back_at(self, before: Numbers) -> Numbers
        ensures { result ≡ back_at before self }
    {
        Numbers {
            held: before.held,
            held_bytes: before.held_bytes,
            ..self
        }
    }
}
