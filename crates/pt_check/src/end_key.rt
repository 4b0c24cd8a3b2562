//! The parts of the last line of a check, behind `as`.
ghost use Rattle.std.specs.Prelude.{◌≡◌};
ghost use Rattle.pt_check.specs.EndKey.{end_number, end_parts, end_word, is_told};

use crate::{Breakdown, LineKind, Numbers, Trouble};
use pt_walk::Cause;

/// What a member of the last line counts.
#[derive(Clone, Copy, Debug, PartialEq, Eq)]
pub enum EndKey {
    /// The bytes that were read.
    Bytes,
    /// The files.
    Files,
    /// The folders.
    Folders,
    /// The bytes of the largest object.
    Largest,
    /// The length of the longest path.
    Longest,
    /// The objects.
    Objects,
    /// Those whose own folder has another name than those of their site join to; it has no member
    /// where there is none.
    Renamed,
    /// The sites.
    Sites,
    /// The lines before.
    Told,
    /// Those of this kind; it has no member where there is none.
    Kind(LineKind),
}

/// A part of the last line.
#[derive(Clone, Copy, Debug, PartialEq, Eq)]
pub enum EndPart {
    /// The member of this key.
    One(EndKey),
    /// A member for each class of this of which something was counted.
    Each(Breakdown),
}

// The parts in the order in which a line has them, that of the bytes of their keys.
const END_PARTS: [EndPart; 33] = [
    EndPart::One(EndKey::Bytes),
    EndPart::Each(Breakdown::BytesOf),
    EndPart::One(EndKey::Kind(LineKind::Troubled(Trouble::Deep))),
    EndPart::One(EndKey::Kind(LineKind::Troubled(Trouble::Desktop))),
    EndPart::One(EndKey::Kind(LineKind::Troubled(Trouble::Doubtful))),
    EndPart::One(EndKey::Kind(LineKind::Troubled(Trouble::Skipped(Cause::Empty)))),
    EndPart::One(EndKey::Files),
    EndPart::Each(Breakdown::FilesOf),
    EndPart::One(EndKey::Folders),
    EndPart::One(EndKey::Kind(LineKind::Troubled(Trouble::Large))),
    EndPart::One(EndKey::Largest),
    EndPart::One(EndKey::Kind(LineKind::Troubled(Trouble::Long))),
    EndPart::One(EndKey::Longest),
    EndPart::One(EndKey::Kind(LineKind::Troubled(Trouble::Many))),
    EndPart::One(EndKey::Kind(LineKind::Troubled(Trouble::Missing))),
    EndPart::One(EndKey::Kind(LineKind::Troubled(Trouble::Skipped(Cause::Name)))),
    EndPart::One(EndKey::Objects),
    EndPart::Each(Breakdown::ObjectsAt),
    EndPart::One(EndKey::Kind(LineKind::Troubled(Trouble::Skipped(Cause::Other)))),
    EndPart::One(EndKey::Kind(LineKind::Troubled(Trouble::Skipped(Cause::Past)))),
    EndPart::One(EndKey::Kind(LineKind::Troubled(Trouble::Place))),
    EndPart::One(EndKey::Kind(LineKind::Troubled(Trouble::Prefix))),
    EndPart::One(EndKey::Renamed),
    EndPart::One(EndKey::Kind(LineKind::Troubled(Trouble::Skipped(Cause::Reserved)))),
    EndPart::One(EndKey::Kind(LineKind::Troubled(Trouble::Skipped(Cause::Root)))),
    EndPart::One(EndKey::Sites),
    EndPart::Each(Breakdown::SitesAt),
    EndPart::One(EndKey::Kind(LineKind::Troubled(Trouble::Spelling))),
    EndPart::One(EndKey::Kind(LineKind::Troubled(Trouble::Skipped(Cause::Split)))),
    EndPart::One(EndKey::Told),
    EndPart::One(EndKey::Kind(LineKind::Unreadable)),
    EndPart::One(EndKey::Kind(LineKind::Troubled(Trouble::Skipped(Cause::Utf8)))),
    EndPart::One(EndKey::Kind(LineKind::Troubled(Trouble::Width))),
];

/// The parts, in the order in which a line has them: that of the bytes of their keys.
pub(crate) fn end_parts() -> &'static [EndPart]
    ensures { result.now ≡ end_parts }
{
    &END_PARTS
}

impl EndKey {
    /// The key's word.
    pub fn word(&self) -> &'static str
        ensures { result.now ≡ end_word self.now }
    {
        match self {
            EndKey::Bytes => "bytes",
            EndKey::Files => "files",
            EndKey::Folders => "folders",
            EndKey::Largest => "largest",
            EndKey::Longest => "longest",
            EndKey::Objects => "objects",
            EndKey::Renamed => "renamed",
            EndKey::Sites => "sites",
            EndKey::Told => "told",
            EndKey::Kind(kind) => kind.word(),
        }
    }

    /// What it counts.
    pub fn count(&self, numbers: &Numbers) -> u64
        ensures { result ≡ end_number numbers.now self.now }
    {
        match self {
            EndKey::Bytes => numbers.bytes,
            EndKey::Files => numbers.files,
            EndKey::Folders => numbers.folders,
            EndKey::Largest => numbers.largest,
            EndKey::Longest => numbers.longest,
            EndKey::Objects => numbers.objects,
            EndKey::Renamed => numbers.renamed,
            EndKey::Sites => numbers.sites,
            EndKey::Told => numbers.told,
            EndKey::Kind(kind) => numbers.told_of(*kind),
        }
    }

    /// Whether a line of these numbers has it: a kind it has only where something of it was told,
    /// and objects that are renamed where there are any.
    pub fn is_told(&self, numbers: &Numbers) -> bool
        ensures { result ≡ is_told numbers.now self.now }
    {
        match self {
            EndKey::Kind(kind) => numbers.told_of(*kind) > 0,
            EndKey::Renamed => numbers.renamed > 0,
            _ => true,
        }
    }
}
