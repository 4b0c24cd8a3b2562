ghost use Rattle.std.specs.Prelude.{◌≡◌};
ghost use Rattle.pt_check.specs.Trouble.{trouble_number, trouble_word};

use pt_walk::Cause;

/// What a check tells of a folder or an entry that it could look at.
#[derive(Clone, Copy, Debug, PartialEq, Eq)]
pub enum Trouble {
    /// A run passes it over for this cause.
    Skipped(Cause),
    /// Its name is one that desktops leave.
    Desktop,
    /// The path of a file in its object is longer than a run carries.
    Long,
    /// A folder lies deeper than a run, and a check, go.
    Deep,
    /// What a store must have isn't there, or is of another kind.
    Missing,
    /// The names of a site are others than its identifier's own, so that it may be the twin of the
    /// site with these.
    Spelling,
    /// `pairtree_prefix` is no file, or its bytes are no prefix.
    Prefix,
    /// The prefix has a control character, a byte order mark, or a blank at an end.
    Doubtful,
    /// An object has more files than a run carries; it is the first of these.
    Many,
    /// A file has more bytes than a run carries.
    Large,
    /// The path of a file would be too long at its place in the destination.
    Place,
    /// A folder that stands where shorties stand is none by its name, and holds shorties, as if the
    /// store were cut into longer pieces: by the rules it is no site, and these are files of an
    /// object, if it has one.
    Width,
}

impl Trouble {
    /// The trouble's number: that of its cause, 1 to 9; 10 `Desktop`, 11 `Long`, 12 `Deep`, 13
    /// `Missing`, 14 `Spelling`, 15 `Prefix`, 16 `Doubtful`, 17 `Many`, 18 `Large`, 19 `Place`, 20
    /// `Width`.
    pub fn number(&self) -> u8
        ensures { result ≡ trouble_number self.now }
    {
        match self {
            Trouble::Skipped(cause) => cause.number(),
            Trouble::Desktop => 10,
            Trouble::Long => 11,
            Trouble::Deep => 12,
            Trouble::Missing => 13,
            Trouble::Spelling => 14,
            Trouble::Prefix => 15,
            Trouble::Doubtful => 16,
            Trouble::Many => 17,
            Trouble::Large => 18,
            Trouble::Place => 19,
            Trouble::Width => 20,
        }
    }

    /// The trouble's word in a line: that of its cause; `desktop`, `long`, `deep`, `missing`,
    /// `spelling`, `prefix`, `doubtful`, `many`, `large`, `place`, `width`.
    pub fn word(&self) -> &'static str
        ensures { result.now ≡ trouble_word self.now }
    {
        match self {
            Trouble::Skipped(cause) => cause.word(),
            Trouble::Desktop => "desktop",
            Trouble::Long => "long",
            Trouble::Deep => "deep",
            Trouble::Missing => "missing",
            Trouble::Spelling => "spelling",
            Trouble::Prefix => "prefix",
            Trouble::Doubtful => "doubtful",
            Trouble::Many => "many",
            Trouble::Large => "large",
            Trouble::Place => "place",
            Trouble::Width => "width",
        }
    }
}
