ghost use Rattle.std.specs.Prelude.{◌≡◌, ◌<◌};
ghost use Rattle.pt_check.specs.LineKind.{kind_number, kind_word, kinds};

use crate::Trouble;

/// How many kinds of lines tell of something, each with a number of its own below this.
pub const KINDS: usize = 21;

/// What a line tells of a path.
#[derive(Clone, Copy, Debug, PartialEq, Eq)]
pub enum LineKind {
    /// It can't be listed, opened or read.
    Unreadable,
    /// There is this trouble.
    Troubled(Trouble),
}

impl LineKind {
    /// Its number: 0 `Unreadable`, else that of the trouble.
    pub fn number(&self) -> u8
        ensures number { result ≡ kind_number self.now }
        ensures few { result < kinds }
    {
        match self {
            LineKind::Unreadable => 0,
            LineKind::Troubled(trouble) => trouble.number(),
        }
    }

    /// The word under `as`: `unreadable`, else that of the trouble.
    pub fn word(&self) -> &'static str
        ensures { result.now ≡ kind_word self.now }
    {
        match self {
            LineKind::Unreadable => "unreadable",
            LineKind::Troubled(trouble) => trouble.word(),
        }
    }
}
