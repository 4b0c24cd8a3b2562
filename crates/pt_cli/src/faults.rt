//! Why the words of a command line are no command.
ghost use Rattle.std.specs.Prelude.{◌≡◌};
ghost use Rattle.clap.specs.Words.{kind_of};
ghost use Rattle.pt_cli.specs.Words.{RefusedAs, words_line, words_number};

use crate::Text;
use crate::hints::mend_hint;
use clap::Error;
use clap::error::ErrorKind;
use pt_name::LayoutFault;
use pt_object::MetaFault;
use pt_tree::MemoryFault;
use std::alloc::{AllocError, Global};
use std::convert::AsStr;

/// Why the words of a command line are no command.
#[derive(Debug, Drop, thiserror::Error)]
#[error("{}", self.text())]
pub enum WordsFault {
    /// Help was asked for; this is its text, for standard output.
    Help(Text),
    /// The version was asked for; this is its text, for standard output.
    Version(Text),
    /// The parser refuses the words; this is its text, for standard error.
    Words(Text),
    /// `--created` isn't a moment of RFC 3339 to the second.
    Created,
    /// `--name` is empty.
    EmptyName,
    /// The identifier of `names` is empty.
    EmptyId,
    /// A growth was refused.
    Memory,
    /// `--tuple-size` and `--tuples` are no layout.
    Tuples,
    /// `--share` is no share.
    Share,
    /// `--by-folders` is no depth, or stands without a share.
    Folders,
    /// A text of `--ignore` is no name that an entry may have.
    Ignored,
    /// `--event` is empty.
    EmptyEvent,
    /// `--list` is empty.
    EmptyList,
    /// `--dest` is empty.
    EmptyDest,
}

// What stands before the text of a refusal in its line.
const FRONT: &str = "pairtree2ocfl: ";

impl WordsFault {
    /// The fault's number: 1 `Help`, 2 `Words`, 3 `Created`, 4 `EmptyName`, 5 `EmptyId`, 6
    /// `Memory`, 7 `Tuples`, 8 `Version`, 9 `Share`, 10 `Ignored`, 11 `EmptyEvent`, 12 `EmptyList`,
    /// 13 `EmptyDest`, 14 `Folders`.
    pub fn number(&self) -> u8
        ensures { result ≡ words_number self.now }
    {
        match self {
            WordsFault::Help(_) => 1,
            WordsFault::Words(_) => 2,
            WordsFault::Created => 3,
            WordsFault::EmptyName => 4,
            WordsFault::EmptyId => 5,
            WordsFault::Memory => 6,
            WordsFault::Tuples => 7,
            WordsFault::Version(_) => 8,
            WordsFault::Share => 9,
            WordsFault::Ignored => 10,
            WordsFault::EmptyEvent => 11,
            WordsFault::EmptyList => 12,
            WordsFault::EmptyDest => 13,
            WordsFault::Folders => 14,
        }
    }

    /// What standard error is told of it, LF and all.
    pub fn line(&self) -> &str
        ensures { result.now ≡ words_line self.now }
    {
        match self {
            WordsFault::Help(text) | WordsFault::Version(text) | WordsFault::Words(text) => {
                text.as_str()
            }
            WordsFault::Created => {
                "pairtree2ocfl: --created is not a moment of RFC 3339 to the second\n"
            }
            WordsFault::EmptyName => "pairtree2ocfl: --name is empty\n",
            WordsFault::EmptyId => "pairtree2ocfl: the identifier is empty\n",
            WordsFault::Memory => "pairtree2ocfl: out of memory\n",
            WordsFault::Tuples => {
                "pairtree2ocfl: the tuples are out of range: --tuple-size and --tuples are each from 1 to 32, with a product of at most 64, or both 0\n"
            }
            WordsFault::Share => {
                "pairtree2ocfl: --share is not K/N with N from 1 to 4096 and K from 1 to N\n"
            }
            WordsFault::Folders => {
                "pairtree2ocfl: --by-folders is not a number from 1 to 600 beside --share\n"
            }
            WordsFault::Ignored => {
                "pairtree2ocfl: --ignore is not the name of a file or folder\n"
            }
            WordsFault::EmptyEvent => "pairtree2ocfl: --event is empty\n",
            WordsFault::EmptyList => "pairtree2ocfl: --list is empty\n",
            WordsFault::EmptyDest => "pairtree2ocfl: --dest is empty\n",
        }
    }

    /// Its text: the line without the program's name and LF, where it isn't the parser's.
    pub fn text(&self) -> &str {
        let line = self.line();
        match line.strip_prefix(FRONT) {
            Some(text) => text.trim_end(),
            None => line,
        }
    }
}

impl From<AllocError> for WordsFault {
    ghost use Rattle.std.specs.Prelude.{◌≡◌};
    ghost use Rattle.pt_cli.specs.declared.faults.WordsFault.TheVariants.{Memory};

    ghost from_gives = { λ _ e. e ≡ Memory };

    fn from(_: AllocError) -> Self {
        WordsFault::Memory
    }
}

// The parser's error on these words as a refusal of them.
pub(crate) fn refusal<S: AsStr>(alloc: Global, error: &Error, words: &[S]) -> WordsFault
    ensures { RefusedAs (kind_of error.now) result }
{
    match (error.kind(), Text::of_display(alloc, error)) {
        (ErrorKind::OutOfMemory, _) | (_, Err(_)) => WordsFault::Memory,
        (ErrorKind::DisplayHelp, Ok(text)) => WordsFault::Help(text),
        (ErrorKind::DisplayVersion, Ok(text)) => WordsFault::Version(text),
        (_, Ok(text)) => match mend_hint(alloc, text.as_str(), words) {
            Ok(mended) => WordsFault::Words(mended),
            Err(_) => WordsFault::Memory,
        },
    }
}

// Why what the parser found for the arguments is no command: `Missing`, where one isn't there that
// it sees to, and else as in `WordsFault`.
#[derive(Clone, Copy)]
pub(crate) enum Unread {
    Missing,
    Created,
    EmptyName,
    EmptyId,
    Memory,
    Tuples,
    Share,
    Folders,
    Ignored,
    EmptyEvent,
    EmptyList,
    EmptyDest,
}

impl From<MemoryFault> for Unread {
    ghost use Rattle.std.specs.Prelude.{◌≡◌};
    ghost use Rattle.pt_cli.specs.declared.faults.Unread.TheVariants.{Memory};

    ghost from_gives = { λ _ e. e ≡ Memory };

    fn from(_: MemoryFault) -> Self {
        Unread::Memory
    }
}

impl From<MetaFault> for Unread {
    ghost use Rattle.std.specs.Prelude.{◌≡◌};
    ghost use Rattle.pt_cli.specs.Arguments.{unread_of_meta};

    ghost from_gives = { λ fault e. e ≡ unread_of_meta fault };

    fn from(fault: MetaFault) -> Self {
        match fault {
            MetaFault::Created => Unread::Created,
            MetaFault::EmptyName => Unread::EmptyName,
            MetaFault::Memory => Unread::Memory,
        }
    }
}

impl From<LayoutFault> for Unread {
    ghost use Rattle.std.specs.Prelude.{◌≡◌};
    ghost use Rattle.pt_cli.specs.declared.faults.Unread.TheVariants.{Tuples};

    ghost from_gives = { λ _ e. e ≡ Tuples };

    fn from(_: LayoutFault) -> Self {
        Unread::Tuples
    }
}
