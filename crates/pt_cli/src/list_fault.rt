//! Why lines aren't taken: those of an input that are to be named, or those of a list.
ghost use Rattle.std.specs.Prelude.{◌≡◌};
ghost use Rattle.pt_cli.specs.Lines.{line_fault_number};
ghost use Rattle.pt_cli.specs.NameList.{list_number};

use pt_tree::MemoryFault;
use std::alloc::{AllocError, AllocFailed};
use std::io;
use thiserror::Error;

/// Why a line is no identifier. They are asked in this order.
#[derive(Clone, Copy, Debug, PartialEq, Eq, Error)]
pub enum LineFault {
    /// It has more than 65,536 bytes.
    #[error("the identifier has more than 65536 bytes")]
    TooLong,
    /// It is empty.
    #[error("the identifier is empty")]
    Empty,
    /// It isn't UTF-8.
    #[error("the identifier is not UTF-8")]
    NotUtf8,
    /// Of a list: it is the first, and begins with U+FEFF, by which some editors mark a text as
    /// UTF-8.
    #[error("it begins with a byte order mark")]
    ByteOrderMark,
}

impl LineFault {
    /// The fault's number: 1 `TooLong`, 2 `Empty`, 3 `NotUtf8`, 4 `ByteOrderMark`.
    pub fn number(&self) -> u8
        ensures { result ≡ line_fault_number self.now }
    {
        match self {
            LineFault::TooLong => 1,
            LineFault::Empty => 2,
            LineFault::NotUtf8 => 3,
            LineFault::ByteOrderMark => 4,
        }
    }
}

/// A line that is no identifier.
#[derive(Clone, Copy, Debug, PartialEq, Eq, Error)]
#[error("line {number}: {fault}")]
pub struct BadLine {
    /// Which line it is; the first is 1.
    pub number: u64,
    /// Why it is none.
    pub fault: LineFault,
}

// Why lines aren't read on.
pub(crate) enum LinesFault {
    // A line is no identifier.
    Line(BadLine),
    // A growth was refused.
    Memory,
}

impl<T: Drop> From<AllocFailed<T>> for LinesFault {
    ghost use Rattle.std.specs.Prelude.{◌≡◌};
    ghost use Rattle.pt_cli.specs.declared.list_fault.LinesFault.TheVariants.{Memory};

    ghost from_gives = { λ _ e. e ≡ Memory };

    fn from(_: AllocFailed<T>) -> Self {
        LinesFault::Memory
    }
}

/// Why the names of the lines of an input weren't all written.
#[derive(Clone, Copy, Debug, PartialEq, Eq, Error)]
pub enum ListFault {
    /// A line is no identifier. The names of those before it were written.
    #[error("{0}")]
    Line(BadLine),
    /// The input failed. The names of the whole lines before were written.
    #[error("cannot read standard input")]
    Read,
    /// The output failed. A front of the names was written.
    #[error("cannot write the output")]
    Write,
    /// A growth was refused. The names of some lines were written.
    #[error("out of memory")]
    Memory,
}

impl ListFault {
    /// The fault's number: 1 `Line`, 2 `Read`, 3 `Write`, 4 `Memory`.
    pub fn number(&self) -> u8
        ensures { result ≡ list_number self.now }
    {
        match self {
            ListFault::Line(_) => 1,
            ListFault::Read => 2,
            ListFault::Write => 3,
            ListFault::Memory => 4,
        }
    }
}

impl From<BadLine> for ListFault {
    ghost use Rattle.std.specs.Prelude.{◌≡◌};
    ghost use Rattle.pt_cli.specs.declared.list_fault.ListFault.TheVariants.{Line};

    ghost from_gives = { λ bad e. e ≡ Line bad };

    fn from(bad: BadLine) -> Self {
        ListFault::Line(bad)
    }
}

impl From<LinesFault> for ListFault {
    ghost use Rattle.std.specs.Prelude.{◌≡◌};
    ghost use Rattle.pt_cli.specs.NameList.{list_fault_of};

    ghost from_gives = { λ fault e. e ≡ list_fault_of fault };

    fn from(fault: LinesFault) -> Self {
        match fault {
            LinesFault::Line(bad) => ListFault::Line(bad),
            LinesFault::Memory => ListFault::Memory,
        }
    }
}

impl From<MemoryFault> for ListFault {
    ghost use Rattle.std.specs.Prelude.{◌≡◌};
    ghost use Rattle.pt_cli.specs.declared.list_fault.ListFault.TheVariants.{Memory};

    ghost from_gives = { λ _ e. e ≡ Memory };

    fn from(_: MemoryFault) -> Self {
        ListFault::Memory
    }
}

impl From<AllocError> for ListFault {
    ghost use Rattle.std.specs.Prelude.{◌≡◌};
    ghost use Rattle.pt_cli.specs.declared.list_fault.ListFault.TheVariants.{Memory};

    ghost from_gives = { λ _ e. e ≡ Memory };

    fn from(_: AllocError) -> Self {
        ListFault::Memory
    }
}

impl<T: Drop> From<AllocFailed<T>> for ListFault {
    ghost use Rattle.std.specs.Prelude.{◌≡◌};
    ghost use Rattle.pt_cli.specs.declared.list_fault.ListFault.TheVariants.{Memory};

    ghost from_gives = { λ _ e. e ≡ Memory };

    fn from(_: AllocFailed<T>) -> Self {
        ListFault::Memory
    }
}

/// Why the identifiers in the lines of a file can't be had.
#[derive(Debug, Drop, Error)]
pub enum FileFault {
    /// A line is no identifier. Those before it are.
    #[error("{0}")]
    Line(BadLine),
    /// The file can't be opened, or a read of it failed.
    #[error("{0}")]
    Read(io::Error),
    /// A growth was refused.
    #[error("out of memory")]
    Memory,
}

impl FileFault {
    ghost use Rattle.pt_cli.specs.Listing.{file_number};

    /// The fault's number: 1 `Line`, 2 `Read`, 3 `Memory`.
    pub fn number(&self) -> u8
        ensures { result ≡ file_number self.now }
    {
        match self {
            FileFault::Line(_) => 1,
            FileFault::Read(_) => 2,
            FileFault::Memory => 3,
        }
    }
}

impl From<BadLine> for FileFault {
    ghost use Rattle.std.specs.Prelude.{◌≡◌};
    ghost use Rattle.pt_cli.specs.declared.list_fault.FileFault.TheVariants.{Line};

    ghost from_gives = { λ bad e. e ≡ Line bad };

    fn from(bad: BadLine) -> Self {
        FileFault::Line(bad)
    }
}

impl From<LinesFault> for FileFault {
    ghost use Rattle.std.specs.Prelude.{◌≡◌};
    ghost use Rattle.pt_cli.specs.Listing.{file_fault_of};

    ghost from_gives = { λ fault e. e ≡ file_fault_of fault };

    fn from(fault: LinesFault) -> Self {
        match fault {
            LinesFault::Line(bad) => FileFault::Line(bad),
            LinesFault::Memory => FileFault::Memory,
        }
    }
}

impl From<MemoryFault> for FileFault {
    ghost use Rattle.std.specs.Prelude.{◌≡◌};
    ghost use Rattle.pt_cli.specs.declared.list_fault.FileFault.TheVariants.{Memory};

    ghost from_gives = { λ _ e. e ≡ Memory };

    fn from(_: MemoryFault) -> Self {
        FileFault::Memory
    }
}

impl From<AllocError> for FileFault {
    ghost use Rattle.std.specs.Prelude.{◌≡◌};
    ghost use Rattle.pt_cli.specs.declared.list_fault.FileFault.TheVariants.{Memory};

    ghost from_gives = { λ _ e. e ≡ Memory };

    fn from(_: AllocError) -> Self {
        FileFault::Memory
    }
}

impl<T: Drop> From<AllocFailed<T>> for FileFault {
    ghost use Rattle.std.specs.Prelude.{◌≡◌};
    ghost use Rattle.pt_cli.specs.declared.list_fault.FileFault.TheVariants.{Memory};

    ghost from_gives = { λ _ e. e ≡ Memory };

    fn from(_: AllocFailed<T>) -> Self {
        FileFault::Memory
    }
}
