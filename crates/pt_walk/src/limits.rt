ghost use Rattle.std.specs.Prelude.{◌≡◌, IsTrue};
ghost use Rattle.pt_walk.specs.Limits.{are_limits, greatest_limits, limits_number, limits_of};

use std::marker::Model;
use thiserror::Error;

const MOST_FILES: u64 = 1_000_000;

const MOST_PATH_BYTES: u64 = 4_000;

const MOST_DEPTH: u64 = 600;

const MOST_FILE_BYTES: u64 = 1 << 43;

const MOST_TURNS: u64 = 1 << 40;

/// Why numbers are no limits.
#[derive(Clone, Copy, Debug, PartialEq, Eq, Error)]
pub enum LimitsFault {
    /// One of them is 0.
    #[error("a limit is zero")]
    Zero,
    /// One of them is above its greatest value.
    #[error("a limit is above its greatest value")]
    TooLarge,
}

impl LimitsFault {
    /// The fault's number: 1 `Zero`, 2 `TooLarge`.
    pub fn number(&self) -> u8
        ensures { result ≡ limits_number self.now }
    {
        match self {
            LimitsFault::Zero => 1,
            LimitsFault::TooLarge => 2,
        }
    }
}

/// The limits of a run, none of them 0: at most 1,000,000 files in one object, 4,000 bytes in one
/// logical path with its slashes, 600 names from below the top directory to a directory that is
/// listed, 2^43 bytes in one file, and 2^40 turns of one run.
#[derive(Clone, Copy, Debug, PartialEq, Eq)]
pub struct Limits {
    files: u64,
    path_bytes: u64,
    depth: u64,
    file_bytes: u64,
    turns: u64,
}

impl Model for Limits {
    ghost use Rattle.std.specs.Prelude.{◌≡◌, true};
    ghost use Rattle.pt_walk.specs.Limits.{Bounds, are_limits};

    ghost Value = { Bounds };

    ghost view = { λ l. record {
      files = l.files;
      path_bytes = l.path_bytes;
      depth = l.depth;
      file_bytes = l.file_bytes;
      turns = l.turns;
    } };

    ghost invariant = { λ l. are_limits
        (record {
          files = l.files;
          path_bytes = l.path_bytes;
          depth = l.depth;
          file_bytes = l.file_bytes;
          turns = l.turns;
        }) ≡ true };

    ghost inverse = { λ l. record {
      files = l.files;
      path_bytes = l.path_bytes;
      depth = l.depth;
      file_bytes = l.file_bytes;
      turns = l.turns;
    } };
}

impl Limits {
    /// The limits with these numbers, in this order. Refused as `Zero` where one of them is 0, and
    /// then as `TooLarge` where one is above its greatest value.
    pub fn of(
        files: u64,
        path_bytes: u64,
        depth: u64,
        file_bytes: u64,
        turns: u64,
    ) -> Result<Limits, LimitsFault>
        ensures { result ≡ limits_of (record {
          files = files;
          path_bytes = path_bytes;
          depth = depth;
          file_bytes = file_bytes;
          turns = turns;
        }) }
    {
        if files == 0 || path_bytes == 0 || depth == 0 || file_bytes == 0 || turns == 0 {
            return Err(LimitsFault::Zero);
        }
        if files > MOST_FILES
            || path_bytes > MOST_PATH_BYTES
            || depth > MOST_DEPTH
            || file_bytes > MOST_FILE_BYTES
            || turns > MOST_TURNS
        {
            return Err(LimitsFault::TooLarge);
        }
        Ok(Limits {
            files,
            path_bytes,
            depth,
            file_bytes,
            turns,
        })
    }

    /// The greatest limits, each at its greatest value.
    pub fn greatest() -> Limits
        ensures { result ≡ greatest_limits }
    {
        Limits {
            files: MOST_FILES,
            path_bytes: MOST_PATH_BYTES,
            depth: MOST_DEPTH,
            file_bytes: MOST_FILE_BYTES,
            turns: MOST_TURNS,
        }
    }

    /// How many files one object may have, 1 to 1,000,000.
    pub fn files(&self) -> u64
        ensures value { result ≡ self.now.files }
        ensures limits { IsTrue (are_limits self.now) }
    {
        self.files
    }

    /// How many bytes one logical path may have, its slashes counted, 1 to 4,000.
    pub fn path_bytes(&self) -> u64
        ensures value { result ≡ self.now.path_bytes }
        ensures limits { IsTrue (are_limits self.now) }
    {
        self.path_bytes
    }

    /// How many names may lead from below the top directory to a directory that is listed, 1 to
    /// 600.
    pub fn depth(&self) -> u64
        ensures value { result ≡ self.now.depth }
        ensures limits { IsTrue (are_limits self.now) }
    {
        self.depth
    }

    /// How many bytes one file may have, 1 to 2^43.
    pub fn file_bytes(&self) -> u64
        ensures value { result ≡ self.now.file_bytes }
        ensures limits { IsTrue (are_limits self.now) }
    {
        self.file_bytes
    }

    /// How many turns one run may take, 1 to 2^40.
    pub fn turns(&self) -> u64
        ensures value { result ≡ self.now.turns }
        ensures limits { IsTrue (are_limits self.now) }
    {
        self.turns
    }
}
