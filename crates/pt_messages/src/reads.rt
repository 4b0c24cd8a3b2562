//! Files that are read beside a run: a log's end, a list of identifiers, a store's prefix.
ghost use Rattle.std.specs.Prelude.{◌≡◌, ℕ, List, Option};
ghost use Rattle.std.specs.Path.{path_buf_bytes};
ghost use Rattle.std.specs.Result.{result_map_both};
ghost use Rattle.std.specs.declared.io.Error.{Error};
ghost use Rattle.std.specs.declared.result.Result.{Result};
ghost use Rattle.pt_messages.specs.Reading.{EndsSo, FileWords};

use pt_folder::{Handle, Input};
use std::alloc::{AllocGlobal, Global};
use std::io;
use std::io::ErrorKind;
use std::path::PathBuf;

// How many bytes a small file has at most.
const MOST: usize = 1024;

/// What can be read of files beside a run. No call changes anything. An error is answered where the
/// system gives one, as where nothing stands at the path, or where a growth was refused.
pub trait Reads {
    /// A file that is open.
    type Opened: Handle + Drop;

    /// How long the file at a path is may be answered so, links followed.
    ghost lengths: { Self → List ℕ → Result (Option ℕ) Error → Type 0 };

    /// How long the file is that stands at a path itself may be answered so.
    ghost own_lengths: { Self → List ℕ → Result (Option ℕ) Error → Type 0 };

    /// Opening the file at a path may be answered so.
    ghost opens: { Self → List ℕ → Result Self.Opened Error → Type 0 };

    /// Where a path leads may be answered so.
    ghost leads: { Self → List ℕ → Result (List ℕ) Error → Type 0 };

    /// How many bytes the file at a path has, links followed; none where it is no file.
    fn file_length(&self, path: &str) -> io::Result<Option<u64>>
        ensures { lengths self.now path.now result };

    /// How many bytes the file has that stands at a path, a link not followed; none where it is no
    /// file.
    fn own_length(&self, path: &str) -> io::Result<Option<u64>>
        ensures { own_lengths self.now path.now result };

    /// The file at a path, links followed, opened to be read from its start on, piece by piece. It
    /// may be a pipe.
    fn open(&self, path: &str) -> io::Result<Self::Opened>
        ensures { opens self.now path.now result };

    /// Where a path leads, from the top, links resolved.
    fn find_place(&self, alloc: Global, path: &str) -> io::Result<PathBuf>
        ensures { leads self.now path.now
            (result_map_both (λ place. path_buf_bytes place) (λ error. error) result) };
}

/// What reads files beside a run, by its words, as one. Each `Reads` is one, by the one impl below.
pub trait ReadsFiles: Reads {
    /// Its words.
    ghost file_words: { Self → FileWords };
}

impl<R: Reads> ReadsFiles for R
where
    R::Opened: Handle,
{
    ghost file_words = { λ rt. record {
      File = R.Opened;
      lengths = R.lengths rt;
      opens = R.opens rt;
      goes = R.Opened.Handle.own.goes;
      reads = R.Opened.Input.reads;
    } };
}

/// Reads the last bytes of the file at a path, links followed, by one read from where the room for
/// them begins, and gives how many that gave. What is no file isn't opened, and that is an error.
pub(crate) fn read_end<R: Reads>(rt: &R, path: &str, end: &mut [u8]) -> io::Result<usize>
    ensures { EndsSo (⟦<R as ReadsFiles>⟧.file_words rt.now) end.new result path.now }
{
    let Some(length) = rt.file_length(path)? else {
        return Err(io::Error::from(ErrorKind::InvalidInput));
    };
    let mut file = rt.open(path)?;
    file.seek(length.saturating_sub(end.len() as u64))?;
    file.read_piece(end)
}

/// What the file holds that stands at a path, a link not followed; none where it is no file, or has
/// more than 1,024 bytes. An error where the system gives one, or a growth was refused.
pub(crate) fn read_small<R: Reads + AllocGlobal>(
    rt: &R,
    path: &str,
) -> io::Result<Option<Vec<u8>>> {
    match rt.own_length(path)? {
        Some(length) if length <= MOST as u64 => {}
        _ => return Ok(None),
    }
    let mut file = rt.open(path)?;
    let mut held = Vec::new(rt.alloc());
    let mut piece = [0u8; MOST];
    // A file of so few bytes has no more reads, also where Linux tells no length of it.
    for _ in 0..MOST {
        let count = file.read_piece(&mut piece)?;
        if count == 0 {
            break;
        }
        held.extend_from_slice(&piece[..count])?;
    }
    Ok(Some(held))
}
