//! What the folders of a run share: texts of paths, and how the system's errors are answered and
//! counted.
ghost use Rattle.std.specs.Prelude.{◌≡◌, ◌≢◌, ◌↔◌, ◌+◌, ◌≤◌, Err, IfOk, IfSome, IsSomeAnd, OnOk};
ghost use Rattle.std.specs.Prelude.{IsErrOf};
ghost use Rattle.std.specs.Prelude.{IsTrue, length, min, string_bytes, string_capacity, string_len};
ghost use Rattle.std.specs.Prelude.{true};
ghost use Rattle.pt_tree.specs.Name.{is_name};
ghost use Rattle.pt_folder.specs.Laws.{IsPath};
ghost use Rattle.std.specs.IoError.{error_kind};
ghost use Rattle.pt_tree.specs.Failures.{IsCounted};
ghost use Rattle.pt_folder.specs.Folder.{entry_text, IsAbsent, fault_of_kind};
ghost use Rattle.pt_folder.specs.Calls.{CannotMake};
ghost use Rattle.pt_folder.specs.Failure.{IsAt, IsUnasked, KeepsUnmade, OnDevice};
ghost use Rattle.pt_folder.specs.Settings.{greatest_length};

use crate::failure::{Failure, FailureReason, Last};
use pt_tree::{MemoryFault, Name, NamePath, TreeFault};
use std::alloc::{AllocError, Global};
use std::io;

// How many bytes of a path's text are asked for with each of its names: as many as most have with
// their slash.
const NAME_ROOM: usize = 22;

/// A folder of the system, by its path.
#[derive(Drop)]
pub struct Folder<'a> {
    pub path: &'a str,
}

impl<'a> Folder<'a> {
    /// The system's path of an entry: the folder's, `/`, the names with `/` between. `Device` where
    /// the folder's is empty, since the path would lead to the top of the file system, which is
    /// kept as the last failure; else `Memory` where a growth was refused.
    pub fn text(&self, path: &NamePath, last: &mut Last) -> Result<String, TreeFault>
        ensures text { IfOk result
            (λ text. string_bytes text ≡ entry_text self.now.path.now path.now) }
        ensures named { OnOk result (IsPath path.now) }
        ensures empty { IsErrOf result TreeFault.Device ↔ (length self.now.path.now ≡ 0) }
        ensures kept { OnDevice result (IsSomeAnd last.new.failure (IsUnasked self.now.path.now)) }
    {
        self.text_with_room(path, 0, last)
    }

    /// The same, with room for so many bytes more.
    pub fn text_with_room(
        &self,
        path: &NamePath,
        room: usize,
        last: &mut Last,
    ) -> Result<String, TreeFault>
        ensures text { IfOk result
            (λ text. string_bytes text ≡ entry_text self.now.path.now path.now) }
        ensures room { IfOk result (λ text. string_len text + room ≤ string_capacity text) }
        ensures named { OnOk result (IsPath path.now) }
        ensures empty { IsErrOf result TreeFault.Device ↔ (length self.now.path.now ≡ 0) }
        ensures kept { OnDevice result (IsSomeAnd last.new.failure (IsUnasked self.now.path.now)) }
    {
        if self.path.is_empty() {
            last.keep(String::new(last.alloc), FailureReason::Empty);
            return Err(TreeFault::Device);
        }
        Ok(path_text(last.alloc, self.path, path, room)?)
    }

    /// The same of an entry that is to be made: `Device` also where its path is longer than any
    /// that may be made.
    pub fn text_to_make(
        &self,
        path: &NamePath,
        longest: usize,
        last: &mut Last,
    ) -> Result<String, TreeFault>
        ensures text { IfOk result
            (λ text. string_bytes text ≡ entry_text self.now.path.now path.now) }
        ensures named { OnOk result (IsPath path.now) }
        ensures fits { OnOk result (length (entry_text self.now.path.now path.now) ≤ longest) }
        ensures filled { IfOk result (λ _. length self.now.path.now ≢ 0) }
        ensures refused { IsErrOf result TreeFault.Device
            → CannotMake longest self.now.path.now path.now }
        ensures kept { OnDevice result
            (KeepsUnmade longest self.now.path.now path.now last.new.failure) }
    {
        let text = self.text(path, last)?;
        if text.len() > longest {
            last.keep(text, FailureReason::Long);
            return Err(TreeFault::Device);
        }
        Ok(text)
    }

    /// Keeps the system's error at the path of an entry, and gives what it is answered. None is
    /// kept where there is no memory for the path.
    pub fn record_error_at(&self, path: &NamePath, error: io::Error, last: &mut Last) -> TreeFault
        ensures fault { result ≡ fault_of_kind (error_kind error) }
        ensures kept { IfSome last.new.failure
            (IsAt (entry_text self.now.path.now path.now) (FailureReason.System error)) }
    {
        last.failure = match kept_text(last.alloc, self.path, path) {
            Ok(text) => Some(Failure::at(text, FailureReason::System(error))),
            Err(_) => None,
        };
        fault_of(error)
    }
}

// The path of an entry, with room for so many bytes more. The bytes of the folder and of the names
// are text, and so are all of them with `/` between. The text grows where names are long: to ask
// each for its length first takes nearly as long as to write it.
fn path_text(
    alloc: Global,
    folder: &str,
    path: &NamePath,
    room: usize,
) -> Result<String, MemoryFault>
    ensures text { IfOk result (λ text. string_bytes text ≡ entry_text folder.now path.now) }
    ensures room { IfOk result (λ text. string_len text + room ≤ string_capacity text) }
    ensures named { OnOk result (IsPath path.now) }
{
    let names = path.len().saturating_add(1).saturating_mul(NAME_ROOM);
    let own = folder.len().saturating_add(names);
    let mut text = Vec::with_capacity(alloc, own.saturating_add(room))?;
    text.extend_from_slice(folder.as_bytes())?;
    text.push(b'/')?;
    path.join_behind(&mut text)?;
    text.reserve(room)?;
    // SAFETY: the folder is a text, and names are UTF-8 (`is_name`), also with `/` between them.
    Ok(unsafe { String::from_utf8_unchecked(text) })
}

// The path of an entry, as a failure keeps it: just the room that it takes is asked for, at once.
fn kept_text(alloc: Global, folder: &str, path: &NamePath) -> Result<String, AllocError>
    ensures { IfOk result (λ text. string_bytes text ≡ entry_text folder.now path.now) }
{
    let mut text = String::with_capacity(alloc, text_len(folder, path))?;
    text.push_str(folder)?;
    for name in path.names() {
        text.push('/')?;
        text.push_str(name_text(name))?;
    }
    if path.is_empty() {
        text.push('/')?;
    }
    Ok(text)
}

// How many bytes the path of an entry has, up to 2^64 - 1: each name has a slash before it, and the
// top has one too.
fn text_len(folder: &str, path: &NamePath) -> usize
    ensures { result ≡ min (length (entry_text folder.now path.now)) greatest_length }
{
    let mut len = folder.len();
    for name in path.names() {
        len = len.saturating_add(1).saturating_add(name.bytes().len());
    }
    if path.is_empty() {
        return len.saturating_add(1);
    }
    len
}

/// A name as a text. Its bytes are text, so they aren't looked at as `from_utf8` would.
pub fn name_text(name: &Name) -> &str
    ensures same { result.now ≡ name.now }
    ensures named { is_name name.now ≡ true }
{
    let bytes = name.bytes();
    // SAFETY: a name's bytes are UTF-8 (`is_name`).
    unsafe { str::from_utf8_unchecked(bytes) }
}

/// What an error of the system is answered: `Memory` for want of memory, else `Device`.
pub fn fault_of(error: io::Error) -> TreeFault
    ensures { result ≡ fault_of_kind (error_kind error) }
{
    if error.kind() == io::ErrorKind::OutOfMemory {
        TreeFault::Memory
    } else {
        TreeFault::Device
    }
}

/// Whether an error says that nothing is there, or that a parent isn't a directory.
pub fn is_absent(error: &io::Error) -> bool
    ensures { IsTrue result ↔ IsAbsent (error_kind error.now) }
{
    matches!(
        error.kind(),
        io::ErrorKind::NotFound | io::ErrorKind::NotADirectory
    )
}

/// Counts an answer `Device` as a failure, up to 2^64 - 1, and gives the answer.
pub fn count_failure<T>(failures: &mut u64, answer: Result<T, TreeFault>) -> Result<T, TreeFault>
    ensures same { result ≡ answer }
    ensures counted { IsCounted failures.old failures.new answer }
{
    if let Err(TreeFault::Device) = answer {
        *failures = failures.saturating_add(1);
    }
    answer
}
