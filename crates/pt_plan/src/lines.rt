//! The lines of a run's log as texts: each one compact JSON object with its keys in byte order, and
//! LF.

ghost use Rattle.std.specs.Prelude.{◌≡◌, IfOk};
ghost use Rattle.std.specs.String.{string_bytes};
ghost use Rattle.pt_plan.specs.Lines.{line_text};
ghost use Rattle.pt_plan.specs.Lines.{Present as PresentLine, Skipped as SkippedLine};
ghost use Rattle.pt_plan.specs.Lines.{End as EndLine};
ghost use Rattle.pt_plan.specs.ToldLines.{done_of};
ghost use Rattle.pt_tree.specs.Path.{joined};

use crate::members::Member::{Number, Path, Text};
use crate::members::line_with;
use pt_name::Identifier;
use pt_tree::{MemoryFault, NamePath};
use pt_walk::Cause;
use std::alloc::Global;

/// An object whose files were all read, as a line tells of it.
#[derive(Drop)]
pub struct ToldObject<'m> {
    /// Where it lies in the source, from below `pairtree_root` on.
    pub at: NamePath,
    /// The lengths of its files together.
    pub bytes: u64,
    /// How many directories without entries it has.
    pub empty: u64,
    /// How many files it has.
    pub files: u64,
    /// Its identifier.
    pub id: &'m Identifier,
    /// Its place, from the storage root on.
    pub to: &'m NamePath,
}

/// The line of an object that was carried; `Memory` where a growth was refused.
pub fn done_line(alloc: Global, object: &ToldObject<'_>) -> Result<String, MemoryFault>
    ensures { IfOk result (λ text. string_bytes text ≡ line_text (done_of object.now)) }
{
    let members = [
        Text("as", "done"),
        Path("at", text_of(&object.at)?),
        Number("bytes", object.bytes),
        Number("empty", object.empty),
        Number("files", object.files),
        Text("id", object.id.as_str()),
        Path("to", text_of(object.to)?),
    ];
    line_with(alloc, &members)
}

/// The line of an object whose place is taken already; `Memory` where a growth was refused.
pub fn present_line(
    alloc: Global,
    at: &NamePath,
    id: &Identifier,
    to: &NamePath,
) -> Result<String, MemoryFault>
    ensures { IfOk result (λ text. string_bytes text
        ≡ line_text (PresentLine at.now id.now to.now)) }
{
    let members = [
        Text("as", "present"),
        Path("at", text_of(at)?),
        Text("id", id.as_str()),
        Path("to", text_of(to)?),
    ];
    line_with(alloc, &members)
}

/// The line of a site, or of a shorty that isn't walked, that is passed over; `Memory` where a
/// growth was refused.
pub fn skip_line(alloc: Global, at: &NamePath, cause: Cause) -> Result<String, MemoryFault>
    ensures { IfOk result (λ text. string_bytes text ≡ line_text (SkippedLine at.now cause)) }
{
    let members = [
        Text("as", "skip"),
        Path("at", text_of(at)?),
        Text("cause", cause.word()),
    ];
    line_with(alloc, &members)
}

/// The end line of a run that told so many lines of each kind; `Memory` where a growth was refused.
pub fn end_line(alloc: Global, done: u64, present: u64, skipped: u64) -> Result<String, MemoryFault>
    ensures { IfOk result (λ text. string_bytes text ≡ line_text (EndLine done present skipped)) }
{
    let members = [
        Text("as", "end"),
        Number("done", done),
        Number("present", present),
        Number("skip", skipped),
    ];
    line_with(alloc, &members)
}

/// The names of a path with `/` between, as a line tells of it; `Memory` where a growth was
/// refused.
pub fn text_of(path: &NamePath) -> Result<String, MemoryFault>
    ensures { IfOk result (λ text. string_bytes text ≡ joined path.now) }
{
    // SAFETY: names are UTF-8 (`is_name`), also with `/` between them.
    Ok(unsafe { String::from_utf8_unchecked(path.join()?) })
}
