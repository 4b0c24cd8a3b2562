//! What standard error is told of a list's identifiers of which no object was met, and the status
//! of that.
ghost use Rattle.std.specs.List.{list_all};
ghost use Rattle.std.specs.Prelude.{◌≡◌, IfOk, false, is_none, not, string_bytes, true};
ghost use Rattle.pt_host.specs.Ends.{status_with};
ghost use Rattle.pt_host.specs.Told.{IsUnmetLine, Tells, TellsOne, TellsUnlessFault, TellsUnmet};

use crate::operation::Conclusion;
use crate::status::{DONE, INCOMPLETE};
use crate::{Host, Machine};
use pt_messages::escape;
use pt_name::UnmetIdentifiers;
use std::alloc::{AllocError, Global};

/// The status of a run or an audit that ended so and, where it has a list, left identifiers of it
/// unmet: 1 in place of 0, where there are some. Standard error is told of each, unless a fault
/// ended it.
pub(crate) fn end_with_list<H: Host>(
    alloc: Global,
    host: &mut H,
    has_list: bool,
    ended: &Conclusion,
) -> u8
    ensures none { has_list ≡ false → result ≡ ended.now.status }
    ensures some { has_list ≡ true → result ≡ status_with ended.now.unmet ended.now.status }
    ensures untold { has_list ≡ false → host.new ≡ host.old }
    ensures told { has_list ≡ true → TellsUnlessFault (Tells ⟦<H as Machine>⟧.words)
        ended.now.status ended.now.unmet host.old host.new }
{
    let status = ended.status;
    if !has_list || (status != DONE && status != INCOMPLETE) {
        return status;
    }
    if tells_each(alloc, host, &ended.unmet) && status == DONE {
        return INCOMPLETE;
    }
    status
}

// Tells of each that is unmet, on a line of its own, and whether there are some.
fn tells_each<H: Host>(alloc: Global, host: &mut H, unmet: &UnmetIdentifiers) -> bool
    ensures some { result ≡ not (list_all is_none unmet.now) }
    ensures told { TellsUnmet (Tells ⟦<H as Machine>⟧.words) unmet.now host.old host.new }
{
    let mut some = false;
    for position in 0..unmet.len() {
        if let Some(id) = unmet.at(position) {
            tell(alloc, host, id);
            some = true;
        }
    }
    some
}

// Tells of an identifier of which no object was met. Where there is no memory for its text as that
// may be shown, the line says so.
fn tell<H: Host>(alloc: Global, host: &mut H, id: &str)
    ensures { TellsOne (Tells ⟦<H as Machine>⟧.words) id.now host.old host.new }
{
    match line_of(alloc, id) {
        Ok(line) => host.tell(line.as_str()),
        Err(_) => host.tell(
            "pairtree2ocfl: no object was met: an identifier that there is no memory to show\n",
        ),
    }
}

// The line of an identifier of which no object was met. An error where a growth was refused.
fn line_of(alloc: Global, id: &str) -> Result<String, AllocError>
    ensures { IfOk result (λ line. IsUnmetLine id.now (string_bytes line)) }
{
    let id = escape(alloc, id)?;
    format!(in alloc; "pairtree2ocfl: no object was met: {id}\n")
}
