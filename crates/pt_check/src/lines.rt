//! The lines of a check: each one compact JSON object with its keys in byte order, and LF.
ghost use Rattle.std.specs.Prelude.{◌≡◌, ◌<◌, IfOk, OnOk};
ghost use Rattle.std.specs.String.{string_bytes};
ghost use Rattle.pt_check.specs.Counting.{depths};
ghost use Rattle.pt_check.specs.Lines.{Adds, class_member, end_member, line_text, part_members};
ghost use Rattle.pt_check.specs.Lines as line;
ghost use Rattle.pt_check.specs.declared.end_key.EndPart.TheVariants as part;

use crate::end_key::end_parts;
use crate::{Breakdown, EndKey, EndPart, Numbers, Trouble};
use pt_plan::lines::text_of;
use pt_plan::members::Member::{Number, Path, Text};
use pt_plan::members::{Member, line_with};
use pt_tree::{MemoryFault, NamePath};
use std::alloc::{AllocError, Global};

/// The line of a trouble at a path.
pub(crate) fn trouble_line(
    alloc: Global,
    path: &NamePath,
    trouble: Trouble,
) -> Result<String, MemoryFault>
    ensures { IfOk result (λ text. string_bytes text ≡ line_text (line.Told path.now trouble)) }
{
    let members = [Text("as", trouble.word()), Path("path", text_of(path)?)];
    line_with(alloc, &members)
}

/// The line of a path that couldn't be read, for this reason.
pub(crate) fn unreadable_line(
    alloc: Global,
    path: &NamePath,
    reason: &str,
) -> Result<String, MemoryFault>
    ensures { IfOk result (λ text. string_bytes text
        ≡ line_text (line.Unreadable path.now reason.now)) }
{
    let members = [
        Text("as", "unreadable"),
        Path("path", text_of(path)?),
        Text("reason", reason),
    ];
    line_with(alloc, &members)
}

/// The line of the numbers at the end: those of a check, those of each class that has any, and
/// those of the lines of each kind that there is.
pub(crate) fn end_line(alloc: Global, numbers: &Numbers) -> Result<String, MemoryFault>
    ensures { IfOk result (λ text. string_bytes text ≡ line_text (line.End numbers.now)) }
{
    let parts = end_parts();
    let mut members = Vec::with_capacity(alloc, parts.len() + 1)?;
    members.push(Text("as", "end"))?;
    for part in parts {
        push_part(&mut members, *part, numbers)?;
    }
    line_with(alloc, members.as_slice())
}

// Adds the members of a part to others.
fn push_part(
    members: &mut Vec<Member<'static>>,
    part: EndPart,
    numbers: &Numbers,
) -> Result<(), AllocError>
    ensures { OnOk result (Adds (part_members numbers.now part)
        members.old.items members.new.items) }
{
    match part {
        EndPart::One(key) => push_key(members, key, numbers),
        EndPart::Each(breakdown) => push_classes(members, breakdown, numbers),
    }
}

// Adds the member of a key to others, if a line of these numbers has it.
fn push_key(
    members: &mut Vec<Member<'static>>,
    key: EndKey,
    numbers: &Numbers,
) -> Result<(), AllocError>
    ensures { OnOk result (Adds (end_member numbers.now key) members.old.items members.new.items) }
{
    if key.is_told(numbers) {
        members.push(Number(key.word(), key.count(numbers)))?;
    }
    Ok(())
}

// Adds the members of the classes of which something was counted to others.
fn push_classes(
    members: &mut Vec<Member<'static>>,
    breakdown: Breakdown,
    numbers: &Numbers,
) -> Result<(), AllocError>
    ensures { OnOk result (Adds (part_members numbers.now (part.Each breakdown))
        members.old.items members.new.items) }
{
    let counts = breakdown.counts(numbers);
    for (class, count) in counts.iter().enumerate() {
        push_class(members, breakdown, class, *count)?;
    }
    Ok(())
}

// Adds the member of a class to others, if something was counted of it.
fn push_class(
    members: &mut Vec<Member<'static>>,
    breakdown: Breakdown,
    class: usize,
    count: u64,
) -> Result<(), AllocError>
    requires { class < depths }
    ensures { OnOk result (Adds (class_member breakdown class count)
        members.old.items members.new.items) }
{
    if count > 0 {
        members.push(Number(breakdown.word(class), count))?;
    }
    Ok(())
}
