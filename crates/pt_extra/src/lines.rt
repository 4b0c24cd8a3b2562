//! The lines of what a store lacks: each one compact JSON object with its keys in byte order, and
//! LF.
ghost use Rattle.std.specs.Prelude.{◌≡◌, IfOk};
ghost use Rattle.std.specs.String.{string_bytes};
ghost use Rattle.pt_audit.specs.declared.compare_by.CompareBy.TheVariants as by;
ghost use Rattle.pt_extra.specs.Lines.{Extra, Stray, Unlisted, last_text, line_text};

use crate::AuditCounts;
use crate::spelling::spell_between;
use pt_audit::CompareBy;
use pt_plan::lines::text_of;
use pt_plan::members::Member::{Number, Path, Text};
use pt_plan::members::line_with;
use pt_tree::{MemoryFault, NamePath};
use std::alloc::Global;

// What the line of an object that the store doesn't have begins with, as far as its identifier.
const BEFORE_ID: &str = "{\"as\":\"extra\",\"id\":\"";

/// The line of what is stray at a path.
pub(crate) fn stray_line(alloc: Global, to: &NamePath) -> Result<String, MemoryFault>
    ensures { IfOk result (λ text. string_bytes text ≡ line_text (Stray to.now)) }
{
    let members = [Text("as", "stray"), Path("to", text_of(to)?)];
    line_with(alloc, &members)
}

/// The line of what is stray at a path, since the folder there couldn't be listed whole, for this
/// reason.
pub(crate) fn unlisted_line(
    alloc: Global,
    reason: &str,
    to: &NamePath,
) -> Result<String, MemoryFault>
    ensures { IfOk result (λ text. string_bytes text ≡ line_text (Unlisted reason.now to.now)) }
{
    let members = [
        Text("as", "stray"),
        Text("reason", reason),
        Path("to", text_of(to)?),
    ];
    line_with(alloc, &members)
}

/// The line of an object at its place that the store doesn't have. It is made where the identifier
/// stands, which may be as long as an inventory: a second copy isn't held.
pub(crate) fn extra_line(alloc: Global, id: String, to: &NamePath) -> Result<Vec<u8>, MemoryFault>
    ensures { IfOk result (λ line. line.items ≡ line_text (Extra (string_bytes id) to.now)) }
{
    let members = [
        Text("as", "extra"),
        Text("id", ""),
        Path("to", text_of(to)?),
    ];
    let around = line_with(alloc, &members)?;
    let (before, behind) = around.as_bytes().split_at(BEFORE_ID.len());
    spell_between(before, id, behind)
}

/// The end line, by what was compared, with these counts.
pub(crate) fn end_line(
    alloc: Global,
    by: CompareBy,
    told: &AuditCounts,
) -> Result<String, MemoryFault>
    ensures { IfOk result (λ text. string_bytes text ≡ last_text by told.now) }
{
    match by {
        CompareBy::Bytes => whole_end_line(alloc, told),
        CompareBy::Lengths => quick_end_line(alloc, told),
    }
}

fn whole_end_line(alloc: Global, told: &AuditCounts) -> Result<String, MemoryFault>
    ensures { IfOk result (λ text. string_bytes text ≡ last_text by.Bytes told.now) }
{
    let members = [
        Number("absent", told.counts.absent),
        Text("as", "end"),
        Number("differs", told.counts.differs),
        Number("extra", told.numbers.extra),
        Number("same", told.counts.same),
        Number("skip", told.counts.skipped),
        Number("stray", told.numbers.stray),
    ];
    line_with(alloc, &members)
}

fn quick_end_line(alloc: Global, told: &AuditCounts) -> Result<String, MemoryFault>
    ensures { IfOk result (λ text. string_bytes text ≡ last_text by.Lengths told.now) }
{
    let members = [
        Number("absent", told.counts.absent),
        Number("alike", told.counts.same),
        Text("as", "end"),
        Number("differs", told.counts.differs),
        Number("extra", told.numbers.extra),
        Number("skip", told.counts.skipped),
        Number("stray", told.numbers.stray),
    ];
    line_with(alloc, &members)
}
