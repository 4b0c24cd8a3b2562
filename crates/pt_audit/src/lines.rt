//! The lines of an audit's log: each one compact JSON object with its keys in byte order, and LF.
//! They (`object_line`, `end_line`) are the JSON of what they tell, byte for byte; of an object's
//! bytes up to 2^64 - 1.
ghost use Rattle.std.specs.Prelude.{◌≡◌, IfOk};
ghost use Rattle.std.specs.String.{string_bytes};
ghost use Rattle.pt_audit.specs.Lines.{end_by, line_by, line_text, standing_by};
ghost use Rattle.pt_audit.specs.Lines as line;
ghost use Rattle.pt_audit.specs.Lines.{told_of};

use crate::auditing::AuditFinding;
use crate::{CompareBy, Comparison, Counts};
use pt_plan::lines::{ToldObject, text_of};
use pt_plan::members::Member::{Number, Path, Text};
use pt_plan::members::line_with;
use pt_tree::{MemoryFault, NamePath};
use std::alloc::Global;

// Why a twin differs, in the place of what is wrong at the path.
const TWIN: &str = "twin";

/// The line of an object, by what was compared, and what was found at its place.
pub(crate) fn object_line(
    alloc: Global,
    by: CompareBy,
    object: &ToldObject<'_>,
    finding: &AuditFinding,
) -> Result<String, MemoryFault>
    ensures { IfOk result (λ text. string_bytes text
        ≡ line_text (line_by by (told_of object.now) finding.now.is_twin finding.now.comparison)) }
{
    match &finding.comparison {
        Comparison::Same => standing_line(alloc, by, object),
        Comparison::Absent => absent_line(alloc, object),
        Comparison::Differs(difference) => {
            let why = if finding.is_twin {
                TWIN
            } else {
                difference.why.word()
            };
            differs_line(alloc, object, &difference.path, why)
        }
    }
}

// The line of an object that stands, by what was compared.
fn standing_line(
    alloc: Global,
    by: CompareBy,
    object: &ToldObject<'_>,
) -> Result<String, MemoryFault>
    ensures { IfOk result
        (λ text. string_bytes text ≡ line_text (standing_by by (told_of object.now))) }
{
    match by {
        CompareBy::Bytes => same_line(alloc, object),
        CompareBy::Lengths => alike_line(alloc, object),
    }
}

fn same_line(alloc: Global, object: &ToldObject<'_>) -> Result<String, MemoryFault>
    ensures { IfOk result (λ text. string_bytes text ≡ line_text (line.Same (told_of object.now))) }
{
    let members = [
        Text("as", "same"),
        Path("at", text_of(&object.at)?),
        Number("bytes", object.bytes),
        Number("empty", object.empty),
        Number("files", object.files),
        Text("id", object.id.as_str()),
        Path("to", text_of(object.to)?),
    ];
    line_with(alloc, &members)
}

fn alike_line(alloc: Global, object: &ToldObject<'_>) -> Result<String, MemoryFault>
    ensures { IfOk result
        (λ text. string_bytes text ≡ line_text (line.Alike (told_of object.now))) }
{
    let members = [
        Text("as", "alike"),
        Path("at", text_of(&object.at)?),
        Number("files", object.files),
        Text("id", object.id.as_str()),
        Path("to", text_of(object.to)?),
    ];
    line_with(alloc, &members)
}

fn absent_line(alloc: Global, object: &ToldObject<'_>) -> Result<String, MemoryFault>
    ensures { IfOk result
        (λ text. string_bytes text ≡ line_text (line.Absent (told_of object.now))) }
{
    let members = [
        Text("as", "absent"),
        Path("at", text_of(&object.at)?),
        Text("id", object.id.as_str()),
        Path("to", text_of(object.to)?),
    ];
    line_with(alloc, &members)
}

fn differs_line(
    alloc: Global,
    object: &ToldObject<'_>,
    path: &NamePath,
    why: &'static str,
) -> Result<String, MemoryFault>
    ensures { IfOk result (λ text. string_bytes text
        ≡ line_text (line.Differs (told_of object.now) path.now why.now)) }
{
    let members = [
        Text("as", "differs"),
        Path("at", text_of(&object.at)?),
        Text("id", object.id.as_str()),
        Path("path", text_of(path)?),
        Path("to", text_of(object.to)?),
        Text("why", why),
    ];
    line_with(alloc, &members)
}

/// The end line, by what was compared, with these counts.
pub(crate) fn end_line(alloc: Global, by: CompareBy, counts: &Counts) -> Result<String, MemoryFault>
    ensures { IfOk result (λ text. string_bytes text ≡ line_text (end_by by counts.now)) }
{
    match by {
        CompareBy::Bytes => whole_end_line(alloc, counts),
        CompareBy::Lengths => quick_end_line(alloc, counts),
    }
}

fn whole_end_line(alloc: Global, counts: &Counts) -> Result<String, MemoryFault>
    ensures { IfOk result (λ text. string_bytes text ≡ line_text (line.End counts.now.same
        counts.now.absent counts.now.differs counts.now.skipped)) }
{
    let members = [
        Number("absent", counts.absent),
        Text("as", "end"),
        Number("differs", counts.differs),
        Number("same", counts.same),
        Number("skip", counts.skipped),
    ];
    line_with(alloc, &members)
}

fn quick_end_line(alloc: Global, counts: &Counts) -> Result<String, MemoryFault>
    ensures { IfOk result (λ text. string_bytes text ≡ line_text (line.QuickEnd counts.now.same
        counts.now.absent counts.now.differs counts.now.skipped)) }
{
    let members = [
        Number("absent", counts.absent),
        Number("alike", counts.same),
        Text("as", "end"),
        Number("differs", counts.differs),
        Number("skip", counts.skipped),
    ];
    line_with(alloc, &members)
}
