//! The two names of an identifier.
//!
//! For every layout and prefix, over every output that tells what it holds: where `names_to`
//! answers Ok, exactly the two lines were added; after `Write` a front of them was; after the other
//! refusals nothing was. `Empty` is answered exactly for the empty identifier.
ghost use Rattle.std.specs.Prelude.{◌≡◌, ◌↔◌, ◌++◌, ◌∷◌, [], IfOk, IfErr, OnOk, length, ◌<◌};
ghost use Rattle.std.specs.Prelude.{IsErrOf};
ghost use Rattle.std.specs.Io.KnownBytes.{Appends};
ghost use Rattle.pt_cli.specs.Names.{names_text, names_number, LeavesWritten};

use pt_name::{Layout, pairpath};
use pt_tree::{MemoryFault, write_out};
use std::alloc::Global;
use std::io::Write;
use thiserror::Error;

/// Why the names of an identifier weren't written whole.
#[derive(Clone, Copy, Debug, PartialEq, Eq, Error)]
pub enum NamesFault {
    /// The identifier is empty. Nothing was written.
    #[error("the identifier is empty")]
    Empty,
    /// The output failed. A front of the two lines may have been written.
    #[error("cannot write the output")]
    Write,
    /// A growth was refused. Nothing was written.
    #[error("out of memory")]
    Memory,
}

impl NamesFault {
    /// The fault's number: 1 `Empty`, 2 `Write`, 3 `Memory`.
    pub fn number(&self) -> u8
        ensures { result ≡ names_number self.now }
    {
        match self {
            NamesFault::Empty => 1,
            NamesFault::Write => 2,
            NamesFault::Memory => 3,
        }
    }
}

impl From<MemoryFault> for NamesFault {
    ghost use Rattle.std.specs.Prelude.{◌≡◌};
    ghost use Rattle.pt_cli.specs.declared.names.NamesFault.TheVariants.{Memory};

    ghost from_gives = { λ _ e. e ≡ Memory };

    fn from(_: MemoryFault) -> Self {
        NamesFault::Memory
    }
}

/// Writes the pairpath of an identifier by Pairtree 0.1, LF, the place of a prefix with the
/// identifier behind in a layout of extension 0003-hash-and-id-n-tuple-storage-layout, LF; then
/// flushes.
///
/// `Empty` for the empty identifier, which is tested first. `Memory` where a growth was refused,
/// before anything is written. `Write` where the output answers an error, or takes nothing of a
/// piece that isn't empty: a front of the two lines was written then. After the other refusals
/// nothing was.
pub fn names_to<W: Write>(
    alloc: Global,
    layout: &Layout,
    prefix: &str,
    id: &str,
    out: &mut W,
) -> Result<(), NamesFault>
    ensures empty { IsErrOf result NamesFault.Empty ↔ (id.now ≡ []) }
    ensures ok { OnOk result (Appends (W.contents out.old) (W.contents out.new)
        (names_text layout.now prefix.now id.now)) }
    ensures err { IfErr result (λ fault. LeavesWritten fault (W.contents out.old)
        (W.contents out.new) (names_text layout.now prefix.now id.now)) }
{
    if id.is_empty() {
        return Err(NamesFault::Empty);
    }
    let text = two_lines(alloc, layout, prefix.as_bytes(), id.as_bytes())?;
    write_out(out, &text).map_err(|_| NamesFault::Write)
}

// The two lines of an identifier that isn't empty.
fn two_lines(
    alloc: Global,
    layout: &Layout,
    prefix: &[u8],
    id: &[u8],
) -> Result<Vec<u8>, MemoryFault>
    requires { 0 < length id.now }
    ensures { IfOk result (λ text. text.items ≡ names_text layout.now prefix.now id.now) }
{
    let place = layout.place_text(alloc, &with_prefix(alloc, prefix, id)?)?;
    let mut text = pairpath(alloc, id)?;
    add_lines(&mut text, &place)?;
    Ok(text)
}

// Ends a line, and puts another behind it.
fn add_lines(text: &mut Vec<u8>, line: &[u8]) -> Result<(), MemoryFault>
    ensures { OnOk result (text.new.items ≡ text.old.items ++ 10 ∷ line.now ++ 10 ∷ []) }
{
    text.push(b'\n')?;
    text.extend_from_slice(line)?;
    text.push(b'\n')?;
    Ok(())
}

// A prefix with an identifier behind.
fn with_prefix(alloc: Global, prefix: &[u8], id: &[u8]) -> Result<Vec<u8>, MemoryFault>
    ensures { IfOk result (λ whole. whole.items ≡ prefix.now ++ id.now) }
{
    let mut whole = Vec::new(alloc);
    whole.extend_from_slice(prefix)?;
    whole.extend_from_slice(id)?;
    Ok(whole)
}
