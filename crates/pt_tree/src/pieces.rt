// The pieces of a path's text.
ghost use Rattle.std.specs.Prelude.{◌≡◌, ◌==◌, ◌++◌, [], ◌∷◌, IfErr, IsTrue, OnOk};
ghost use Rattle.std.specs.List.{position};
ghost use Rattle.pt_tree.specs.Name.{is_name};
ghost use Rattle.pt_tree.specs.Pieces.{IsRefusal, pieces};

use crate::{Name, NameFault, NamePath};
use std::alloc::Global;

/// Adds the pieces of a text, as its slashes cut it, to a path.
pub(crate) fn add_pieces(alloc: Global, path: &mut NamePath, text: &[u8]) -> Result<(), NameFault>
    ensures added { OnOk result (path.new ≡ path.old ++ pieces text.now) }
    ensures refused { IfErr result (λ fault. IsRefusal (pieces text.now) fault) }
{
    match slash_at(text) {
        Some(end) => {
            add_piece(alloc, path, &text[..end])?;
            add_pieces(alloc, path, &text[end + 1..])
        }
        None => add_piece(alloc, path, text),
    }
}

// Where the first slash stands.
fn slash_at(bytes: &[u8]) -> Option<usize>
    ensures { result ≡ position (λ byte. byte == 47) bytes.now }
{
    bytes.iter().position(|byte| *byte == b'/')
}

// Adds one piece.
fn add_piece(alloc: Global, path: &mut NamePath, bytes: &[u8]) -> Result<(), NameFault>
    ensures added { OnOk result (path.new ≡ path.old ++ bytes.now ∷ []) }
    ensures named { OnOk result (IsTrue (is_name bytes.now)) }
    ensures refused { IfErr result (λ fault. IsRefusal (bytes.now ∷ []) fault) }
{
    let name = Name::of(alloc, bytes)?;
    match path.push(name) {
        Ok(()) => Ok(()),
        Err(_) => Err(NameFault::Memory),
    }
}
