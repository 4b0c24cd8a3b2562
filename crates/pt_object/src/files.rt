// The bytes of the files beside an object's contents and its inventory.
ghost use Rattle.std.specs.Prelude.{◌≡◌, IfOk};
ghost use Rattle.std.specs.String.{string_bytes};
ghost use Rattle.pt_object.specs.Files.{object_declaration_bytes, root_declaration_bytes};
ghost use Rattle.pt_object.specs.Files.{sidecar_line, sidecar_text};
ghost use Rattle.pt_object.specs.Algorithm.{digest_of};

use crate::{Algorithm, Digest};
use pt_tree::MemoryFault;
use sha2::{Digest as _, Sha256, Sha512};
use std::alloc::Global;

pub(crate) const ROOT_DECLARATION: &str = "ocfl_1.1\n";

/// What the file `0=ocfl_object_1.1` of an object holds (OCFL 1.1, "Object Conformance
/// Declaration").
pub fn object_declaration() -> &'static [u8]
    ensures { result.now ≡ object_declaration_bytes }
{
    b"ocfl_object_1.1\n"
}

/// What the file `0=ocfl_1.1` of a storage root holds (OCFL 1.1, "Root Conformance Declaration").
pub fn root_declaration() -> &'static [u8]
    ensures { result.now ≡ root_declaration_bytes }
{
    ROOT_DECLARATION.as_bytes()
}

/// The sidecar of an inventory's text: its digest in lower-case hex, a space, `inventory.json` and
/// LF (OCFL 1.1, "Inventory Digest"). `Memory` where a growth was refused.
pub fn sidecar(alloc: Global, text: &str, algorithm: Algorithm) -> Result<String, MemoryFault>
    ensures { IfOk result (λ line. string_bytes line ≡ sidecar_text algorithm text.now) }
{
    sidecar_of(alloc, &digest_of_text(algorithm, text))
}

/// The sidecar of the inventory that has this digest: the digest in lower-case hex, a space,
/// `inventory.json` and LF (OCFL 1.1, "Inventory Digest"). `Memory` where a growth was refused.
pub fn sidecar_of(alloc: Global, digest: &Digest) -> Result<String, MemoryFault>
    ensures { IfOk result (λ line. string_bytes line ≡ sidecar_line digest.now) }
{
    let mut line = digest.hex(alloc)?;
    line.push_str(" inventory.json\n")?;
    Ok(line)
}

fn digest_of_text(algorithm: Algorithm, text: &str) -> Digest
    ensures { result ≡ digest_of algorithm text.now }
{
    match algorithm {
        Algorithm::Sha512 => Digest::long(Sha512::digest(text)),
        Algorithm::Sha256 => Digest::short(Sha256::digest(text)),
    }
}
