ghost use Rattle.std.specs.Prelude.{◌≡◌};
ghost use Rattle.pt_object.specs.Algorithm.{algorithm_word};
ghost use Rattle.pt_object.specs.Object.{sidecar_name};
ghost use Rattle.pt_object.specs.WellKnown.{known_text};

use crate::WellKnownName;

/// The digest algorithms that an inventory may name (OCFL 1.1, "Digests").
#[derive(Clone, Copy, Debug, PartialEq, Eq)]
pub enum Algorithm {
    /// SHA-512, of 64 bytes: `sha512`.
    Sha512,
    /// SHA-256, of 32 bytes: `sha256`.
    Sha256,
}

impl Algorithm {
    /// Its word in an inventory and in a sidecar's name: `sha512` or `sha256`.
    pub fn word(self) -> &'static str
        ensures { result.now ≡ algorithm_word self }
    {
        match self {
            Algorithm::Sha512 => "sha512",
            Algorithm::Sha256 => "sha256",
        }
    }

    /// The name of an inventory's sidecar (OCFL 1.1, "Inventory Digest").
    pub fn sidecar_name(self) -> WellKnownName
        ensures { known_text result ≡ sidecar_name self }
    {
        match self {
            Algorithm::Sha512 => WellKnownName::Sha512Sidecar,
            Algorithm::Sha256 => WellKnownName::Sha256Sidecar,
        }
    }
}
