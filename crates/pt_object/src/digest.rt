ghost use Rattle.std.specs.Prelude.{◌≡◌, ◌⊎◌, IfOk, Some, length};
ghost use Rattle.std.specs.Str.{bytes_eq};
ghost use Rattle.std.specs.String.{string_bytes};
ghost use Rattle.std.specs.Cmp.{partial_equiv_from_equiv};
ghost use Rattle.std.specs.Cmp.Lexicographic.{nat_list_eq_equiv, nat_list_cmp_total, texts_ties};
ghost use Rattle.std.specs.Cmp.Lexicographic.{texts_po};
ghost use Rattle.std.proofs.Common.{rules};
ghost use Rattle.hex.specs.Hex.{encode_lower};
ghost use Rattle.pt_object.specs.Digest.{digest_cmp};
ghost use Rattle.pt_object.specs.HexDigest.{digest_in, hex_digest};
ghost use Rattle.pt_object.specs.Keys.{key_of};

use crate::Algorithm;
use hex::FromHex;
use pt_tree::MemoryFault;
use std::alloc::Global;
use std::cmp::Ordering;
use std::marker::Model;

// The bytes of a digest, by their number.
#[derive(Clone, Copy, Debug)]
enum Bytes {
    Short([u8; 32]),
    Long([u8; 64]),
}

/// A digest, seen as its bytes: 32 of SHA-256 or 64 of SHA-512. Digests come in the order of their
/// bytes.
#[derive(Clone, Copy, Debug)]
pub struct Digest {
    bytes: Bytes,
}

impl Model for Digest {
    ghost use Rattle.std.specs.Prelude.{◌≡◌, List, ℕ, length};
    ghost use Rattle.std.proofs.Common.{ap};
    ghost use Rattle.pt_object.specs.Digest.{bytes_of, size_of, with_bytes, with_bytes-bytes_of};

    ghost Value = { List ℕ };

    ghost view = { λ d. bytes_of d.bytes };

    ghost invariant = { λ d. length (bytes_of d.bytes) ≡ size_of d.bytes };

    ghost inverse = { λ bytes. record { bytes = with_bytes bytes } };

    ghost inverse_ok = { λ d h. ap (λ b. record { bytes = b }) (with_bytes-bytes_of d.bytes h) };
}

impl Digest {
    pub(crate) fn short(bytes: [u8; 32]) -> Digest
        ensures { result ≡ bytes }
    {
        Digest {
            bytes: Bytes::Short(bytes),
        }
    }

    pub(crate) fn long(bytes: [u8; 64]) -> Digest
        ensures { result ≡ bytes }
    {
        Digest {
            bytes: Bytes::Long(bytes),
        }
    }

    /// The bytes.
    pub fn bytes(&self) -> &[u8]
        ensures bytes { result.now ≡ self.now }
        ensures size { (length self.now ≡ 32) ⊎ (length self.now ≡ 64) }
    {
        match &self.bytes {
            Bytes::Short(bytes) => bytes,
            Bytes::Long(bytes) => bytes,
        }
    }

    // Its first four bytes as a number, by which digests come in the order of their bytes where
    // they have different ones.
    pub(crate) fn key(&self) -> u32
        ensures { result ≡ key_of self.now }
    {
        let bytes = self.bytes();
        u32::from_be_bytes([bytes[0], bytes[1], bytes[2], bytes[3]])
    }

    /// The bytes in lower-case hex, as an inventory has them; `Memory` where a growth was refused.
    pub fn hex(&self, alloc: Global) -> Result<String, MemoryFault>
        ensures { IfOk result (λ text. string_bytes text ≡ encode_lower self.now) }
    {
        Ok(hex::encode(alloc, self.bytes())?)
    }

    /// The digest of an algorithm that `hex` gives as this text; None where it is that of none, as
    /// of one with capital letters. `Memory` where a growth was refused.
    pub fn of_hex(
        alloc: Global,
        text: &str,
        algorithm: Algorithm,
    ) -> Result<Option<Digest>, MemoryFault>
        ensures { IfOk result (λ digest. digest ≡ hex_digest algorithm text.now) }
    {
        let Some(digest) = of_digits(text, algorithm) else {
            return Ok(None);
        };
        if digest.hex(alloc)?.as_str() == text {
            Ok(Some(digest))
        } else {
            Ok(None)
        }
    }
}

// The digest whose hex this text is, in letters of either case.
fn of_digits(text: &str, algorithm: Algorithm) -> Option<Digest>
    ensures { result ≡ digest_in algorithm text.now }
{
    match algorithm {
        Algorithm::Sha512 => Some(Digest::long(<[u8; 64] as FromHex>::from_hex(text).ok()?)),
        Algorithm::Sha256 => Some(Digest::short(<[u8; 32] as FromHex>::from_hex(text).ok()?)),
    }
}

impl PartialEq for Digest {
    ghost eq = { bytes_eq };

    ghost laws = { partial_equiv_from_equiv nat_list_eq_equiv };

    fn eq(&self, other: &Digest) -> bool {
        self.bytes() == other.bytes()
    }
}

impl Eq for Digest {
    ghost laws = { nat_list_eq_equiv };
}

impl PartialOrd for Digest {
    ghost partial_cmp = { λ x y. Some (digest_cmp x y) };

    ghost laws = { texts_po };

    fn partial_cmp(&self, other: &Digest) -> Option<Ordering> {
        Some(self.cmp(other))
    }
}

impl Ord for Digest {
    ghost cmp = { digest_cmp };

    ghost total = { nat_list_cmp_total };

    ghost matches_partial_cmp = { Prim.search rules };

    ghost matches_eq = { texts_ties };

    fn cmp(&self, other: &Digest) -> Ordering {
        self.bytes().cmp(other.bytes())
    }
}
