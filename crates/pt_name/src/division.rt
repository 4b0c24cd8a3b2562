//! How a store is divided into shares, and the number of the share that a text or the way to a site
//! gives.
ghost use Rattle.std.specs.Prelude.{◌≡◌, ◌≤◌, ◌<◌, ◌*◌, ◌/◌, ◌+◌, ◌^◌, take};
ghost use Rattle.std.specs.Int.{from_be_bytes, w32};
ghost use Rattle.pt_name.specs.Share.{digest_number, share_number, way_text};
ghost use Rattle.sha2.specs.Sha256.{sha256};

use pt_tree::NamePath;
use sha2::{Digest, Sha256};

/// How a store is divided into shares.
#[derive(Clone, Copy, Debug, PartialEq, Eq)]
pub enum Division {
    /// By the identifiers of its objects.
    Identifiers,
    /// By its folders: by the names of the first so many shorties on the way to each site.
    Folders(u32),
}

// The number of the share, of so many, that a text gives.
pub(crate) fn number_of_text(count: u32, text: &[u8]) -> u32
    requires { count ≤ 4096 }
    ensures { result ≡ share_number count text.now }
{
    number_of(count, digest_head(text))
}

// The number of the share, of so many, that the first names on the way to a site give.
pub(crate) fn number_of_way(count: u32, site: &NamePath, depth: u32) -> u32
    requires { count ≤ 4096 }
    ensures { result ≡ share_number count (way_text depth site.now) }
{
    number_of(count, way_head(site, depth))
}

// The number, from 1 on, of the part in which a number below 2^32 lies, of so many parts of one
// size.
fn number_of(count: u32, head: u32) -> u32
    requires { count ≤ 4096 }
    ensures { result ≡ head * count / 2 ^ 32 + 1 }
{
    ((u64::from(head) * u64::from(count)) >> 32) as u32 + 1
}

// The first four bytes of a text's SHA-256, as a number whose first byte is the highest.
fn digest_head(text: &[u8]) -> u32
    ensures { result ≡ digest_number text.now }
{
    head_of(&Sha256::digest(text))
}

// The same of the names of the first so many shorties on the way to a site, with `/` between them.
fn way_head(site: &NamePath, depth: u32) -> u32
    ensures { result ≡ digest_number (way_text depth site.now) }
{
    let shorties = (depth as usize).min(site.len());
    let names = &site.names()[..shorties];
    let mut hasher = Sha256::new();
    for (i, name) in names.iter().enumerate() {
        if i > 0 {
            hasher.update(b"/".as_slice());
        }
        hasher.update(name.bytes());
    }
    head_of(&hasher.finalize())
}

// The first four bytes of a digest, as a number whose first byte is the highest.
fn head_of(digest: &[u8; 32]) -> u32
    ensures { result ≡ from_be_bytes w32 digest.now }
{
    u32::from_be_bytes([digest[0], digest[1], digest[2], digest[3]])
}
