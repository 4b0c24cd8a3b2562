// The search for a digest in the index of a list of contents.
ghost use Rattle.std.specs.Prelude.{◌≡◌, ◌+◌, ◌^◌, ◌<◌, MatchResult, is_ok, length};
ghost use Rattle.hex.specs.Hex.{IsBytes};
ghost use Rattle.pt_object.specs.Digest.{digest_cmp};
ghost use Rattle.pt_object.specs.Contents.{is_noted};
ghost use Rattle.pt_object.specs.Index.{IsAt, IsIndex, IsPlaceOf, IsWithinBinaryDigits};
ghost use Rattle.pt_object.specs.Keys.{key_of, keys_of};

use crate::table::sorted_index::SortedIndex;
use crate::{Content, Digest};
use std::cmp::Ordering;

// Where a digest is: the position of its item, or the place in the index where it belongs; and how
// many digests were compared to find that.
#[derive(Drop)]
pub(crate) struct SearchResult {
    pub(crate) found: Result<usize, usize>,
    pub(crate) comparisons: u32,
}

// The one search: it halves the part of the index in which the digest can be, with the middle taken
// out. The keys of the items lie side by side, and most comparisons need no more than them.
pub(crate) fn search(
    items: &[Content],
    keys: &[u32],
    index: &SortedIndex,
    digest: &Digest,
) -> SearchResult
    requires index { IsIndex items.now index.now }
    requires keys { keys.now ≡ keys_of items.now }
    ensures known { is_ok result.found ≡ is_noted items.now digest.now }
    ensures found { MatchResult result.found (IsAt items.now digest.now)
        (IsPlaceOf items.now index.now digest.now) }
    ensures few { IsWithinBinaryDigits result.comparisons (length items.now) }
    ensures some { 0 < length items.now → 0 < result.comparisons }
{
    let key = digest.key();
    let mut comparisons = 0;
    let mut low = 0;
    let mut high = items.len();
    'halving: while low < high {
        let middle = low + (high - low) / 2;
        let position = index.get(middle);
        match compare(
            keys[position],
            &items[position].digest,
            key,
            digest,
            &mut comparisons,
        ) {
            Ordering::Less => low = middle + 1,
            Ordering::Equal => {
                return SearchResult {
                    found: Ok(position),
                    comparisons,
                };
            }
            Ordering::Greater => high = middle,
        }
    }
    SearchResult {
        found: Err(low),
        comparisons,
    }
}

// The one comparison of two digests, with their keys, which it counts: `cmp` of the digests, which
// are looked at only where they have one key.
fn compare(a_key: u32, a: &Digest, b_key: u32, b: &Digest, comparisons: &mut u32) -> Ordering
    requires a { a_key ≡ key_of a.now }
    requires b { b_key ≡ key_of b.now }
    requires fits { comparisons.old + 1 < 2 ^ 32 }
    ensures order { result ≡ digest_cmp a.now b.now }
    ensures counted { comparisons.new ≡ comparisons.old + 1 }
{
    *comparisons += 1;
    tell_bytes(a.bytes());
    tell_bytes(b.bytes());
    match a_key.cmp(&b_key) {
        Ordering::Equal => a.cmp(b),
        unequal => unequal,
    }
}

// Tells a proof that bytes are below 256. It does nothing.
pub(crate) fn tell_bytes(bytes: &[u8])
    ensures { IsBytes bytes.now }
{}
