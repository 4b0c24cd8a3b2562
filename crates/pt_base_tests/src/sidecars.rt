//! Digests of bytes that are fed piece by piece, and sidecars made of them.
use crate::tables::{Holds, all_hold, gives_text};
use pt_object::{Algorithm, Hasher, sidecar_of};
use pt_tree::Block;
use std::alloc::Global;

// The sidecars of an inventory that is the text `abc`.
const SHORT: &str =
    "ba7816bf8f01cfea414140de5dae2223b00361a396177a9cb410ff61f20015ad inventory.json\n";

const LONG: &str =
    "ddaf35a193617abacc417349ae20413112e6fa4e89a97ea20a9eeee64b55d39a2192992a274fc1a836ba3c23a3feebbd454d4423643ce80e2a9ac94fa54ca49f inventory.json\n";

fn ends_as(alloc: Global, hasher: Hasher, text: &str) -> bool {
    gives_text(sidecar_of(alloc, &hasher.end()), text)
}

// The algorithm, and the sidecar by it of the text `abc`.
const SIDECARS: &[(Algorithm, &str)] = &[(Algorithm::Sha256, SHORT), (Algorithm::Sha512, LONG)];

impl Holds for (Algorithm, &str) {
    fn holds(&self, alloc: Global) -> bool {
        let (algorithm, text) = self;
        let mut hasher = Hasher::start(*algorithm);
        hasher.feed_bytes(b"abc");
        ends_as(alloc, hasher, text)
    }
}

#[test]
fn a_sidecar_has_the_digest_of_what_was_fed(rt: HostRuntime) {
    all_hold(&rt, rt.alloc(), "sidecars", SIDECARS);
}

// Three bytes in four pieces, one of them in a block.
fn feed_beside_a_block() -> Hasher {
    let mut block = Block::new();
    block.push(b'b');
    let mut hasher = Hasher::start(Algorithm::Sha256);
    hasher.feed_bytes(b"a");
    hasher.feed(&block);
    hasher.feed_bytes(b"");
    hasher.feed_bytes(b"c");
    hasher
}

#[test]
fn bytes_are_fed_beside_blocks(rt: HostRuntime) {
    assert!(rt; ends_as(rt.alloc(), feed_beside_a_block(), SHORT));
}
