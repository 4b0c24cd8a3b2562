//! Digests of blocks, the moments and names that an inventory may have, sidecars, and the files of
//! a root.
use crate::tables::{Holds, all_hold, gives_text, is_path, refuses};
use pt_name::Layout;
use pt_object::{
    Algorithm, Digest, Hasher, Meta, MetaFault, RootFiles, object_declaration, root_declaration,
    root_files, sidecar,
};
use pt_tree::{Block, NamePath};
use std::alloc::Global;

// The SHA-512 of `abc` and of the empty text.
pub(crate) const OF_ABC: &str =
    "ddaf35a193617abacc417349ae20413112e6fa4e89a97ea20a9eeee64b55d39a2192992a274fc1a836ba3c23a3feebbd454d4423643ce80e2a9ac94fa54ca49f";

pub(crate) const OF_NOTHING: &str =
    "cf83e1357eefb8bdf1542850d66d8007d620e4050b5715dc83f4a921d36ce9ce47d0d13c5d85f2b0ff8318d2877eec2f63b931bd47417a81a538327af927da3e";

// The SHA-256 of `abc`.
pub(crate) const SHORT_OF_ABC: &str =
    "ba7816bf8f01cfea414140de5dae2223b00361a396177a9cb410ff61f20015ad";

/// The digest of these blocks.
pub(crate) fn digest_of_blocks(algorithm: Algorithm, blocks: &[&[u8]]) -> Digest {
    let mut hasher = Hasher::start(algorithm);
    for bytes in blocks {
        let mut block = Block::new();
        for byte in bytes.iter() {
            if block.len() < 8192 {
                block.push(*byte);
            }
        }
        hasher.feed(&block);
    }
    hasher.end()
}

/// The digest of this many letters `a`, in blocks that are full but for the last.
pub(crate) fn digest_of_letters(algorithm: Algorithm, count: usize) -> Digest {
    let mut hasher = Hasher::start(algorithm);
    let mut block = Block::new();
    for _ in 0..count {
        if block.len() >= 8192 {
            hasher.feed(&block);
            block.clear();
        }
        if block.len() < 8192 {
            block.push(b'a');
        }
    }
    hasher.feed(&block);
    hasher.end()
}

// The digest has so many bytes, and this text.
fn is_digest(alloc: Global, digest: &Digest, length: usize, text: &str) -> bool {
    digest.bytes().len() == length && gives_text(digest.hex(alloc), text)
}

enum Worked {
    // Bytes in blocks, and the SHA-512 of them.
    Blocks(&'static [&'static [u8]], &'static str),
    // A number of letters, and the SHA-256 of as many.
    Letters(usize, &'static str),
    // An algorithm, its word, and the digest in the sidecar of `abc`.
    Sidecar(Algorithm, &'static str, &'static str),
    // A moment to the second.
    Moment(&'static str),
    // No moment, with a name and without one: it is looked at first.
    NoMoment(&'static str),
    // A moment, and a name that is none.
    NoName(&'static str, &'static str),
    // The size and the number of tuples, and the end of that layout's configuration.
    Config(u32, u32, &'static str),
}

impl Holds for Worked {
    fn holds(&self, alloc: Global) -> bool {
        match self {
            Worked::Blocks(blocks, text) => {
                is_digest(
                    alloc,
                    &digest_of_blocks(Algorithm::Sha512, blocks),
                    64,
                    text,
                )
            }
            Worked::Letters(count, text) => {
                is_digest(
                    alloc,
                    &digest_of_letters(Algorithm::Sha256, *count),
                    32,
                    text,
                )
            }
            Worked::Sidecar(algorithm, word, digest) => {
                algorithm.word() == *word && is_sidecar(alloc, *algorithm, digest)
            }
            Worked::Moment(created) => is_moment(alloc, created),
            Worked::NoMoment(created) => is_no_moment(alloc, created),
            Worked::NoName(created, name) => refuses(
                Meta::of(alloc, created, name, Some("a"), "m"),
                MetaFault::EmptyName,
            ),
            Worked::Config(size, count, config) => gives_files(alloc, *size, *count, config),
        }
    }
}

/// The text `abc` as one block.
pub(crate) const ABC: &[&[u8]] = &[b"abc"];

const A_AND_BC: &[&[u8]] = &[b"a", b"bc"];

const BLOCKS: &[Worked] = &[
    Worked::Blocks(ABC, OF_ABC),
    Worked::Blocks(A_AND_BC, OF_ABC),
    Worked::Blocks(&[], OF_NOTHING),
];

// The digest of `abc` is one, however it is fed, and comes after that of nothing.
fn are_in_order() -> bool {
    let abc = digest_of_blocks(Algorithm::Sha512, ABC);
    let in_two = digest_of_blocks(Algorithm::Sha512, A_AND_BC);
    let nothing = digest_of_blocks(Algorithm::Sha512, &[]);
    abc == in_two && abc != nothing && nothing < abc
}

const LETTERS: &[Worked] = &[
    Worked::Letters(
        0,
        "e3b0c44298fc1c149afbf4c8996fb92427ae41e4649b934ca495991b7852b855",
    ),
    Worked::Letters(
        8191,
        "d691798dcd3bab9099e84b4cbc484caef67262d1ef5dca83330d07f5ce4740dd",
    ),
    Worked::Letters(
        8192,
        "dd4e6730520932767ec0a9e33fe19c4ce24399d6eba4ff62f13013c9ed30ef87",
    ),
    Worked::Letters(
        8193,
        "9c10c48d1f1d6618db88fde2c25409181c9201ed34ec6815d62bcf57c10d177b",
    ),
];

const MOMENTS: &[Worked] = &[
    Worked::Moment("2024-05-01T12:00:00Z"),
    Worked::Moment("2024-02-29T23:59:59+05:30"),
    Worked::Moment("2024-05-01T12:00:00-00:00"),
    Worked::Moment("0000-01-01T00:00:00Z"),
];

const NO_MOMENTS: &[Worked] = &[
    Worked::NoMoment("2024-02-30T00:00:00Z"),
    Worked::NoMoment("2023-02-29T00:00:00Z"),
    Worked::NoMoment("2024-05-01T24:00:00Z"),
    Worked::NoMoment("2024-05-01T12:00:60Z"),
    Worked::NoMoment("2024-05-01T12:00:00.5Z"),
    Worked::NoMoment("2024-05-01T12:00:00z"),
    Worked::NoMoment("2024-05-01t12:00:00Z"),
    Worked::NoMoment("2024-05-01T12:00:00+24:00"),
    Worked::NoMoment("2024-05-01T12:00:00+05:30Z"),
    Worked::NoMoment("2024-05-01T12:00:00"),
    Worked::NoMoment("2024-13-01T12:00:00Z"),
    Worked::NoMoment(""),
];

// The moment is taken as it is written, with the name beside it.
fn is_moment(alloc: Global, created: &str) -> bool {
    match Meta::of(alloc, created, "Ada", None, "") {
        Ok(meta) => (meta.created(), meta.name()) == (created, "Ada"),
        Err(_) => false,
    }
}

fn is_no_moment(alloc: Global, created: &str) -> bool {
    refuses(
        Meta::of(alloc, created, "Ada", None, ""),
        MetaFault::Created,
    ) && refuses(Meta::of(alloc, created, "", None, "m"), MetaFault::Created)
}

// The sidecar of `abc` is this digest and the name of an inventory.
fn is_sidecar(alloc: Global, algorithm: Algorithm, digest: &str) -> bool {
    match sidecar(alloc, "abc", algorithm) {
        Ok(text) => text.as_str().strip_prefix(digest) == Some(" inventory.json\n"),
        Err(_) => false,
    }
}

const SIDECARS: &[Worked] = &[
    Worked::Sidecar(Algorithm::Sha256, "sha256", SHORT_OF_ABC),
    Worked::Sidecar(Algorithm::Sha512, "sha512", OF_ABC),
];

const LAYOUT: &str =
    "{\"description\":\"SHA-256 of the identifier in tuples, then the encoded identifier\",\"extension\":\"0003-hash-and-id-n-tuple-storage-layout\"}";

const CONFIGS: &[Worked] = &[
    Worked::Config(3, 3, ",\"numberOfTuples\":3,\"tupleSize\":3}"),
    Worked::Config(2, 4, ",\"numberOfTuples\":4,\"tupleSize\":2}"),
    Worked::Config(0, 0, ",\"numberOfTuples\":0,\"tupleSize\":0}"),
];

const CONFIG: &str =
    "{\"digestAlgorithm\":\"sha256\",\"extensionName\":\"0003-hash-and-id-n-tuple-storage-layout\"";

const CONFIG_PATH: &str = "extensions/0003-hash-and-id-n-tuple-storage-layout/config.json";

// The file has this path, and these two texts one behind the other.
fn is_file(file: Option<(&NamePath, &[u8])>, at: &str, front: &str, end: &str) -> bool {
    match file {
        Some((path, bytes)) => {
            is_path(path, at) && bytes.strip_prefix(front.as_bytes()) == Some(end.as_bytes())
        }
        None => false,
    }
}

fn are_files(files: &RootFiles, config: &str) -> bool {
    is_file(files.get(0), "0=ocfl_1.1", "ocfl_1.1\n", "")
        && is_file(files.get(1), "ocfl_layout.json", LAYOUT, "")
        && is_file(files.get(2), CONFIG_PATH, CONFIG, config)
        && files.get(3).is_none()
}

fn has_files(alloc: Global, layout: Layout, config: &str) -> bool {
    match root_files(alloc, layout) {
        Ok(files) => are_files(&files, config),
        Err(_) => false,
    }
}

fn gives_files(alloc: Global, size: u32, count: u32, config: &str) -> bool {
    match Layout::of(size, count) {
        Ok(layout) => has_files(alloc, layout, config),
        Err(_) => false,
    }
}

fn are_declarations() -> bool {
    object_declaration() == b"ocfl_object_1.1\n".as_slice()
        && root_declaration() == b"ocfl_1.1\n".as_slice()
}

const NO_NAMES: &[Worked] = &[Worked::NoName("2024-05-01T12:00:00Z", "")];

#[test]
fn digests_moments_sidecars_and_root_files_are_as_worked(rt: HostRuntime) {
    all_hold(&rt, rt.alloc(), "digests of blocks", BLOCKS);
    all_hold(&rt, rt.alloc(), "digests at the length of a block", LETTERS);
    all_hold(
        &rt,
        rt.alloc(),
        "words of algorithms, and bytes of sidecars",
        SIDECARS,
    );
    all_hold(&rt, rt.alloc(), "takes moments to the second", MOMENTS);
    all_hold(&rt, rt.alloc(), "refuses what is no moment", NO_MOMENTS);
    all_hold(&rt, rt.alloc(), "refuses no name", NO_NAMES);
    all_hold(&rt, rt.alloc(), "root files of layouts", CONFIGS);
    assert!(rt; are_in_order() && are_declarations() && MetaFault::Memory.number() == 3);
}
