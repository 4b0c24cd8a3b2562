//! The destinations that runs over worked stores should leave: the files of a root and of objects,
//! byte for byte.
#![tactic(auto)]

use pt_memory::MemDest;
use pt_memory::texts::add;
use std::alloc::{AllocError, Global};

/// Files by their paths; a path that ends in `/` is a directory, and the text `*9` is nine letters
/// `a`.
pub type Files = &'static [(&'static str, &'static str)];

/// What stands in a destination, but for some files.
#[derive(Clone, Copy)]
pub enum Base {
    Nothing,
    /// A storage root of three tuples of three digits.
    Root,
    /// That root, and an object without its contents.
    Object(Frame),
}

/// The files of an object beside its contents: where it lies, its inventory, and the name and the
/// text of its sidecar.
#[derive(Clone, Copy)]
pub struct Frame {
    pub place: &'static str,
    pub inventory: &'static str,
    pub sidecar: &'static str,
    pub digest: &'static str,
}

/// The destination is the tree of these files beside the base.
pub fn is_tree(alloc: Global, dest: &MemDest, base: Base, files: Files) -> bool {
    let mut tree = MemDest::new(alloc);
    adds_base(alloc, &mut tree, base) && adds_files(alloc, &mut tree, files) && dest.same(&tree)
}

fn adds_base(alloc: Global, dest: &mut MemDest, base: Base) -> bool {
    match base {
        Base::Nothing => true,
        Base::Root => adds_root(alloc, dest),
        Base::Object(frame) => adds_root(alloc, dest) && adds_frame(alloc, dest, &frame),
    }
}

fn adds_root(alloc: Global, dest: &mut MemDest) -> bool {
    add(alloc, dest, ROOT).is_ok()
}

fn adds_files(alloc: Global, dest: &mut MemDest, files: Files) -> bool {
    for (at, text) in files {
        if !adds_file(alloc, dest, at, text) {
            return false;
        }
    }
    true
}

fn adds_file(alloc: Global, dest: &mut MemDest, at: &str, text: &str) -> bool {
    match text.strip_prefix('*') {
        Some(count) => adds_letters(alloc, dest, at, count),
        None => adds(alloc, dest, at, text),
    }
}

fn adds(alloc: Global, dest: &mut MemDest, at: &str, text: &str) -> bool {
    add(alloc, dest, &[(at, text)]).is_ok()
}

fn adds_letters(alloc: Global, dest: &mut MemDest, at: &str, count: &str) -> bool {
    match letters(alloc, count) {
        Some(text) => adds(alloc, dest, at, text.as_str()),
        None => false,
    }
}

// So many letters `a`.
fn letters(alloc: Global, count: &str) -> Option<String> {
    let count = count.parse::<usize>().ok()?;
    "a".repeat(alloc, count).ok()
}

// Adds what an object has beside its contents: its declaration, and its inventory at its top and in
// its version.
fn adds_frame(alloc: Global, dest: &mut MemDest, frame: &Frame) -> bool {
    adds_in(
        alloc,
        dest,
        frame.place,
        "0=ocfl_object_1.1",
        "ocfl_object_1.1\n",
    ) && adds_inventory(alloc, dest, frame.place, frame)
        && adds_inventory_in_version(alloc, dest, frame)
}

fn adds_inventory_in_version(alloc: Global, dest: &mut MemDest, frame: &Frame) -> bool {
    match below(alloc, frame.place, "v1") {
        Ok(version) => adds_inventory(alloc, dest, version.as_str(), frame),
        Err(_) => false,
    }
}

// Adds the inventory and its sidecar to what stands at a place.
fn adds_inventory(alloc: Global, dest: &mut MemDest, place: &str, frame: &Frame) -> bool {
    adds_in(alloc, dest, place, "inventory.json", frame.inventory)
        && adds_in(alloc, dest, place, frame.sidecar, frame.digest)
}

// Adds a file to what stands at a place.
fn adds_in(alloc: Global, dest: &mut MemDest, place: &str, name: &str, text: &str) -> bool {
    match below(alloc, place, name) {
        Ok(at) => adds(alloc, dest, at.as_str(), text),
        Err(_) => false,
    }
}

fn below(alloc: Global, place: &str, name: &str) -> Result<String, AllocError> {
    format!(in alloc; "{place}/{name}")
}

// Where a storage root says its layout.
pub const CONFIG: &str = "ocfl/extensions/0003-hash-and-id-n-tuple-storage-layout/config.json";

// The files of a storage root of three tuples of three digits.
pub const ROOT: Files = &[THREE_OF_THREE, LAYOUT, DECLARATION];

pub const THREE_OF_THREE: (&str, &str) = (
    CONFIG,
    r#"{"digestAlgorithm":"sha256","extensionName":"0003-hash-and-id-n-tuple-storage-layout","numberOfTuples":3,"tupleSize":3}"#,
);

pub const LAYOUT: (&str, &str) = (
    "ocfl/ocfl_layout.json",
    r#"{"description":"SHA-256 of the identifier in tuples, then the encoded identifier","extension":"0003-hash-and-id-n-tuple-storage-layout"}"#,
);

pub const DECLARATION: (&str, &str) = ("ocfl/0=ocfl_1.1", "ocfl_1.1\n");

/// The inventory of the store of one object, and its digest, as a sidecar has it.
pub const INVENTORY: &str =
    r#"{"digestAlgorithm":"sha512","head":"v1","id":"abc","manifest":{"ddaf35a193617abacc417349ae20413112e6fa4e89a97ea20a9eeee64b55d39a2192992a274fc1a836ba3c23a3feebbd454d4423643ce80e2a9ac94fa54ca49f":["v1/content/a.txt"]},"type":"https://ocfl.io/1.1/spec/#inventory","versions":{"v1":{"created":"2024-05-01T12:00:00Z","message":"Migrated from Pairtree","state":{"ddaf35a193617abacc417349ae20413112e6fa4e89a97ea20a9eeee64b55d39a2192992a274fc1a836ba3c23a3feebbd454d4423643ce80e2a9ac94fa54ca49f":["a.txt"]},"user":{"name":"Ada"}}}}"#;

pub const DIGEST: &str =
    "1eb21c66539478d2c419e0d996719da1e26c4c3d1ae2836137bbb99f412ba2fa2877b301344d7d7303197c96be4dbc6520706609ea235ea04f41f4f087a2d28c inventory.json\n";

// Those of the object of equal contents.
const EQUAL_INVENTORY: &str =
    r#"{"digestAlgorithm":"sha512","head":"v1","id":"abcd","manifest":{"cf83e1357eefb8bdf1542850d66d8007d620e4050b5715dc83f4a921d36ce9ce47d0d13c5d85f2b0ff8318d2877eec2f63b931bd47417a81a538327af927da3e":["v1/content/c"],"ddaf35a193617abacc417349ae20413112e6fa4e89a97ea20a9eeee64b55d39a2192992a274fc1a836ba3c23a3feebbd454d4423643ce80e2a9ac94fa54ca49f":["v1/content/a/x"]},"type":"https://ocfl.io/1.1/spec/#inventory","versions":{"v1":{"created":"2024-05-01T12:00:00Z","message":"Migrated from Pairtree","state":{"cf83e1357eefb8bdf1542850d66d8007d620e4050b5715dc83f4a921d36ce9ce47d0d13c5d85f2b0ff8318d2877eec2f63b931bd47417a81a538327af927da3e":["c"],"ddaf35a193617abacc417349ae20413112e6fa4e89a97ea20a9eeee64b55d39a2192992a274fc1a836ba3c23a3feebbd454d4423643ce80e2a9ac94fa54ca49f":["a/x","a.txt"]},"user":{"name":"Ada"}}}}"#;

const EQUAL_DIGEST: &str =
    "e83814330b8747531178c3d0e092e6d118cd7af78e96f1ad72688205ed89e61f0d3dbb168749b0ee0ff0fc5f256780e6357c34bd2efeb67a7a42ef7ba4c309e6 inventory.json\n";

// Those of an object without files.
const NO_INVENTORY: &str =
    r#"{"digestAlgorithm":"sha512","head":"v1","id":"abc","manifest":{},"type":"https://ocfl.io/1.1/spec/#inventory","versions":{"v1":{"created":"2024-05-01T12:00:00Z","message":"Migrated from Pairtree","state":{},"user":{"name":"Ada"}}}}"#;

const NO_DIGEST: &str =
    "863bfdf36eb28e187ea16e82985c39e85cb7b8cd9d9fd94717859a2468d12d9ec2eb1abe926be18c0013cd5edd7bd9311c0df46f1dde9c15ccbf6ea7c8d224e5 inventory.json\n";

// Those of an object with a quotation mark in a name, in SHA-256.
const QUOTED_INVENTORY: &str =
    r#"{"digestAlgorithm":"sha256","head":"v1","id":"abc","manifest":{"ba7816bf8f01cfea414140de5dae2223b00361a396177a9cb410ff61f20015ad":["v1/content/q\"x"]},"type":"https://ocfl.io/1.1/spec/#inventory","versions":{"v1":{"created":"2024-05-01T12:00:00Z","message":"Migrated from Pairtree","state":{"ba7816bf8f01cfea414140de5dae2223b00361a396177a9cb410ff61f20015ad":["q\"x"]},"user":{"name":"Ada"}}}}"#;

const QUOTED_DIGEST: &str =
    "71a47b66e207d18a83f4ecab45bedf840e0aef244dba30f877d152aa2628459a inventory.json\n";

/// The store of one object of one file, and the lines of a run that carries it.
pub const STORE: &str = "ab/c/obj/a.txt=abc";

pub const LINES: &str =
    r#"{"as":"done","at":"ab/c/obj","bytes":3,"empty":0,"files":1,"id":"abc","to":"ba7/816/bf8/abc"}
{"as":"end","done":1,"present":0,"skip":0}
"#;

/// That object, and the one file of its contents.
pub const ONE: Frame = Frame {
    place: "ocfl/ba7/816/bf8/abc",
    inventory: INVENTORY,
    sidecar: "inventory.json.sha512",
    digest: DIGEST,
};

pub const ABC: Files = &[("ocfl/ba7/816/bf8/abc/v1/content/a.txt", "abc")];

/// That object as it is made in `staging`.
pub const STAGED: Frame = Frame {
    place: "staging",
    inventory: INVENTORY,
    sidecar: "inventory.json.sha512",
    digest: DIGEST,
};

pub const EQUAL: Frame = Frame {
    place: "ocfl/88d/426/6fd/abcd",
    inventory: EQUAL_INVENTORY,
    sidecar: "inventory.json.sha512",
    digest: EQUAL_DIGEST,
};

pub const NO_FILES: Frame = Frame {
    place: "ocfl/ba7/816/bf8/abc",
    inventory: NO_INVENTORY,
    sidecar: "inventory.json.sha512",
    digest: NO_DIGEST,
};

pub const QUOTED: Frame = Frame {
    place: "ocfl/ba7/816/bf8/abc",
    inventory: QUOTED_INVENTORY,
    sidecar: "inventory.json.sha256",
    digest: QUOTED_DIGEST,
};
