//! An inventory is the text that its files, its user and its moment make, byte for byte.
ghost use Rattle.std.specs.Prelude.{◌≡◌, IfOk, map};
ghost use Rattle.pt_object.specs.Distinct.{content_of_row, distinct};

use crate::objects::{OF_ABC, OF_NOTHING, SHORT_OF_ABC};
use crate::tables::{Holds, all_hold, gives_text};
use pt_memory::texts::path;
use pt_object::{Algorithm, Contents, Digest, Hasher, Meta, MetaFault, Rows, inventory};
use pt_tree::{MemoryFault, NamePath};
use std::alloc::{AllocError, Global};

// An object, and what its inventory says.
struct Case {
    id: &'static str,
    algorithm: Algorithm,
    word: &'static str,
    // The paths of the files and their bytes.
    files: &'static [(&'static str, &'static str)],
    address: Option<&'static str>,
    // Of each digest the paths that the manifest has, and those that the state has, as they are
    // written in JSON.
    manifest: &'static [(&'static str, &'static str)],
    state: &'static [(&'static str, &'static str)],
    user: &'static str,
}

const CASES: &[Case] = &[
    // One file.
    Case {
        id: "abc",
        algorithm: Algorithm::Sha512,
        word: "sha512",
        files: &[("a.txt", "abc")],
        address: None,
        manifest: &[(OF_ABC, "\"v1/content/a.txt\"")],
        state: &[(OF_ABC, "\"a.txt\"")],
        user: "{\"name\":\"Ada\"}",
    },
    // Equal contents.
    Case {
        id: "abcd",
        algorithm: Algorithm::Sha512,
        word: "sha512",
        files: &[("a/x", "abc"), ("a.txt", "abc"), ("c", "")],
        address: Some(""),
        manifest: &[
            (OF_NOTHING, "\"v1/content/c\""),
            (OF_ABC, "\"v1/content/a/x\""),
        ],
        state: &[(OF_NOTHING, "\"c\""), (OF_ABC, "\"a/x\",\"a.txt\"")],
        user: "{\"name\":\"Ada\"}",
    },
    // No files, and an address.
    Case {
        id: "abc",
        algorithm: Algorithm::Sha512,
        word: "sha512",
        files: &[],
        address: Some("mailto:ada@example.org"),
        manifest: &[],
        state: &[],
        user: "{\"address\":\"mailto:ada@example.org\",\"name\":\"Ada\"}",
    },
    // A quote, by SHA-256.
    Case {
        id: "abc",
        algorithm: Algorithm::Sha256,
        word: "sha256",
        files: &[("q\"x", "abc")],
        address: None,
        manifest: &[(SHORT_OF_ABC, "\"v1/content/q\\\"x\"")],
        state: &[(SHORT_OF_ABC, "\"q\\\"x\"")],
        user: "{\"name\":\"Ada\"}",
    },
];

fn digest_of(algorithm: Algorithm, text: &str) -> Digest {
    let mut hasher = Hasher::start(algorithm);
    hasher.feed_bytes(text.as_bytes());
    hasher.end()
}

fn takes_file(rows: &mut Rows, alloc: Global, algorithm: Algorithm, at: &str, text: &str) -> bool {
    match path(alloc, at) {
        Ok(at) => takes_row(rows, &at, &digest_of(algorithm, text), text.len()),
        Err(_) => false,
    }
}

fn takes_row(rows: &mut Rows, at: &NamePath, digest: &Digest, length: usize) -> bool {
    rows.push(at, digest, length as u64).is_ok()
}

fn rows_of(alloc: Global, case: &Case) -> Option<Rows> {
    let mut rows = Rows::new(alloc);
    for (at, text) in case.files {
        if !takes_file(&mut rows, alloc, case.algorithm, at, text) {
            return None;
        }
    }
    Some(rows)
}

// The contents of these rows, noted in order.
#[tactic(auto, using(pt_object::proofs::Noting::noted_more, pt_object::proofs::Noting::noted_whole))]
fn contents_of(alloc: Global, rows: &Rows) -> Result<Contents, MemoryFault>
    ensures { IfOk result (λ contents. contents ≡ map content_of_row (distinct rows.now)) }
{
    let mut contents = Contents::new(alloc);
    for row in rows.as_slice() {
        contents.note(&row.digest, &row.path)?;
    }
    Ok(contents)
}

fn meta_of(alloc: Global, case: &Case) -> Result<Meta, MetaFault> {
    Meta::of(
        alloc,
        "2024-05-01T12:00:00Z",
        "Ada",
        case.address,
        "Migrated from Pairtree",
    )
}

// The inventory of these rows and contents is this text.
fn is_inventory(alloc: Global, case: &Case, rows: &Rows, contents: &Contents, want: &str) -> bool
    requires { contents.now ≡ map content_of_row (distinct rows.now) }
{
    match meta_of(alloc, case) {
        Ok(meta) => gives_text(
            inventory(alloc, case.id, rows, contents, &meta, case.algorithm),
            want,
        ),
        Err(_) => false,
    }
}

fn has_inventory(alloc: Global, case: &Case, rows: &Rows, want: &str) -> bool {
    match contents_of(alloc, rows) {
        Ok(contents) => is_inventory(alloc, case, rows, &contents, want),
        Err(_) => false,
    }
}

fn is_written(alloc: Global, case: &Case, want: &str) -> bool {
    match rows_of(alloc, case) {
        Some(rows) => has_inventory(alloc, case, &rows, want),
        None => false,
    }
}

fn push_member(text: &mut String, digest: &str, paths: &str) -> Result<(), AllocError> {
    let comma = if text.is_empty() { "" } else { "," };
    write!(text, "{comma}\"{digest}\":[{paths}]")
}

// The members of a JSON object with an array for each digest.
fn by_digest(alloc: Global, rows: &[(&str, &str)]) -> Result<String, AllocError> {
    let mut text = String::new(alloc);
    for (digest, paths) in rows {
        push_member(&mut text, digest, paths)?;
    }
    Ok(text)
}

fn text_of(alloc: Global, case: &Case, manifest: &str, state: &str) -> Result<String, AllocError> {
    let word = case.word;
    let id = case.id;
    let user = case.user;
    format!(in alloc;
        "{{\"digestAlgorithm\":\"{word}\",\"head\":\"v1\",\"id\":\"{id}\",\"manifest\":{{{manifest}}},\"type\":\"https://ocfl.io/1.1/spec/#inventory\",\"versions\":{{\"v1\":{{\"created\":\"2024-05-01T12:00:00Z\",\"message\":\"Migrated from Pairtree\",\"state\":{{{state}}},\"user\":{user}}}}}}}"
    )
}

fn expect_text(alloc: Global, case: &Case) -> Result<String, AllocError> {
    let manifest = by_digest(alloc, case.manifest)?;
    let state = by_digest(alloc, case.state)?;
    text_of(alloc, case, manifest.as_str(), state.as_str())
}

impl Holds for Case {
    fn holds(&self, alloc: Global) -> bool {
        match expect_text(alloc, self) {
            Ok(want) => is_written(alloc, self, want.as_str()),
            Err(_) => false,
        }
    }
}

#[test]
fn inventories_have_their_files_and_their_user(rt: HostRuntime) {
    all_hold(&rt, rt.alloc(), "inventories", CASES);
}
