//! The digests that an inventory claims for the files of an object, as docs/REFERENCE.md lays out
//! an inventory. The digests are those of the text `abc` and of no bytes, and one of zeros alone.
use pt_object::{Algorithm, Hasher, Rows};
use pt_quick::{ClaimedFiles, claimed_rows};
use pt_tree::NamePath;
use std::alloc::Global;

const ABC: &str = "ba7816bf8f01cfea414140de5dae2223b00361a396177a9cb410ff61f20015ad";

const NONE: &str = "e3b0c44298fc1c149afbf4c8996fb92427ae41e4649b934ca495991b7852b855";

const ZERO: &str = "0000000000000000000000000000000000000000000000000000000000000000";

// The paths of an object's files, each with its length and what was read of it.
const FILES: &[(&str, u64, &str)] = &[("a", 3, "x"), ("b/c", 3, "x"), ("b/d", 0, "y")];

// A state, and the digests that are claimed for the three files.
struct Case {
    algorithm: Algorithm,
    state: &'static str,
    claimed: Option<[&'static str; 3]>,
}

const CASES: &[Case] = &[
    Case {
        algorithm: Algorithm::Sha256,
        state: "{\"ba7816bf8f01cfea414140de5dae2223b00361a396177a9cb410ff61f20015ad\":[\"a\",\"b/c\"],\"e3b0c44298fc1c149afbf4c8996fb92427ae41e4649b934ca495991b7852b855\":[\"b/d\"]}",
        claimed: Some([ABC, ABC, NONE]),
    },
    // A file more is none of the object's.
    Case {
        algorithm: Algorithm::Sha256,
        state: "{\"ba7816bf8f01cfea414140de5dae2223b00361a396177a9cb410ff61f20015ad\":[\"a\",\"b/c\",\"e\"],\"e3b0c44298fc1c149afbf4c8996fb92427ae41e4649b934ca495991b7852b855\":[\"b/d\"]}",
        claimed: Some([ABC, ABC, NONE]),
    },
    // Two files that were read as the same may have two.
    Case {
        algorithm: Algorithm::Sha256,
        state: "{\"0000000000000000000000000000000000000000000000000000000000000000\":[\"b/d\"],\"ba7816bf8f01cfea414140de5dae2223b00361a396177a9cb410ff61f20015ad\":[\"a\"],\"e3b0c44298fc1c149afbf4c8996fb92427ae41e4649b934ca495991b7852b855\":[\"b/c\"]}",
        claimed: Some([ABC, NONE, ZERO]),
    },
    // Two that were read as different ones have one.
    Case {
        algorithm: Algorithm::Sha256,
        state: "{\"ba7816bf8f01cfea414140de5dae2223b00361a396177a9cb410ff61f20015ad\":[\"a\",\"b/c\",\"b/d\"]}",
        claimed: None,
    },
    // A file of the object has no digest.
    Case {
        algorithm: Algorithm::Sha256,
        state: "{\"ba7816bf8f01cfea414140de5dae2223b00361a396177a9cb410ff61f20015ad\":[\"a\",\"b/d\"]}",
        claimed: None,
    },
    // The digest is in capitals, is of another algorithm, or none at all.
    Case {
        algorithm: Algorithm::Sha256,
        state: "{\"BA7816BF8F01CFEA414140DE5DAE2223B00361A396177A9CB410FF61F20015AD\":[\"a\",\"b/c\",\"b/d\"]}",
        claimed: None,
    },
    Case {
        algorithm: Algorithm::Sha512,
        state: "{\"ba7816bf8f01cfea414140de5dae2223b00361a396177a9cb410ff61f20015ad\":[\"a\",\"b/c\",\"b/d\"]}",
        claimed: None,
    },
    Case {
        algorithm: Algorithm::Sha256,
        state: "{\"abc\":[\"a\",\"b/c\",\"b/d\"]}",
        claimed: None,
    },
    // It isn't JSON.
    Case {
        algorithm: Algorithm::Sha256,
        state: "{",
        claimed: None,
    },
];

// The rows of the files, with the digests of what was read of them.
fn rows_of(alloc: Global) -> Option<Rows> {
    let mut rows = Rows::new(alloc);
    for (path, length, read) in FILES {
        let path = NamePath::of_text(alloc, path.as_bytes()).ok()?;
        let mut hasher = Hasher::start(Algorithm::Sha512);
        hasher.feed_bytes(read.as_bytes());
        rows.push(&path, &hasher.end(), *length).ok()?;
    }
    Some(rows)
}

// The files with what is claimed of these in an inventory with this state.
fn claims_of(alloc: Global, case: &Case, rows: &Rows) -> Option<Option<ClaimedFiles>> {
    let text = format!(in alloc;
        "{{\"digestAlgorithm\":\"{}\",\"head\":\"v1\",\"id\":\"x\",\"manifest\":{{}},\"type\":\"https://ocfl.io/1.1/spec/#inventory\",\"versions\":{{\"v1\":{{\"created\":\"2024-05-01T12:00:00Z\",\"message\":\"m\",\"state\":{},\"user\":{{\"name\":\"Ada\"}}}}}}}}",
        case.algorithm.word(),
        case.state
    )
    .ok()?;
    claimed_rows(alloc, text.as_str(), rows, case.algorithm).ok()
}

// Each row has its digest and the length of its file.
fn are_claimed(alloc: Global, rows: &Rows, claimed: &[&str; 3]) -> bool {
    for (i, (_, length, _)) in FILES.iter().enumerate() {
        let Some(row) = rows.get(i) else {
            return false;
        };
        let Ok(hex) = row.digest.hex(alloc) else {
            return false;
        };
        if hex.as_str() != claimed[i] || row.length != *length {
            return false;
        }
    }
    rows.len() == 3
}

fn holds(alloc: Global, case: &Case) -> bool {
    let Some(rows) = rows_of(alloc) else {
        return false;
    };
    match (claims_of(alloc, case, &rows), &case.claimed) {
        (Some(Some(files)), Some(claimed)) => are_claimed(alloc, &files.rows, claimed),
        (Some(None), None) => true,
        _ => false,
    }
}

#[test]
fn an_inventory_claims_the_digests_of_its_state(rt: HostRuntime) {
    for (i, case) in CASES.iter().enumerate() {
        assert!(rt; holds(rt.alloc(), case), "claims, row {i}");
    }
}
