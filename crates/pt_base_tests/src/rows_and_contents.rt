//! The two tables of an object's files: rows keep their order, and each content is noted once, at
//! its first path.
use crate::objects::{ABC, digest_of_blocks, digest_of_letters};
use crate::tables::is_path;
use pt_memory::texts::path;
use pt_object::{Algorithm, Content, Contents, Digest, Row, Rows};
use pt_tree::NamePath;
use std::alloc::{AllocError, Global};

fn is_row(row: Option<&Row>, path: &NamePath, digest: &Digest, length: u64) -> bool {
    match row {
        Some(row) => row.path == *path && row.digest == *digest && row.length == length,
        None => false,
    }
}

// Having no rows, it keeps these two, of the lengths 1 and 2, until it is cleared.
fn keeps_both(rows: &mut Rows, first: &NamePath, second: &NamePath, digest: &Digest) -> bool {
    rows.is_empty()
        && rows.push(first, digest, 1).is_ok()
        && rows.push(second, digest, 2).is_ok()
        && rows.len() == 2
        && is_row(rows.get(0), first, digest, 1)
        && is_row(rows.get(1), second, digest, 2)
        && rows.get(2).is_none()
        && is_cleared(rows)
}

fn is_cleared(rows: &mut Rows) -> bool {
    rows.clear();
    rows.is_empty()
}

fn keep_their_order(alloc: Global) -> bool {
    let digest = digest_of_letters(Algorithm::Sha512, 1);
    match (path(alloc, "b/x"), path(alloc, "a")) {
        (Ok(first), Ok(second)) => keeps_both(&mut Rows::new(alloc), &first, &second, &digest),
        _ => false,
    }
}

#[test]
fn rows_keep_the_order_in_which_they_come(rt: HostRuntime) {
    assert!(rt; keep_their_order(rt.alloc()));
}

fn is_item(item: Option<&Content>, digest: &Digest, path: &NamePath) -> bool {
    match item {
        Some(content) => content.digest == *digest && content.path == *path,
        None => false,
    }
}

// A digest is noted at a path of this text, and it is new; or it isn't.
fn is_noted(contents: &mut Contents, alloc: Global, digest: &Digest, at: &str, new: bool) -> bool {
    match path(alloc, at) {
        Ok(at) => contents.note(digest, &at) == Ok(new),
        Err(_) => false,
    }
}

// The item has this digest, and a path of this text.
fn is_noted_at(item: Option<&Content>, digest: &Digest, at: &str) -> bool {
    match item {
        Some(content) => content.digest == *digest && is_path(&content.path, at),
        None => false,
    }
}

// The first path of this digest is this text.
fn is_first_at(contents: &Contents, digest: &Digest, at: &str) -> bool {
    match contents.first(digest) {
        Some(path) => is_path(path, at),
        None => false,
    }
}

// Without contents, it notes these two.
fn notes(contents: &mut Contents, alloc: Global, abc: &Digest, nothing: &Digest) -> bool {
    contents.is_empty()
        && contents.first(abc).is_none()
        && is_noted(contents, alloc, abc, "a/x", true)
        && is_noted(contents, alloc, abc, "a.txt", false)
        && is_noted(contents, alloc, nothing, "c", true)
}

fn are_noted(contents: &Contents, abc: &Digest, nothing: &Digest) -> bool {
    contents.len() == 2
        && is_noted_at(contents.get(0), abc, "a/x")
        && is_noted_at(contents.get(1), nothing, "c")
        && contents.get(2).is_none()
        && is_first_at(contents, abc, "a/x")
}

fn are_cleared(contents: &mut Contents) -> bool {
    contents.clear();
    contents.is_empty()
}

fn notes_once(contents: &mut Contents, alloc: Global) -> bool {
    let abc = digest_of_blocks(Algorithm::Sha512, ABC);
    let nothing = digest_of_blocks(Algorithm::Sha512, &[]);
    notes(contents, alloc, &abc, &nothing)
        && are_noted(contents, &abc, &nothing)
        && are_cleared(contents)
}

#[test]
fn each_content_is_noted_once(rt: HostRuntime) {
    assert!(rt; notes_once(&mut Contents::new(rt.alloc()), rt.alloc()));
}

// The SHA-256 digests of the texts of one byte, from the byte 0 on.
fn digests_of_bytes(alloc: Global) -> Result<Vec<Digest>, AllocError> {
    let mut digests = Vec::new(alloc);
    for byte in 0..=255u8 {
        digests.push(digest_of_blocks(Algorithm::Sha256, &[[byte].as_slice()]))?;
    }
    Ok(digests)
}

// Notes all of these digests, each of which is new or none, and answers the first that isn't so.
fn find_unlike(
    contents: &mut Contents,
    path: &NamePath,
    digests: &[Digest],
    new: bool,
) -> Option<usize> {
    for (i, digest) in digests.iter().enumerate() {
        if contents.note(digest, path) != Ok(new) {
            return Some(i);
        }
    }
    None
}

// The first of these digests that isn't found at its place by 1 to 9 comparisons.
fn find_missing(contents: &Contents, path: &NamePath, digests: &[Digest]) -> Option<usize> {
    for (i, digest) in digests.iter().enumerate() {
        let (found, comparisons) = contents.first_counted(digest);
        let is_near = 1 <= comparisons && comparisons <= 9;
        if !is_item(contents.get(i), digest, path) || found != Some(path) || !is_near {
            return Some(i);
        }
    }
    None
}

// Notes each digest twice over: it is new the first time, and the order is kept. The first digest
// of which that isn't so, and how.
fn find_out_of_order(
    contents: &mut Contents,
    path: &NamePath,
    digests: &[Digest],
) -> Option<(usize, &'static str)> {
    if let Some(i) = find_unlike(contents, path, digests, true) {
        return Some((i, "isn't new"));
    }
    if let Some(i) = find_unlike(contents, path, digests, false) {
        return Some((i, "is new"));
    }
    if let Some(i) = find_missing(contents, path, digests) {
        return Some((i, "isn't found"));
    }
    if contents.len() != 256 {
        return Some((256, "isn't the last"));
    }
    None
}

// The same from the start, at a path.
fn find_misnoted(alloc: Global, digests: &[Digest]) -> Option<(usize, &'static str)> {
    match path(alloc, "f") {
        Ok(path) => find_out_of_order(&mut Contents::new(alloc), &path, digests),
        Err(_) => Some((0, "has no path")),
    }
}

// The same of these digests as they are, sorted, and the other way round.
fn find_wrong_in_any_order(
    alloc: Global,
    digests: &mut Vec<Digest>,
) -> Option<(usize, &'static str)> {
    let given = find_misnoted(alloc, digests);
    if digests.sort().is_err() {
        return Some((0, "isn't sorted"));
    }
    let sorted = find_misnoted(alloc, digests);
    digests.reverse();
    given.or(sorted).or(find_misnoted(alloc, digests))
}

fn find_wrong(alloc: Global) -> Option<(usize, &'static str)> {
    match digests_of_bytes(alloc) {
        Ok(mut digests) => find_wrong_in_any_order(alloc, &mut digests),
        Err(_) => Some((0, "isn't there")),
    }
}

#[test]
fn contents_are_found_in_whatever_order_they_come(rt: HostRuntime) {
    let wrong = find_wrong(rt.alloc());
    assert!(rt; wrong.is_none(), "{wrong:?}");
}
