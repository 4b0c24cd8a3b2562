//! Identifiers, and what the names of a site say of its object.
ghost use Rattle.std.specs.Prelude.{◌<◌, length};

use crate::tables::{Holds, all_hold, is_path};
use pt_memory::texts::path;
use pt_name::*;
use pt_tree::NamePath;
use std::alloc::Global;

// What is said of an object.
enum Said {
    Refused(Refusal),
    OtherShare,
    // Its identifier, and its place.
    Object(&'static str, &'static str),
}

// The names of a site's path, the store's prefix, a share of two, and what is said in the layout
// without tuples.
struct Row(&'static str, &'static str, u32, Said);

impl Holds for Row {
    fn holds(&self, alloc: Global) -> bool {
        let Row(names, prefix, share, said) = self;
        match path(alloc, names) {
            Ok(path) => is_identified(&path, prefix, *share, said),
            Err(_) => false,
        }
    }
}

// The path isn't empty, and this is said of its object.
fn is_identified(path: &NamePath, prefix: &str, share: u32, said: &Said) -> bool {
    match (Layout::of(0, 0), Share::of(share, 2)) {
        (Ok(layout), Ok(share)) => path.len() > 0 && says(path, prefix, layout, &share, said),
        _ => false,
    }
}

fn says(path: &NamePath, prefix: &str, layout: Layout, share: &Share, said: &Said) -> bool
    requires { 0 < length path.now }
{
    let mut unmet = UnmetIdentifiers::none(path.allocator());
    match identify(path, prefix, layout, share, &mut unmet) {
        Ok(answer) => is_said(&answer, said),
        Err(_) => false,
    }
}

fn is_said(answer: &Identification, said: &Said) -> bool {
    match (answer, said) {
        (Identification::Refused(found), Said::Refused(refusal)) => found == refusal,
        (Identification::OtherShare, Said::OtherShare) => true,
        (Identification::Candidate(found), Said::Object(id, place)) => {
            found.id.as_str() == *id && is_path(&found.place, place)
        }
        _ => false,
    }
}

// By the SHA-256 of each, `abc` is of the second share, and `c` and `abcde` of the first.
const IDENTIFIED: &[Row] = &[
    Row("ab/c", "", 2, Said::Object("abc", "abc")),
    Row("ab/c", "", 1, Said::OtherShare),
    Row("c", "ab", 2, Said::Object("abc", "abc")),
    Row("c", "ab", 1, Said::OtherShare),
    Row("^6/4e", "abc", 1, Said::Object("abcde", "abcde")),
    Row("^f/f^/2", "", 1, Said::Refused(Refusal::Malformed)),
    Row("^f/f", "", 1, Said::Refused(Refusal::NotUtf8)),
    Row("^f/f", "", 2, Said::Refused(Refusal::NotUtf8)),
    Row("ex/te/ns/io/ns", "", 1, Said::Refused(Refusal::Reserved)),
    Row("ex/te/ns/io/ns", "", 2, Said::Refused(Refusal::Reserved)),
    Row("ns", "extensio", 1, Said::Refused(Refusal::Reserved)),
];

fn is_its_text(alloc: Global, text: &str) -> bool {
    match String::from_str(alloc, text) {
        Ok(owned) => Identifier::of(owned).as_str() == text,
        Err(_) => false,
    }
}

#[test]
fn names_say_identifiers(rt: HostRuntime) {
    assert!(rt; is_its_text(rt.alloc(), "ark:/13030/xt12t3"));
    all_hold(&rt, rt.alloc(), "what names say of an object", IDENTIFIED);
}
