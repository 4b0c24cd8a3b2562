//! Lists of identifiers: what stands in one, and of what in it no object was met.
use crate::identifiers::owned;
use crate::tables::{Holds, all_hold};
use pt_name::{IdentifierList, Share, UnmetIdentifiers};
use pt_tree::MemoryFault;
use std::alloc::Global;

enum Row {
    // The identifiers of a list, one, and whether the whole holds it of which only these are taken.
    Stands(&'static [&'static str], &'static [u8], bool),
    // The identifiers of a list, one that was met, and those of which no object was met, by their
    // places in the list.
    Unmet(&'static [&'static str], &'static [u8], &'static [Option<&'static str>]),
}

impl Holds for Row {
    fn holds(&self, alloc: Global) -> bool {
        match self {
            Row::Stands(ids, id, answer) => match listed(alloc, ids) {
                Ok(share) => share.holds(id) == *answer,
                Err(_) => false,
            },
            Row::Unmet(ids, id, unmet) => match listed(alloc, ids) {
                Ok(share) => leaves_unmet(alloc, &share, id, unmet),
                Err(_) => false,
            },
        }
    }
}

fn listed(alloc: Global, ids: &[&str]) -> Result<Share, MemoryFault> {
    let list = IdentifierList::of(String::from_str(alloc, "ids")?, owned(alloc, ids)?);
    Share::whole().with_list(alloc, list)
}

// Whether of just these no object was met, once this one was met.
fn leaves_unmet(alloc: Global, share: &Share, met: &[u8], unmet: &[Option<&str>]) -> bool {
    let Ok(mut left) = UnmetIdentifiers::of(alloc, share) else {
        return false;
    };
    left.note_met(met);
    left.len() == unmet.len() && unmet.iter().enumerate().all(|(at, id)| left.at(at) == *id)
}

const LISTS: &[Row] = &[
    Row::Stands(&[], b"abc", false),
    Row::Stands(&["abc"], b"abc", true),
    Row::Stands(&["ab", "abcd"], b"abc", false),
    Row::Stands(&["c", "b", "a"], b"a", true),
    Row::Stands(&["c", "b", "a"], b"b", true),
    Row::Stands(&["c", "b", "a"], b"c", true),
    Row::Stands(&["c", "b", "a"], b"bb", false),
    Row::Stands(&["z", "\u{e9}"], b"\xc3\xa9", true),
    Row::Unmet(&[], b"a", &[]),
    Row::Unmet(&["c", "a", "b", "a"], b"a", &[None, Some("b"), Some("c")]),
    Row::Unmet(&["b", "b"], b"c", &[Some("b")]),
];

#[test]
fn lists_of_identifiers_are_as_the_table_says(rt: HostRuntime) {
    all_hold(&rt, rt.alloc(), "lists of identifiers", LISTS);
}
