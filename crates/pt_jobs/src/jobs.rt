//! The jobs, by the words that ask for them.

use crate::content::pool;
use crate::machine::{How, Machine, audit, carry};
use crate::stores::{Kind, made};
use crate::system::MadeSystem;
use crate::trace::Trace;
use crate::tree::{Held, Tree};
use pt_tree::Kind as Entry;
use std::alloc::AllocGlobal;

/// A job: what is done, over how many stores one after another, of which kind, of how many objects,
/// files or sites each, made from which numbers, the first of which is this.
#[derive(Clone, Copy)]
pub struct Asked {
    what: What,
    kind: Kind,
    stores: u64,
    size: u64,
    seed: u64,
}

// What is done.
#[derive(Clone, Copy)]
enum What {
    // The store is carried.
    Carry,
    // That is rehearsed, and then made with divided sites gathered; and what desktops leave behind
    // is left out.
    Rehearse,
    // The store is carried, the root held against it, and again with one file in a hundred altered,
    // and the store carried again.
    Audit,
}

/// The job that five words behind the program's name ask for.
pub fn read_words(words: &[String]) -> Option<Asked> {
    let [_, what, stores, kind, size, seed] = words else {
        return None;
    };
    Some(Asked {
        what: what_of(what)?,
        kind: kind_of(kind)?,
        stores: stores.parse().ok()?,
        size: size.parse().ok()?,
        seed: seed.parse().ok()?,
    })
}

fn what_of(word: &str) -> Option<What> {
    match word {
        "carry" => Some(What::Carry),
        "rehearse" => Some(What::Rehearse),
        "audit" => Some(What::Audit),
        _ => None,
    }
}

fn kind_of(word: &str) -> Option<Kind> {
    match word {
        "books" => Some(Kind::Books),
        "many" => Some(Kind::Many),
        "wide" => Some(Kind::Wide),
        "deep" => Some(Kind::Deep),
        "neglected" => Some(Kind::Neglected),
        _ => None,
    }
}

/// Does a job, and gives the digest of it.
pub fn done(rt: &HostRuntime, asked: Asked) -> Option<u64> {
    let trace = Trace::new();
    for i in 0..asked.stores {
        done_once(rt, asked, asked.seed.wrapping_add(i), &trace)?;
    }
    Some(trace.digest())
}

// Does it over one store, which is made from this number.
fn done_once(rt: &HostRuntime, asked: Asked, seed: u64, trace: &Trace) -> Option<()> {
    let alloc = rt.alloc();
    let pool = pool(alloc, seed).ok()?;
    let store = made(alloc, asked.kind, asked.size, seed).ok()?;
    let mut root = Tree::new(alloc);
    root.add(b"root", Entry::Dir, Held::Untold).ok()?;
    let mut machine = Machine::new(
        alloc,
        trace,
        MadeSystem::new(alloc, trace, &pool, store),
        MadeSystem::new(alloc, trace, &pool, root),
    );
    match asked.what {
        What::Carry => trace.note(u64::from(carry(rt, &mut machine, PLAIN)?)),
        What::Rehearse => rehearsed(rt, &mut machine, trace)?,
        What::Audit => audited(rt, &mut machine, trace)?,
    }
    Some(())
}

// A run as it is without options.
const PLAIN: How = How {
    rehearse: false,
    gather: false,
    tidy: false,
};

fn rehearsed(rt: &HostRuntime, machine: &mut Machine<'_>, trace: &Trace) -> Option<()> {
    let rehearsal = How {
        rehearse: true,
        gather: false,
        tidy: true,
    };
    trace.note(u64::from(carry(rt, machine, rehearsal)?));
    let run = How {
        rehearse: false,
        gather: true,
        tidy: true,
    };
    trace.note(u64::from(carry(rt, machine, run)?));
    Some(())
}

fn audited(rt: &HostRuntime, machine: &mut Machine<'_>, trace: &Trace) -> Option<()> {
    machine.root = machine.root.take().keeping();
    trace.note(u64::from(carry(rt, machine, PLAIN)?));
    trace.note(u64::from(audit(rt, machine)?));
    machine.root.alter();
    trace.note(u64::from(audit(rt, machine)?));
    trace.note(u64::from(carry(rt, machine, PLAIN)?));
    Some(())
}
