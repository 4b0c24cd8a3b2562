//! Stores in memory of which something can't be read: how many lines a check tells of it, and how a
//! run over the same store ends.
#![tactic(auto)]

use crate::jobs::{Settings, run};
use pt_check::{Check, CheckDevices, Explains, UnlistedFolder, Wants};
use pt_memory::texts::{path, store};
use pt_memory::{MemDest, MemLog, SpoiledSource};
use pt_name::Layout;
use pt_tree::{MemoryFault, NamePath, TreeFault};
use pt_walk::Form;
use std::alloc::Global;

// A store, and where nothing can be read in it; how many lines a check tells, and the number of the
// fault that a run answers.
struct Row(&'static str, &'static [&'static str], u64, Option<u8>);

const STORE: &str =
    "pairtree_README=r pairtree_prefix=ark:/ ab/c/obj/f=abc ab/d/obj/g=de ab/d/obj/h/i=hi";

const LINKED: &str = "ab/c/obj/a? ab/c/obj/f=abc";

// Each file is read whole by the check.
const READ: &[Row] = &[
    Row(STORE, &[], 0, None),
    Row(STORE, &[""], 1, Some(1)),
    Row(STORE, &["pairtree_prefix"], 1, Some(1)),
    Row(STORE, &["pairtree_root"], 1, Some(1)),
    Row(STORE, &["pairtree_root/ab"], 1, Some(1)),
    Row(STORE, &["pairtree_root/ab/c"], 1, Some(1)),
    Row(STORE, &["pairtree_root/ab/c/obj"], 1, Some(1)),
    Row(STORE, &["pairtree_root/ab/c/obj/f"], 1, Some(1)),
    Row(STORE, &["pairtree_root/ab/d/obj/h/i"], 1, Some(1)),
    // A run goes no further than the first; a check goes on.
    Row(
        STORE,
        &["pairtree_root/ab/c", "pairtree_root/ab/d/obj/h"],
        2,
        Some(1),
    ),
    // A run meets the link before the file, and passes the object over.
    Row(LINKED, &["pairtree_root/ab/c/obj/f"], 2, None),
    // Neither asks for these.
    Row(STORE, &["pairtree_README"], 0, None),
    Row(STORE, &["pairtree_version0_1"], 0, None),
    Row(STORE, &["pairtree_root/ab/e"], 0, None),
];

// Files are opened alone, but for that of the prefix: that one can't be read isn't seen.
const OPENED: &[Row] = &[
    Row(STORE, &[], 0, None),
    Row(STORE, &["pairtree_prefix"], 1, Some(1)),
    Row(STORE, &["pairtree_root/ab/c"], 1, Some(1)),
    Row(STORE, &["pairtree_root/ab/c/obj/f"], 0, Some(1)),
];

/// What is told of each call that fails. Where further reasons are given, what failed to list lists
/// its entries all the same.
#[derive(Drop)]
pub struct ItFailed {
    /// The further reasons.
    pub further: &'static [&'static str],
}

impl Explains<SpoiledSource> for ItFailed {
    ghost use Rattle.std.specs.Prelude.{true};

    ghost says = { λ _ _ _. true };

    fn reason(&self, alloc: Global, _: &SpoiledSource) -> Result<String, MemoryFault> {
        Ok(String::from_str(alloc, "it failed")?)
    }

    #[tactic(auto, unfolding(pt_tree::specs::Source::IsListed))]
    fn explain_listing(
        &self,
        alloc: Global,
        source: &mut SpoiledSource,
        path: &NamePath,
    ) -> Result<UnlistedFolder, MemoryFault> {
        let reason = self.reason(alloc, source)?;
        let mut further = Vec::new(alloc);
        for reason in self.further {
            further.push(String::from_str(alloc, reason)?)?;
        }
        let mut listing = None;
        if !further.is_empty() {
            listing = source.source().listing(path)?;
        }
        Ok(UnlistedFolder {
            reason,
            further,
            listing,
        })
    }
}

/// The store of these entries, in which nothing can be read at some paths, and so many calls pass.
pub fn spoiled_store(
    alloc: Global,
    entries: &str,
    spoiled: &[&str],
    calls: Option<u64>,
) -> Result<SpoiledSource, TreeFault> {
    let mut source = store(alloc, entries)?;
    source.fuse(calls);
    let mut paths = Vec::new(alloc);
    for at in spoiled {
        let Ok(()) = paths.push(path(alloc, at)?) else {
            return Err(TreeFault::Memory);
        };
    }
    Ok(SpoiledSource::new(source, paths))
}

// How many lines a check tells, where it ends well; and the source as that leaves it.
fn check(alloc: Global, source: SpoiledSource, reads: bool) -> (Option<u64>, SpoiledSource) {
    let devices = CheckDevices {
        source,
        log: MemLog::new(alloc),
        explains: ItFailed { further: &[] },
    };
    let wants = Wants {
        reads,
        form: Form::Plain,
        room: None,
        layout: Layout::default_form(),
    };
    let mut check = Check::new(alloc, devices, wants);
    let told = match check.run() {
        Ok(numbers) => Some(numbers.told),
        Err(_) => None,
    };
    let ((source, _), _) = check.into_parts();
    (told, source)
}

// Whether a run over a source answers the fault of this number, or none.
fn ends(alloc: Global, mut source: SpoiledSource, number: Option<u8>) -> bool {
    let mut dest = MemDest::new(alloc);
    let mut log = MemLog::new(alloc);
    match run(alloc, &mut source, &mut dest, &mut log, Settings::Usual) {
        Some(Ok(_)) => number.is_none(),
        Some(Err(fault)) => number == Some(fault.number()),
        None => false,
    }
}

// Whether it is so of a check, and of a run over what that leaves.
fn holds(alloc: Global, row: &Row, reads: bool) -> bool {
    let Row(entries, spoiled, lines, number) = row;
    match spoiled_store(alloc, entries, spoiled, None) {
        Ok(source) => {
            let (told, left) = check(alloc, source, reads);
            told == Some(*lines) && ends(alloc, left, *number)
        }
        Err(_) => false,
    }
}

// Whether it is so of a run over a source that no check has touched.
fn holds_afresh(alloc: Global, row: &Row) -> bool {
    let Row(entries, spoiled, _, number) = row;
    match spoiled_store(alloc, entries, spoiled, None) {
        Ok(source) => ends(alloc, source, *number),
        Err(_) => false,
    }
}

#[test]
fn no_run_halts_for_a_store_of_which_a_check_that_reads_tells_nothing(rt: HostRuntime) {
    let wrong = READ.iter().position(|row| !holds(rt.alloc(), row, true)
        || !holds_afresh(rt.alloc(), row));
    assert!(rt; wrong.is_none(), "row {wrong:?}");
}

#[test]
fn a_check_that_opens_files_alone_misses_what_cannot_be_read(rt: HostRuntime) {
    let wrong = OPENED.iter().position(|row| !holds(rt.alloc(), row, false));
    assert!(rt; wrong.is_none(), "row {wrong:?}");
}
