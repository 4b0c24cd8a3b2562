//! Runs that end before their end, what they leave, and the runs after them.
#![tactic(auto)]

use crate::expected_roots::{ABC, Base, Files, LINES, ONE, STORE, is_tree};
use crate::jobs::{Goes, Settings, goes_over, goes_over_store, make_job, make_steps, run};
use crate::steps::{Ends, Step, all_go};
use pt_memory::texts::{path, store};
use pt_memory::{LooseSource, MemDest, MemLog, MemSource};
use pt_move::{Fault, Job, Mover, Report, Turn};
use pt_tree::Source;
use std::alloc::Global;

const DONE: &str =
    "{\"as\":\"done\",\"at\":\"ab/c/obj\",\"bytes\":3,\"empty\":0,\"files\":1,\"id\":\"abc\",\"to\":\"ba7/816/bf8/abc\"}\n";

// How many bytes a log takes.
#[derive(Clone, Copy)]
struct LogRoom(usize);

// The run ends in a fault if more were to follow, and leaves the object and these bytes.
impl Goes<MemSource> for LogRoom {
    fn goes(
        &self,
        alloc: Global,
        source: &mut MemSource,
        dest: &mut MemDest,
        log: &mut MemLog,
    ) -> bool {
        let taken = self.0;
        log.fuse(Some(taken as u64));
        ends_where_the_log_is_full(run(alloc, source, dest, log, Settings::Usual), taken)
            && is_tree(alloc, dest, Base::Object(ONE), ABC)
            && LINES.as_bytes().get(..taken) == Some(log.bytes())
    }
}

// The log is the cause where it took too little, and else one object was carried.
fn ends_where_the_log_is_full(answer: Option<Result<Report, Fault>>, taken: usize) -> bool {
    match answer {
        Some(Ok(report)) => taken == LINES.len() && report.done == 1,
        Some(Err(fault)) => taken < LINES.len() && fault == Fault::Log,
        None => false,
    }
}

// The first number of bytes at which that is otherwise.
fn find_wrong_byte(alloc: Global) -> Option<usize> {
    for taken in 0..LINES.len() + 1 {
        if !goes_over_store(alloc, STORE, &LogRoom(taken)) {
            return Some(taken);
        }
    }
    None
}

#[test]
fn a_log_may_fail_at_each_of_its_bytes(rt: HostRuntime) {
    let wrong = find_wrong_byte(rt.alloc());
    assert!(rt; wrong.is_none(), "at byte {wrong:?}");
}

// How many steps went on, what the two steps after them answer, and the turns and the objects that
// are reported.
type Ending = (u64, Result<Turn, Fault>, Result<Turn, Fault>, u64, u64);

// A run that is stopped: what its job has that isn't as usual, how many bytes its log takes, how
// many steps are made while it goes on, what is in its log then, and what comes after.
struct StoppedRun {
    settings: Settings,
    taken: Option<u64>,
    steps: u64,
    lines: &'static str,
    ending: Ending,
}

fn make_steps_and_two<S: Source>(
    alloc: Global,
    source: &mut S,
    dest: &mut MemDest,
    log: &mut MemLog,
    run: (Job, u64),
) -> Ending {
    let (job, steps) = run;
    let mut mover = Mover::start(alloc, job);
    let (made, _) = make_steps(&mut mover, source, dest, log, steps);
    let first = mover.step(source, dest, log);
    let second = mover.step(source, dest, log);
    let report = mover.report();
    (made, first, second, report.turns, report.done)
}

// It leaves just the object, too.
impl<S: Source> Goes<S> for StoppedRun {
    fn goes(&self, alloc: Global, source: &mut S, dest: &mut MemDest, log: &mut MemLog) -> bool {
        log.fuse(self.taken);
        match make_job(alloc, self.settings) {
            Some(job) => {
                make_steps_and_two(alloc, source, dest, log, (job, self.steps)) == self.ending
                    && log.bytes() == self.lines.as_bytes()
                    && is_tree(alloc, dest, Base::Object(ONE), ABC)
            }
            None => false,
        }
    }
}

// Whether a run over the store of the object goes so, where it may change.
fn goes_over_loose<R: Goes<LooseSource>>(alloc: Global, row: &R) -> bool {
    match store(alloc, STORE) {
        Ok(source) => goes_over(alloc, LooseSource::of(source), row),
        Err(_) => false,
    }
}

const FULL_LOG: &StoppedRun = &StoppedRun {
    settings: Settings::Usual,
    taken: Some(10),
    steps: 100,
    lines: "{\"as\":\"don",
    ending: (37, Err(Fault::Ended), Err(Fault::Ended), 38, 0),
};

const TOO_FEW_TURNS: &StoppedRun = &StoppedRun {
    settings: Settings::Turns(42),
    taken: None,
    steps: 42,
    lines: DONE,
    ending: (42, Err(Fault::Turns), Err(Fault::Ended), 42, 1),
};

const ENOUGH_TURNS: &StoppedRun = &StoppedRun {
    settings: Settings::Turns(43),
    taken: None,
    steps: 42,
    lines: LINES,
    ending: (42, Ok(Turn::Finished), Err(Fault::Ended), 43, 1),
};

#[test]
fn a_stopped_run_goes_no_further(rt: HostRuntime) {
    assert!(rt;
        goes_over_store(rt.alloc(), STORE, FULL_LOG),
        "a log that failed"
    );
    assert!(rt;
        goes_over_store(rt.alloc(), STORE, TOO_FEW_TURNS),
        "the limit of turns"
    );
    assert!(rt; goes_over_loose(rt.alloc(), ENOUGH_TURNS), "the last turn");
}

const FIVE_TURNS: &[Step] = &[
    Step::Store("pairtree_root/"),
    Step::Run(Settings::Turns(5), Ends::In(Fault::Turns), ""),
    Step::Is(Base::Nothing, &[("staging/", "")]),
];

const TWELVE_CALLS: &[Step] = &[
    Step::Store(STORE),
    Step::SourceFails(12),
    Step::Run(Settings::Usual, Ends::In(Fault::Source), ""),
    Step::Is(
        Base::Root,
        &[
            ("staging/0=ocfl_object_1.1", "ocfl_object_1.1\n"),
            ("staging/v1/content/a.txt", "abc"),
        ],
    ),
];

const THIRTEEN_CALLS: &[Step] = &[
    Step::Store(STORE),
    Step::SourceFails(13),
    Step::Run(Settings::Usual, Ends::Well, LINES),
    Step::Is(Base::Object(ONE), ABC),
];

// What a file of `abc` holds when it is read again, after ten calls, and what is left then.
struct ChangedFile(&'static str, Files);

fn changes(alloc: Global, source: &mut LooseSource, bytes: &str) -> bool {
    match path(alloc, "pairtree_root/ab/c/obj/a.txt") {
        Ok(file) => source.swap_after(10, &file, bytes.as_bytes()).is_ok(),
        Err(_) => false,
    }
}

// The run ends before its log.
impl Goes<LooseSource> for ChangedFile {
    fn goes(
        &self,
        alloc: Global,
        source: &mut LooseSource,
        dest: &mut MemDest,
        log: &mut MemLog,
    ) -> bool {
        let ChangedFile(bytes, left) = self;
        changes(alloc, source, bytes)
            && run(alloc, source, dest, log, Settings::Usual) == Some(Err(Fault::Changed))
            && log.bytes().is_empty()
            && is_tree(alloc, dest, Base::Root, left)
    }
}

const CHANGED: &[ChangedFile] = &[
    ChangedFile(
        "abd",
        &[
            ("staging/0=ocfl_object_1.1", "ocfl_object_1.1\n"),
            ("staging/v1/content/a.txt", "abd"),
        ],
    ),
    ChangedFile(
        "ab",
        &[
            ("staging/0=ocfl_object_1.1", "ocfl_object_1.1\n"),
            ("staging/v1/content/a.txt", "ab"),
        ],
    ),
    ChangedFile(
        "abcd",
        &[
            ("staging/0=ocfl_object_1.1", "ocfl_object_1.1\n"),
            ("staging/v1/content/a.txt", ""),
        ],
    ),
];

#[test]
fn a_file_that_changes_ends_the_run(rt: HostRuntime) {
    for row in CHANGED {
        let bytes = row.0;
        assert!(rt; goes_over_loose(rt.alloc(), row), "{bytes}");
    }
}

const TWO: &str = "ab/c/obj/a.txt=abc ab/cd/obj/a.txt=abc ab/cd/obj/b.bin*16384";

const TWO_DONE: &str =
    r#"{"as":"done","at":"ab/c/obj","bytes":3,"empty":0,"files":1,"id":"abc","to":"ba7/816/bf8/abc"}
{"as":"done","at":"ab/cd/obj","bytes":16387,"empty":0,"files":2,"id":"abcd","to":"88d/426/6fd/abcd"}
{"as":"end","done":2,"present":0,"skip":0}
"#;

const ONE_PRESENT: &str = r#"{"as":"present","at":"ab/c/obj","id":"abc","to":"ba7/816/bf8/abc"}
{"as":"done","at":"ab/cd/obj","bytes":16387,"empty":0,"files":2,"id":"abcd","to":"88d/426/6fd/abcd"}
{"as":"end","done":1,"present":1,"skip":0}
"#;

// One object, and another under way: the second `append` of its last file left half of its piece.
const UNDER_WAY: Files = &[
    ("ocfl/ba7/816/bf8/abc/v1/content/a.txt", "abc"),
    ("staging/0=ocfl_object_1.1", "ocfl_object_1.1\n"),
    ("staging/v1/content/a.txt", "abc"),
    ("staging/v1/content/b.bin", "*12288"),
];

const UNBROKEN: &[Step] = &[
    Step::Store(TWO),
    Step::Run(Settings::Usual, Ends::Well, TWO_DONE),
];

const BROKEN: &[Step] = &[
    Step::Store(TWO),
    // The call after 56 is the second `append` of the last file.
    Step::DestFails(56),
    Step::Run(Settings::Usual, Ends::In(Fault::Dest), DONE),
    Step::Is(Base::Object(ONE), UNDER_WAY),
    Step::DestIsWell,
    Step::Run(Settings::Usual, Ends::In(Fault::StagingLeft), ""),
    Step::Is(Base::Object(ONE), UNDER_WAY),
    Step::Take("staging"),
    Step::Run(Settings::Usual, Ends::Well, ONE_PRESENT),
    Step::IsUnbroken,
];

#[test]
fn runs_stop_at_a_failing_call_or_the_limit_of_turns(rt: HostRuntime) {
    all_go(&rt, rt.alloc(), "five turns make staging alone", FIVE_TURNS);
    all_go(
        &rt,
        rt.alloc(),
        "a source that fails after twelve calls ends the run",
        TWELVE_CALLS,
    );
    all_go(
        &rt,
        rt.alloc(),
        "a run takes thirteen calls of its source",
        THIRTEEN_CALLS,
    );
    all_go(&rt, rt.alloc(), "a run that isn't broken", UNBROKEN);
    all_go(
        &rt,
        rt.alloc(),
        "staging is left and taken away by hand",
        BROKEN,
    );
}
