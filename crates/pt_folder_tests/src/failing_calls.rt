//! Folders over a system of which one call fails, and which reads and writes by short pieces: what
//! is answered, and what stays.
use crate::failing_system::{FailingSystem, LEN, SystemState};
use crate::steps::{Answer, DONE, DestStep, FAILS, Outcome, Row, SourceStep, try_dest, try_source};
use pt_tree::{Kind, TreeFault};
use std::alloc::Global;
use std::io::ErrorKind;
use std::test::Fail;

// What goes otherwise of a destination over a system that writes so many bytes at a time, and fails
// with this error.
fn try_failing_dest(
    alloc: Global,
    at_a_time: usize,
    error: ErrorKind,
    rows: &[Row],
) -> Result<Outcome, Fail> {
    let state = SystemState::new(at_a_time, error, b"");
    try_dest(&FailingSystem { state: &state }, &state, alloc, "f", rows)
}

// What goes otherwise of a source over a system that reads so many bytes at a time, fails with this
// error, and gives these names.
fn try_failing_source(
    alloc: Global,
    at_a_time: usize,
    error: ErrorKind,
    names: &'static [u8],
    steps: &[SourceStep],
) -> Result<Outcome, Fail> {
    let state = SystemState::new(at_a_time, error, names);
    try_source(&FailingSystem { state: &state }, &state, alloc, "f", steps)
}

const SHORT: &[Row] = &[
    (DestStep::Create("a"), DONE),
    (DestStep::Written(0), DONE),
    (DestStep::Append(20_000), DONE),
    (DestStep::Written(20_000), DONE),
    (DestStep::Finish, DONE),
    (DestStep::Written(20_000), DONE),
];

// A write that takes nothing is a failure, but for an empty piece, which asks for no write.
const NOTHING: &[Row] = &[
    (DestStep::Create("a"), DONE),
    (DestStep::Written(0), DONE),
    (DestStep::Append(1), FAILS),
    (DestStep::Written(0), DONE),
    (DestStep::Append(0), DONE),
    (DestStep::Written(0), DONE),
    (DestStep::Finish, DONE),
    (DestStep::Written(0), DONE),
];

const STAYS_OPEN: &[Row] = &[
    (DestStep::Create("a"), DONE),
    (DestStep::Written(0), DONE),
    (DestStep::CallFails(2), DONE),
    (DestStep::Append(10_000), FAILS),
    (DestStep::Written(4096), DONE),
    (DestStep::Append(10), DONE),
    (DestStep::Written(4106), DONE),
    (DestStep::CallFails(1), DONE),
    (DestStep::Create("b"), FAILS),
    (DestStep::Written(4106), DONE),
    (DestStep::Append(10), DONE),
    (DestStep::Written(4116), DONE),
    (DestStep::CallFails(1), DONE),
    (DestStep::Rename("a", "c"), FAILS),
    (DestStep::Written(4116), DONE),
    (DestStep::Append(10), DONE),
    (DestStep::Written(4126), DONE),
    (DestStep::Finish, DONE),
    (DestStep::Written(4126), DONE),
    (DestStep::Append(10), FAILS),
    (DestStep::Written(4126), DONE),
];

// The first block of a file.
const PEEKED: &[Row] = &[(DestStep::Peek("a"), DONE), (DestStep::Holds(8192), DONE)];

// Bytes at a time, the error of a call that fails, the steps, and how many failures they make.
const OVER_A_DEST: &[(usize, ErrorKind, &[Row], u64)] = &[
    // short writes go on
    (1, ErrorKind::Other, SHORT, 0),
    (7, ErrorKind::Other, SHORT, 0),
    (8191, ErrorKind::Other, SHORT, 0),
    (30_000, ErrorKind::Other, SHORT, 0),
    (0, ErrorKind::Other, NOTHING, 1),
    // a failed append leaves the file open
    (4096, ErrorKind::StorageFull, STAYS_OPEN, 4),
    // short reads are not the end
    (1, ErrorKind::Other, PEEKED, 0),
    (7, ErrorKind::Other, PEEKED, 0),
    (4096, ErrorKind::Other, PEEKED, 0),
    (8191, ErrorKind::Other, PEEKED, 0),
    (8192, ErrorKind::Other, PEEKED, 0),
    (30_000, ErrorKind::Other, PEEKED, 0),
];

#[test]
fn a_destination_goes_on_past_short_writes_and_failures(rt: HostRuntime) -> Result<(), Fail> {
    for (i, &(at_a_time, error, rows, failures)) in OVER_A_DEST.iter().enumerate() {
        let wrong = try_failing_dest(rt.alloc(), at_a_time, error, rows)?;
        assert!(rt;
            wrong == (None, failures),
            "row {i}: step and failures {wrong:?}"
        );
    }
    Ok(())
}

// A step, the call of the system that fails in it, if any, and how many bytes are in the block
// then.
type Turn = (DestStep, u64, usize);

// What goes otherwise where a step is taken with an open file, and a call fails with this error:
// what the step answers, and how many calls it makes.
fn try_turn(
    alloc: Global,
    error: ErrorKind,
    (step, failing, left): Turn,
    answer: Answer,
    calls: u64,
) -> Result<Outcome, Fail> {
    let rows = [
        (DestStep::Create("a"), DONE),
        (DestStep::Peek("a"), DONE),
        (DestStep::Calls(4), DONE),
        (DestStep::CallFails(failing), DONE),
        (step, answer),
        (DestStep::Calls(calls.wrapping_add(4)), DONE),
        (DestStep::Holds(left), DONE),
    ];
    try_failing_dest(alloc, 4096, error, &rows)
}

// A step, what it answers, how many calls of the system it makes at 4,096 bytes a time, and how
// many bytes stay in the block where one fails.
const CALLS: &[(DestStep, Answer, u64, usize)] = &[
    (DestStep::Kind("a"), Ok(Some(Kind::File)), 1, 8192),
    (DestStep::Peek("a"), DONE, 3, 0),
    (DestStep::Mkdir("a"), DONE, 1, 8192),
    (DestStep::Create("a"), DONE, 1, 8192),
    (DestStep::Append(8192), DONE, 2, 8192),
    (DestStep::Rename("a", "b"), DONE, 1, 8192),
];

// The first of these calls that fails otherwise, or isn't the last one: a failure of the device
// counts, and want of memory doesn't.
fn find_wrong_call(
    alloc: Global,
    step: DestStep,
    calls: u64,
    left: usize,
) -> Result<Option<u64>, Fail> {
    for passing in 0..calls {
        let call = passing + 1;
        let turn = (step, call, left);
        let refused = try_turn(alloc, ErrorKind::PermissionDenied, turn, FAILS, call)?;
        let wanting = try_turn(alloc, ErrorKind::OutOfMemory, turn, WANTS, call)?;
        if refused != (None, 1) || wanting != (None, 0) {
            return Ok(Some(call));
        }
    }
    Ok(None)
}

const WANTS: Answer = Err(TreeFault::Memory);

#[test]
fn each_call_of_a_destination_may_fail_and_is_the_last(rt: HostRuntime) -> Result<(), Fail> {
    for (i, &(step, answer, calls, left)) in CALLS.iter().enumerate() {
        let turn = (step, 0, 8192);
        let well = try_turn(rt.alloc(), ErrorKind::PermissionDenied, turn, answer, calls)?;
        assert!(rt; well == (None, 0), "row {i}: {well:?}");
        let wrong = find_wrong_call(rt.alloc(), step, calls, left)?;
        assert!(rt; wrong.is_none(), "row {i}: call {wrong:?}");
    }
    Ok(())
}

// What a look for a kind fails for, what is answered, and how many failures that makes.
const ABSENT: &[(ErrorKind, Answer, u64)] = &[
    (ErrorKind::NotFound, DONE, 0),
    (ErrorKind::NotADirectory, DONE, 0),
    (ErrorKind::FilesystemLoop, FAILS, 1),
];

#[test]
fn what_is_absent_is_no_failure(rt: HostRuntime) -> Result<(), Fail> {
    for (i, &(error, answer, failures)) in ABSENT.iter().enumerate() {
        let wrong = try_turn(rt.alloc(), error, (DestStep::Kind("a"), 1, 8192), answer, 1)?;
        assert!(rt; wrong == (None, failures), "row {i}: {wrong:?}");
    }
    Ok(())
}

// A file of 20,000 bytes, by its blocks.
const BLOCKS: &[SourceStep] = &[
    SourceStep::Open("a", Ok(())),
    SourceStep::Next(0, 8192),
    SourceStep::Next(8192, 8192),
    SourceStep::Next(16_384, 3616),
    SourceStep::Next(LEN, 0),
    SourceStep::Next(LEN, 0),
];

// The second read of a block fails, and then an open.
const READS_ON: &[SourceStep] = &[
    SourceStep::Open("a", Ok(())),
    SourceStep::Next(0, 8192),
    SourceStep::CallFails(2),
    SourceStep::NoBlock(TreeFault::Device),
    SourceStep::CallFails(1),
    SourceStep::Open("b", Err(TreeFault::Device)),
    SourceStep::Next(8192, 8192),
];

// The same for want of memory.
const READS_ON_IN_WANT: &[SourceStep] = &[
    SourceStep::Open("a", Ok(())),
    SourceStep::Next(0, 8192),
    SourceStep::CallFails(2),
    SourceStep::NoBlock(TreeFault::Memory),
    SourceStep::CallFails(1),
    SourceStep::Open("b", Err(TreeFault::Memory)),
    SourceStep::Next(8192, 8192),
];

const GOES_BACK: &[SourceStep] = &[
    SourceStep::Open("a", Ok(())),
    SourceStep::Next(0, 8192),
    SourceStep::SeekFails(true),
    SourceStep::CallFails(2),
    SourceStep::NoBlock(TreeFault::Device),
    SourceStep::NoBlock(TreeFault::Device),
    // a look, an opening, two reads, two reads, and going back
    SourceStep::Calls(7),
    SourceStep::SeekFails(false),
    SourceStep::Next(8192, 8192),
    SourceStep::Calls(10),
];

const NO_FILES: &[SourceStep] = &[
    SourceStep::Open("ad", Err(TreeFault::Device)),
    SourceStep::Calls(1),
    SourceStep::Open("al", Err(TreeFault::Device)),
    SourceStep::Calls(2),
];

// A look is one call of the system, whose failure is counted; the open file is read on.
const LOOKS: &[SourceStep] = &[
    SourceStep::Kind("ad", Ok(Some(Kind::Dir))),
    SourceStep::Kind("al", Ok(Some(Kind::Other))),
    SourceStep::Calls(2),
    SourceStep::Open("a", Ok(())),
    SourceStep::CallFails(1),
    SourceStep::Kind("b", FAILS),
    SourceStep::Next(0, 8192),
    SourceStep::Kind("b", Ok(Some(Kind::File))),
];

// Where the system says that nothing is there, that is no failure.
const LACKS: &[SourceStep] = &[
    SourceStep::CallFails(1),
    SourceStep::Kind("a", Ok(None)),
    SourceStep::Kind("a", Ok(Some(Kind::File))),
];

const LOOKS_IN_WANT: &[SourceStep] = &[
    SourceStep::CallFails(1),
    SourceStep::Kind("a", Err(TreeFault::Memory)),
];

// Bytes at a time, the error of a call that fails, the steps, and how many failures they make.
const OVER_A_SOURCE: &[(usize, ErrorKind, &[SourceStep], u64)] = &[
    // short reads are not the end
    (1, ErrorKind::Other, BLOCKS, 0),
    (7, ErrorKind::Other, BLOCKS, 0),
    (4096, ErrorKind::Other, BLOCKS, 0),
    (8191, ErrorKind::Other, BLOCKS, 0),
    (8192, ErrorKind::Other, BLOCKS, 0),
    (30_000, ErrorKind::Other, BLOCKS, 0),
    // a failed next reads on from its place
    (4096, ErrorKind::Other, READS_ON, 2),
    (4096, ErrorKind::OutOfMemory, READS_ON_IN_WANT, 0),
    // where going back fails it is tried again
    (4096, ErrorKind::Other, GOES_BACK, 2),
    // what is no file is not opened
    (4096, ErrorKind::Other, NO_FILES, 2),
    // what stands at a path is looked at
    (4096, ErrorKind::Other, LOOKS, 1),
    (4096, ErrorKind::PermissionDenied, LOOKS, 1),
    (4096, ErrorKind::NotFound, LACKS, 0),
    (4096, ErrorKind::NotADirectory, LACKS, 0),
    (4096, ErrorKind::OutOfMemory, LOOKS_IN_WANT, 0),
];

#[test]
fn a_source_reads_on_past_short_reads_and_failures(rt: HostRuntime) -> Result<(), Fail> {
    for (i, &(at_a_time, error, steps, failures)) in OVER_A_SOURCE.iter().enumerate() {
        let wrong = try_failing_source(rt.alloc(), at_a_time, error, b"", steps)?;
        assert!(rt;
            wrong == (None, failures),
            "row {i}: step and failures {wrong:?}"
        );
    }
    Ok(())
}

// What the system gives, each name ended by a NUL, what is answered, and how many failures that
// makes; a name that ends in `d` is a directory, one in `l` a link.
const LISTINGS: &[(&[u8], SourceStep, u64)] = &[
    (b"", SourceStep::List("x", Ok(&[])), 0),
    (b".\0..\0", SourceStep::List("x", Ok(&[])), 0),
    (
        b"b\0Al\0.\0..\0ad\0a\0",
        SourceStep::List(
            "x",
            Ok(&[
                ("Al", Kind::Other),
                ("a", Kind::File),
                ("ad", Kind::Dir),
                ("b", Kind::File),
            ]),
        ),
        0,
    ),
    (b"a\0b\0a\0", REFUSED, 1),
    (b"a\0\xff\0", REFUSED, 1),
    (b"a\0\xc3\0", REFUSED, 1),
    (b"a\0\0", REFUSED, 1),
    (b"a/b\0", REFUSED, 1),
    (
        b"...\0",
        SourceStep::List("x", Ok(&[("...", Kind::File)])),
        0,
    ),
];

const REFUSED: SourceStep = SourceStep::List("x", Err(TreeFault::Device));

#[test]
fn listings_are_sorted_or_refused(rt: HostRuntime) -> Result<(), Fail> {
    for (i, &(names, step, failures)) in LISTINGS.iter().enumerate() {
        let wrong = try_failing_source(rt.alloc(), 1, ErrorKind::Other, names, &[step])?;
        assert!(rt; wrong == (None, failures), "row {i}: {wrong:?}");
    }
    Ok(())
}

// What goes otherwise where this call of the listing of two names fails for this fault.
fn try_listing(
    alloc: Global,
    error: ErrorKind,
    failing: u64,
    fault: TreeFault,
) -> Result<Outcome, Fail> {
    let steps = [
        SourceStep::CallFails(failing),
        SourceStep::List("", Err(fault)),
    ];
    try_failing_source(alloc, 1, error, b"a\0b\0", &steps)
}

#[test]
fn each_call_of_a_listing_may_fail(rt: HostRuntime) -> Result<(), Fail> {
    // it opens, reads two names and the end, and asks for two kinds
    for failing in 1..7 {
        let refused = try_listing(rt.alloc(), ErrorKind::NotFound, failing, TreeFault::Device)?;
        let wanting = try_listing(
            rt.alloc(),
            ErrorKind::OutOfMemory,
            failing,
            TreeFault::Memory,
        )?;
        assert!(rt;
            refused == (None, 1) && wanting == (None, 0),
            "call {failing}"
        );
    }
    Ok(())
}
