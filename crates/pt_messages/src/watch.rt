//! What watches a source: as that is called, it shows on standard error how far the run, the audit
//! or the check is.

ghost use Rattle.std.specs.Prelude.{◌≡◌, IfOk, string_bytes};
ghost use Rattle.pt_messages.specs.Fields.{IsOnlyWatch};
ghost use Rattle.pt_messages.specs.Progress.{IsProgress, IsSummary};

use crate::counted::LineCounts;
use crate::progress::{Moment, over, summary};
use crate::tally::Tally;
use crate::terminal::{Terminals, columns};
use pt_audit::CompareBy;
use pt_tree::{NamePath, Watcher};
use std::alloc::{AllocError, AllocGlobal, Global};
use std::rt::Clock;

/// When to show how far a run, an audit or a check is.
#[derive(Clone, Copy, Debug, PartialEq, Eq)]
pub enum Progress {
    /// Where standard error is a terminal and standard output isn't.
    Auto,
    /// Always.
    Always,
    /// Never.
    Never,
}

// How many milliseconds pass between two lines on a terminal.
const ON_TERMINAL: u64 = 200;

/// How a run is watched.
#[derive(Clone, Copy, Debug, Drop)]
pub struct Watching {
    /// When to show how far it is.
    pub when: Progress,
    /// How many seconds pass between two lines that don't go to a terminal.
    pub interval: u32,
    /// How many lines its log may come to, of a check how many files and folders there may be,
    /// where that is known.
    pub expected: Option<u64>,
    /// Which lines its log has.
    pub words: Words,
    /// Whether its summary is told at the end also where it isn't shown how far it is.
    pub verbose: bool,
    /// Whether neither is told.
    pub quiet: bool,
}

/// Which lines a log has, as progress names them.
#[derive(Clone, Copy, Debug, PartialEq, Eq)]
pub enum Words {
    /// Those of a run.
    Run,
    /// Those of an audit, which compares this.
    Audit(CompareBy),
    /// Those of an audit that tells of what the store lacks too.
    BothWays(CompareBy),
    /// Those of a check.
    Check,
}

/// Shows how far a run is, as its source is called.
#[derive(Drop)]
pub struct Watch<'a, R> {
    rt: &'a R,
    tally: &'a Tally,
    alloc: Global,
    shows: bool,
    sums: bool,
    on_terminal: bool,
    columns: Option<usize>,
    period: u64,
    expected: Option<u64>,
    words: Words,
    begun: u64,
    due: u64,
    at: Vec<u8>,
}

impl<'a, R: Clock + Eprint + Terminals> Watch<'a, R> {
    /// It begins now, if anything is to be shown.
    pub fn new(rt: &'a R, alloc: Global, tally: &'a Tally, watching: Watching) -> Watch<'a, R>
        ensures fields { IsOnlyWatch result }
    {
        let on_terminal = rt.errors_are_terminal();
        let shows = !watching.quiet
            && match watching.when {
                Progress::Auto => on_terminal && !rt.output_is_terminal(),
                Progress::Always => true,
                Progress::Never => false,
            };
        let sums = shows || watching.verbose && !watching.quiet;
        let begun = if sums { millis(rt) } else { 0 };
        let period = if on_terminal {
            ON_TERMINAL
        } else {
            u64::from(watching.interval).saturating_mul(1000)
        };
        Watch {
            rt,
            tally,
            alloc,
            shows,
            sums,
            on_terminal,
            columns: columns(rt),
            period,
            expected: watching.expected,
            words: watching.words,
            begun,
            due: begun.saturating_add(period),
            at: Vec::new(alloc),
        }
    }

    /// Whether a summary is wanted at the end.
    pub fn sums(&self) -> bool {
        self.sums
    }

    /// Ends what is shown: the line on a terminal is taken away. Then comes, where one is wanted,
    /// the summary of the log's lines, where these are given; else, where it was shown how far the
    /// run is, how far it was.
    pub fn end(&self, counts: Option<&LineCounts>) {
        if !self.sums {
            return;
        }
        if self.shows && self.on_terminal {
            let _ = eprint!(self.rt; "\r\x1b[K");
        }
        let passed = millis(self.rt).saturating_sub(self.begun);
        let last = match counts {
            Some(counts) => self.summary(counts, passed),
            None if self.shows => self.line(passed),
            None => return,
        };
        if let Ok(last) = last {
            let _ = eprintln!(self.rt; "pairtree2ocfl: {last}");
        }
    }

    // What these lines of the log come to, and how long it took.
    fn summary(&self, counts: &LineCounts, passed: u64) -> Result<String, AllocError>
        ensures { IfOk result (λ text. IsSummary passed (string_bytes text)) }
    {
        let lines = counts.summary(self.alloc, self.words)?;
        summary(self.alloc, lines.as_str(), passed)
    }

    // Shows how far the run is, where it is time to.
    fn show(&mut self) {
        if !self.shows {
            return;
        }
        let now = millis(self.rt);
        if now < self.due {
            return;
        }
        self.due = now.saturating_add(self.period);
        let Ok(line) = self.line(now.saturating_sub(self.begun)) else {
            return;
        };
        if !self.on_terminal {
            let _ = eprintln!(self.rt; "pairtree2ocfl: {line}");
        } else if let Ok(line) = over(self.alloc, self.columns, line.as_str()) {
            let _ = eprint!(self.rt; "{line}");
        }
    }

    // How far the run is after so many milliseconds, and how fast it was, on one line.
    fn line(&self, passed: u64) -> Result<String, AllocError>
        ensures { IfOk result (λ text. IsProgress self.now.words self.now.expected passed
            (string_bytes text)) }
    {
        self.moment(passed).line(self.alloc, self.place())
    }

    // What is read just now, where that is text.
    fn place(&self) -> &str {
        match str::from_utf8(self.at.as_slice()) {
            Ok(at) => at,
            Err(_) => "",
        }
    }

    // How far it is after so many milliseconds. No clause knows what a tally holds.
    fn moment(&self, passed: u64) -> Moment
        ensures { result ≡ record {
          words = self.now.words;
          expected = self.now.expected;
          seen = result.seen;
          passed = passed;
        } }
    {
        Moment {
            words: self.words,
            expected: self.expected,
            seen: self.tally.seen(),
            passed,
        }
    }
}

// The clock's milliseconds, or 0 where there is none.
fn millis(clock: &impl Clock) -> u64 {
    match clock.monotonic() {
        Ok(time) => time
            .as_secs()
            .saturating_mul(1000)
            .saturating_add(u64::from(time.subsec_millis())),
        Err(_) => 0,
    }
}

impl<'a, R: Clock + Eprint + Terminals> Watcher for Watch<'a, R> {
    fn come_to(&mut self, path: &NamePath) {
        if !self.shows {
            return;
        }
        self.tally.add_met();
        if let Ok(at) = path.join() {
            self.at = at;
        }
        self.show();
    }

    fn read_on(&mut self) {
        self.show();
    }

    fn add_bytes(&mut self, count: usize) {
        self.tally.add_bytes(count as u64);
    }
}
