//! The texts of progress: how far a run, an audit or a check is, and how fast.
ghost use Rattle.std.specs.Prelude.{◌≡◌, IfOk, string_bytes, take};
ghost use Rattle.std.specs.Str.{chars, encode_utf8_all};
ghost use Rattle.pt_messages.specs.Progress.{ahead_text, count_so_far, cut_line, lines_text};
ghost use Rattle.pt_messages.specs.Progress.{over_text};
ghost use Rattle.pt_messages.specs.Progress.{per_second, progress_text, seen_text, share_text};
ghost use Rattle.pt_messages.specs.Progress.{speed_text, summary_text, unfit_word};

use crate::numbers::{count_text, group_digits, size, time};
use crate::shown::escape;
use crate::tally::Seen;
use crate::watch::Words;
use pt_audit::CompareBy;
use std::alloc::{AllocError, Global};

/// How far a run, an audit or a check is at a moment.
#[derive(Clone, Copy)]
pub(crate) struct Moment {
    /// Which lines its log has.
    pub words: Words,
    /// How many of what is counted may come, where that is known.
    pub expected: Option<u64>,
    /// What was seen so far.
    pub seen: Seen,
    /// How many milliseconds passed.
    pub passed: u64,
}

impl Moment {
    /// How far it is and how fast it was, on one line, what matters most in front, and what is read
    /// just now. An error where a growth was refused, as of each call here.
    pub(crate) fn line(&self, alloc: Global, at: &str) -> Result<String, AllocError>
        ensures { IfOk result (λ text. string_bytes text ≡ progress_text self.now at.now) }
    {
        let ahead = self.ahead(alloc)?;
        let counted = self.counted(alloc)?;
        let speed = self.speed(alloc, at)?;
        format!(in alloc; "{ahead}{counted}, {speed}")
    }

    // How many there are of what is counted.
    fn count(&self) -> u64
        ensures { result ≡ count_so_far self.now.words self.now.seen }
    {
        match self.words {
            Words::Check => self.seen.met,
            Words::Run | Words::Audit(_) | Words::BothWays(_) => self.seen.lines(),
        }
    }

    // The share that is done and the time that is left, where it is known how many may come.
    fn ahead(&self, alloc: Global) -> Result<String, AllocError>
        ensures { IfOk result (λ text. string_bytes text
            ≡ ahead_text self.now.expected (count_so_far self.now.words self.now.seen)
            self.now.passed) }
    {
        match self.expected {
            Some(expected) => {
                let done = self.count().min(expected);
                share(alloc, done, expected, self.passed)
            }
            None => Ok(String::new(alloc)),
        }
    }

    // What is counted.
    fn counted(&self, alloc: Global) -> Result<String, AllocError>
        ensures { IfOk result (λ text. string_bytes text
            ≡ seen_text self.now.words self.now.seen) }
    {
        match self.words {
            Words::Run => self.lines(alloc, "done", "present"),
            Words::Audit(by) | Words::BothWays(by) => {
                self.lines(alloc, by.fitting_word(), other_word(by))
            }
            Words::Check => count_text(alloc, self.seen.met, "file or folder", "files and folders"),
        }
    }

    // The lines of each kind, of which the first two go by these words.
    fn lines(&self, alloc: Global, carried: &str, other: &str) -> Result<String, AllocError>
        ensures { IfOk result (λ text. string_bytes text
            ≡ lines_text self.now.seen carried.now other.now) }
    {
        let done = group_digits(alloc, self.seen.done)?;
        let present = group_digits(alloc, self.seen.present)?;
        let skipped = group_digits(alloc, self.seen.skipped)?;
        format!(in alloc; "{done} {carried}, {present} {other}, {skipped} skipped")
    }

    // The time that passed, how many of what is counted and how many bytes a second, the bytes that
    // were read, and what is read just now.
    fn speed(&self, alloc: Global, at: &str) -> Result<String, AllocError>
        ensures { IfOk result (λ text. string_bytes text ≡ speed_text self.now at.now) }
    {
        let passed = time(alloc, self.passed)?;
        let places = group_digits(alloc, rate(self.count(), self.passed))?;
        let speed = size(alloc, rate(self.seen.bytes, self.passed))?;
        let read = size(alloc, self.seen.bytes)?;
        let at = escape(alloc, at)?;
        format!(in alloc; "{passed}, {places}/s, {speed}/s, {read} read, at {at}")
    }
}

// What is said of the objects of an audit that don't fit.
fn other_word(by: CompareBy) -> &'static str
    ensures { result.now ≡ unfit_word by }
{
    match by {
        CompareBy::Bytes => "not the same",
        CompareBy::Lengths => "not alike",
    }
}

// How much there is a second, where this passed in so many milliseconds.
fn rate(number: u64, passed: u64) -> u64
    ensures { result ≡ per_second number passed }
{
    number.saturating_mul(1000) / passed.max(1)
}

// The share that is done after so many of those that are expected, and the time that is left, by
// the time that passed.
fn share(alloc: Global, done: u64, expected: u64, passed: u64) -> Result<String, AllocError>
    ensures { IfOk result (λ text. string_bytes text ≡ share_text done expected passed) }
{
    let percent = done.saturating_mul(100) / expected.max(1);
    if done == 0 {
        return format!(in alloc; "{percent} %, ");
    }
    let left = passed.saturating_mul(expected.saturating_sub(done)) / done;
    let left = time(alloc, left)?;
    format!(in alloc; "{percent} %, {left} left, ")
}

/// A summary: these lines, and how long it took.
pub(crate) fn summary(alloc: Global, lines: &str, passed: u64) -> Result<String, AllocError>
    ensures { IfOk result (λ text. string_bytes text ≡ summary_text lines.now passed) }
{
    let passed = time(alloc, passed)?;
    format!(in alloc; "{lines}, {passed}")
}

/// What writes a line over the one that a terminal of so many columns shows: it wraps none
/// meanwhile, and where it isn't known to cut what is longer, the line is cut.
pub(crate) fn over(alloc: Global, columns: Option<usize>, line: &str) -> Result<String, AllocError>
    ensures { IfOk result (λ text. string_bytes text ≡ over_text columns line.now) }
{
    let line = cut(alloc, columns, line)?;
    format!(in alloc; "\r\x1b[?7l{line}\x1b[K\x1b[?7h")
}

// A line, no longer than one less than the columns of the terminal, where these are known.
fn cut(alloc: Global, columns: Option<usize>, line: &str) -> Result<String, AllocError>
    ensures { IfOk result (λ text. string_bytes text ≡ cut_line columns line.now) }
{
    match columns {
        Some(columns) => first_of(alloc, line, columns.saturating_sub(1)),
        None => String::from_str(alloc, line),
    }
}

// The first so many characters of a line.
fn first_of(alloc: Global, line: &str, most: usize) -> Result<String, AllocError>
    ensures { IfOk result (λ text. string_bytes text
        ≡ encode_utf8_all (take most (chars line.now))) }
{
    let mut text = String::new(alloc);
    let mut left = most;
    for c in line.chars() {
        if left > 0 {
            left -= 1;
            text.push(c)?;
        }
    }
    Ok(text)
}
