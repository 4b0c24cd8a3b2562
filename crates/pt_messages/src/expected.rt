//! How many lines a run's log may come to, by the log of its rehearsal, and how many files and
//! folders a check may meet, by the log of an earlier one.
ghost use Rattle.std.specs.Prelude.{◌≡◌, IfOk, map, option_map};
ghost use Rattle.serde_json.specs.View.{view};
ghost use Rattle.pt_messages.specs.Expected.{AsksEnd, CountsEnd, count_in};
ghost use Rattle.pt_messages.specs.Expected.{count_of as count_in_json, counted_by, entries_in};
ghost use Rattle.pt_messages.specs.Expected.{json_in, last_line as line_at_end, lines_in, sum_of};

use crate::reads::{Reads, ReadsFiles, read_end};
use crate::shown::escape;
use serde_json::Value;
use std::alloc::{AllocError, AllocGlobal, Global};

// How many bytes at a log's end are read; an end line has fewer.
const TAIL: usize = 8192;

// The members that count the lines of a run, and those of an audit; how far that is doesn't count
// what the root has beside.
const OF_RUN: [&str; 3] = ["done", "present", "skip"];

const OF_AUDIT: [&str; 4] = ["absent", "differs", "same", "skip"];

const OF_QUICK_AUDIT: [&str; 4] = ["absent", "alike", "differs", "skip"];

// Those that count what a check met.
const OF_CHECK: [&str; 2] = ["files", "folders"];

// What a log's end line is to count.
#[derive(Clone, Copy)]
enum Counted {
    // The lines on the store, of a run or an audit.
    Lines,
    // The files and folders, of a check.
    Entries,
}

/// The number of lines on the store that the end line of a log of a run or an audit counts, if a
/// log is named. Standard error is told where it can't be read, or has no such end line. An error
/// where a growth was refused.
pub fn lines_expected<R: Reads + Eprint + AllocGlobal>(
    rt: &R,
    log: Option<&str>,
) -> Result<Option<u64>, AllocError>
    ensures asks { AsksEnd (⟦<R as ReadsFiles>⟧.file_words rt.now)
        (option_map (λ path. path.now) log.entry) }
    ensures counts { IfOk result (CountsEnd lines_in (⟦<R as ReadsFiles>⟧.file_words rt.now)
        (option_map (λ path. path.now) log.entry)) }
{
    expected(rt, log, Counted::Lines)
}

/// The number of files and folders that the end line of a check's log counts, if a log is named.
/// Standard error is told where it can't be read, or has no such end line. An error where a growth
/// was refused.
pub fn entries_expected<R: Reads + Eprint + AllocGlobal>(
    rt: &R,
    log: Option<&str>,
) -> Result<Option<u64>, AllocError>
    ensures asks { AsksEnd (⟦<R as ReadsFiles>⟧.file_words rt.now)
        (option_map (λ path. path.now) log.entry) }
    ensures counts { IfOk result (CountsEnd entries_in (⟦<R as ReadsFiles>⟧.file_words rt.now)
        (option_map (λ path. path.now) log.entry)) }
{
    expected(rt, log, Counted::Entries)
}

// What a log's end line counts of these, if a log is named.
fn expected<R: Reads + Eprint + AllocGlobal>(
    rt: &R,
    log: Option<&str>,
    counted: Counted,
) -> Result<Option<u64>, AllocError>
    ensures asks { AsksEnd (⟦<R as ReadsFiles>⟧.file_words rt.now)
        (option_map (λ path. path.now) log.entry) }
    ensures counts { IfOk result (CountsEnd (counted_by counted)
        (⟦<R as ReadsFiles>⟧.file_words rt.now)
        (option_map (λ path. path.now) log.entry)) }
{
    let Some(log) = log else {
        return Ok(None);
    };
    let mut end = [0u8; TAIL];
    let count = match read_end(rt, log, &mut end) {
        Ok(count) => match end.get(..count) {
            Some(bytes) => count_at_end(rt.alloc(), bytes, counted)?,
            None => None,
        },
        Err(_) => None,
    };
    if count.is_none() {
        tell_no_end(rt, log);
    }
    Ok(count)
}

// Tells standard error that a log has no end line.
fn tell_no_end<R: Eprint + AllocGlobal>(rt: &R, log: &str) {
    if let Ok(path) = escape(rt.alloc(), log) {
        let _ = eprintln!(rt; "pairtree2ocfl: {path}: it has no end line of a log");
    }
}

// What the last line of these bytes counts, if it is an end line. They may begin inside of a
// character.
fn count_at_end(alloc: Global, bytes: &[u8], counted: Counted) -> Result<Option<u64>, AllocError>
    ensures { IfOk result (λ count. count ≡ count_in (counted_by counted) bytes.now) }
{
    let Some(line) = last_line(bytes) else {
        return Ok(None);
    };
    match json_of(alloc, line)? {
        Some(json) => Ok(count_of(&json, counted)),
        None => Ok(None),
    }
}

// The last line, without its LF, of bytes that end with one.
fn last_line(bytes: &[u8]) -> Option<&[u8]>
    ensures { option_map (λ line. line.now) result ≡ line_at_end bytes.now }
{
    let (last, lines) = bytes.split_last()?;
    if *last != b'\n' {
        return None;
    }
    let mut begin = lines.len();
    while begin > 0 && lines[begin - 1] != b'\n' {
        begin -= 1;
    }
    Some(&lines[begin..])
}

// The JSON of bytes, if they are JSON.
fn json_of(alloc: Global, bytes: &[u8]) -> Result<Option<Value>, AllocError>
    ensures { IfOk result (λ json. option_map view json ≡ json_in bytes.now) }
{
    let Ok(text) = str::from_utf8(bytes) else {
        return Ok(None);
    };
    match Value::from_str(alloc, text) {
        Ok(json) => Ok(Some(json)),
        Err(error) if error.is_memory() => Err(AllocError),
        Err(_) => Ok(None),
    }
}

// What JSON counts, if it is an end line.
fn count_of(json: &Value, counted: Counted) -> Option<u64>
    ensures { result ≡ count_in_json (counted_by counted) (view json.now) }
{
    if json.get("as")?.as_str()? != "end" {
        return None;
    }
    match counted {
        Counted::Lines => lines_of(json),
        // SOURCE and pairtree_root are come to as well.
        Counted::Entries => Some(sum(json, &OF_CHECK)?.saturating_add(2)),
    }
}

// The lines on the store that an end line of a run or an audit counts.
fn lines_of(json: &Value) -> Option<u64>
    ensures { result ≡ lines_in (view json.now) }
{
    if let Some(lines) = sum(json, &OF_RUN) {
        return Some(lines);
    }
    match sum(json, &OF_AUDIT) {
        Some(lines) => Some(lines),
        None => sum(json, &OF_QUICK_AUDIT),
    }
}

// The sum of these members, if each is a number.
fn sum(json: &Value, keys: &[&str]) -> Option<u64>
    ensures { result ≡ sum_of (map (λ key. key.now) keys.now) (view json.now) }
{
    let mut total = 0u64;
    for key in keys {
        total = total.saturating_add(json.get(*key)?.as_u64()?);
    }
    Some(total)
}
