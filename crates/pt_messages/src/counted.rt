//! A log whose lines are counted, for the summary at the end.
ghost use Rattle.std.specs.List.{position, zip};
ghost use Rattle.std.specs.Prelude.{◌≡◌, IfOk, OnOk, map};
ghost use Rattle.std.specs.Str.{bytes_eq};
ghost use Rattle.pt_messages.specs.CountedPutsLaws.{counts_on, none_counted};
ghost use Rattle.pt_messages.specs.CountedPuts.{CountsPieces, with_piece};
ghost use Rattle.pt_messages.specs.Counts.{put_audit_kinds, put_beside, put_counts, put_kinds};
ghost use Rattle.pt_messages.specs.Counts.{put_line_counts, put_skips, with_totals};
ghost use Rattle.pt_messages.specs.Fields.{IsOnlyCounted};
ghost use Rattle.pt_messages.specs.LineCounts.{kind_named as kind_by_word, no_lines, with_kind};
ghost use Rattle.pt_messages.specs.LineCounts.{with_line, with_word};
ghost use Rattle.pt_messages.specs.Members.{members_of};

use crate::line::{LineKind, kind_named, kind_of, last_word, number_behind};
use crate::members::Members;
use crate::numbers::{count_text, group_digits, size};
use crate::watch::Words;
use pt_audit::CompareBy;
use pt_tree::{Log, TreeFault};
use std::alloc::{AllocError, Global};

// The causes of a skip, and why an object differs, as the lines have them.
const CAUSES: [&str; 9] = [
    "root", "empty", "split", "past", "name", "utf8", "other", "limit", "reserved",
];

const REASONS: [&str; 5] = ["missing", "extra", "kind", "bytes", "twin"];

// What the lines of a check tell of.
const TROUBLES: [&str; 20] = [
    "missing",
    "unreadable",
    "prefix",
    "doubtful",
    "deep",
    "root",
    "empty",
    "split",
    "name",
    "utf8",
    "reserved",
    "past",
    "spelling",
    "other",
    "long",
    "many",
    "large",
    "place",
    "width",
    "desktop",
];

/// The lines of a log, how many there are of each kind.
#[derive(Clone, Copy)]
pub struct LineCounts {
    // Those of objects that were carried, or are the same; and what these hold. Of a check that
    // ended, the objects and the files that it met, and the bytes that it read.
    well: u64,
    files: u64,
    bytes: u64,
    present: u64,
    absent: u64,
    // Those of what the store lacks.
    extra: u64,
    stray: u64,
    // Those of objects that differ, of skips, and of a check; and by the words above.
    differs: u64,
    skips: u64,
    told: u64,
    differing: [u64; 5],
    skipped: [u64; 9],
    kinds: [u64; 20],
}

/// What a run, an audit or a check that came to its end says itself: how many lines of these kinds
/// its log has, and of a check what it met.
#[derive(Clone, Copy)]
pub enum Totals {
    /// Of a run.
    Run(RunTotals),
    /// Of an audit.
    Audit(AuditTotals),
    /// Of a check.
    Check(CheckTotals),
}

/// What a run says itself.
#[derive(Clone, Copy)]
pub struct RunTotals {
    /// The objects that were carried.
    pub done: u64,
    /// Those whose place was taken.
    pub present: u64,
    /// What was passed over.
    pub skips: u64,
}

/// What an audit says itself.
#[derive(Clone, Copy)]
pub struct AuditTotals {
    /// The objects that are the same.
    pub same: u64,
    /// Those at whose place nothing stands.
    pub absent: u64,
    /// Those that differ.
    pub differs: u64,
    /// What was passed over.
    pub skips: u64,
    /// The objects that the store lacks.
    pub extra: u64,
    /// What else stands there and isn't of it.
    pub stray: u64,
}

/// What a check says itself.
#[derive(Clone, Copy)]
pub struct CheckTotals {
    /// The lines.
    pub told: u64,
    /// The objects that were met.
    pub objects: u64,
    /// The files that were met.
    pub files: u64,
    /// The bytes that were read.
    pub bytes: u64,
}

/// A log whose lines are counted where that is wanted, and is the log in all else. Each piece that
/// it gets is a line, and what it `keeps` says that just those were counted which were put since
/// (`CountsPieces`).
#[derive(Drop)]
pub struct CountedLog<L: Log> {
    log: L,
    counts: LineCounts,
    counting: bool,
}

impl<L: Log> CountedLog<L> {
    /// A log, of whose lines none was counted yet, and whether they are to be.
    pub fn new(log: L, counting: bool) -> CountedLog<L>
        ensures log { result.log ≡ log }
        ensures counts { result.counts ≡ no_lines }
        ensures counting { result.counting ≡ counting }
        ensures fields { IsOnlyCounted result }
    {
        CountedLog {
            log,
            counts: LineCounts::none(),
            counting,
        }
    }

    /// The lines so far.
    pub fn counts(&self) -> LineCounts
        ensures { result ≡ self.now.counts }
    {
        self.counts
    }

    /// The log, as the calls left it.
    pub fn into_log(self) -> L
        ensures { result ≡ self.log }
    {
        self.log
    }
}

impl<L: Log> Log for CountedLog<L> {
    ghost told = { λ w. L.told w.log };

    ghost failed = { λ w. L.failed w.log };

    ghost keeps = { λ a b. L.keeps a.log b.log × CountsPieces L.told L.failed L.keeps a b };

    ghost is_kept = { λ a. (L.is_kept a.log, none_counted L.told L.failed L.keeps a) };

    ghost keeps_on = { λ a b c p q. (
      L.keeps_on a.log b.log c.log p.0 q.0,
      counts_on L.told L.failed L.keeps a b c p.1 q.1,
    ) };

    fn failures(&self) -> u64 {
        self.log.failures()
    }

    fn put(&mut self, piece: &[u8]) -> Result<(), TreeFault> {
        self.log.put(piece)?;
        if self.counting {
            self.counts.add_piece(piece);
        }
        Ok(())
    }
}

impl LineCounts {
    /// No lines.
    pub fn none() -> LineCounts
        ensures { result ≡ no_lines }
    {
        LineCounts {
            well: 0,
            files: 0,
            bytes: 0,
            present: 0,
            absent: 0,
            extra: 0,
            stray: 0,
            differs: 0,
            skips: 0,
            told: 0,
            differing: [0; 5],
            skipped: [0; 9],
            kinds: [0; 20],
        }
    }

    /// These with what was said itself in the place of what was counted of it.
    pub fn with_totals(self, totals: Totals) -> LineCounts
        ensures { result ≡ with_totals totals self }
    {
        match totals {
            Totals::Run(run) => LineCounts {
                well: run.done,
                present: run.present,
                skips: run.skips,
                ..self
            },
            Totals::Audit(audit) => LineCounts {
                well: audit.same,
                absent: audit.absent,
                differs: audit.differs,
                skips: audit.skips,
                extra: audit.extra,
                stray: audit.stray,
                ..self
            },
            Totals::Check(check) => LineCounts {
                told: check.told,
                well: check.objects,
                files: check.files,
                bytes: check.bytes,
                ..self
            },
        }
    }

    // One more line, if a piece is a text.
    fn add_piece(&mut self, piece: &[u8])
        ensures { self.new ≡ with_piece piece.now self.old }
    {
        match str::from_utf8(piece) {
            Ok(line) => self.add(line),
            Err(_) => {}
        }
    }

    // One more line.
    fn add(&mut self, line: &str)
        ensures { self.new ≡ with_line line.now self.old }
    {
        if let Some((word, rest)) = kind_of(line) {
            self.add_of(word, rest);
        }
    }

    // One more line with this word, behind which the rest comes. An end line isn't counted.
    fn add_of(&mut self, word: &str, rest: &str)
        ensures { self.new ≡ with_kind (kind_by_word word.now) (word.now, rest.now) self.old }
    {
        match kind_named(word) {
            LineKind::Carried => {
                self.well = self.well.saturating_add(1);
                self.bytes = self
                    .bytes
                    .saturating_add(number_behind(rest, ",\"bytes\":"));
                self.files = self
                    .files
                    .saturating_add(number_behind(rest, ",\"files\":"));
            }
            LineKind::Present => self.present = self.present.saturating_add(1),
            LineKind::Absent => self.absent = self.absent.saturating_add(1),
            LineKind::Extra => self.extra = self.extra.saturating_add(1),
            LineKind::Stray => self.stray = self.stray.saturating_add(1),
            LineKind::Differs => {
                self.differs = self.differs.saturating_add(1);
                add_word(&REASONS, &mut self.differing, last_word(rest));
            }
            LineKind::Skipped => {
                self.skips = self.skips.saturating_add(1);
                add_word(&CAUSES, &mut self.skipped, last_word(rest));
            }
            LineKind::End => {}
            LineKind::Trouble => {
                self.told = self.told.saturating_add(1);
                add_word(&TROUBLES, &mut self.kinds, word);
            }
        }
    }

    /// Puts into a record how many lines there are of each kind, skips by their cause and differing
    /// objects by their reason, and what the objects that were carried, or are the same, hold; of a
    /// check how many objects and files it met, and how many bytes it read.
    pub(crate) fn put_into(&self, event: &mut Members, words: Words) -> Result<(), AllocError>
        ensures { OnOk result (members_of event.new
            ≡ put_line_counts words self.now (members_of event.old)) }
    {
        self.put_beside(event, words)?;
        let lines = self.with_kinds(event.empty(), words)?;
        event.put_members("lines", lines)?;
        event.put_number("files", self.files)?;
        event.put_number("bytes", self.bytes)
    }

    // Puts, of a run, how many skips there are by their cause; of an audit how many objects differ
    // by their reason too; of a check how many objects it met.
    fn put_beside(&self, event: &mut Members, words: Words) -> Result<(), AllocError>
        ensures { OnOk result (members_of event.new
            ≡ put_beside words self.now (members_of event.old)) }
    {
        match words {
            Words::Run => self.put_skips(event),
            Words::Audit(_) | Words::BothWays(_) => {
                self.put_skips(event)?;
                let whys = with_counts(event.empty(), &REASONS, &self.differing)?;
                event.put_members("differs", whys)
            }
            Words::Check => event.put_number("objects", self.well),
        }
    }

    // Puts how many skips there are by their cause.
    fn put_skips(&self, event: &mut Members) -> Result<(), AllocError>
        ensures { OnOk result (members_of event.new
            ≡ put_skips self.now (members_of event.old)) }
    {
        let causes = with_counts(event.empty(), &CAUSES, &self.skipped)?;
        event.put_members("skips", causes)
    }

    // These with how many lines there are of each kind.
    fn with_kinds(&self, mut lines: Members, words: Words) -> Result<Members, AllocError>
        ensures { IfOk result (λ made. members_of made
            ≡ put_kinds words self.now (members_of lines)) }
    {
        match words {
            Words::Run => {
                lines.put_number("done", self.well)?;
                lines.put_number("present", self.present)?;
            }
            Words::Audit(by) => self.put_audit_kinds(&mut lines, by)?,
            Words::BothWays(by) => {
                self.put_audit_kinds(&mut lines, by)?;
                lines.put_number("extra", self.extra)?;
                lines.put_number("stray", self.stray)?;
            }
            Words::Check => return with_counts(lines, &TROUBLES, &self.kinds),
        }
        lines.put_number("skip", self.skips)?;
        Ok(lines)
    }

    // Puts how many lines of objects an audit that compares this has of each kind.
    fn put_audit_kinds(&self, lines: &mut Members, by: CompareBy) -> Result<(), AllocError>
        ensures { OnOk result (members_of lines.new
            ≡ put_audit_kinds by self.now (members_of lines.old)) }
    {
        lines.put_number("absent", self.absent)?;
        lines.put_number("differs", self.differs)?;
        lines.put_number(by.fitting_word(), self.well)
    }

    /// How many lines there are of each kind, and what the objects that were carried, or are the
    /// same, hold: as `200 done, 1 present, 9 skipped (split 7, other 2), 1,560 files, 7.1 MB`. Of
    /// a check: `200 objects, 9 told (unreadable 2, split 7), 1,560 files, 7.1 MB read`. Of an audit
    /// by lengths no bytes are said, since none were read.
    pub(crate) fn summary(&self, alloc: Global, words: Words) -> Result<String, AllocError> {
        let well = group_digits(alloc, self.well)?;
        let skipped = with_words(alloc, (self.skips, "skipped"), &CAUSES, &self.skipped)?;
        let held = self.held(alloc, words)?;
        match words {
            Words::Run => {
                let present = group_digits(alloc, self.present)?;
                format!(in alloc; "{well} done, {present} present, {skipped}, {held}")
            }
            Words::Audit(by) => {
                let fitting = by.fitting_word();
                let others = self.others(alloc)?;
                format!(in alloc; "{well} {fitting}, {others}, {skipped}, {held}")
            }
            Words::BothWays(by) => {
                let fitting = by.fitting_word();
                let others = self.others(alloc)?;
                let extra = group_digits(alloc, self.extra)?;
                let stray = group_digits(alloc, self.stray)?;
                format!(in alloc;
                    "{well} {fitting}, {others}, {extra} extra, {stray} stray, {skipped}, {held}"
                )
            }
            Words::Check => {
                let objects = count_text(alloc, self.well, "object", "objects")?;
                let told = with_words(alloc, (self.told, "told"), &TROUBLES, &self.kinds)?;
                format!(in alloc; "{objects}, {told}, {held} read")
            }
        }
    }

    // How many files there are, and how many bytes they have, where these were read.
    fn held(&self, alloc: Global, words: Words) -> Result<String, AllocError> {
        let files = count_text(alloc, self.files, "file", "files")?;
        let bytes = size(alloc, self.bytes)?;
        match words {
            Words::Audit(CompareBy::Lengths) | Words::BothWays(CompareBy::Lengths) => Ok(files),
            _ => format!(in alloc; "{files}, {bytes}"),
        }
    }

    // How many objects an audit found otherwise: as `2 absent, 1 different (bytes 1)`.
    fn others(&self, alloc: Global) -> Result<String, AllocError> {
        let absent = group_digits(alloc, self.absent)?;
        let differ = with_words(
            alloc,
            (self.differs, "different"),
            &REASONS,
            &self.differing,
        )?;
        format!(in alloc; "{absent} absent, {differ}")
    }
}

// One more of a word, if it is one of these.
fn add_word(words: &[&str], counts: &mut [u64], word: &str)
    ensures { counts.new ≡ with_word (map (λ known. known.now) words.now) word.now counts.old }
{
    let Some(at) = place_of(words, word) else {
        return;
    };
    if at < counts.len() {
        counts[at] = counts[at].saturating_add(1);
    }
}

// Where a word stands first among these.
fn place_of(words: &[&str], word: &str) -> Option<usize>
    ensures { result ≡ position (λ known. bytes_eq known.now word.now) words.now }
{
    words.iter().position(|known| *known == word)
}

// How many there are of each word.
fn with_counts(mut members: Members, words: &[&str], counts: &[u64]) -> Result<Members, AllocError>
    ensures { IfOk result (λ made. members_of made
        ≡ put_counts (zip (map (λ word. word.now) words.now) counts.now) (members_of members)) }
{
    for (word, count) in words.iter().zip(counts.iter()) {
        members.put_number(word, *count)?;
    }
    Ok(members)
}

// How many there are, as this word says, and of which words: `9 skipped (split 7, other 2)`.
fn with_words(
    alloc: Global,
    counted: (u64, &str),
    words: &[&str],
    counts: &[u64],
) -> Result<String, AllocError> {
    let mut parts = String::new(alloc);
    for (word, count) in words.iter().zip(counts.iter()) {
        if *count > 0 {
            let front = if parts.is_empty() { " (" } else { ", " };
            let count = group_digits(alloc, *count)?;
            parts.push_str(format!(in alloc; "{front}{word} {count}")?.as_str())?;
        }
    }
    let end = if parts.is_empty() { "" } else { ")" };
    let (total, name) = counted;
    let total = group_digits(alloc, total)?;
    format!(in alloc; "{total} {name}{parts}{end}")
}
