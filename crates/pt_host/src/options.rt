//! What the options of a run, an audit and a check say, whoever asks for one: the command line, a
//! test, or a program of its own.
ghost use Rattle.std.specs.Prelude.{◌≡◌, option_map};

use crate::Text;
use pt_messages::{Progress, Watching, Words};
use pt_move::Job;
use pt_name::{Layout, Share};
use pt_tree::Ignored;

/// All that the options of a run say.
#[derive(Debug, Drop)]
pub struct RunOptions {
    /// What has to be done.
    pub job: Job,
    /// The names of the entries of the store that are left out.
    pub ignored: Ignored,
    /// Whether files are put onto the disk before they are closed, and each line of the log as it
    /// is written.
    pub sync: bool,
    /// Whether it is rehearsed only: nothing is made or changed.
    pub rehearse: bool,
    /// Which lines leave the status at 0, though they tell of what it doesn't carry.
    pub allowed: AllowedLines,
    /// What is shown of it beside its log.
    pub feedback: Feedback,
}

/// Which lines the log of a run may have so that its status is 0, beside those of what was carried.
#[derive(Clone, Copy, Debug)]
pub struct AllowedLines {
    /// Present lines.
    pub present: bool,
    /// Skip lines.
    pub skips: bool,
}

/// All that the options of an audit say.
#[derive(Debug, Drop)]
pub struct AuditOptions {
    /// The run that is compared. What it says of its versions isn't.
    pub job: Job,
    /// The names of the entries of the store that are left out.
    pub ignored: Ignored,
    /// Whether skip lines leave the status at 0.
    pub skips_ok: bool,
    /// Whether it tells too of what the root has and the store lacks.
    pub extra: bool,
    /// Whether names and lengths alone are compared, and no file of an object is read.
    pub quick: bool,
    /// What is shown of it beside its log.
    pub feedback: Feedback,
}

/// All that the options of a check say.
#[derive(Debug, Drop)]
pub struct CheckOptions {
    /// Whether each file is read whole.
    pub reads: bool,
    /// Whether what lies directly in an identifier's folder is an object, as to a run with
    /// `--gather`.
    pub gather: bool,
    /// The names of the entries of the store that are left out.
    pub ignored: Ignored,
    /// The path of the folder in which a run would make the root, if one is named. Nothing of it is
    /// looked at.
    pub dest: Option<Text>,
    /// How the places in a destination would be cut, whether one is named or not.
    pub layout: Layout,
    /// What of the store is told and counted: that of the objects that a run of the share carries,
    /// and of what it passes over.
    pub share: Share,
    /// What is shown of it beside its log.
    pub feedback: Feedback,
}

/// What is told of a run, an audit or a check beside its log: what standard error shows, and the
/// file of its event.
#[derive(Debug, Drop)]
pub struct Feedback {
    /// Whether the reason of a fault is told too, and a summary at the end.
    pub verbose: bool,
    /// Whether neither how far it is nor a summary is told.
    pub quiet: bool,
    /// When to show how far it is.
    pub progress: Progress,
    /// How many seconds pass between two lines that show it, where they don't go to a terminal.
    pub interval: u32,
    /// The path of a log, of a rehearsal say, whose end line tells how many lines there may be; of
    /// a check that of an earlier one, whose end line tells how many files and folders.
    pub expected: Option<Text>,
    /// The path of the file in which the run, the audit or the check is recorded as an event.
    pub event: Option<Text>,
}

impl Feedback {
    // The path of the log that `--expect` names, if it names one.
    pub(crate) fn expected_log(&self) -> Option<&str>
        ensures { option_map (λ path. path.now) result ≡ self.now.expected }
    {
        match &self.expected {
            Some(path) => Some(path.as_str()),
            None => None,
        }
    }

    // The path of the event's file, if one is named.
    pub(crate) fn event(&self) -> Option<&str>
        ensures { option_map (λ path. path.now) result ≡ self.now.event }
    {
        match &self.event {
            Some(path) => Some(path.as_str()),
            None => None,
        }
    }

    // How a run, an audit or a check with this feedback is watched: its log has lines of this kind,
    // and so many, of a check so many files and folders, where that is known.
    pub(crate) fn watching(&self, words: Words, expected: Option<u64>) -> Watching
        ensures { result ≡ record {
          when = self.now.progress;
          interval = self.now.interval;
          expected = expected;
          words = words;
          verbose = self.now.verbose;
          quiet = self.now.quiet;
        } }
    {
        Watching {
            when: self.progress,
            interval: self.interval,
            expected,
            words,
            verbose: self.verbose,
            quiet: self.quiet,
        }
    }
}
