//! What is told of a run, an audit or a check beside its log, from its beginning to its end: how
//! far it is, how much was left out, its summary, why a fault ended it, and what its event records.
ghost use Rattle.std.specs.Prelude.{◌≡◌};
ghost use Rattle.pt_host.specs.Told.{CameTo, counts_at};
ghost use Rattle.pt_messages.specs.LineCounts.{no_lines};

use crate::Feedback;
use crate::folders::Folders;
use pt_folder::{HostSource, System};
use pt_messages::{
    CountedLog, Explanation, LastCalls, Outcome, Reads, Tally, Terminals, Totals, Watch, Watching,
    reason,
};
use pt_move::Fault;
use pt_tree::{Ignored, Ignoring, Log, Watched};
use std::alloc::AllocGlobal;
use std::rt::Clock;

/// How a run, an audit or a check is watched and told of.
#[derive(Clone, Copy)]
pub(crate) struct Account<'a> {
    watching: Watching,
    records: bool,
    ignores: bool,
    folders: Folders<'a>,
}

/// The store of a run, an audit or a check without the entries that are left out, and its log,
/// while both are watched.
pub(crate) type WatchedIo<'w, 'a, R, S, L> = (
    Watched<Ignoring<HostSource<'a, S>>, Watch<'w, R>>,
    CountedLog<L>,
);

impl<'a> Account<'a> {
    /// The account of a run, an audit or a check with this feedback, over these folders, which
    /// leaves out the entries of these names.
    pub fn new(
        watching: Watching,
        feedback: &Feedback,
        ignored: &Ignored,
        folders: Folders<'a>,
    ) -> Account<'a>
        ensures { result.watching ≡ watching }
    {
        Account {
            watching,
            records: feedback.event.is_some(),
            ignores: !ignored.names().is_empty(),
            folders,
        }
    }

    /// Watches a source and a log: the lines are counted where a summary or an event is wanted.
    pub fn watch<'w, R, S: System, L: Log>(
        self,
        rt: &'w R,
        tally: &'w Tally,
        source: Ignoring<HostSource<'a, S>>,
        log: L,
    ) -> WatchedIo<'w, 'a, R, S, L>
    where
        R: Reads + Clock + Eprint + AllocGlobal + Terminals,
        ensures source { result.0.source ≡ source.entry }
        ensures log { result.1.log ≡ log }
        ensures counts { result.1.counts ≡ no_lines }
    {
        let watch = Watch::new(rt, rt.alloc(), tally, self.watching);
        let log = CountedLog::new(log, watch.sums() | self.records);
        (Watched::new(source, watch), log)
    }

    /// Ends what is shown of it, which ended by this fault or says this itself of its lines, and
    /// gives the source with all its entries, the log, and what it came to.
    pub fn close<R, S: System, L: Log>(
        self,
        rt: &R,
        io: WatchedIo<'_, 'a, R, S, L>,
        ended: Result<Totals, Fault>,
        dest: LastCalls<'_>,
    ) -> (HostSource<'a, S>, L, Outcome)
    where
        R: Reads + Clock + Eprint + AllocGlobal + Terminals,
        ensures source { result.0 ≡ io.entry.0.source.source }
        ensures log { result.1 ≡ io.entry.1.log }
        ensures outcome { CameTo self.entry.watching.words ended result.2 }
        ensures counts { result.2.counts ≡ counts_at ended io.entry.1.counts }
    {
        let (source, log) = io;
        let counts = match ended {
            Ok(totals) => log.counts().with_totals(totals),
            Err(_) => log.counts(),
        };
        source.watcher().end(ended.is_ok().then_some(&counts));
        let ignoring = source.into_source();
        let tells = self.watching.verbose & self.ignores;
        reason::tell_left_out(rt, tells, ignoring.left_out());
        let source = ignoring.into_source();
        let why = match &ended {
            Err(fault) => reason::of_fault(rt, fault, &source, self.folders.store, dest),
            Ok(_) => Explanation::Nothing,
        };
        let outcome = Outcome {
            words: self.watching.words,
            counts,
            fault: ended.err(),
            why,
        };
        (source, log.into_log(), outcome)
    }
}
