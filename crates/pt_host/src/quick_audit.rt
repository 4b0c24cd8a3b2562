//! An audit by names and lengths: the audit that stands, over systems that show of each file of an
//! object no more than its length.
//!
//! Below the top of a store are files of objects alone; and in a root so are those that lie deeper
//! than an object's content folder. What stands elsewhere is seen as it is.
ghost use Rattle.std.specs.Prelude.{◌≡◌};
ghost use Rattle.pt_host.specs.Audits.{AuditsSeen, audit_call, failed_calls};
ghost use Rattle.pt_host.specs.Durable.{LogFails};
ghost use Rattle.pt_host.specs.Machine.{host_io_words};
ghost use Rattle.pt_host.specs.QuickAudits.{io_seen, io_within, quick_options, root_depth};
ghost use Rattle.pt_host.specs.SeenByLengths.{FailsSeen, words_seen};
ghost use Rattle.pt_quick.specs.SitesMeasured.{limits_seen};

use crate::auditing::audit_over;
use crate::devices::DeviceParts;
use crate::durable_log::{SyncsOutput, Writes};
use crate::folders::Folders;
use crate::operation::Conclusion;
use crate::{AuditOptions, HostIo};
use pt_folder::System;
use pt_messages::{Reads, Terminals};
use pt_move::Job;
use pt_name::Layout;
use pt_quick::{ByLengths, LONGEST_TEXT};
use pt_walk::Limits;
use std::alloc::AllocGlobal;
use std::rt::Clock;

// How many names lead to the folder in which all files of a store's objects lie.
const STORE_DEPTH: u32 = 1;

/// Holds the root in a folder against a store by names and lengths, as `audit_over` does by bytes.
pub(crate) fn audit_by_lengths<R, S: System, D: System, W: Writes, F: SyncsOutput<W> + Drop>(
    rt: &R,
    parts: DeviceParts<S, D, W, F>,
    options: AuditOptions,
    expected: Option<u64>,
    folders: Folders<'_>,
) -> (HostIo<S, D, W>, Conclusion)
where
    R: Reads + Clock + Eprint + AllocGlobal + Terminals,
    ensures { AuditsSeen (words_seen (host_io_words S.forest S.failing D.forest W.contents))
        (failed_calls (FailsSeen D.System D.File.Handle.own D.File.Input D.Dir.Input)
        (LogFails W.writes F.puts parts.file))
        (audit_call options folders.entry.store.now folders.entry.folder.now)
        parts.host_io result.0 result.1 }
{
    let DeviceParts { host_io, file } = parts;
    let host_io = see(host_io, &options, folders);
    let parts = DeviceParts { host_io, file };
    let options = with_short_files(options);
    let (seen, conclusion) = audit_over(rt, parts, options, expected, folders);
    (within(seen), conclusion)
}

// What is lent, as an audit by lengths sees it.
fn see<S: System, D: System, W>(
    host_io: HostIo<S, D, W>,
    options: &AuditOptions,
    folders: Folders<'_>,
) -> HostIo<ByLengths<S>, ByLengths<D>, W>
    ensures { result ≡ io_seen options.now
        (folders.entry.store.now, folders.entry.folder.now) host_io }
{
    let longest = options.job.limits.file_bytes();
    let depth = root_depth(&options.job.layout);
    HostIo {
        store: ByLengths::below(host_io.store, folders.store, STORE_DEPTH, longest),
        folder: ByLengths::below(host_io.folder, folders.folder, depth, longest),
        output: host_io.output,
    }
}

// What is lent that was seen so.
fn within<S: System, D: System, W>(seen: HostIo<ByLengths<S>, ByLengths<D>, W>) -> HostIo<S, D, W>
    ensures { result ≡ io_within seen }
{
    HostIo {
        store: seen.store.into_system(),
        folder: seen.folder.into_system(),
        output: seen.output,
    }
}

// How many names lead to the content folder of an object: `ocfl`, the tuples, the object's own, and
// the version's.
fn root_depth(layout: &Layout) -> u32
    ensures { result ≡ root_depth layout.now }
{
    layout.count() + 4
}

// The same options, by which no object has a file that is longer than the text of a length that a
// run carries.
fn with_short_files(options: AuditOptions) -> AuditOptions
    ensures { result ≡ quick_options options }
{
    let limits = short_limits(&options.job.limits);
    let job = Job {
        limits,
        ..options.job
    };
    AuditOptions { job, ..options }
}

// The same limits, by which a file is no longer than such a text.
fn short_limits(limits: &Limits) -> Limits
    ensures { result ≡ limits_seen limits.now }
{
    let short = Limits::of(
        limits.files(),
        limits.path_bytes(),
        limits.depth(),
        LONGEST_TEXT,
        limits.turns(),
    );
    match short {
        Ok(limits) => limits,
        Err(_) => unreachable!(),
    }
}
