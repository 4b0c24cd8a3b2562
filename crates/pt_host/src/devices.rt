//! The devices of a run (`open_devices`), of an audit (`open_sides`) and of a check (`open_store`),
//! as they are asked for, each field by an equation.
ghost use Rattle.std.specs.Prelude.{◌≡◌, ◌+◌, None};
ghost use Rattle.pt_host.specs.Devices.{ReadsFrom, WritesInto};
ghost use Rattle.pt_host.specs.Room.{place_overhead};

use crate::RunOptions;
use crate::durable_log::{DurableLog, SyncsOutput};
use crate::folders::Folders;
use crate::host::HostIo;
use crate::room::longest_made;
use pt_folder::{HostDest, HostSource, System};
use pt_tree::{Ignored, Ignoring};
use std::alloc::Global;
use std::io::Write;

/// What devices are made of: what a machine lends, and the file that the log goes to, where that is
/// to be put onto its disk.
#[derive(Drop)]
pub(crate) struct DeviceParts<S, D, W, F> {
    pub host_io: HostIo<S, D, W>,
    pub file: Option<F>,
}

/// The source, the destination and the log of a run.
#[derive(Drop)]
pub(crate) struct RunDevices<'a, S: System, D: System, W: Write, F: SyncsOutput<W> + Drop> {
    /// The folder of the store.
    pub source: HostSource<'a, S>,
    /// The folder of the destination.
    pub dest: HostDest<'a, D>,
    /// The log, whose lines are put onto the disk where that is asked.
    pub log: DurableLog<W, F>,
}

/// The devices of a run over these, from a store to a folder. Paths for which there is no room at
/// the longest place are refused; and files are put onto the disk where the options say so, as the
/// log is where its file is given.
pub(crate) fn open_devices<'a, S: System, D: System, W: Write, F: SyncsOutput<W> + Drop>(
    alloc: Global,
    parts: DeviceParts<S, D, W, F>,
    options: &RunOptions,
    folders: Folders<'a>,
) -> RunDevices<'a, S, D, W, F>
    ensures store { ReadsFrom result.source parts.host_io.store folders.entry.store.now }
    ensures unread { (result.source.reading ≡ None) × (result.source.failures ≡ 0) }
    ensures folder { WritesInto result.dest parts.host_io.folder folders.entry.folder.now }
    ensures unwritten { (result.dest.writing ≡ None) × (result.dest.failures ≡ 0) }
    ensures longest { result.dest.longest + place_overhead options.now.job.layout ≡ 4095 }
    ensures synced { (result.dest.synced ≡ options.now.sync) × (result.dest.unsynced ≡ None) }
    ensures log { (result.log.writer ≡ parts.host_io.output) × (result.log.failures ≡ 0) }
    ensures log_synced { result.log.file ≡ parts.file }
{
    let DeviceParts { host_io, file } = parts;
    RunDevices {
        source: HostSource::new(host_io.store, alloc, folders.store),
        dest: HostDest::new(host_io.folder, alloc, folders.folder)
            .with_longest(longest_made(&options.job.layout))
            .with_sync(options.sync),
        log: DurableLog::new(host_io.output, file),
    }
}

/// The two sides of an audit, and its log.
#[derive(Drop)]
pub(crate) struct AuditSides<'a, S: System, D: System, W: Write, F: SyncsOutput<W> + Drop> {
    /// The folder of the store, without the entries that are left out.
    pub source: Ignoring<HostSource<'a, S>>,
    /// The folder of the root, which is only read.
    pub root: HostSource<'a, D>,
    /// The log.
    pub log: DurableLog<W, F>,
}

/// The sides of an audit over these, of a store and of the root in a folder. The entries of the
/// store that have these names are left out.
pub(crate) fn open_sides<'a, S: System, D: System, W: Write, F: SyncsOutput<W> + Drop>(
    alloc: Global,
    parts: DeviceParts<S, D, W, F>,
    ignored: Ignored,
    folders: Folders<'a>,
) -> AuditSides<'a, S, D, W, F>
    ensures store { ReadsFrom result.source.source parts.host_io.store folders.entry.store.now }
    ensures left_out { result.source.names ≡ ignored }
    ensures folder { ReadsFrom result.root parts.host_io.folder folders.entry.folder.now }
    ensures unread { (result.source.source.reading ≡ None) × (result.source.source.failures ≡ 0) }
    ensures unasked { result.root.failures ≡ 0 }
    ensures log { (result.log.writer ≡ parts.host_io.output) × (result.log.failures ≡ 0) }
    ensures log_synced { result.log.file ≡ parts.file }
{
    let DeviceParts { host_io, file } = parts;
    AuditSides {
        source: Ignoring::new(
            HostSource::new(host_io.store, alloc, folders.store),
            ignored,
        ),
        root: HostSource::new(host_io.folder, alloc, folders.folder),
        log: DurableLog::new(host_io.output, file),
    }
}

/// The store of a check, its log, and the system of a destination, of which it asks nothing.
#[derive(Drop)]
pub(crate) struct CheckedStore<'a, S: System, D, W: Write, F: SyncsOutput<W> + Drop> {
    /// The folder of the store, without the entries that are left out.
    pub source: Ignoring<HostSource<'a, S>>,
    /// The system.
    pub folder: D,
    /// The log.
    pub log: DurableLog<W, F>,
}

/// What a check is made over, of the store in a folder. Its entries that have these names are left
/// out.
pub(crate) fn open_store<'a, S: System, D, W: Write, F: SyncsOutput<W> + Drop>(
    alloc: Global,
    parts: DeviceParts<S, D, W, F>,
    ignored: Ignored,
    store: &'a str,
) -> CheckedStore<'a, S, D, W, F>
    ensures store { ReadsFrom result.source.source parts.host_io.store store.entry.now }
    ensures unread { (result.source.source.reading ≡ None) × (result.source.source.failures ≡ 0) }
    ensures left_out { result.source.names ≡ ignored }
    ensures folder { result.folder ≡ parts.host_io.folder }
    ensures log { (result.log.writer ≡ parts.host_io.output) × (result.log.failures ≡ 0) }
    ensures log_synced { result.log.file ≡ parts.file }
{
    let DeviceParts { host_io, file } = parts;
    let HostIo {
        store: system,
        folder,
        output,
    } = host_io;
    CheckedStore {
        source: Ignoring::new(HostSource::new(system, alloc, store), ignored),
        folder,
        log: DurableLog::new(output, file),
    }
}
