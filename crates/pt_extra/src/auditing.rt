//! An audit both ways: the objects of a store are held against the root, and the root against the
//! store.
ghost use Rattle.std.specs.Prelude.{◌≡◌, true, IfOk, OnErr};
ghost use Rattle.std.specs.Io.KnownBytes.{Appends};
ghost use Rattle.pt_audit.specs.Auditing.{start_over};
ghost use Rattle.pt_audit.specs.Bounds.{counts_at_end};
ghost use Rattle.pt_audit.specs.Failing.{FailsAs, failures};
ghost use Rattle.pt_audit.specs.Growing.{KeepsLog, KeepsSides};
ghost use Rattle.pt_tree.specs.Source.{tree_in};
ghost use Rattle.pt_extra.specs.Audits.{AuditsDevices, TellsRest, counts_of};
ghost use Rattle.pt_extra.specs.Lines.{last_text};
ghost use Rattle.pt_extra.specs.Walk.{FailsAsPast};
ghost use Rattle.pt_tree.specs.Failures.{HasRisen};
ghost use Rattle.pt_tree.specs.Log.{AppendsFront};

use crate::lines::end_line;
use crate::{ExtraDevices, ExtraNumbers, Extras};
use pt_audit::{AuditCompletion, AuditTask, CompareBy, Counts, ObjectsAudit, audit_objects};
use pt_check::Explains;
use pt_move::Observer;
use pt_name::UnmetIdentifiers;
use pt_plan::Fault;
use pt_tree::{Log, Source};
use std::alloc::Global;

/// How many lines an audit has: those of what the store has, and of what it lacks.
#[derive(Clone, Copy, Debug, PartialEq, Eq)]
pub struct AuditCounts {
    /// Of what the store has.
    pub counts: Counts,
    /// Of what it lacks.
    pub numbers: ExtraNumbers,
}

/// What an audit came to, and its devices, as it left them.
#[derive(Drop)]
pub struct AuditEnd<S, R, L, E> {
    /// How many lines its log has, or why it broke off.
    pub ran: Result<AuditCounts, Fault>,
    /// The identifiers of the share's list of which it met no object, where it came to its end.
    pub unmet: UnmetIdentifiers,
    /// The devices.
    pub devices: ExtraDevices<S, R, L, E>,
}

/// An audit, as `audit` of pt_audit makes it; where extras are wanted too, the log tells of what
/// the root has and the store lacks, behind the lines of what the store has and before the end
/// line, which counts both. Names and identifiers alone tell that, by lengths too.
///
/// It answers the faults of `audit`, and those of a walk (`Extras::run`). After a fault the log has
/// a front of what is told.
pub fn audit<S, R, L, E, O>(
    alloc: Global,
    devices: ExtraDevices<S, R, L, E>,
    task: AuditTask,
    with_extras: bool,
    observer: &O,
) -> AuditEnd<S, R, L, E>
where
    S: Source,
    R: Source,
    L: Log,
    E: Explains<R> + Drop,
    O: Observer<Counts>,
    ensures { AuditsDevices S.Source R.Source L.Log with_extras task (devices, result) }
{
    if with_extras {
        return audit_with_extras(alloc, devices, task, observer);
    }
    let ExtraDevices {
        mut store,
        mut root,
        mut log,
        explains,
    } = devices;
    let audited = pt_audit::audit(alloc, &mut store, &mut root, &mut log, task, observer);
    AuditEnd {
        ran: without_extras(&audited),
        unmet: unmet_after(alloc, audited),
        devices: ExtraDevices {
            store,
            root,
            log,
            explains,
        },
    }
}

// What an audit came to that told of nothing that the store lacks.
fn without_extras(audited: &Result<AuditCompletion, Fault>) -> Result<AuditCounts, Fault>
    ensures { result ≡ counts_of (counts_at_end audited.now) }
{
    match audited {
        Ok(audited) => Ok(AuditCounts {
            counts: audited.counts,
            numbers: ExtraNumbers::none(),
        }),
        Err(fault) => Err(*fault),
    }
}

// What it leaves unmet; nothing where it broke off.
fn unmet_after(alloc: Global, audited: Result<AuditCompletion, Fault>) -> UnmetIdentifiers
    ensures { IfOk audited (λ audited. result ≡ audited.unmet) }
{
    match audited {
        Ok(audited) => audited.unmet,
        Err(_) => UnmetIdentifiers::none(alloc),
    }
}

// An audit that tells of what the store lacks too.
fn audit_with_extras<S, R, L, E, O>(
    alloc: Global,
    devices: ExtraDevices<S, R, L, E>,
    task: AuditTask,
    observer: &O,
) -> AuditEnd<S, R, L, E>
where
    S: Source,
    R: Source,
    L: Log,
    E: Explains<R> + Drop,
    O: Observer<Counts>,
    ensures { AuditsDevices S.Source R.Source L.Log true task (devices, result) }
{
    let ExtraDevices {
        mut store,
        mut root,
        mut log,
        explains,
    } = devices;
    let audited = audit_objects(alloc, &mut store, &mut root, &mut log, task, observer);
    let devices = ExtraDevices {
        store,
        root,
        log,
        explains,
    };
    match audited {
        Ok(audited) => tell_rest(alloc, devices, audited),
        Err(fault) => AuditEnd {
            ran: Err(fault),
            unmet: UnmetIdentifiers::none(alloc),
            devices,
        },
    }
}

// Tells of what the store lacks, and of the end, after all objects of the store were told.
fn tell_rest<S, R, L, E>(
    alloc: Global,
    devices: ExtraDevices<S, R, L, E>,
    audited: ObjectsAudit,
) -> AuditEnd<S, R, L, E>
where
    S: Source,
    R: Source,
    L: Log,
    E: Explains<R> + Drop,
    ensures told { TellsRest (HasRisen (R.failed devices.root) (R.failed result.devices.root))
        audited (start_over audited.by (tree_in (S.told devices.store))
        (tree_in (R.told devices.root)) (L.told devices.log))
        (L.told result.devices.log) result.ran }
    ensures counts { IfOk result.ran (λ told. told.counts ≡ audited.counts) }
    ensures unmet { result.unmet ≡ audited.unmet }
    ensures sides { KeepsSides S.told S.keeps R.told R.keeps (devices.store, devices.root)
        (result.devices.store, result.devices.root) }
    ensures log { KeepsLog L.told L.keeps devices.log result.devices.log }
    ensures fails { FailsAsPast result.ran
        (failures (S.failed devices.store) (R.failed devices.root) (L.failed devices.log))
        (failures (S.failed result.devices.store) (R.failed result.devices.root)
        (L.failed result.devices.log)) }
{
    let ObjectsAudit {
        counts,
        job,
        by,
        prefix,
        unmet,
    } = audited;
    let mut walk = Extras::new(alloc, devices, job, prefix);
    let found = walk.run();
    let mut devices = walk.into_devices();
    match found {
        Ok(numbers) => {
            let told = AuditCounts { counts, numbers };
            let ran = tell_end_of_both(alloc, by, told, &mut devices.log);
            AuditEnd {
                ran,
                unmet,
                devices,
            }
        }
        Err(fault) => AuditEnd {
            ran: Err(fault),
            unmet,
            devices,
        },
    }
}

// Tells the end, with the counts, and gives these.
fn tell_end_of_both<L: Log>(
    alloc: Global,
    by: CompareBy,
    counts: AuditCounts,
    log: &mut L,
) -> Result<AuditCounts, Fault>
    ensures told { IfOk result (λ told. (told ≡ counts)
        × Appends (L.told log.old) (L.told log.new) (last_text by counts)) }
    ensures part { OnErr result (AppendsFront (L.told log.old) (L.told log.new)
        (last_text by counts)) }
    ensures log { KeepsLog L.told L.keeps log.old log.new }
    ensures fails { FailsAs result (failures 0 0 (L.failed log.old))
        (failures 0 0 (L.failed log.new)) }
{
    let line = end_line(alloc, by, &counts)?;
    log.put(line.as_bytes()).map_err(Fault::of_log)?;
    Ok(counts)
}
