//! What a check tells its log, line by line.
ghost use Rattle.std.specs.Io.KnownBytes.{Appends};
ghost use Rattle.std.specs.Prelude.{◌≡◌, ◌∷◌, map, string_bytes, IfOk, OnOk};
ghost use Rattle.pt_check.specs.Faults.{LogFailsAs};
ghost use Rattle.pt_check.specs.Lines.{End, Told, Unreadable, line_text};
ghost use Rattle.pt_check.specs.Visits.{Keeps, Puts, Tells, TellsEach, TellsIf, TellsUnread};
ghost use Rattle.pt_check.specs.Visits.{Where, check_state};

use crate::checking::Check;
use crate::lines::{end_line, trouble_line, unreadable_line};
use crate::unlisted::Explains;
use crate::{LineKind, Numbers, Trouble};
use pt_plan::Fault;
use pt_tree::{Log, NamePath, Source};

impl<S: Source, L: Log, E: Explains<S> + Drop> Check<S, L, E> {
    // Puts the line of the numbers.
    pub(crate) fn tell_numbers(&mut self) -> Result<Numbers, Fault>
        ensures numbers { IfOk result (λ numbers. numbers ≡ self.old.numbers) }
        ensures told { OnOk result (Appends (L.told self.old.log) (L.told self.new.log)
            (line_text (End self.old.numbers))) }
        ensures counted { self.new.numbers ≡ self.old.numbers }
        ensures unmet { self.new.unmet ≡ self.old.unmet }
        ensures source { self.new.source ≡ self.old.source }
        ensures keeps { Keeps S.Source L.Log self.old self.new }
        ensures fault { LogFailsAs (L.failed self.old.log) (L.failed self.new.log) result }
    {
        let line = end_line(self.alloc, &self.numbers)?;
        match self.log.put(line.as_str().as_bytes()) {
            Ok(()) => Ok(self.numbers),
            Err(fault) => Err(Fault::of_log(fault)),
        }
    }

    // Tells of a trouble at a path, if there is one.
    pub(crate) fn tell_if(&mut self, path: &NamePath, trouble: Option<Trouble>) -> Result<(), Fault>
        ensures told { OnOk result (TellsIf path.now trouble
            (check_state S.Source L.Log self.old) (check_state S.Source L.Log self.new)) }
        ensures source { self.new.source ≡ self.old.source }
        ensures keeps { Keeps S.Source L.Log self.old self.new }
        ensures fault { LogFailsAs (L.failed self.old.log) (L.failed self.new.log) result }
    {
        match trouble {
            Some(trouble) => self.tell(path, trouble),
            None => Ok(()),
        }
    }

    // The same where the path is the share's own; else nothing is told.
    pub(crate) fn tell_own(
        &mut self,
        own: bool,
        path: &NamePath,
        trouble: Option<Trouble>,
    ) -> Result<(), Fault>
        ensures told { OnOk result (Where own (TellsIf path.now trouble)
            (check_state S.Source L.Log self.old) (check_state S.Source L.Log self.new)) }
        ensures source { self.new.source ≡ self.old.source }
        ensures keeps { Keeps S.Source L.Log self.old self.new }
        ensures fault { LogFailsAs (L.failed self.old.log) (L.failed self.new.log) result }
    {
        if own {
            self.tell_if(path, trouble)
        } else {
            Ok(())
        }
    }

    // Tells of a trouble at a path.
    fn tell(&mut self, path: &NamePath, trouble: Trouble) -> Result<(), Fault>
        ensures told { OnOk result (Tells (Told path.now trouble)
            (check_state S.Source L.Log self.old) (check_state S.Source L.Log self.new)) }
        ensures source { self.new.source ≡ self.old.source }
        ensures keeps { Keeps S.Source L.Log self.old self.new }
        ensures fault { LogFailsAs (L.failed self.old.log) (L.failed self.new.log) result }
    {
        let line = trouble_line(self.alloc, path, trouble)?;
        self.put(LineKind::Troubled(trouble), line.as_str())
    }

    // Tells that the source failed at a path.
    pub(crate) fn tell_failure(&mut self, path: &NamePath) -> Result<(), Fault>
        ensures told { OnOk result (TellsUnread path.now
            (check_state S.Source L.Log self.old) (check_state S.Source L.Log self.new)) }
        ensures source { self.new.source ≡ self.old.source }
        ensures keeps { Keeps S.Source L.Log self.old self.new }
        ensures fault { LogFailsAs (L.failed self.old.log) (L.failed self.new.log) result }
    {
        let reason = self.explains.reason(self.alloc, &self.source)?;
        self.tell_reason(path, reason.as_str())
    }

    // Tells of a path that it can't be read, for this reason.
    fn tell_reason(&mut self, path: &NamePath, reason: &str) -> Result<(), Fault>
        ensures told { OnOk result (Tells (Unreadable path.now reason.now)
            (check_state S.Source L.Log self.old) (check_state S.Source L.Log self.new)) }
        ensures source { self.new.source ≡ self.old.source }
        ensures keeps { Keeps S.Source L.Log self.old self.new }
        ensures fault { LogFailsAs (L.failed self.old.log) (L.failed self.new.log) result }
    {
        let line = unreadable_line(self.alloc, path, reason)?;
        self.put(LineKind::Unreadable, line.as_str())
    }

    // Tells of a path that it can't be read, for these reasons.
    pub(crate) fn tell_reasons(
        &mut self,
        path: &NamePath,
        reason: &str,
        further: &[String],
    ) -> Result<(), Fault>
        ensures told { OnOk result (TellsEach path.now
            (reason.now ∷ map (λ reason. string_bytes reason) further.now)
            (check_state S.Source L.Log self.old) (check_state S.Source L.Log self.new)) }
        ensures source { self.new.source ≡ self.old.source }
        ensures keeps { Keeps S.Source L.Log self.old self.new }
        ensures fault { LogFailsAs (L.failed self.old.log) (L.failed self.new.log) result }
    {
        self.tell_reason(path, reason)?;
        self.tell_each(path, further)
    }

    // Tells of a path that it can't be read, for each of these reasons.
    fn tell_each(&mut self, path: &NamePath, reasons: &[String]) -> Result<(), Fault>
        ensures told { OnOk result (TellsEach path.now
            (map (λ reason. string_bytes reason) reasons.now)
            (check_state S.Source L.Log self.old) (check_state S.Source L.Log self.new)) }
        ensures source { self.new.source ≡ self.old.source }
        ensures keeps { Keeps S.Source L.Log self.old self.new }
        ensures fault { LogFailsAs (L.failed self.old.log) (L.failed self.new.log) result }
    {
        for reason in reasons {
            self.tell_reason(path, reason.as_str())?;
        }
        Ok(())
    }

    // Puts a line of this kind, and counts it.
    fn put(&mut self, kind: LineKind, line: &str) -> Result<(), Fault>
        ensures put { OnOk result (Puts kind line.now
            (check_state S.Source L.Log self.old) (check_state S.Source L.Log self.new)) }
        ensures source { self.new.source ≡ self.old.source }
        ensures keeps { Keeps S.Source L.Log self.old self.new }
        ensures fault { LogFailsAs (L.failed self.old.log) (L.failed self.new.log) result }
    {
        match self.log.put(line.as_bytes()) {
            Ok(()) => {
                self.numbers = self.numbers.with_line(kind);
                Ok(())
            }
            Err(fault) => Err(Fault::of_log(fault)),
        }
    }
}
