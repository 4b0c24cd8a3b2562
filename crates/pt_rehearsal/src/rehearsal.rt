//! A destination that only looks.
//!
//! It refuses, with `Device`, exactly what it doesn't know: a look at what is hidden
//! (`IsFromMemory`, `IsNotPeeked`); a directory or a file whose making, and a move whose effect,
//! can't be remembered (`made_dir`, `made_file`, `moved_to`); beside that a path that is too long,
//! and, where an entry right in the folder is made, a failed look at the folder.
ghost use Rattle.std.proofs.Common.{◌∙◌, refl, subst};
ghost use Rattle.std.specs.Prelude.{◌≡◌, ◌⊎◌, ◌≤◌, [], None, Ok, OnErr, OnOk, IfOk, length};
ghost use Rattle.std.specs.Option.{option_map};
ghost use Rattle.pt_folder.specs.Calls.{CannotMake};
ghost use Rattle.pt_folder.specs.DestHeld.{told_of};
ghost use Rattle.pt_folder.specs.Failure.{OnDevice};
ghost use Rattle.pt_folder.specs.Folder.{entry_text};
ghost use Rattle.pt_folder.specs.HostDest.{failures_of, folder_path, kept_by, lasting, longest_of};
ghost use Rattle.pt_folder.specs.HostDest.{unsynced_of, system_of, told as told_by};
ghost use Rattle.pt_rehearsal.specs.Fitting.{FitsTold};
ghost use Rattle.pt_tree.specs.Failures.{IsCounted};
ghost use Rattle.pt_rehearsal.specs.SameFolder.{LooksAtFolder, MissesFolder, SameFolder};
ghost use Rattle.pt_rehearsal.specs.Seeing.{Remembers, made_dir, made_file, moved_to, nothing};
ghost use Rattle.pt_rehearsal.specs.Seeing.{view};

use crate::played::{Note, Played};
use crate::remembered::{Recall, Remembered};
use pt_folder::{HostDest, Input, System};
use pt_tree::{Block, Dest, Kind, NamePath, TreeFault};
use std::alloc::Global;

/// A rehearsal over a folder as destination: it looks where the folder would be looked at, makes
/// and changes nothing, and answers as the folder would after the calls that it was asked for.
/// Where the folder tells its tree, it tells the tree that the folder would hold then.
///
/// It keeps no contents. It remembers a text for each directory that it would have made and for
/// each place that it would have moved something to; of what lies in what was moved, and in the
/// directory at the top that is being filled, it knows nothing but that it would have been made,
/// and a call that asks for that is refused: `Device`, counted as a failure. So is a file that
/// would be made elsewhere, and a move of anything but that directory. A run asks for none of
/// these.
#[derive(Drop)]
pub struct Rehearsal<'a, S: System> {
    dest: HostDest<'a, S>,
    remembered: Remembered,
    played: Played,
    ghost fits: { ∥ FitsTold (told_by dest) (view remembered) played.steps ∥₁ },
}

impl<'a, S: System> Rehearsal<'a, S> {
    ghost use Rattle.pt_rehearsal.specs.Rehearsal.{told};

    /// A rehearsal over a folder, of which nothing is put onto the disk, that remembers nothing
    /// yet. It calls nothing and takes no memory.
    pub fn new(alloc: Global, dest: HostDest<'a, S>) -> Rehearsal<'a, S>
        ensures still { lasting result.dest ≡ lasting dest.entry }
        ensures longest { longest_of result.dest ≡ longest_of dest.entry }
        ensures told { told result ≡ told_of (kept_by dest.entry) None }
        ensures unsynced { unsynced_of result.dest ≡ None }
        ensures remembered { view result.remembered ≡ nothing }
    {
        Rehearsal {
            dest: dest.with_sync(false),
            remembered: Remembered::new(alloc),
            played: Played::new(),
        }
    }

    /// The destination that it looks at.
    pub fn dest(&self) -> &HostDest<'a, S>
        ensures { result.now ≡ self.now.dest }
    {
        &self.dest
    }

    /// The destination that it looked at.
    pub fn into_dest(self) -> HostDest<'a, S>
        ensures { result ≡ self.entry.dest }
    {
        self.dest
    }
}

impl<'a, S: System> Dest for Rehearsal<'a, S> {
    ghost use Rattle.pt_tree.specs.Dest.{CanPeek, CanWrite, IsKindAt, IsPeeked, LeavesPart};
    ghost use Rattle.pt_tree.specs.Dest.{MayMake, MayMove};
    ghost use Rattle.pt_tree.specs.Dest.{after_mkdir, after_create, after_append, after_finish};
    ghost use Rattle.pt_tree.specs.Dest.{after_rename};
    ghost use Rattle.pt_rehearsal.specs.Calls.{NoDirMade, Rehearses, calls_on, none};
    ghost use Rattle.pt_rehearsal.specs.Rehearsal.{IsCall, LooksUnlessKnown};
    ghost use Rattle.pt_rehearsal.specs.Rehearsal.{PeeksUnlessKnown, told};
    ghost use Rattle.pt_rehearsal.specs.Told.{tree_of_rehearsal};

    ghost told = { told };

    ghost failed = { λ d. failures_of d.dest };

    // Nothing is made or changed: the system keeps of the folder what it kept. And each call has
    // asked the system by what is remembered.
    ghost keeps = { Rehearses };

    ghost is_kept = { λ _. ((refl, (refl, refl), refl, refl, refl), none) };

    ghost keeps_on = { λ a b c p q. (
      (
        q.0.0 ∙ p.0.0,
        (q.0.1.0 ∙ p.0.1.0, q.0.1.1 ∙ p.0.1.1),
        q.0.2 ∙ p.0.2,
        q.0.3 ∙ p.0.3,
        subst (λ f. S.kept (system_of c.dest) f.path.now ≡ S.kept (system_of b.dest) f.path.now)
            p.0.0 q.0.4 ∙ p.0.4,
      ),
      calls_on a b c p.1 q.1,
    ) };

    ghost is_tree = { λ d state is.
        tree_of_rehearsal (told_by d.dest) (view d.remembered) d.played.steps state d.fits is };

    fn failures(&self) -> u64 {
        self.dest.failures()
    }

    fn kind(&mut self, path: &NamePath) -> Result<Option<Kind>, TreeFault>
        ensures kind { IfOk result (λ kind. IsKindAt (told self.old) path.now kind) }
        ensures same { told self.new ≡ told self.old }
        ensures asked { LooksUnlessKnown self.old self.new path.now result }
        ensures remembered { self.new.remembered ≡ self.old.remembered }
        ensures call { IsCall self.old self.new result }
    {
        match self.remembered.look_up(path)? {
            Recall::Folder => Ok(Some(Kind::Dir)),
            Recall::Hidden => self.dest.refuse(),
            Recall::Standing => self.dest.kind(path),
        }
    }

    fn peek(&mut self, path: &NamePath, block: &mut Block) -> Result<(), TreeFault>
        requires { CanPeek (told self.old) path.now }
        ensures block { OnOk result (IsPeeked (told self.old) path.now block.new.items) }
        ensures empty { OnErr result (block.new.items ≡ []) }
        ensures same { told self.new ≡ told self.old }
        ensures asked { PeeksUnlessKnown self.old self.new path.now block.new.items result }
        ensures remembered { self.new.remembered ≡ self.old.remembered }
        ensures call { IsCall self.old self.new result }
    {
        block.clear();
        match self.remembered.look_up(path)? {
            Recall::Folder | Recall::Hidden => self.dest.refuse(),
            Recall::Standing => self.dest.peek(path, block),
        }
    }

    fn mkdir(&mut self, path: &NamePath) -> Result<(), TreeFault>
        requires { MayMake (told self.old) path.now }
        ensures made { OnOk result (told self.new
            ≡ option_map (after_mkdir path.now) (told self.old)) }
        ensures same { OnErr result (told self.new ≡ told self.old) }
        ensures fits { OnOk result (length (entry_text (folder_path self.old.dest) path.now)
            ≤ longest_of self.old.dest) }
        ensures asked { LooksAtFolder self.old.dest self.new.dest path.now result }
        ensures refused { OnDevice result (NoDirMade self.old self.new path.now) }
        ensures remembered { Remembers (made_dir (view self.old.remembered) path.now) result
            (view self.old.remembered) (view self.new.remembered) }
        ensures call { IsCall self.old self.new result }
    {
        may_make_dir(&mut self.dest, path)?;
        if !self.remembered.make_dir(path)? {
            return self.dest.refuse();
        }
        self.played = self.played.then(&Note::MadeDir(path));
        Ok(())
    }

    fn create(&mut self, path: &NamePath) -> Result<(), TreeFault>
        requires { MayMake (told self.old) path.now }
        ensures made { OnOk result (told self.new
            ≡ option_map (after_create path.now) (told self.old)) }
        ensures same { OnErr result (told self.new ≡ told self.old) }
        ensures system { system_of self.new.dest ≡ system_of self.old.dest }
        ensures fits { OnOk result (length (entry_text (folder_path self.old.dest) path.now)
            ≤ longest_of self.old.dest) }
        ensures refused { OnDevice result
            (CannotMake (longest_of self.old.dest) (folder_path self.old.dest) path.now
            ⊎ (made_file (view self.old.remembered) path.now ≡ None)) }
        ensures remembered { Remembers (made_file (view self.old.remembered) path.now) result
            (view self.old.remembered) (view self.new.remembered) }
        ensures call { IsCall self.old self.new result }
    {
        self.dest.may_make(path)?;
        if !self.remembered.create_new(path)? {
            return self.dest.refuse();
        }
        self.played = self.played.then(&Note::MadeFile(path));
        Ok(())
    }

    fn append(&mut self, piece: &[u8]) -> Result<(), TreeFault>
        requires { CanWrite (told self.old) }
        ensures added { OnOk result (told self.new
            ≡ option_map (after_append piece.now) (told self.old)) }
        ensures part { OnErr result (LeavesPart (told self.old) (told self.new) piece.now) }
        ensures dest { self.new.dest ≡ self.old.dest }
        ensures remembered { self.new.remembered ≡ self.old.remembered }
        ensures done { result ≡ Ok tt }
        ensures call { IsCall self.old self.new result }
    {
        self.played = self.played.then(&Note::Added(piece));
        Ok(())
    }

    fn finish(&mut self) -> Result<(), TreeFault>
        requires { CanWrite (told self.old) }
        ensures closed { OnOk result (told self.new ≡ option_map after_finish (told self.old)) }
        ensures same { OnErr result (told self.new ≡ told self.old) }
        ensures dest { self.new.dest ≡ self.old.dest }
        ensures remembered { self.new.remembered ≡ self.old.remembered }
        ensures done { result ≡ Ok tt }
        ensures call { IsCall self.old self.new result }
    {
        self.played = self.played.then(&Note::Closed);
        Ok(())
    }

    fn rename(&mut self, from: &NamePath, to: &NamePath) -> Result<(), TreeFault>
        requires { MayMove (told self.old) from.now to.now }
        ensures moved { OnOk result (told self.new
            ≡ option_map (after_rename from.now to.now) (told self.old)) }
        ensures same { OnErr result (told self.new ≡ told self.old) }
        ensures system { system_of self.new.dest ≡ system_of self.old.dest }
        ensures refused { OnDevice result
            (moved_to (view self.old.remembered) from.now to.now ≡ None) }
        ensures remembered { Remembers (moved_to (view self.old.remembered) from.now to.now) result
            (view self.old.remembered) (view self.new.remembered) }
        ensures call { IsCall self.old self.new result }
    {
        if !self.remembered.rename(from, to)? {
            return self.dest.refuse();
        }
        self.played = self.played.then(&Note::Moved(from, to));
        Ok(())
    }
}

// Whether a directory may be made, as far as the folder knows: its path isn't too long, and one at
// the top needs the folder.
fn may_make_dir<S: System>(dest: &mut HostDest<'_, S>, path: &NamePath) -> Result<(), TreeFault>
    ensures fits { OnOk result (length (entry_text (folder_path dest.old) path.now)
        ≤ longest_of dest.old) }
    ensures asked { LooksAtFolder dest.old dest.new path.now result }
    ensures refused { OnDevice result (MissesFolder dest.old dest.new
        ⊎ CannotMake (longest_of dest.old) (folder_path dest.old) path.now) }
    ensures stays { SameFolder dest.old dest.new }
    ensures failures { IsCounted (failures_of dest.old) (failures_of dest.new) result }
{
    dest.may_make(path)?;
    if path.len() == 1 {
        dest.look_at_folder()?;
    }
    Ok(())
}
