//! The files of the root that are read beside those of an object, while these are read for their
//! digests: so what is alike needn't be read again when the object is compared.
//!
//! Between two steps (`Next`): of the contents of the object that is scanned so many, from the
//! first on, as are counted stand in the root with the bytes that the store's files have, and where
//! a file of the root is read beside one of the store, both have had the same bytes so far. What is
//! held beside the survey are three paths, two numbers and a block, and nothing else
//! (`BesideFields`).
ghost use Rattle.std.specs.Prelude.{◌≡◌, ◌++◌, IfOk, OnOk, Option, is_some};
ghost use Rattle.pt_audit.specs.RootReader.{CanFollow, HasBegun, IsAlikeAt, IsAtObject, IsBehind};
ghost use Rattle.pt_audit.specs.RootReader.{IsPaced, StaysClosed};
ghost use Rattle.pt_audit.specs.Failing.{ReadFailsAs};
ghost use Rattle.pt_object.specs.Object.{in_content};
ghost use Rattle.pt_compare.specs.Root.{KeepsRoot};
ghost use Rattle.pt_plan.specs.TurnWalk.{in_root};
ghost use Rattle.pt_audit.specs.Surveying.{sight_at};
ghost use Rattle.pt_audit.specs.declared.survey.SurveyEvent.TheVariants as sight;
ghost use Rattle.pt_tree.specs.Path.{rest_below};
ghost use Rattle.pt_tree.specs.Source.{Reading};

use crate::survey::{Survey, SurveyEvent};
use pt_compare::{come_next, content_path, has_ended, open_standing};
use pt_plan::Fault;
use pt_state::paths::in_storage_root;
use pt_tree::{Block, MemoryFault, Name, NamePath, Source};
use std::alloc::Global;

/// What is read of the root beside the object that is scanned.
#[derive(Drop)]
pub(crate) struct RootReader {
    alloc: Global,
    // Where the object stands in the source, from below `pairtree_root` on, and its place in a
    // storage root.
    from: NamePath,
    place: NamePath,
    // How many of its contents, from the first on, are alike.
    alike: usize,
    // Whether the open file of the root has the same bytes so far as the open one of the source.
    reads: bool,
    // A folder of the root that is known to stand.
    folder: NamePath,
    // What was read last.
    block: Block,
}

impl RootReader {
    /// Nothing yet.
    pub(crate) fn new(alloc: Global) -> RootReader
        ensures { HasBegun result }
    {
        RootReader {
            alloc,
            from: NamePath::new(alloc),
            place: NamePath::new(alloc),
            alike: 0,
            reads: false,
            folder: NamePath::new(alloc),
            block: Block::new(),
        }
    }

    /// Reads on beside a survey, after each of its steps: the file that it opened, the block that
    /// it read, or the end of that file. `Dest` where the root can't be read, and `Memory` where a
    /// growth was refused.
    pub(crate) fn follow<R: Source>(
        &mut self,
        root: &mut R,
        survey: &Survey,
        sight: SurveyEvent,
    ) -> Result<(), Fault>
        requires ready { CanFollow (R.told root.old) self.old }
        requires saw { sight ≡ sight_at survey.now.phase }
        ensures paced { (source : Option Reading)
            → IsBehind source (R.told root.old) self.old survey.now
            → OnOk result (IsPaced source (R.told root.new) self.new survey.now) }
        ensures still { OnOk result (CanFollow (R.told root.new) self.new) }
        ensures root { KeepsRoot R.told R.keeps root.old root.new }
        ensures failures { ReadFailsAs result (R.failed root.old) (R.failed root.new) }
    {
        match sight {
            SurveyEvent::Opened => self.open(root, survey),
            SurveyEvent::Block => self.read(root, survey),
            SurveyEvent::Scan => self.end(root, survey),
            _ => {
                self.reads = false;
                Ok(())
            }
        }
    }

    /// Reads nothing on, and holds nothing to be alike.
    pub(crate) fn stay_closed(&mut self)
        ensures { StaysClosed self.old self.new }
    {
        self.reads = false;
        self.alike = 0;
    }

    // Opens the file of the root beside the one that was opened, where all contents before it are
    // alike.
    fn open<R: Source>(&mut self, root: &mut R, survey: &Survey) -> Result<(), Fault>
        requires ready { CanFollow (R.told root.old) self.old }
        requires saw { sight_at survey.now.phase ≡ sight.Opened }
        ensures paced { (source : Option Reading)
            → IsBehind source (R.told root.old) self.old survey.now
            → OnOk result (IsPaced source (R.told root.new) self.new survey.now) }
        ensures still { OnOk result (CanFollow (R.told root.new) self.new) }
        ensures root { KeepsRoot R.told R.keeps root.old root.new }
        ensures failures { ReadFailsAs result (R.failed root.old) (R.failed root.new) }
    {
        self.reads = false;
        let file = survey.opened_file()?;
        let names = file.path.names();
        let (from, logical) = names.split_at(file.before.min(names.len()));
        self.begin(from, file.place)?;
        self.alike = self.alike.min(survey.stored_count());
        if self.alike < survey.stored_count() {
            return Ok(());
        }
        let path = stored_path(self.alloc, file.place, logical)?;
        self.reads = open_standing(self.alloc, root, &mut self.folder, &path).map_err(
            Fault::of_dest,
        )?;
        Ok(())
    }

    // Begins with an object that stands at these names in the source, and at this place in a
    // storage root, unless it is at it.
    fn begin(&mut self, from: &[Name], place: &NamePath) -> Result<(), MemoryFault>
        ensures { OnOk result (IsAtObject from.now place.now self.old self.new) }
    {
        if self.from.names() != from || self.place != *place {
            self.alike = 0;
            self.from = NamePath::new(self.alloc).with_names(from)?;
            self.place = place.copy()?;
        }
        Ok(())
    }

    // Reads a block of the root's file, as long as all is alike.
    fn read<R: Source>(&mut self, root: &mut R, survey: &Survey) -> Result<(), Fault>
        requires ready { CanFollow (R.told root.old) self.old }
        requires saw { sight_at survey.now.phase ≡ sight.Block }
        ensures paced { (source : Option Reading)
            → IsBehind source (R.told root.old) self.old survey.now
            → OnOk result (IsPaced source (R.told root.new) self.new survey.now) }
        ensures still { OnOk result (CanFollow (R.told root.new) self.new) }
        ensures root { KeepsRoot R.told R.keeps root.old root.new }
        ensures failures { ReadFailsAs result (R.failed root.old) (R.failed root.new) }
    {
        if self.reads {
            self.reads = come_next(root, &mut self.block, survey.block().as_slice()).map_err(
                Fault::of_dest,
            )?;
        }
        Ok(())
    }

    // Ends the root's file with that of the source: where both end here and it is stored, one
    // content more is alike.
    fn end<R: Source>(&mut self, root: &mut R, survey: &Survey) -> Result<(), Fault>
        requires ready { CanFollow (R.told root.old) self.old }
        requires saw { sight_at survey.now.phase ≡ sight.Scan }
        ensures paced { (source : Option Reading)
            → IsBehind source (R.told root.old) self.old survey.now
            → OnOk result (IsPaced source (R.told root.new) self.new survey.now) }
        ensures still { OnOk result (CanFollow (R.told root.new) self.new) }
        ensures root { KeepsRoot R.told R.keeps root.old root.new }
        ensures failures { ReadFailsAs result (R.failed root.old) (R.failed root.new) }
    {
        if self.reads {
            self.reads = false;
            let ended = has_ended(root, &mut self.block).map_err(Fault::of_dest)?;
            if ended && survey.stored_count() > self.alike {
                self.alike += 1;
            }
        }
        Ok(())
    }

    /// Whether a directory is known to stand at a path of the root.
    pub(crate) fn has_folder(&self, path: &NamePath) -> bool
        ensures { result ≡ is_some (rest_below path.now self.now.folder) }
    {
        self.folder.is_within(path)
    }

    /// How many contents of an object are alike, from the first on: none where it isn't the one
    /// that was read beside.
    pub(crate) fn alike_at(&self, from: &NamePath, place: &NamePath) -> usize
        ensures { IsAlikeAt self.now from.now place.now result }
    {
        if self.from == *from && self.place == *place {
            self.alike
        } else {
            0
        }
    }
}

// Where the content of a logical path is stored in the root, of an object at this place.
fn stored_path(alloc: Global, place: &NamePath, path: &[Name]) -> Result<NamePath, MemoryFault>
    ensures { IfOk result (λ whole. whole ≡ in_root place.now ++ in_content path.now) }
{
    let content = content_path(alloc, path)?;
    in_storage_root(alloc, place)?.with_names(content.names())
}
