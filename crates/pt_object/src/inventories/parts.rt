// What an inventory is made of, and how far it is made.
ghost use Rattle.std.specs.Prelude.{◌≡◌, IfOk};
ghost use Rattle.pt_object.specs.InPieces.{AreParts, Puts, is_before_end, is_behind, is_head};
ghost use Rattle.pt_object.specs.InPieces.{is_in_manifest, is_in_state};

use crate::inventories::document::{put_back, put_head, put_middle};
use crate::inventories::manifest::put_stored;
use crate::inventories::output::Output;
use crate::inventories::state::{Group, put_grouped};
use crate::table::SortedIndex;
use crate::{Algorithm, Content, Meta, Rows};
use pt_tree::MemoryFault;

// How many contents are put at once, at most: an object of fewer files has an inventory of one
// piece, some 80 MB long.
const CONTENTS: usize = 262_144;

#[derive(Drop)]
pub(crate) struct Parts<'a> {
    pub(crate) id: &'a str,
    pub(crate) rows: &'a Rows,
    pub(crate) meta: &'a Meta,
    pub(crate) algorithm: Algorithm,
    // The contents of the rows.
    pub(crate) items: &'a [Content],
    // Their positions in the order of their digests.
    pub(crate) index: &'a SortedIndex,
    // What the rows have of each.
    pub(crate) groups: Vec<Group<'a>>,
}

// What comes next.
#[derive(Clone, Copy)]
pub(crate) enum Step {
    // The members before the manifest.
    Head,
    // What the manifest has from a place of the index on.
    Manifest(usize),
    // What the state has from there on.
    State(usize),
    // Nothing.
    End,
}

impl Step {
    // Whether a value ends before it, so that a comma stands before a further one.
    pub(crate) fn is_behind_value(self) -> bool
        ensures { result ≡ is_behind self }
    {
        match self {
            Step::Head => false,
            Step::Manifest(place) | Step::State(place) => place > 0,
            Step::End => true,
        }
    }
}

impl<'a> Parts<'a> {
    // Puts what comes next, and gives what comes behind that.
    pub(crate) fn put_next(&self, out: &mut Output, here: Step) -> Result<Step, MemoryFault>
        requires { AreParts self.now }
        ensures { IfOk result (λ next. Puts is_before_end self.now here next out.old out.new) }
    {
        let here = self.put_front(out, here)?;
        let here = self.put_in_manifest(out, here)?;
        self.put_in_state(out, here)
    }

    // Puts the members before the manifest, where they come next.
    fn put_front(&self, out: &mut Output, here: Step) -> Result<Step, MemoryFault>
        ensures { IfOk result (λ next. Puts is_head self.now here next out.old out.new) }
    {
        let Step::Head = here else {
            return Ok(here);
        };
        put_head(out, self.id, self.algorithm)?;
        out.begin_object()?;
        Ok(Step::Manifest(0))
    }

    // Puts further contents of the manifest, where they come next.
    fn put_in_manifest(&self, out: &mut Output, here: Step) -> Result<Step, MemoryFault>
        requires { AreParts self.now }
        ensures { IfOk result (λ next.
            Puts is_in_manifest self.now here next out.old out.new) }
    {
        let Step::Manifest(place) = here else {
            return Ok(here);
        };
        let left = self.items.len().saturating_sub(place);
        let count = left.min(CONTENTS);
        put_stored(out, self, place, count)?;
        if count < left {
            return Ok(Step::Manifest(place + count));
        }
        put_middle(out, self.meta)?;
        Ok(Step::State(0))
    }

    // Puts further contents of the state, where they come next.
    fn put_in_state(&self, out: &mut Output, here: Step) -> Result<Step, MemoryFault>
        requires { AreParts self.now }
        ensures { IfOk result (λ next.
            Puts is_in_state self.now here next out.old out.new) }
    {
        let Step::State(place) = here else {
            return Ok(here);
        };
        let left = self.items.len().saturating_sub(place);
        let count = left.min(CONTENTS);
        put_grouped(out, self, place, count)?;
        if count < left {
            return Ok(Step::State(place + count));
        }
        put_back(out, self.meta)?;
        Ok(Step::End)
    }
}
