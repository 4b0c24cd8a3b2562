// Contents that are read before they are put. They come in the order of their digests, in which
// each lies anywhere in memory: a put by itself waits for its content and then for the names of its
// path, where loops that do nothing but read wait for many at once. What is read is asked for no
// more than the room that it needs.
ghost use Rattle.std.specs.Prelude.{◌≡◌, ◌+◌, ◌≤◌, OnOk, length};
ghost use Rattle.pt_object.specs.Index.{IsIndex};

use crate::inventories::output::Output;
use crate::inventories::parts::Parts;
use pt_tree::Name;
use std::alloc::AllocError;

// So many are read at once.
const AHEAD: usize = 16;

impl<'a> Parts<'a> {
    // Reads the contents from a place of the index on, where those that were read before have been
    // put.
    pub(crate) fn read_ahead(&self, out: &mut Output, place: usize) -> Result<(), AllocError>
        requires { IsIndex self.now.items.now self.now.index.now }
        ensures { OnOk result (out.new ≡ out.old) }
    {
        if place % AHEAD == 0 {
            out.make_room(self.longest(place, self.end_ahead(place)))?;
        }
        Ok(())
    }

    // Reads what the rows have of each of them.
    pub(crate) fn read_later_ahead(&self, out: &mut Output, place: usize) -> Result<(), AllocError>
        requires { IsIndex self.now.items.now self.now.index.now }
        ensures { OnOk result (out.new ≡ out.old) }
    {
        if place % AHEAD == 0 {
            out.make_room(self.longest_later(place, self.end_ahead(place)))?;
        }
        Ok(())
    }

    // The place behind them.
    fn end_ahead(&self, place: usize) -> usize
        ensures few { result ≤ place + 16 }
        ensures within { result ≤ length self.now.items.now }
    {
        place.saturating_add(AHEAD).min(self.items.len())
    }

    // The most bytes that one of the contents of these places has in its digest, or in the first or
    // last name of its path.
    fn longest(&self, place: usize, end: usize) -> usize
        requires ordered { IsIndex self.now.items.now self.now.index.now }
        requires few { end ≤ place + 16 }
        requires within { end ≤ length self.now.items.now }
    {
        let mut most = 0;
        let mut paths: [&[Name]; AHEAD] = [&[]; AHEAD];
        for at in place..end {
            if let Some(content) = self.items.get(self.index.get(at)) {
                most = most.max(content.digest.bytes().len());
                paths[at - place] = content.path.names();
            }
        }
        longest_name(&paths).max(most)
    }

    // The most bytes that the first of the later paths of one of these contents has in its first or
    // last name.
    fn longest_later(&self, place: usize, end: usize) -> usize
        requires ordered { IsIndex self.now.items.now self.now.index.now }
        requires few { end ≤ place + 16 }
        requires within { end ≤ length self.now.items.now }
    {
        let mut paths: [&[Name]; AHEAD] = [&[]; AHEAD];
        for at in place..end {
            if let Some(group) = self.groups.get(self.index.get(at))
                && let Some(path) = group.later.first()
            {
                paths[at - place] = path.names();
            }
        }
        longest_name(&paths)
    }
}

// The most bytes that the first or last name of one of these paths has.
fn longest_name(paths: &[&[Name]; AHEAD]) -> usize {
    let mut most = 0;
    for names in paths {
        if let Some(first) = names.first()
            && let Some(last) = names.last()
        {
            most = most.max(first.bytes().len()).max(last.bytes().len());
        }
    }
    most
}
