//! What a rehearsal remembers of what it would have made: a text for each directory that it would
//! have made and each place that it would have moved something to, and the names that it would have
//! made in one directory at a time (`View`); after each call by an equation (`Remembers`). The
//! texts lie packed (text_set.rt): no text takes memory of its own, and none is taken for another.
ghost use Rattle.std.specs.Prelude.{◌≡◌, ◌||◌, IfOk, OnErr, OnOk, true};
ghost use Rattle.std.specs.Option.{option_map};
ghost use Rattle.pt_tree.specs.Name.{AreNames};
ghost use Rattle.pt_tree.specs.Path.{joined};
ghost use Rattle.pt_rehearsal.specs.Seeing.{Becomes, inner_of, is_inside, is_itself, is_met};
ghost use Rattle.pt_rehearsal.specs.Seeing.{made_dir};
ghost use Rattle.pt_rehearsal.specs.Seeing.{made_file, made_inside, made_known, met_in};
ghost use Rattle.pt_rehearsal.specs.Seeing.{moved_known, moved_to};
ghost use Rattle.pt_rehearsal.specs.Seeing.{nothing, renamed_to, recall_at, view, with_folder};
ghost use Rattle.pt_rehearsal.specs.Seeing.{with_met};

use crate::text_set::TextSet;
use pt_tree::{MemoryFault, Name, NamePath};
use std::alloc::Global;

/// What a rehearsal says of a path by what it remembers.
#[derive(Clone, Copy, Drop)]
pub(crate) enum Recall {
    /// A directory would stand there.
    Folder,
    /// What would stand there isn't remembered.
    Hidden,
    /// What stands there would not have been touched.
    Standing,
}

// A directory at the top, and the names that were made in it.
#[derive(Drop)]
struct Inner {
    name: Name,
    names: TextSet,
}

/// What would have been made: the texts of directories, of those of two names and more and of those
/// to which something was moved; the directory at the top that is being filled; the one that was
/// moved to a place at the top; and the least number of names of a place below the top to which
/// something was moved, whose inside isn't remembered.
#[derive(Drop)]
pub(crate) struct Remembered {
    alloc: Global,
    folders: TextSet,
    filling: Option<Inner>,
    filled: Option<Inner>,
    least: usize,
}

impl Remembered {
    /// Nothing is remembered yet.
    pub fn new(alloc: Global) -> Remembered
        ensures { view result ≡ nothing }
    {
        Remembered {
            alloc,
            folders: TextSet::new(alloc),
            filling: None,
            filled: None,
            least: usize::MAX,
        }
    }

    /// What is said of a path; `Memory` where its text can't be made.
    pub fn look_up(&self, path: &NamePath) -> Result<Recall, MemoryFault>
        ensures seen { IfOk result (λ recall. recall ≡ recall_at (view self.now) path.now) }
        ensures named { OnOk result (AreNames path.now) }
    {
        let text = path.join()?;
        Ok(self.recall_as(path, text.as_slice()))
    }

    // What is said of a path that has this text.
    fn recall_as(&self, path: &NamePath, text: &[u8]) -> Recall
        requires { text.now ≡ joined path.now }
        ensures { result ≡ recall_at (view self.now) path.now }
    {
        let names = path.names();
        if self.folders.contains(text) || is_itself(&self.filling, names) {
            return Recall::Folder;
        }
        if is_inside(&self.filling, names)
            || is_met(&self.filled, names)
            || path.len() > self.least
        {
            return Recall::Hidden;
        }
        Recall::Standing
    }

    /// A directory would have been made at a path. It answers whether that can be remembered: not
    /// where something would stand, nor below what isn't remembered, nor a second one at the top
    /// beside one that is being filled. After `Memory` nothing is changed.
    pub fn make_dir(&mut self, path: &NamePath) -> Result<bool, MemoryFault>
        ensures ok { IfOk result (λ can.
            Becomes (made_dir (view self.old) path.now) can (view self.old) (view self.new)) }
        ensures err { OnErr result (view self.new ≡ view self.old) }
        ensures named { OnOk result (AreNames path.now) }
    {
        let text = path.join()?;
        match self.recall_as(path, text.as_slice()) {
            Recall::Folder => Ok(false),
            Recall::Hidden => self.make_inside(path.names()),
            Recall::Standing => self.make_known(path, text.as_slice()),
        }
    }

    /// A file would have been made at a path. It answers whether that can be remembered: in the
    /// directory that is being filled alone. After `Memory` nothing is changed.
    pub fn create_new(&mut self, path: &NamePath) -> Result<bool, MemoryFault>
        ensures ok { IfOk result (λ can.
            Becomes (made_file (view self.old) path.now) can (view self.old) (view self.new)) }
        ensures err { OnErr result (view self.new ≡ view self.old) }
        ensures named { OnOk result (AreNames path.now) }
    {
        match self.look_up(path)? {
            Recall::Hidden => self.make_inside(path.names()),
            Recall::Folder | Recall::Standing => Ok(false),
        }
    }

    /// What stands at `from` would have been moved. It answers whether that can be remembered:
    /// where `from` is the directory that is being filled, nothing would stand at `to`, and, where
    /// `to` is at the top, none was moved there before. After `Memory` nothing is changed.
    pub fn rename(&mut self, from: &NamePath, to: &NamePath) -> Result<bool, MemoryFault>
        ensures ok { IfOk result (λ can.
            Becomes (moved_to (view self.old) from.now to.now) can
            (view self.old) (view self.new)) }
        ensures err { OnErr result (view self.new ≡ view self.old) }
        ensures named { IfOk result (λ can. can ≡ true → AreNames to.now) }
    {
        if !is_itself(&self.filling, from.names()) {
            return Ok(false);
        }
        let text = to.join()?;
        match self.recall_as(to, text.as_slice()) {
            Recall::Standing => self.move_known(to, text.as_slice()),
            Recall::Folder | Recall::Hidden => Ok(false),
        }
    }

    // Something at a path in the directory that is being filled.
    fn make_inside(&mut self, names: &[Name]) -> Result<bool, MemoryFault>
        ensures ok { IfOk result (λ can.
            Becomes (made_inside (view self.old) names.now) can (view self.old) (view self.new)) }
        ensures err { OnErr result (view self.new ≡ view self.old) }
    {
        if !is_inside(&self.filling, names) {
            return Ok(false);
        }
        self.meet(names)?;
        Ok(true)
    }

    // A directory at a path, of this text, of which nothing is remembered.
    fn make_known(&mut self, path: &NamePath, text: &[u8]) -> Result<bool, MemoryFault>
        requires text { text.now ≡ joined path.now }
        requires named { AreNames path.now }
        ensures ok { IfOk result (λ can.
            Becomes (made_known (view self.old) path.now) can (view self.old) (view self.new)) }
        ensures err { OnErr result (view self.new ≡ view self.old) }
    {
        match path.names() {
            [] => Ok(false),
            [name] => {
                if self.filling.is_some() {
                    return Ok(false);
                }
                self.filling = Some(Inner {
                    name: name.copy()?,
                    names: TextSet::new(self.alloc),
                });
                Ok(true)
            }
            _ => {
                self.note(path, text)?;
                Ok(true)
            }
        }
    }

    // The directory that is being filled goes to a path, of this text, of which nothing is
    // remembered.
    fn move_known(&mut self, to: &NamePath, text: &[u8]) -> Result<bool, MemoryFault>
        requires text { text.now ≡ joined to.now }
        requires named { AreNames to.now }
        ensures ok { IfOk result (λ can.
            Becomes (moved_known (view self.old) to.now) can (view self.old) (view self.new)) }
        ensures err { OnErr result (view self.new ≡ view self.old) }
    {
        match to.names() {
            [] => Ok(false),
            [name] => {
                if self.filled.is_some() {
                    return Ok(false);
                }
                let name = name.copy()?;
                self.note(to, text)?;
                self.filled = rename_inner(self.filling.take(), name);
                Ok(true)
            }
            names => {
                self.note(to, text)?;
                self.filling = None;
                if names.len() < self.least {
                    self.least = names.len();
                }
                Ok(true)
            }
        }
    }

    // A directory stands at a path, of this text.
    fn note(&mut self, path: &NamePath, text: &[u8]) -> Result<(), MemoryFault>
        requires text { text.now ≡ joined path.now }
        requires named { AreNames path.now }
        ensures ok { OnOk result (view self.new ≡ with_folder path.now (view self.old)) }
        ensures err { OnErr result (view self.new ≡ view self.old) }
    {
        self.folders.put(text)
    }

    // Something stands at a path in the directory that is being filled.
    fn meet(&mut self, names: &[Name]) -> Result<(), MemoryFault>
        ensures ok { OnOk result (view self.new ≡ with_met names.now (view self.old)) }
        ensures err { OnErr result (view self.new ≡ view self.old) }
    {
        match &mut self.filling {
            Some(inner) => meet_in(inner, names),
            None => Ok(()),
        }
    }
}

// Notes the name that a path has in a directory, if it is the directory's own entry.
fn meet_in(inner: &mut Inner, names: &[Name]) -> Result<(), MemoryFault>
    ensures ok { OnOk result (inner_of inner.new ≡ met_in names.now (inner_of inner.old)) }
    ensures err { OnErr result (inner_of inner.new ≡ inner_of inner.old) }
{
    match names {
        [dir, name] if dir.bytes() == inner.name.bytes() => { inner.names.put(name.bytes()) }
        _ => Ok(()),
    }
}

// The directory under another name.
fn rename_inner(inner: Option<Inner>, name: Name) -> Option<Inner>
    ensures { option_map inner_of result ≡ renamed_to name (option_map inner_of inner) }
{
    let Inner { names, .. } = inner?;
    Some(Inner { name, names })
}

// Whether a path is the directory.
fn is_itself(inner: &Option<Inner>, names: &[Name]) -> bool
    ensures { result ≡ is_itself (option_map inner_of inner.now) names.now }
{
    match (inner, names) {
        (Some(inner), [name]) => name.bytes() == inner.name.bytes(),
        _ => false,
    }
}

// Whether a path is below the directory.
fn is_inside(inner: &Option<Inner>, names: &[Name]) -> bool
    ensures { result ≡ is_inside (option_map inner_of inner.now) names.now }
{
    match (inner, names) {
        (Some(inner), [name, _, ..]) => name.bytes() == inner.name.bytes(),
        _ => false,
    }
}

// Whether a path is at or below something that was made in the directory.
fn is_met(inner: &Option<Inner>, names: &[Name]) -> bool
    ensures { result ≡ is_met (option_map inner_of inner.now) names.now }
{
    match (inner, names) {
        (Some(inner), [name, below, ..]) => {
            name.bytes() == inner.name.bytes() && inner.names.contains(below.bytes())
        }
        _ => false,
    }
}
