ghost use Rattle.std.specs.Prelude.{◌≡◌, ◌==◌, ◌++◌, ◌≤◌, [], ◌∷◌, IfErr, IfOk, IsTrue, is_some};
ghost use Rattle.std.specs.Prelude.{OnOk, OnErr, length, map, slice_get, take};
ghost use Rattle.std.specs.Str.{is_utf8};
ghost use Rattle.std.specs.Cmp.{partial_equiv_from_equiv};
ghost use Rattle.std.specs.Cmp.Lexicographic.{nat_list_eq_equiv, lists_equiv};
ghost use Rattle.std.specs.Option.{option_copied};
ghost use Rattle.std.specs.Option.{option_map};
ghost use Rattle.pt_tree.specs.Name.{AreNames, is_name};
ghost use Rattle.pt_tree.specs.NameList.{held_names};
ghost use Rattle.pt_tree.specs.Pieces.{IsRefusal, names_in};
ghost use Rattle.pt_tree.specs.Path.{joined, rest_below, same_path, split_path, split_lent};

use crate::name_list::NameList;
use crate::pieces::add_pieces;
use crate::short::{ROOM, add_zeros};
use crate::{KnownName, MemoryFault, Name, NameFault};
use std::alloc::Global;
use std::fmt;
use std::marker::Model;

/// The names from the top to an entry, seen as their list. The empty path is the top.
///
/// The copies of a path that `of_names` gives share its names.
#[derive(Drop)]
pub struct NamePath {
    names: NameList,
}

// However the names are held, their list is shown.
impl fmt::Debug for NamePath {
    fn fmt<W: fmt::Write>(&self, f: &mut fmt::Formatter<W>) -> fmt::Result {
        f.debug_struct("NamePath")
            .field("names", &self.names())
            .finish()
    }
}

impl Model for NamePath {
    ghost use Rattle.pt_tree.specs.NameList.{held_names};
    ghost use Rattle.pt_tree.specs.Path.{Path};

    ghost Value = { Path };

    ghost view = { λ p. held_names p.names };
}

impl NamePath {
    /// The empty path.
    pub fn new(alloc: Global) -> NamePath
        ensures { result ≡ [] }
    {
        NamePath {
            names: NameList::Own(Vec::new(alloc)),
        }
    }

    /// The empty path, with room for so many names. `Memory` where that was refused.
    pub fn with_room(alloc: Global, room: usize) -> Result<NamePath, MemoryFault>
        ensures { IfOk result (λ path. path ≡ []) }
    {
        Ok(NamePath {
            names: NameList::Own(Vec::with_capacity(alloc, room)?),
        })
    }

    /// The path of these names, for keeping: of one name, and of more than eight, a copy takes no
    /// memory. `Memory` where a growth was refused.
    pub fn of_names(alloc: Global, names: &[Name]) -> Result<NamePath, MemoryFault>
        ensures { IfOk result (λ path. path ≡ names.now) }
    {
        Ok(NamePath {
            names: NameList::of_names(alloc, names)?,
        })
    }

    /// The path of these names. `Memory` where a growth was refused.
    pub fn of_known<K: KnownName>(alloc: Global, names: &[K]) -> Result<NamePath, MemoryFault>
        ensures { IfOk result (λ path. path ≡ map K.known_text names.now) }
    {
        NamePath::of_known_with_room(alloc, names, 0)
    }

    /// The path of these names, with room for so many more. `Memory` where a growth was refused.
    pub fn of_known_with_room<K: KnownName>(
        alloc: Global,
        names: &[K],
        room: usize,
    ) -> Result<NamePath, MemoryFault>
        ensures { IfOk result (λ path. path ≡ map K.known_text names.now) }
    {
        let mut list = Vec::with_capacity(alloc, names.len().saturating_add(room))?;
        for name in names {
            list.push(Name::of_known(alloc, *name)?)?;
        }
        Ok(NamePath {
            names: NameList::Own(list),
        })
    }

    /// The path whose names stand in a text with `/` between, as `join` writes it; the empty text
    /// is the top.
    ///
    /// A piece that is no name is refused as by `Name::of`, the first of them; `Memory` where a
    /// growth was refused.
    pub fn of_text(alloc: Global, text: &[u8]) -> Result<NamePath, NameFault>
        ensures path { IfOk result (λ path. path ≡ names_in text.now) }
        ensures refused { IfErr result (λ fault. IsRefusal (names_in text.now) fault) }
    {
        let mut path = NamePath::new(alloc);
        if !text.is_empty() {
            add_pieces(alloc, &mut path, text)?;
        }
        Ok(path)
    }

    /// The path with these names behind it. `Memory` where a growth was refused.
    pub fn with_names(self, names: &[Name]) -> Result<NamePath, MemoryFault>
        ensures { IfOk result (λ longer. longer ≡ self ++ names.now) }
    {
        let mut list = match self.names {
            NameList::Own(list) => list,
            held => held.to_list(names.len())?,
        };
        list.extend_from_slice(names)?;
        Ok(NamePath {
            names: NameList::Own(list),
        })
    }

    /// A path of its own with these names behind this one's, as `with_names` of a copy. `Memory`
    /// where a growth was refused.
    pub fn concat(&self, names: &[Name]) -> Result<NamePath, MemoryFault>
        ensures { IfOk result (λ longer. longer ≡ self.now ++ names.now) }
    {
        let mut list: Vec<Name> = self.names.to_list(names.len())?;
        list.extend_from_slice(names)?;
        Ok(NamePath {
            names: NameList::Own(list),
        })
    }

    /// The path of the entry of this name in the directory at this one. `Memory` where a growth was
    /// refused.
    pub fn child(&self, name: &Name) -> Result<NamePath, MemoryFault>
        ensures { IfOk result (λ longer. longer ≡ self.now ++ name.now ∷ []) }
    {
        let mut list = self.names.to_list(1)?;
        list.push(name.copy()?)?;
        Ok(NamePath {
            names: NameList::Own(list),
        })
    }

    /// Adds a name at the end. After `Memory` the path is as before.
    // A path is made by a push for each name, mostly of a list of its own.
    #[inline(always)]
    pub fn push(&mut self, name: Name) -> Result<(), MemoryFault>
        ensures ok { OnOk result (self.new ≡ self.old ++ name ∷ []) }
        ensures err { OnErr result (self.new ≡ self.old) }
    {
        if let NameList::Own(list) = &mut self.names {
            return Ok(list.push(name)?);
        }
        self.push_to_copy(name)
    }

    // The same, where the list isn't this path's own: it takes one of its own first.
    #[inline(never)]
    fn push_to_copy(&mut self, name: Name) -> Result<(), MemoryFault>
        ensures ok { OnOk result (self.new ≡ self.old ++ name ∷ []) }
        ensures err { OnErr result (self.new ≡ self.old) }
    {
        let mut list = self.names.to_list(1)?;
        list.push(name)?;
        self.names = NameList::Own(list);
        Ok(())
    }

    /// What it asks for memory.
    pub fn allocator(&self) -> Global {
        self.names.allocator()
    }

    /// Adds a name at the front. After `Memory` the path is as before.
    #[inline(always)]
    pub fn push_front(&mut self, name: Name) -> Result<(), MemoryFault>
        ensures ok { OnOk result (self.new ≡ name ∷ self.old) }
        ensures err { OnErr result (self.new ≡ self.old) }
    {
        if let NameList::Own(list) = &mut self.names {
            return Ok(list.insert(0, name)?);
        }
        self.push_in_front_of_copy(name)
    }

    // The same, where the list isn't this path's own.
    #[inline(never)]
    fn push_in_front_of_copy(&mut self, name: Name) -> Result<(), MemoryFault>
        ensures ok { OnOk result (self.new ≡ name ∷ self.old) }
        ensures err { OnErr result (self.new ≡ self.old) }
    {
        let mut list = self.names.to_list(1)?;
        list.insert(0, name)?;
        self.names = NameList::Own(list);
        Ok(())
    }

    /// Makes room for so many more names; `Memory` where it was refused.
    #[inline(always)]
    pub fn reserve(&mut self, names: usize) -> Result<(), MemoryFault>
        ensures { self.new ≡ self.old }
    {
        if let NameList::Own(list) = &mut self.names {
            return Ok(list.reserve(names)?);
        }
        self.take_own_list(names)
    }

    // A list of its own, with room for so many more names, in the place of one that it shares.
    #[inline(never)]
    fn take_own_list(&mut self, room: usize) -> Result<(), MemoryFault>
        ensures { self.new ≡ self.old }
    {
        self.names = NameList::Own(self.names.to_list(room)?);
        Ok(())
    }

    /// How many names it has.
    pub fn len(&self) -> usize
        ensures { result ≡ length self.now }
    {
        self.names().len()
    }

    /// Whether it is the top.
    pub fn is_empty(&self) -> bool
        ensures { result ≡ (length self.now == 0) }
    {
        self.names().is_empty()
    }

    /// The i-th name, from 0 on; None from the length on.
    pub fn get(&self, i: usize) -> Option<&Name>
        ensures { option_copied result ≡ slice_get self.now i }
    {
        self.names().get(i)
    }

    /// The names.
    pub fn names(&self) -> &[Name]
        ensures { result.now ≡ self.now }
    {
        self.names.as_slice()
    }

    /// The parent's names and the last name; None for the top.
    pub fn split(&self) -> Option<(&[Name], &Name)>
        ensures { option_map split_lent result ≡ split_path self.now }
    {
        let (last, dir) = self.names().split_last()?;
        Some((dir, last))
    }

    /// Whether it is at or below another path.
    pub fn is_within(&self, other: &NamePath) -> bool
        ensures { result ≡ is_some (rest_below other.now self.now) }
    {
        is_below(other.names(), self.names())
    }

    /// The names with `/` between, as a text in UTF-8. `Memory` where a growth was refused.
    pub fn join(&self) -> Result<Vec<u8>, MemoryFault>
        ensures names { IfOk result (λ text. text.items ≡ joined self.now) }
        ensures utf8 { IfOk result (λ text. IsTrue (is_utf8 text.items)) }
        ensures named { OnOk result (AreNames self.now) }
    {
        let mut text = Vec::with_capacity(self.names.allocator(), self.text_room())?;
        self.join_behind(&mut text)?;
        Ok(text)
    }

    /// Adds the names with `/` between to a text, of whatever bytes. After `Memory`, where a growth
    /// was refused, some of them may stand there.
    pub fn join_behind(&self, text: &mut Vec<u8>) -> Result<(), MemoryFault>
        ensures names { OnOk result (text.new.items ≡ text.old.items ++ joined self.now) }
        ensures utf8 { OnOk result (IsTrue (is_utf8 (joined self.now))) }
        ensures named { OnOk result (AreNames self.now) }
    {
        let [first, others @ ..] = self.names() else {
            return Ok(());
        };
        let mut end = put_first(first, others, text)?;
        for (i, name) in others.iter().enumerate() {
            end = put_next(name, others, others.len() - 1 - i, text, end)?;
        }
        text.truncate(end);
        Ok(())
    }

    // How many bytes of room `join_behind` needs at most, up to 2^64 - 1: those of the names with a
    // `/` behind each, and 22 more; none for the top.
    fn text_room(&self) -> usize {
        let mut room: usize = if self.is_empty() { 0 } else { ROOM };
        for name in self.names() {
            room = room.saturating_add(name.bytes().len()).saturating_add(1);
        }
        room
    }

    /// A second path of the same names; `Memory` where a growth was refused.
    pub fn copy(&self) -> Result<NamePath, MemoryFault>
        ensures { IfOk result (λ path. path ≡ self.now) }
    {
        Ok(NamePath {
            names: self.names.copy()?,
        })
    }
}

impl PartialEq for NamePath {
    ghost eq = { same_path };

    ghost laws = { partial_equiv_from_equiv (lists_equiv nat_list_eq_equiv) };

    fn eq(&self, other: &NamePath) -> bool {
        same_names(self.names(), other.names())
    }
}

impl Eq for NamePath {
    ghost laws = { lists_equiv nat_list_eq_equiv };
}

// Adds a name at the end of a text, and gives the new end. Behind it zeros are made for the others,
// if the next is short.
fn put_first(name: &Name, others: &[Name], text: &mut Vec<u8>) -> Result<usize, MemoryFault>
    ensures bytes { IfOk result (λ n. take n text.new.items ≡ text.old.items ++ name.now) }
    ensures within { IfOk result (λ n. n ≤ length text.new.items) }
    ensures name { IsTrue (is_name name.now) }
{
    name.add_to(text)?;
    let end = text.len();
    add_zeros_for(others, text);
    Ok(end)
}

// Makes zeros behind a text for names, as `add_zeros` does, if the first of them is short.
fn add_zeros_for(names: &[Name], text: &mut Vec<u8>)
    ensures { take (length text.old.items) text.new.items ≡ text.old.items }
{
    if let Some(next) = names.first()
        && next.short().is_some()
    {
        add_zeros(text, names.len());
    }
}

// Adds a slash and a name at the end of a text, and gives the new end. Zeros may stand behind it,
// before and afterwards, over which a short name is put. Where they are too few, they are cut off,
// and new ones are made for the last `left` of `others`, if the next is short too.
fn put_next(
    name: &Name,
    others: &[Name],
    left: usize,
    text: &mut Vec<u8>,
    end: usize,
) -> Result<usize, MemoryFault>
    requires { end ≤ length text.old.items }
    ensures bytes { IfOk result
        (λ n. take n text.new.items ≡ take end text.old.items ++ 47 ∷ name.now) }
    ensures within { IfOk result (λ n. n ≤ length text.new.items) }
    ensures name { IsTrue (is_name name.now) }
{
    let Some(short) = name.short() else {
        return put_bytes(name.bytes(), text, end);
    };
    if let Some(bytes) = short.put_behind_slash(&mut text[end..]) {
        return Ok(end + bytes);
    }
    text.truncate(end);
    short.add_behind_slash(text)?;
    let end = text.len();
    let next = others.len().saturating_sub(left);
    if let Some(next) = others.get(next)
        && next.short().is_some()
    {
        add_zeros(text, left);
    }
    Ok(end)
}

// The same of any bytes. Zeros are cut off first.
fn put_bytes(bytes: &[u8], text: &mut Vec<u8>, end: usize) -> Result<usize, MemoryFault>
    requires { end ≤ length text.old.items }
    ensures bytes { IfOk result
        (λ n. take n text.new.items ≡ take end text.old.items ++ 47 ∷ bytes.now) }
    ensures within { IfOk result (λ n. n ≤ length text.new.items) }
{
    text.truncate(end);
    text.push(b'/')?;
    text.extend_from_slice(bytes)?;
    Ok(text.len())
}

// The equality of two lists of names, as their `==`, but without a call for each two short ones.
fn same_names(names: &[Name], others: &[Name]) -> bool
    ensures { result ≡ same_path names.now others.now }
{
    if names.len() != others.len() {
        return false;
    }
    for (i, name) in names.iter().enumerate() {
        if !name.same(&others[i]) {
            return false;
        }
    }
    true
}

// Whether a path goes on from another.
fn is_below(above: &[Name], path: &[Name]) -> bool
    ensures { result ≡ is_some (rest_below above.now path.now) }
{
    let [first, above @ ..] = above else {
        return true;
    };
    match path {
        [name, path @ ..] => first == name && is_below(above, path),
        [] => false,
    }
}
