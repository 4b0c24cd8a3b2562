//! The open file of a memory tree: its entry has the place where it is read on.
ghost use Rattle.std.specs.Prelude.{◌≡◌, ◌+◌, take, length, is_some};
ghost use Rattle.std.specs.Option.{option_map};
ghost use Rattle.pt_memory.specs.Opening.{below as below_name, is_just as is_just_name, opened};
ghost use Rattle.pt_memory.specs.Opening.{block_after, moved_on};
ghost use Rattle.pt_memory.specs.Entries.{forest_of, open_of, marked_of, marked_file};

use crate::entries::{Entries, File};
use pt_tree::{BLOCK, Block, Name};

/// Makes the file at a path the open one, from its start, and no other.
pub fn open(entries: &mut Entries, path: &[Name])
    ensures forest { forest_of entries.new ≡ forest_of entries.old }
    ensures marked { open_of entries.new ≡ opened (forest_of entries.old) path.now }
{
    match entries {
        Entries::End => {}
        Entries::File(name, file, after) => {
            file.place = if is_just(path, name) { Some(0) } else { None };
            open(after, path);
        }
        Entries::Other(_, after) => open(after, path),
        Entries::Dir(name, inside, after) => {
            open(inside, below(path, name));
            open(after, path);
        }
    }
}

// Whether the path is this name alone.
fn is_just(path: &[Name], name: &Name) -> bool
    ensures { result ≡ is_just_name path.now name.now }
{
    match path {
        [only] => only == name,
        _ => false,
    }
}

// The path below a directory of this name; empty where it leads elsewhere.
fn below<'a>(path: &'a [Name], name: &Name) -> &'a [Name]
    ensures { result.now ≡ below_name path.now name.now }
{
    match path {
        [first, rest @ ..] if first == name => rest,
        _ => &path[..0],
    }
}

#[tactic(auto, using(crate::proofs::Blocks::moves))]
/// Reads the open file on: the block becomes its next bytes. Answers whether a file is open.
pub fn read_on(entries: &mut Entries, block: &mut Block) -> bool
    ensures forest { forest_of entries.new ≡ forest_of entries.old }
    ensures marked { result ≡ is_some (marked_of entries.old) }
    ensures opened { result ≡ is_some (open_of entries.old) }
    ensures block { block.new.items ≡ block_after (marked_of entries.old) block.old.items }
    ensures moved { open_of entries.new ≡ moved_on (open_of entries.old) (length block.new.items) }
{
    match entries {
        Entries::End => false,
        Entries::File(_, file, after) => {
            if read_file(file, block) {
                return true;
            }
            read_on(after, block)
        }
        Entries::Other(_, after) => read_on(after, block),
        Entries::Dir(_, inside, after) => {
            if read_on(inside, block) {
                return true;
            }
            read_on(after, block)
        }
    }
}

// Reads a file on, if it is the open one.
fn read_file(file: &mut File, block: &mut Block) -> bool
    ensures bytes { file.new.bytes.items ≡ file.old.bytes.items }
    ensures marked { result ≡ is_some file.old.place }
    ensures block { block.new.items ≡ block_after (marked_file file.old) block.old.items }
    ensures moved { file.new.place
        ≡ option_map (λ place. place + length block.new.items) file.old.place }
{
    let Some(place) = file.place else {
        return false;
    };
    if place < file.bytes.len() {
        fill(block, &file.bytes[place..]);
        file.place = Some(place + block.len());
    } else {
        block.clear();
    }
    true
}

/// Makes the block the first bytes of these, as many as it holds.
#[tactic(auto, using(crate::proofs::Blocks::take_min))]
pub fn fill(block: &mut Block, bytes: &[u8])
    ensures { block.new.items ≡ take 8192 bytes.now }
{
    block.clear();
    let count = bytes.len().min(BLOCK);
    block.try_extend_from_slice(&bytes[..count]).unwrap();
}
