//! The identifier of an object that stands, as its inventory says it.
ghost use Rattle.std.specs.Prelude.{◌≡◌, ◌<◌, ◌++◌, IfOk, IfSome, OnOk, Some, drop};
ghost use Rattle.std.specs.Prelude.{length};
ghost use Rattle.std.specs.Option.{ForSome, option_map, unwrap_or};
ghost use Rattle.std.specs.Str.{IsCharBoundary};
ghost use Rattle.std.specs.String.{string_bytes};
ghost use Rattle.pt_compare.specs.Bytes.{left_in};
ghost use Rattle.pt_compare.specs.Root.{Reads};
ghost use Rattle.pt_tree.specs.Source.{tree_in};
ghost use Rattle.pt_extra.specs.Inventories.{id_in, id_of as id_of_folder, text_in};
ghost use Rattle.pt_extra.specs.Inventories.{unless_empty, unless_long};
ghost use Rattle.pt_extra.specs.Tokens.{text_of};
ghost use Rattle.serde_json.specs.Data.{null};
ghost use Rattle.serde_json.specs.Read.{read};
ghost use Rattle.pt_tree.specs.Failures.{IsCounted};
ghost use Rattle.pt_tree.specs.Forest.{listing_at};
ghost use Rattle.pt_walk.specs.Left.{inside_at};

use crate::inventory::find_id;
use crate::strings::unescape;
use pt_object::WellKnownName;
use pt_plan::kinds::{is_file, kind_in};
use pt_tree::{Block, KnownName, Listing, MemoryFault, Name, NamePath, Source, TreeFault};
use std::alloc::Global;

// How many bytes an inventory may have that is read.
const MOST: usize = 1 << 30;

// How many more bytes than it has the room for an inventory may have.
const MOST_SPARE: usize = 8 << 20;

/// The identifier that the inventory says in the folder of a root at a path, which lists these;
/// None where it has no file `inventory.json` of at most 1 GiB that is a JSON object with a text at
/// `id` that isn't empty.
///
/// `Device` where it can't be read, `Memory` where a growth was refused.
pub(crate) fn identifier_at<R: Source>(
    alloc: Global,
    root: &mut R,
    folder: &NamePath,
    listing: &Listing,
) -> Result<Option<String>, TreeFault>
    requires { ForSome (tree_in (R.told root.old))
        (λ tree. listing_at tree folder.now ≡ Some listing.now) }
    ensures id { IfOk result (λ id. ForSome (tree_in (R.told root.old))
        (λ tree. option_map string_bytes id ≡ id_of_folder (inside_at tree folder.now))) }
    ensures some { IfOk result (λ id. IfSome id (λ text. 0 < length (string_bytes text))) }
    ensures tree { tree_in (R.told root.new) ≡ tree_in (R.told root.old) }
    ensures failures { IsCounted (R.failed root.old) (R.failed root.new) result }
    ensures keeps { R.keeps root.old root.new }
{
    if !is_file(kind_in(listing, WellKnownName::Inventory.text().as_bytes())) {
        return Ok(None);
    }
    let name = Name::of_known(alloc, WellKnownName::Inventory)?;
    let path = folder.child(&name)?;
    root.open(&path)?;
    match read_whole(alloc, root)? {
        Some(bytes) => Ok(identifier_in(bytes)),
        None => Ok(None),
    }
}

// The bytes of the open file that are left; None where there are more than are read.
fn read_whole<R: Source>(alloc: Global, root: &mut R) -> Result<Option<Vec<u8>>, TreeFault>
    requires { Reads (R.told root.old) }
    ensures bytes { IfOk result (λ bytes. ForSome (left_in (R.told root.old))
        (λ left. option_map (λ b. b.items) bytes ≡ unless_long left)) }
    ensures tree { tree_in (R.told root.new) ≡ tree_in (R.told root.old) }
    ensures failures { IsCounted (R.failed root.old) (R.failed root.new) result }
    ensures keeps { R.keeps root.old root.new }
{
    let mut block = Block::new();
    let mut bytes = Vec::new(alloc);
    while bytes.len() <= MOST {
        root.next(&mut block)?;
        if block.is_empty() {
            return Ok(Some(bytes));
        }
        append(&mut bytes, block.as_slice())?;
    }
    Ok(None)
}

// Puts bytes behind others. Where these have no room, they get room for as many again, but for
// no more than are spared.
fn append(bytes: &mut Vec<u8>, more: &[u8]) -> Result<(), MemoryFault>
    ensures items { OnOk result (bytes.new.items ≡ bytes.old.items ++ more.now) }
{
    if bytes.capacity() < bytes.len() + more.len() {
        bytes.reserve_exact(more.len() + bytes.len().min(MOST_SPARE))?;
    }
    bytes.extend_from_slice(more)?;
    Ok(())
}

// The identifier in an inventory of these bytes, which are held once: it is made where they stand.
fn identifier_in(bytes: Vec<u8>) -> Option<String>
    ensures id { option_map string_bytes result ≡ id_in bytes.items }
    ensures some { IfSome result (λ id. 0 < length (string_bytes id)) }
{
    let Ok(text) = String::from_utf8(bytes) else {
        return None;
    };
    match id_start(text.as_str()) {
        Some(start) => unescaped(text, start),
        None => None,
    }
}

// Where in the text of an inventory the one at `id` begins, behind its opening quote.
fn id_start(text: &str) -> Option<usize>
    ensures start { option_map (λ at. text_of (drop at text.now)) result
        ≡ text_in (unwrap_or (read text.now) null) }
    ensures boundary { IfSome result (IsCharBoundary text.now) }
{
    let id = find_id(text.as_bytes())?;
    Some(text.len() - id.len())
}

// What a string stands for whose opening quote stands before a place in a text; None where that is
// nothing.
fn unescaped(text: String, start: usize) -> Option<String>
    requires { IsCharBoundary (string_bytes text) start }
    ensures id { option_map string_bytes result
        ≡ unless_empty (text_of (drop start (string_bytes text))) }
    ensures some { IfSome result (λ id. 0 < length (string_bytes id)) }
{
    let mut bytes = text.into_bytes();
    let Some(len) = unescape(bytes.as_mut_slice(), start) else {
        return None;
    };
    bytes.truncate(len);
    let Ok(id) = String::from_utf8(bytes) else {
        return None;
    };
    if id.is_empty() { None } else { Some(id) }
}
