//! The inventory of an object of one version, as a whole and in pieces.
ghost use Rattle.std.specs.Prelude.{◌≡◌, ℕ, ◌<◌, IfOk, Some, get_or, length, map};
ghost use Rattle.std.specs.String.{string_bytes};
ghost use Rattle.hex.specs.Hex.{IsBytes};
ghost use Rattle.serde_json.specs.Read.{read};
ghost use Rattle.pt_object.specs.Distinct.{content_of_row, distinct};
ghost use Rattle.pt_object.specs.Entries.{no_content};
ghost use Rattle.pt_object.specs.InPieces.{TakesPiece};
ghost use Rattle.pt_object.specs.Inventory.{inventory_text, inventory_tree};

mod ahead;
mod document;
mod manifest;
mod output;
mod parts;
mod state;

use crate::table::tell_bytes;
use crate::{Algorithm, Content, Contents, Meta, Rows};
use output::Output;
use parts::{Parts, Step};
use pt_tree::MemoryFault;
use state::group_rows;
use std::alloc::Global;
use std::marker::Model;
use std::mem;

// The room for a piece to begin with, which is that of a small object's inventory.
const ROOM: usize = 1024;

/// The inventory of the object with this identifier and these files, as compact JSON with keys in
/// byte order and no LF at the end (OCFL 1.1, "Inventory"): the manifest has each distinct digest
/// with the stored path of its first file, the state each with the logical paths of all its files
/// in the order of the rows. The contents have to be those of the rows. `Memory` where a growth was
/// refused.
pub fn inventory(
    alloc: Global,
    id: &str,
    rows: &Rows,
    contents: &Contents,
    meta: &Meta,
    algorithm: Algorithm,
) -> Result<String, MemoryFault>
    requires { contents.now ≡ map content_of_row (distinct rows.now) }
    ensures text { IfOk result (λ text. string_bytes text
        ≡ inventory_text id.now rows.now meta.now algorithm) }
    ensures reads { IfOk result (λ text. read (string_bytes text)
        ≡ Some (inventory_tree id.now rows.now meta.now algorithm)) }
{
    let object = InventoryInput {
        id,
        rows,
        contents,
        meta,
        algorithm,
    };
    let mut pieces = InventoryPieces::of(alloc, object)?;
    let mut text = Vec::new(alloc);
    while pieces.next()? {
        text.extend_from_slice(pieces.piece())?;
    }
    // SAFETY: the pieces are what the writer of JSON wrote of texts, and that is UTF-8.
    Ok(unsafe { String::from_utf8_unchecked(text) })
}

/// What the inventory of an object is made of.
#[derive(Clone, Copy)]
pub struct InventoryInput<'a> {
    /// The object's identifier.
    pub id: &'a str,
    /// Its files.
    pub rows: &'a Rows,
    /// The contents of these rows.
    pub contents: &'a Contents,
    /// What is said of its version.
    pub meta: &'a Meta,
    /// The algorithm of its digests.
    pub algorithm: Algorithm,
}

/// The text that `inventory` gives, made piece by piece so that one of many pieces is nowhere as a
/// whole: seen as the piece that was made last, and as what is still to be made.
#[derive(Drop)]
pub struct InventoryPieces<'a> {
    alloc: Global,
    parts: Parts<'a>,
    next: Step,
    // The piece, behind a byte that belongs to none.
    text: Vec<u8>,
}

impl<'a> Model for InventoryPieces<'a> {
    ghost use Rattle.std.specs.Prelude.{drop};
    ghost use Rattle.pt_object.specs.InPieces.{AreParts, InPieces, text_left};

    ghost Value = { InPieces };

    ghost view = { λ p. record {
      piece = drop 1 p.text.items;
      rest = text_left p.parts p.next;
    } };

    ghost invariant = { λ p. AreParts p.parts };
}

impl<'a> InventoryPieces<'a> {
    /// The text of the inventory that `inventory` makes of the same, none of it made yet. `Memory`
    /// where a growth was refused.
    pub fn of(alloc: Global, object: InventoryInput<'a>) -> Result<InventoryPieces<'a>, MemoryFault>
        requires { object.contents.now ≡ map content_of_row (distinct object.rows.now) }
        ensures { IfOk result (λ pieces. pieces.rest ≡ inventory_text object.entry.id.now
            object.entry.rows.now object.entry.meta.now object.entry.algorithm) }
    {
        let items = object.contents.as_slice();
        tell_digests(items);
        Ok(InventoryPieces {
            alloc,
            parts: Parts {
                id: object.id,
                rows: object.rows,
                meta: object.meta,
                algorithm: object.algorithm,
                items,
                index: object.contents.index(),
                groups: group_rows(alloc, object.rows.as_slice(), object.contents)?,
            },
            next: Step::Head,
            text: Vec::with_capacity(alloc, ROOM)?,
        })
    }

    /// Makes the next piece, of one byte and more: the whole of a small object's text. False where
    /// all was made. After `Memory` there is nothing to go on with.
    pub fn next(&mut self) -> Result<bool, MemoryFault>
        ensures { IfOk result (λ is_made. TakesPiece is_made self.old self.new) }
    {
        let mut text = mem::replace(&mut self.text, Vec::new(self.alloc));
        if let Step::End = self.next {
            return Ok(false);
        }
        text.clear();
        let mut out = Output::begin(self.alloc, text, self.next.is_behind_value())?;
        self.next = self.parts.put_next(&mut out, self.next)?;
        self.text = out.into_text();
        Ok(true)
    }

    /// The piece that was made last; nothing before the first.
    pub fn piece(&self) -> &[u8]
        ensures { result.now ≡ self.now.piece }
    {
        self.text.get(1..).unwrap_or(&[])
    }
}

// Tells a proof that the digests of contents are bytes. It does nothing.
fn tell_digests(items: &[Content])
    ensures { (p : ℕ) → p < length items.now
        → IsBytes (get_or items.now p no_content).digest }
{
    for content in items {
        tell_bytes(content.digest.bytes());
    }
}
