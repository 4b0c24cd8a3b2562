// The text of an inventory while it is made: compact JSON, a token behind another.
ghost use Rattle.std.specs.Prelude.{◌≡◌, [], ◌∷◌, ◌++◌, IfOk, OnOk};
ghost use Rattle.std.specs.Str.{IsUtf8};
ghost use Rattle.hex.specs.Hex.{encode_lower};
ghost use Rattle.json.specs.Print.{print};
ghost use Rattle.json.specs.Token.{begin_array, begin_object, end_array, end_object, key, string};
ghost use Rattle.pt_tree.specs.Path.{joined};
ghost use Rattle.pt_object.specs.InPieces.{bracket};
ghost use Rattle.pt_object.specs.Inventory.{content_path};

use crate::Digest;
use crate::digits::{MOST, write_hex};
use json::Writer;
use pt_tree::{MemoryFault, NamePath};
use std::alloc::{AllocError, Global};
use std::marker::Model;

// The room for a path to begin with.
const ROOM: usize = 128;

// A text of JSON, seen as its tokens.
#[derive(Drop)]
pub(crate) struct Output {
    writer: Writer,
    // Where each path is put together before it is written.
    path: Vec<u8>,
}

impl Model for Output {
    ghost use Rattle.std.specs.Prelude.{◌≡◌, List, []};
    ghost use Rattle.json.specs.Token.{Token, tokens_code};

    ghost Value = { List Token };

    ghost coded = { tokens_code };

    ghost view = { λ o. o.writer.tokens };

    ghost invariant = { λ o. o.writer.before ≡ [] };
}

impl Output {
    // No text yet but a bracket, in the place of what stands before it: behind a value one that
    // ends a value. The room is that of a text which has been cleared.
    pub(crate) fn begin(
        alloc: Global,
        room: Vec<u8>,
        is_behind_value: bool,
    ) -> Result<Output, AllocError>
        requires { room.items ≡ [] }
        ensures { IfOk result (λ out. out ≡ bracket is_behind_value ∷ []) }
    {
        let mut out = Output {
            writer: Writer::new(room),
            path: Vec::with_capacity(alloc, ROOM)?,
        };
        if is_behind_value {
            out.end_array()?;
        } else {
            out.begin_array()?;
        }
        Ok(out)
    }

    // The text of the tokens.
    pub(crate) fn into_text(self) -> Vec<u8>
        ensures text { result.items ≡ print self }
        ensures utf8 { IsUtf8 (print self) }
    {
        let Output { writer, .. } = self;
        writer.into_inner()
    }

    pub(crate) fn begin_object(&mut self) -> Result<(), AllocError>
        ensures { OnOk result (self.new ≡ self.old ++ begin_object ∷ []) }
    {
        self.writer.begin_object()
    }

    pub(crate) fn end_object(&mut self) -> Result<(), AllocError>
        ensures { OnOk result (self.new ≡ self.old ++ end_object ∷ []) }
    {
        self.writer.end_object()
    }

    pub(crate) fn begin_array(&mut self) -> Result<(), AllocError>
        ensures { OnOk result (self.new ≡ self.old ++ begin_array ∷ []) }
    {
        self.writer.begin_array()
    }

    pub(crate) fn end_array(&mut self) -> Result<(), AllocError>
        ensures { OnOk result (self.new ≡ self.old ++ end_array ∷ []) }
    {
        self.writer.end_array()
    }

    pub(crate) fn key(&mut self, text: &str) -> Result<(), AllocError>
        ensures { OnOk result (self.new ≡ self.old ++ key text.now ∷ []) }
    {
        self.writer.key(text)
    }

    // A key, which is a digest in hex.
    pub(crate) fn digest(&mut self, digest: &Digest) -> Result<(), MemoryFault>
        ensures { OnOk result (self.new ≡ self.old ++ key (encode_lower digest.now) ∷ []) }
    {
        let mut room = [0; MOST];
        let digits = write_hex(digest.bytes(), &mut room);
        // SAFETY: digits in hex are ASCII.
        let text = unsafe { str::from_utf8_unchecked(digits) };
        Ok(self.writer.key(text)?)
    }

    // A key with a text.
    pub(crate) fn member(&mut self, name: &str, text: &str) -> Result<(), AllocError>
        ensures { OnOk result (self.new ≡ self.old ++ key name.now ∷ string text.now ∷ []) }
    {
        self.writer.key(name)?;
        self.writer.string(text)
    }

    // Makes room for a path of so many bytes.
    pub(crate) fn make_room(&mut self, bytes: usize) -> Result<(), AllocError>
        ensures { OnOk result (self.new ≡ self.old) }
    {
        self.path.clear();
        self.path.reserve(bytes)
    }

    // A text: the names of the path with `/` between.
    pub(crate) fn path(&mut self, path: &NamePath) -> Result<(), MemoryFault>
        ensures { OnOk result (self.new ≡ self.old ++ string (joined path.now) ∷ []) }
    {
        self.path.clear();
        path.join_behind(&mut self.path)?;
        // SAFETY: names are UTF-8 (`is_name`), also with `/` between them.
        let text = unsafe { str::from_utf8_unchecked(self.path.as_slice()) };
        Ok(self.writer.string(text)?)
    }

    // A text: where the content of the file with this logical path is stored.
    pub(crate) fn content_path(&mut self, path: &NamePath) -> Result<(), MemoryFault>
        ensures { OnOk result (self.new ≡ self.old ++ string (content_path path.now) ∷ []) }
    {
        self.path.clear();
        self.path.extend_from_slice(b"v1/content/")?;
        path.join_behind(&mut self.path)?;
        // SAFETY: names are UTF-8 (`is_name`), also with `/` between them.
        let text = unsafe { str::from_utf8_unchecked(self.path.as_slice()) };
        Ok(self.writer.string(text)?)
    }
}
