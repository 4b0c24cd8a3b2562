// The manifest of an inventory: each content's digest with the path where it is stored.
ghost use Rattle.std.specs.Prelude.{◌≡◌, ◌+◌, ◌≤◌, ◌∷◌, [], ◌++◌, OnOk, drop, length, take};
ghost use Rattle.hex.specs.Hex.{encode_lower};
ghost use Rattle.json.specs.Token.{key};
ghost use Rattle.serde_json.specs.Data.{array};
ghost use Rattle.pt_object.specs.Entries.{entries, stored};
ghost use Rattle.pt_object.specs.Index.{IsIndex};
ghost use Rattle.pt_object.specs.Inventory.{content_path, texts};
ghost use Rattle.pt_object.specs.Tokens.{tokens_of};

use crate::Content;
use crate::inventories::output::Output;
use crate::inventories::parts::Parts;
use pt_tree::MemoryFault;

// Puts so many contents, from a place of the index on, in the order of their digests.
pub(crate) fn put_stored(
    out: &mut Output,
    parts: &Parts,
    from: usize,
    count: usize,
) -> Result<(), MemoryFault>
    requires ordered { IsIndex parts.now.items.now parts.now.index.now }
    requires within { count ≤ length (drop from parts.now.items.now) }
    ensures { OnOk result (out.new ≡ out.old
        ++ entries stored parts.now.items.now (take count (drop from parts.now.index.now))) }
{
    let items = parts.items;
    for i in 0..count {
        parts.read_ahead(out, from + i)?;
        let position = parts.index.get(from + i);
        put_content(out, &items[position])?;
    }
    Ok(())
}

// Puts one content.
fn put_content(out: &mut Output, content: &Content) -> Result<(), MemoryFault>
    ensures { OnOk result (out.new ≡ out.old ++ key (encode_lower content.now.digest)
        ∷ tokens_of (array (texts (content_path content.now.path ∷ [])))) }
{
    out.digest(&content.digest)?;
    out.begin_array()?;
    out.content_path(&content.path)?;
    Ok(out.end_array()?)
}
