// The state of an inventory: each content's digest with the logical paths of all its files.
ghost use Rattle.std.specs.Prelude.{◌≡◌, ◌≤◌, ◌∷◌, [], ◌++◌, IfOk, List, OnOk, drop, length, map};
ghost use Rattle.std.specs.Prelude.{take};
ghost use Rattle.hex.specs.Hex.{encode_lower};
ghost use Rattle.json.specs.Token.{key};
ghost use Rattle.pt_tree.specs.Path.{Path, joined};
ghost use Rattle.serde_json.specs.Data.{array};
ghost use Rattle.pt_object.specs.Entries.{entries, grouped as grouped_of};
ghost use Rattle.pt_object.specs.InPieces.{AreParts};
ghost use Rattle.pt_object.specs.Inventory.{paths_with, texts};
ghost use Rattle.pt_object.specs.Later.{group_lent, parted};
ghost use Rattle.pt_object.specs.Tokens.{tokens_of};

use crate::inventories::output::Output;
use crate::inventories::parts::Parts;
use crate::{Content, Contents, Row};
use pt_tree::{MemoryFault, NamePath};
use std::alloc::{AllocError, Global};

// What some rows have of a content: whether it has one of them, and the paths of those behind its
// first.
#[derive(Drop)]
pub(crate) struct Group<'a> {
    is_met: bool,
    pub(crate) later: Vec<&'a NamePath>,
}

impl<'a> Group<'a> {
    // Adds the path of one more row.
    fn add(&mut self, path: &'a NamePath) -> Result<(), AllocError>
        ensures { OnOk result ((paths : List Path) → group_lent self.old ≡ parted paths
            → group_lent self.new ≡ parted (paths ++ path.now ∷ [])) }
    {
        if self.is_met {
            self.later.push(path)?;
        }
        self.is_met = true;
        Ok(())
    }
}

// Puts so many contents, from a place of the index on, in the order of their digests.
pub(crate) fn put_grouped(
    out: &mut Output,
    parts: &Parts,
    from: usize,
    count: usize,
) -> Result<(), MemoryFault>
    requires parts { AreParts parts.now }
    requires within { count ≤ length (drop from parts.now.items.now) }
    ensures { OnOk result (out.new ≡ out.old ++ entries (grouped_of parts.now.rows.now)
        parts.now.items.now (take count (drop from parts.now.index.now))) }
{
    let items = parts.items;
    for i in 0..count {
        parts.read_ahead(out, from + i)?;
        parts.read_later_ahead(out, from + i)?;
        let position = parts.index.get(from + i);
        put_paths(out, &items[position], &parts.groups[position].later)?;
    }
    Ok(())
}

// Puts one content: the path of its first file and the later ones.
fn put_paths(out: &mut Output, content: &Content, later: &[&NamePath]) -> Result<(), MemoryFault>
    ensures { OnOk result (out.new ≡ out.old ++ key (encode_lower content.now.digest)
        ∷ tokens_of (array (texts (joined content.now.path
        ∷ map (λ path. joined path.now) later.now)))) }
{
    out.digest(&content.digest)?;
    out.begin_array()?;
    out.path(&content.path)?;
    for path in later {
        out.path(path)?;
    }
    Ok(out.end_array()?)
}

// For each content, what the rows have of it.
pub(crate) fn group_rows<'a>(
    alloc: Global,
    rows: &'a [Row],
    contents: &Contents,
) -> Result<Vec<Group<'a>>, MemoryFault>
    ensures { IfOk result (λ groups. map group_lent groups.items
        ≡ map (λ content. parted (paths_with rows.now content.digest)) contents.now) }
{
    let mut groups = Vec::with_capacity(alloc, contents.len())?;
    for _ in contents.as_slice() {
        groups.push(Group {
            is_met: false,
            later: Vec::new(alloc),
        })?;
    }
    // Where no digest comes twice, the rows have the contents one by one.
    let mut next = 0;
    for row in rows {
        if let Some(position) = contents.position_near(next, &row.digest) {
            groups[position].add(&row.path)?;
            next = next.max(position.saturating_add(1));
        }
    }
    Ok(groups)
}
