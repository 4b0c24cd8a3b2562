ghost use Rattle.std.specs.Prelude.{◌≡◌, IfOk, map, slice_get};
ghost use Rattle.std.specs.String.{string_bytes};
ghost use Rattle.serde_json.specs.View.{view};
ghost use Rattle.pt_object.specs.RootFiles.{config_at, config_text, config_tree, declaration_at};
ghost use Rattle.pt_object.specs.RootFiles.{files_lent, layout_at, layout_text, root_files_of};

use crate::WellKnownName;
use crate::files::ROOT_DECLARATION;
use crate::members::put_text;
use pt_name::Layout;
use pt_tree::{KnownName, MemoryFault, NamePath};
use serde_json::{Map, Value, json};
use std::alloc::{AllocError, Global};
use std::marker::Model;

const DESCRIPTION: &str = "SHA-256 of the identifier in tuples, then the encoded identifier";

/// The three files of a storage root, seen as the list of their paths and bytes.
#[derive(Debug, Drop)]
pub struct RootFiles {
    files: Vec<(NamePath, String)>,
}

impl Model for RootFiles {
    ghost use Rattle.std.specs.Prelude.{List, ℕ, map};
    ghost use Rattle.std.specs.String.{string_bytes};
    ghost use Rattle.pt_tree.specs.Path.{Path};

    ghost Value = { List (Path × List ℕ) };

    ghost view = { λ r. map (λ f. (f.0, string_bytes f.1)) r.files.items };
}

impl RootFiles {
    /// The i-th file, from 0 on; None from 3 on.
    pub fn get(&self, i: usize) -> Option<(&NamePath, &[u8])>
        ensures { files_lent result ≡ slice_get self.now i }
    {
        let (path, text) = self.files.get(i)?;
        Some((path, text.as_bytes()))
    }
}

/// The files of a storage root of this layout (OCFL 1.1, "Root Structure"; extension 0003): the
/// declaration, the layout's description and the configuration. `Memory` where a growth was
/// refused.
pub fn root_files(alloc: Global, layout: Layout) -> Result<RootFiles, MemoryFault>
    ensures { IfOk result (λ files. files ≡ root_files_of layout) }
{
    let mut files = Vec::with_capacity(alloc, 3)?;
    let declaration = String::from_str(alloc, ROOT_DECLARATION)?;
    files.push((declaration_path(alloc)?, declaration))?;
    files.push((layout_path(alloc)?, layout_file(alloc)?))?;
    let config = config_file(alloc, layout.size(), layout.count())?;
    files.push((config_path(alloc)?, config))?;
    Ok(RootFiles { files })
}

fn declaration_path(alloc: Global) -> Result<NamePath, MemoryFault>
    ensures { IfOk result (λ path. path ≡ declaration_at) }
{
    NamePath::of_known(alloc, &[WellKnownName::RootDeclaration])
}

fn layout_path(alloc: Global) -> Result<NamePath, MemoryFault>
    ensures { IfOk result (λ path. path ≡ layout_at) }
{
    NamePath::of_known(alloc, &[WellKnownName::LayoutFile])
}

fn config_path(alloc: Global) -> Result<NamePath, MemoryFault>
    ensures { IfOk result (λ path. path ≡ config_at) }
{
    let names = [
        WellKnownName::Extensions,
        WellKnownName::Extension,
        WellKnownName::Configuration,
    ];
    NamePath::of_known(alloc, &names)
}

fn layout_file(alloc: Global) -> Result<String, MemoryFault>
    ensures { IfOk result (λ text. string_bytes text ≡ layout_text) }
{
    let extension = WellKnownName::Extension.text();
    let value = json!(in alloc; {"description": DESCRIPTION, "extension": extension})?;
    Ok(value.to_string(alloc)?)
}

fn config_file(alloc: Global, size: u32, count: u32) -> Result<String, MemoryFault>
    ensures { IfOk result (λ text. string_bytes text ≡
        config_text (record { size = size; count = count })) }
{
    let value = config(alloc, size, count)?;
    Ok(value.to_string(alloc)?)
}

fn config(alloc: Global, size: u32, count: u32) -> Result<Value, AllocError>
    ensures { IfOk result (λ value. view value ≡ config_tree size count) }
{
    let mut members = Map::new(alloc);
    put_text(&mut members, alloc, "digestAlgorithm", "sha256")?;
    put_text(
        &mut members,
        alloc,
        "extensionName",
        WellKnownName::Extension.text(),
    )?;
    serde_json::put(&mut members, alloc, "numberOfTuples", Value::from(count))?;
    serde_json::put(&mut members, alloc, "tupleSize", Value::from(size))?;
    Ok(Value::from(members))
}
