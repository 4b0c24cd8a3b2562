// The members of an inventory around its manifest and its state.
ghost use Rattle.std.specs.Prelude.{◌≡◌, ◌∷◌, [], ◌++◌, OnOk};
ghost use Rattle.pt_object.specs.InPieces.{back, head, middle};
ghost use Rattle.pt_object.specs.Inventory.{user_tree};
ghost use Rattle.pt_object.specs.Tokens.{tokens_of};

use crate::inventories::output::Output;
use crate::{Algorithm, Meta};
use pt_tree::MemoryFault;
use std::alloc::AllocError;

// The members before the manifest, and its key.
pub(crate) fn put_head(out: &mut Output, id: &str, algorithm: Algorithm) -> Result<(), MemoryFault>
    ensures { OnOk result (out.new ≡ out.old ++ head id.now algorithm) }
{
    out.begin_object()?;
    out.member("digestAlgorithm", algorithm.word())?;
    out.member("head", "v1")?;
    out.member("id", id)?;
    Ok(out.key("manifest")?)
}

// What stands between the manifest and the state: the manifest's end, and of the version when and
// why it was made.
pub(crate) fn put_middle(out: &mut Output, meta: &Meta) -> Result<(), MemoryFault>
    ensures { OnOk result (out.new ≡ out.old ++ middle meta.now) }
{
    out.end_object()?;
    out.member("type", "https://ocfl.io/1.1/spec/#inventory")?;
    out.key("versions")?;
    out.begin_object()?;
    out.key("v1")?;
    out.begin_object()?;
    out.member("created", meta.created())?;
    out.member("message", meta.message())?;
    out.key("state")?;
    Ok(out.begin_object()?)
}

// What stands behind the state: its end, and who made the version.
pub(crate) fn put_back(out: &mut Output, meta: &Meta) -> Result<(), MemoryFault>
    ensures { OnOk result (out.new ≡ out.old ++ back meta.now) }
{
    out.end_object()?;
    out.key("user")?;
    put_user(out, meta)?;
    out.end_object()?;
    out.end_object()?;
    Ok(out.end_object()?)
}

// Who made the version.
fn put_user(out: &mut Output, meta: &Meta) -> Result<(), AllocError>
    ensures { OnOk result (out.new ≡
        out.old ++ tokens_of (user_tree meta.now.address meta.now.name)) }
{
    out.begin_object()?;
    if let Some(address) = meta.address() {
        out.member("address", address)?;
    }
    out.member("name", meta.name())?;
    out.end_object()
}
