//! The texts that the inventories give of their versions: a moment, a user and a message.
ghost use Rattle.std.specs.Prelude.{option_map};
ghost use Rattle.pt_cli.specs.Arguments.{ReadsAs};
ghost use Rattle.pt_cli.specs.Options.{described};

use crate::faults::Unread;
use pt_object::Meta;
use std::alloc::Global;

// The description of a version with these texts: refused as `Created`, and then as `EmptyName`.
pub(crate) fn meta_of(
    alloc: Global,
    created: &str,
    name: &str,
    address: Option<&str>,
    message: &str,
) -> Result<Meta, Unread>
    ensures { ReadsAs (described created.now name.now
        (option_map (λ a. a.now) address.entry) message.now) result }
{
    Ok(Meta::of(alloc, created, name, address, message)?)
}
