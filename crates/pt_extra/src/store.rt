//! Whether the store has an object where an identifier belongs.
ghost use Rattle.std.specs.Prelude.{◌≡◌, ◌/◌, IfOk, length, nat_lt};
ghost use Rattle.std.specs.Option.{ForSome};
ghost use Rattle.pt_tree.specs.Source.{tree_in};
ghost use Rattle.pt_extra.specs.Findings.{is_held};
ghost use Rattle.pt_object.specs.WellKnown.{known_text};
ghost use Rattle.pt_plan.specs.TurnStart.{is_dir_kind, kind_in as kind_listed};
ghost use Rattle.pt_state.specs.States.{job_of};
ghost use Rattle.pt_tree.specs.Failures.{IsCounted};
ghost use Rattle.pt_tree.specs.Forest.{listing_of};

use pt_audit::{object_stands, proper_site, skip_prefix};
use pt_move::Job;
use pt_object::WellKnownName;
use pt_plan::kinds::is_dir;
use pt_tree::{NamePath, Source, TreeFault};
use std::alloc::Global;

/// Whether an object stands in a store, each of whose identifiers begins with this prefix, where
/// this identifier belongs.
///
/// Each folder on the way is looked at, and its site alone is listed; none of a site that is too
/// deep to be listed. `Device` where one of these calls fails, `Memory` where a growth was refused.
pub(crate) fn has_object<S: Source>(
    alloc: Global,
    store: &mut S,
    job: &Job,
    prefix: &str,
    id: &str,
) -> Result<bool, TreeFault>
    ensures has { IfOk result (λ has. ForSome (tree_in (S.told store.old))
        (λ s. has ≡ is_held
        (record { job = job_of job.now; prefix = prefix.now; store = s }) id.now)) }
    ensures same { S.told store.new ≡ S.told store.old }
    ensures failures { IsCounted (S.failed store.old) (S.failed store.new) result }
    ensures keeps { S.keeps store.old store.new }
{
    if !id.as_bytes().starts_with(prefix.as_bytes()) {
        return Ok(false);
    }
    if !has_folder(alloc, store, WellKnownName::PairtreeRoot)? {
        return Ok(false);
    }
    let own = skip_prefix(id.as_bytes(), prefix.as_bytes());
    if is_too_long(own, job.limits.depth()) {
        return Ok(false);
    }
    let site = proper_site(alloc, own)?;
    object_stands(store, job, &NamePath::new(alloc), site)
}

// Whether an identifier is so long that its site is deeper than so many names: each of these has
// at most two of its bytes. So of one that is as long as an inventory no path is made.
fn is_too_long(id: &[u8], depth: u64) -> bool
    ensures { result ≡ nat_lt depth (length id.now / 2) }
{
    id.len() as u64 / 2 > depth
}

/// Whether the top of a tree has a folder of this name: one look, and nothing is listed.
///
/// `Device` where the look fails, `Memory` where a growth was refused.
pub(crate) fn has_folder<S: Source>(
    alloc: Global,
    source: &mut S,
    name: WellKnownName,
) -> Result<bool, TreeFault>
    ensures has { IfOk result (λ has. ForSome (tree_in (S.told source.old))
        (λ tree. has ≡ is_dir_kind (kind_listed (listing_of tree) (known_text name)))) }
    ensures same { S.told source.new ≡ S.told source.old }
    ensures failures { IsCounted (S.failed source.old) (S.failed source.new) result }
    ensures keeps { S.keeps source.old source.new }
{
    let path = NamePath::of_known(alloc, &[name])?;
    Ok(is_dir(source.kind(&path)?))
}
