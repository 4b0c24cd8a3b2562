//! Whether an object is a twin: its site isn't where its identifier belongs, and an object stands
//! there. One that differs is told as a twin exactly where its site isn't the pairpath of its
//! identifier without the prefix, and an object stands at that, as a run judges what is listed
//! there (`is_twin`).
#![tactic(auto, using(crate::proofs::Twins::twins))]

ghost use Rattle.std.specs.Prelude.{◌≡◌, IfOk, drop, length};
ghost use Rattle.std.specs.Option.{ForSome};
ghost use Rattle.pt_audit.specs.Twin.{has_object as has_object_finding};
ghost use Rattle.pt_audit.specs.Twin.{is_second as is_second_site};
ghost use Rattle.pt_audit.specs.Twin.{object_stands as object_stands_in};
ghost use Rattle.pt_audit.specs.Twin.{proper_site as proper_site_of};
ghost use Rattle.pt_compare.specs.Root.{Stands};
ghost use Rattle.pt_tree.specs.Forest.{kind_at as kind_there};
ghost use Rattle.pt_tree.specs.Source.{tree_in};
ghost use Rattle.pt_plan.specs.TurnStart.{is_dir_kind};
ghost use Rattle.pt_plan.specs.TurnWalk.{in_pairtree as in_pairtree_of};
ghost use Rattle.pt_state.specs.States.{job_of};
ghost use Rattle.pt_tree.specs.Failures.{IsCounted};
ghost use Rattle.pt_tree.specs.declared.kind.Kind.TheVariants as kind;
ghost use Rattle.pt_walk.specs.Sites.{at_of as at_of_path};

use pt_move::Job;
use pt_name::pairpath;
use pt_plan::kinds::is_dir;
use pt_plan::names::alike_names;
use pt_scan::judging::form_of;
use pt_state::paths::in_pairtree;
use pt_tree::{MemoryFault, NameFault, NamePath, Source, TreeFault};
use pt_walk::{At, Finding, judge};
use std::alloc::Global;

/// Whether a site isn't where an identifier belongs, which is given without the store's prefix, and
/// an object stands there, as a run judges a site. `Device` where a look fails or that site can't
/// be listed, `Memory` where a growth was refused.
pub(crate) fn is_second<S: Source>(
    source: &mut S,
    job: &Job,
    site: &NamePath,
    id: &[u8],
) -> Result<bool, TreeFault>
    requires { Stands (tree_in (S.told source.old)) (in_pairtree_of site.now, kind.Dir) }
    ensures second { IfOk result (λ second. ForSome (tree_in (S.told source.old))
        (λ s. second ≡ is_second_site (job_of job.now) s site.now id.now)) }
    ensures same { S.told source.new ≡ S.told source.old }
    ensures failures { IsCounted (S.failed source.old) (S.failed source.new) result }
    ensures keeps { S.keeps source.old source.new }
{
    let proper = proper_site(site.allocator(), id)?;
    if *site == proper {
        return Ok(false);
    }
    object_stands(source, job, site, proper)
}

/// Whether an object stands at a site, as a run judges a site. Both paths are from below
/// `pairtree_root` on; at the first a directory stands.
///
/// Of what leads there each name is looked at, one after another, behind those that lead to the
/// first path too, up to the first at which no folder stands; the site alone is listed. `Device`
/// where a look fails or the site can't be listed, `Memory` where a growth was refused.
pub fn object_stands<S: Source>(
    source: &mut S,
    job: &Job,
    standing: &NamePath,
    site: NamePath,
) -> Result<bool, TreeFault>
    requires { Stands (tree_in (S.told source.old)) (in_pairtree_of standing.now, kind.Dir) }
    ensures stands { IfOk result (λ stands. ForSome (tree_in (S.told source.old))
        (λ s. stands ≡ object_stands_in (job_of job.now) s site)) }
    ensures same { S.told source.new ≡ S.told source.old }
    ensures failures { IsCounted (S.failed source.old) (S.failed source.new) result }
    ensures keeps { S.keeps source.old source.new }
{
    if site.len() as u64 > job.limits.depth() {
        return Ok(false);
    }
    let stands = leads_to(source, standing, &site)?;
    if !stands {
        return Ok(false);
    }
    let at = at_of(&site);
    let path = in_pairtree(site)?;
    let listing = source.list(&path)?;
    Ok(has_object(judge(&listing, at, form_of(job.gather))))
}

/// The site where an identifier belongs, which is given without the store's prefix: its pairpath
/// (Pairtree 0.1), from below `pairtree_root` on. Takes any bytes. `Memory` where a growth was
/// refused.
pub fn proper_site(alloc: Global, id: &[u8]) -> Result<NamePath, MemoryFault>
    ensures { IfOk result (λ site. site ≡ proper_site_of id.now) }
{
    let text = pairpath(alloc, id)?;
    match NamePath::of_text(alloc, &text) {
        Ok(site) => Ok(site),
        Err(fault) => match fault {
            NameFault::Memory => Err(MemoryFault::Memory),
            _ => unreachable!(),
        },
    }
}

/// What is behind so many bytes as a prefix has.
pub fn skip_prefix<'a>(text: &'a [u8], prefix: &[u8]) -> &'a [u8]
    ensures { result.now ≡ drop (length prefix.now) text.now }
{
    let (_, rest) = text.split_at(prefix.len().min(text.len()));
    rest
}

// Whether a directory stands at a path of the pairtree. It is looked for from where a directory
// that stands has another name.
fn leads_to<S: Source>(
    source: &mut S,
    standing: &NamePath,
    path: &NamePath,
) -> Result<bool, TreeFault>
    requires { Stands (tree_in (S.told source.old)) (in_pairtree_of standing.now, kind.Dir) }
    ensures there { IfOk result (λ there. ForSome (tree_in (S.told source.old))
        (λ s. there ≡ is_dir_kind (kind_there s (in_pairtree_of path.now)))) }
    ensures same { S.told source.new ≡ S.told source.old }
    ensures failures { IsCounted (S.failed source.old) (S.failed source.new) result }
    ensures keeps { S.keeps source.old source.new }
{
    let names = path.names();
    let alike = alike_names(names, standing.names());
    let (first, rest) = names.split_at(alike);
    let front = NamePath::new(path.allocator()).with_names(first)?;
    let mut way = in_pairtree(front)?;
    for name in rest {
        way.push(name.copy()?)?;
        if !is_dir(source.kind(&way)?) {
            return Ok(false);
        }
    }
    Ok(true)
}

// Where a path stands as a site, by its last name.
fn at_of(path: &NamePath) -> At
    ensures { result ≡ at_of_path path.now }
{
    match path.split() {
        None => At::Root,
        Some((_, last)) => {
            if last.bytes().len() == 1 {
                At::Last
            } else {
                At::Pair
            }
        }
    }
}

// Whether a site that is found to be this has an object.
fn has_object(finding: Finding) -> bool
    ensures { result ≡ has_object_finding finding }
{
    matches!(finding, Finding::Candidate(_) | Finding::Gathered)
}
