//! What of a store is told by a check of a share, and what that walks: what a run of the share
//! would, at each site.
//!
//! The object of a site is the share's own where a run of the share carries it, by its identifier
//! or its folders, and where it is chosen; with it all that lies in it. What a run passes over
//! before an identifier is known goes by the way (`tells_at` of pt_name), and so do the shorties
//! themselves, the top of the store, and what lies in a folder that is no site and no object. Where
//! a store is divided by its folders only the share's own are walked from that depth on, and
//! nowhere is another share's object.
ghost use Rattle.std.specs.Prelude.{◌≡◌, drop, IfOk, OnOk};
ghost use Rattle.pt_check.specs.Shares.{is_all as is_all_of, is_own_by as is_own_by_answer};
ghost use Rattle.pt_check.specs.Shares.{is_own_entry, is_own_object as is_own_object_at};
ghost use Rattle.pt_check.specs.Shares.{is_own_way as is_own_way_at, is_walked as is_walked_at};
ghost use Rattle.pt_check.specs.Shares.{unmet_at};
ghost use Rattle.pt_check.specs.Within.{holder};
ghost use Rattle.pt_name.specs.Share.{tells_at, walks};

use crate::judging::names_below;
use crate::{FoundFolder, Part, Within};
use pt_name::{Division, Identification, Layout, Share, UnmetIdentifiers, identify};
use pt_tree::{Kind, MemoryFault, Name, NamePath};
use pt_walk::is_shorty;

/// Whether there is no other share, and nothing is chosen of it.
pub(crate) fn is_all(share: &Share) -> bool
    ensures { result ≡ is_all_of share.now }
{
    share.count() == 1 && share.texts().is_empty() && share.list().is_none()
}

/// Whether what is told at a path before an identifier is known is a share's own. `Memory` where a
/// growth was refused.
pub(crate) fn is_own_way(share: &Share, path: &NamePath) -> Result<bool, MemoryFault>
    ensures { IfOk result (λ own. own ≡ is_own_way_at share.now path.now) }
{
    if is_all(share) {
        return Ok(true);
    }
    tells_below(share, path)
}

/// Whether a folder at a path, which is this part of a store, is walked: a site, where the share
/// walks that; what isn't one, where it is the share's own. `Memory` where a growth was refused.
pub(crate) fn is_walked(share: &Share, path: &NamePath, part: Part) -> Result<bool, MemoryFault>
    ensures { IfOk result (λ walked. walked
        ≡ is_walked_at share.now path.now part.within part.own) }
{
    match part.within {
        Within::Site(_) if !is_all(share) => walks_below(share, path),
        _ => Ok(part.own),
    }
}

/// Whether the object of a site at a path, in a store of this prefix and with places of this
/// layout, is a share's own; the identifier that its names read is met then. `Memory` where a
/// growth was refused.
pub(crate) fn is_own_object(
    share: &Share,
    layout: Layout,
    prefix: &str,
    path: &NamePath,
    unmet: &mut UnmetIdentifiers,
) -> Result<bool, MemoryFault>
    ensures own { IfOk result (λ own. own
        ≡ is_own_object_at layout share.now prefix.now (drop 1 path.now)) }
    ensures met { OnOk result (unmet.new ≡ unmet_at prefix.now (drop 1 path.now) unmet.old) }
{
    let names = names_below(path);
    let below = NamePath::new(path.allocator()).with_names(names)?;
    if names.is_empty() {
        return Ok(share.tells_at(&below));
    }
    let said = identify(&below, prefix, layout, share, unmet)?;
    Ok(is_own_by(share, &below, said))
}

// Whether the object of a site, of which this is said, is a share's own.
fn is_own_by(share: &Share, site: &NamePath, said: Identification) -> bool
    ensures { result ≡ is_own_by_answer share.now site.now said }
{
    match said {
        Identification::Refused(_) => share.tells_at(site),
        Identification::OtherShare => false,
        Identification::Candidate(_) => true,
    }
}

impl FoundFolder {
    /// What holds an entry at a path in this folder: the folder, or the object that a site is; and
    /// whether the entry is a share's own. `Memory` where a growth was refused.
    pub(crate) fn entry(
        self,
        share: &Share,
        path: &NamePath,
        name: &Name,
        kind: Kind,
    ) -> Result<Part, MemoryFault>
        ensures { IfOk result (λ part. part ≡ record {
          within = holder self.part.within self.finding self.length;
          own = is_own_entry share.now path.now self.part.within (name.now, kind) self.part.own;
        }) }
    {
        let own = match self.part.within {
            Within::Site(_) if is_shorty(name, kind) && !is_all(share) => tells_below(share, path)?,
            _ => self.part.own,
        };
        Ok(Part {
            within: self.holder(),
            own,
        })
    }
}

// Whether a share tells what is passed over at a path from the store's folder on.
fn tells_below(share: &Share, path: &NamePath) -> Result<bool, MemoryFault>
    ensures { IfOk result (λ tells. tells ≡ tells_at share.now (drop 1 path.now)) }
{
    if let Division::Identifiers = share.division() {
        return Ok(share.is_first());
    }
    let below = NamePath::new(path.allocator()).with_names(names_below(path))?;
    Ok(share.tells_at(&below))
}

// Whether a share walks a site at a path from the store's folder on.
fn walks_below(share: &Share, path: &NamePath) -> Result<bool, MemoryFault>
    ensures { IfOk result (λ walked. walked ≡ walks share.now (drop 1 path.now)) }
{
    let names = names_below(path);
    if !share.divides_at(names.len()) {
        return Ok(true);
    }
    let below = NamePath::new(path.allocator()).with_names(names)?;
    Ok(share.walks(&below))
}
