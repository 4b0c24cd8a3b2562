ghost use Rattle.std.specs.Prelude.{◌≡◌, IfOk};
ghost use Rattle.pt_tree.specs.Failures.{IsCounted, IsOneMoreCall};
ghost use Rattle.pt_tree.specs.Source.{CanList, IsListed};

use crate::{Listing, NamePath, Source, TreeFault};

/// A source that can list a directory past entries whose bytes are no name. `Ignoring` or `Watched`
/// over such a one is one too.
pub trait ListsNamed: Source {
    /// As `list`, but such entries are left out, and their bytes become `refused`, sorted. Each
    /// source says for itself what these are.
    ///
    /// Where the source tells, each entry has a name, so that all are listed.
    fn list_named(
        &mut self,
        path: &NamePath,
        refused: &mut Vec<Vec<u8>>,
    ) -> Result<Listing, TreeFault>
        requires { CanList (Self.told self.old) path.now }
        ensures listing { IfOk result (λ listing. IsListed (Self.told self.old) path.now listing) }
        ensures same { Self.told self.new ≡ Self.told self.old }
        ensures failures { IsCounted (Self.failed self.old) (Self.failed self.new) result }
        ensures calls { IsOneMoreCall (Self.called self.old) (Self.called self.new) }
        ensures keeps { Self.keeps self.old self.new };
}
