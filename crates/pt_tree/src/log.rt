ghost use Rattle.std.specs.Prelude.{◌≡◌, ℕ, List, Option, OnOk, OnErr};
ghost use Rattle.pt_tree.specs.Failures.{IsCounted};
ghost use Rattle.pt_tree.specs.Log.{AppendsFront};
ghost use Rattle.std.specs.Io.KnownBytes.{Appends};

use crate::TreeFault;

/// What takes the lines of a run, one behind the other.
///
/// A log may tell its bytes, and goes on telling. `Device` is answered only where the count of
/// failures rose in the call, or stood at its greatest value, 2^64 - 1; and `Memory` where a growth
/// was refused.
pub trait Log {
    /// The bytes that it holds, if it tells them.
    ghost told: { Self → Option (List ℕ) };

    /// How often it failed, up to 2^64 - 1.
    ghost failed: { Self → ℕ };

    /// What no call changes beside: it is the first device still, as its calls left it.
    ghost keeps: { Self → Self → Type 0 };

    /// How often it failed.
    fn failures(&self) -> u64
        ensures { result ≡ failed self.now };

    /// Puts a piece at the end. A failed call leaves a part of the piece, from its start.
    fn put(&mut self, piece: &[u8]) -> Result<(), TreeFault>
        ensures ok { OnOk result (Appends (told self.old) (told self.new) piece.now) }
        ensures part { OnErr result (AppendsFront (told self.old) (told self.new) piece.now) }
        ensures failures { IsCounted (failed self.old) (failed self.new) result }
        ensures keeps { keeps self.old self.new };

    /// It is itself.
    ghost is_kept: { (a : Self) → keeps a a };

    /// And so it is after further calls.
    ghost keeps_on: { (a b c : Self) → keeps a b → keeps b c → keeps a c };
}
