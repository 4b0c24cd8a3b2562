//! Taking what a directory gives.
ghost use Rattle.std.specs.Prelude.{◌≡◌, ℕ, List, [], ◌==◌, position, IfErr, IfSome, OnOk, Err};
ghost use Rattle.std.specs.Prelude.{MatchResult};
ghost use Rattle.pt_folder.specs.Calls.{IsDueTo, fault_of as fault_for};
ghost use Rattle.pt_folder.specs.Failure.{IsOfNames, OnDevice};
ghost use Rattle.pt_folder.specs.Listing.{FailsToGet};
ghost use Rattle.pt_folder.specs.Names.{RefusesBytes};
ghost use Rattle.pt_folder.specs.Taking.{GetsAll, HasMore, HasOneMore};

use crate::bytes::ReadBuffer;
use crate::failure::{FailureReason, Last};
use crate::syscalls::Syscalls;
use crate::system::{Input, System};
use pt_tree::TreeFault;

/// What takes the bytes that a directory gives for its entries, one after another.
pub trait Takes {
    /// It was given these.
    ghost has: { Self → List (List ℕ) → Type 0 };

    /// Behind these it doesn't take such bytes.
    ghost refuses: { List (List ℕ) → List ℕ → Type 0 };

    /// Takes bytes that the directory at this path gives, unless they are `.` or `..`.
    fn take(&mut self, bytes: &[u8], text: &str, last: &mut Last) -> Result<(), TreeFault>
        ensures taken { OnOk result (HasOneMore has self.old self.new bytes.now) }
        ensures fault { IfErr result (λ fault. (all : List (List ℕ)) → has self.old all
            → IsDueTo fault (refuses all bytes.now)) }
        ensures kept { OnDevice result (IfSome last.new.failure (IsOfNames text.now)) };
}

/// Opens the directory at a path, and takes all that it gives, in its order, but for `.` and `..`,
/// read into `piece` one piece after another. What fails is kept at that path.
///
/// `Device` where opening or a read failed, bytes aren't taken or have no NUL behind them, or 2^64
/// - 1 reads found no end. `Memory` where a growth was refused.
pub fn take_dir<S: System, T: Takes>(
    syscalls: &mut Syscalls<S>,
    text: &str,
    piece: &mut ReadBuffer,
    taken: &mut T,
) -> Result<(), TreeFault>
    requires { T.has taken.old [] }
    ensures asked { (reply : _) × S.opens_dir syscalls.old.system text.now reply syscalls.new.system
        × MatchResult reply (λ dir. (after : _) × MatchResult result
        (λ done. GetsAll S.Dir.Input T.has dir taken.new after)
        (λ fault. IsDueTo fault (FailsToGet S.Dir.Input.reads T.refuses dir after)))
        (λ e. result ≡ Err (fault_for e)) }
    ensures kept { OnDevice result (IfSome syscalls.new.last.failure (IsOfNames text.now)) }
{
    match syscalls.system.read_dir(text) {
        Ok(mut dir) => take_all(&mut dir, piece, taken, text, &mut syscalls.last),
        Err(error) => Err(syscalls.last.record_error_at_copy(text, error)),
    }
}

fn take_all<D: Input, T: Takes>(
    dir: &mut D,
    piece: &mut ReadBuffer,
    taken: &mut T,
    text: &str,
    last: &mut Last,
) -> Result<(), TreeFault>
    requires { T.has taken.old [] }
    ensures read { OnOk result (GetsAll D.Input T.has dir.old taken.new dir.new) }
    ensures fault { IfErr result
        (λ fault. IsDueTo fault (FailsToGet D.reads T.refuses dir.old dir.new)) }
    ensures kept { OnDevice result (IfSome last.new.failure (IsOfNames text.now)) }
{
    // Each loop is proved to end, and no contract can say that what a system gives does: so the
    // reads are counted, up to a number that none comes to (at one a nanosecond in 584 years).
    for _ in 0..u64::MAX {
        match dir.read_piece(piece) {
            Ok(0) => return Ok(()),
            Ok(count) => take_piece(taken, &piece[..count], text, last)?,
            Err(error) => return Err(last.record_error_at_copy(text, error)),
        }
    }
    last.keep_copy(text, FailureReason::Endless);
    Err(TreeFault::Device)
}

// Takes what a piece of a directory gives, each ended by a NUL.
fn take_piece<T: Takes>(
    taken: &mut T,
    piece: &[u8],
    text: &str,
    last: &mut Last,
) -> Result<(), TreeFault>
    ensures taken { OnOk result (HasMore T.has taken.old taken.new piece.now) }
    ensures fault { IfErr result (λ fault. (all : List (List ℕ)) → T.has taken.old all
        → IsDueTo fault (RefusesBytes T.refuses all piece.now)) }
    ensures kept { OnDevice result (IfSome last.new.failure (IsOfNames text.now)) }
{
    let mut rest = piece;
    while let Some(end) = nul_at(rest) {
        taken.take(&rest[..end], text, last)?;
        rest = &rest[end + 1..];
    }
    if rest.is_empty() {
        Ok(())
    } else {
        last.keep_copy(text, FailureReason::Endless);
        Err(TreeFault::Device)
    }
}

// Where the first NUL stands.
fn nul_at(bytes: &[u8]) -> Option<usize>
    ensures { result ≡ position (λ byte. byte == 0) bytes.now }
{
    bytes.iter().position(|byte| *byte == 0)
}
