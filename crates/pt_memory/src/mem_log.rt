ghost use Rattle.std.specs.Prelude.{◌≡◌, Some, OnOk, OnErr, ⊤};
ghost use Rattle.std.specs.Io.KnownBytes.{Appends};
ghost use Rattle.pt_tree.specs.Failures.{IsCounted};
ghost use Rattle.pt_tree.specs.Log.{AppendsFront};

use pt_tree::{Log, TreeFault};
use std::alloc::Global;

/// A log in memory. It always tells.
#[derive(Debug, Drop)]
pub struct MemLog {
    bytes: Vec<u8>,
    left: Option<u64>,
    failures: u64,
}

impl MemLog {
    ghost use Rattle.std.specs.Prelude.{[], None};
    ghost use Rattle.pt_memory.specs.MemLog.{log_state};

    /// An empty log, without a fuse.
    pub fn new(alloc: Global) -> MemLog
        ensures bytes { (log_state result).bytes ≡ [] }
        ensures left { (log_state result).left ≡ None }
        ensures failures { (log_state result).failures ≡ 0 }
    {
        MemLog {
            bytes: Vec::new(alloc),
            left: None,
            failures: 0,
        }
    }

    /// The bytes put so far.
    pub fn bytes(&self) -> &[u8]
        ensures { result.now ≡ (log_state self.now).bytes }
    {
        &self.bytes
    }

    /// After `Some(k)` it takes k more bytes, over all later puts: a put that needs more leaves
    /// what fits and answers `Device`, and from then on only an empty put fits. `None` takes the
    /// fuse out.
    pub fn fuse(&mut self, bytes: Option<u64>)
        ensures { log_state self.new ≡ record (log_state self.old) { left = bytes } }
    {
        self.left = bytes;
    }
}

impl Log for MemLog {
    ghost use Rattle.pt_memory.specs.MemLog.{Puts, fits, log_state};
    ghost use Rattle.std.specs.Prelude.{length};

    ghost told = { λ l. Some l.bytes.items };

    ghost failed = { λ l. l.failures };

    ghost keeps = { λ _ _. ⊤ };

    ghost is_kept = { λ _. tt };

    ghost keeps_on = { λ _ _ _ _ _. tt };

    fn failures(&self) -> u64 {
        self.failures
    }

    fn put(&mut self, piece: &[u8]) -> Result<(), TreeFault>
        ensures puts { Puts (fits self.old.left (length piece.now)) (log_state self.old)
            (log_state self.new) result piece.now }
        ensures ok { OnOk result (Appends (Some self.old.bytes.items)
            (Some self.new.bytes.items) piece.now) }
        ensures part { OnErr result (AppendsFront (Some self.old.bytes.items)
            (Some self.new.bytes.items) piece.now) }
        ensures failures { IsCounted self.old.failures self.new.failures result }
    {
        let count = piece.len() as u64;
        match self.left {
            Some(left) if left < count => {
                if self
                    .bytes
                    .extend_from_slice(&piece[..left as usize])
                    .is_err()
                {
                    return Err(TreeFault::Memory);
                }
                self.left = Some(0);
                self.failures = self.failures.saturating_add(1);
                Err(TreeFault::Device)
            }
            left => {
                if self.bytes.extend_from_slice(piece).is_err() {
                    return Err(TreeFault::Memory);
                }
                self.left = left.map(|left| left - count);
                Ok(())
            }
        }
    }
}
