//! When a memory device fails, and how often it did.
ghost use Rattle.std.specs.Prelude.{◌≡◌, None};
ghost use Rattle.pt_tree.specs.declared.faults.TreeFault.TheVariants.{Device};

use pt_tree::TreeFault;

/// A fuse of so many calls, if there is one, and the count of failures, which stays at its greatest
/// value.
#[derive(Clone, Copy, Debug)]
pub struct Fuse {
    pub left: Option<u64>,
    pub failures: u64,
}

impl Fuse {
    ghost use Rattle.pt_memory.specs.Fuse.{after_call, after_failure, fuse_answer};
    ghost use Rattle.pt_memory.specs.Fuse.{is_blown as is_blown_fuse};

    /// No fuse, and no failure yet.
    pub fn new() -> Fuse
        ensures left { result.left ≡ None }
        ensures failures { result.failures ≡ 0 }
    {
        Fuse {
            left: None,
            failures: 0,
        }
    }

    /// Whether the next call fails.
    pub fn is_blown(&self) -> bool
        ensures { result ≡ is_blown_fuse self.now }
    {
        self.left == Some(0)
    }

    /// Counts a call: it passes, or fails where the fuse is used up.
    pub fn pass(&mut self) -> Result<(), TreeFault>
        ensures state { self.new ≡ after_call self.old }
        ensures answer { result ≡ fuse_answer self.old }
    {
        match self.left {
            None => Ok(()),
            Some(0) => Err(self.fail()),
            Some(left) => {
                self.left = Some(left - 1);
                Ok(())
            }
        }
    }

    /// Counts a failure.
    pub fn fail(&mut self) -> TreeFault
        ensures state { self.new ≡ after_failure self.old }
        ensures answer { result ≡ Device }
    {
        self.failures = self.failures.saturating_add(1);
        TreeFault::Device
    }
}
