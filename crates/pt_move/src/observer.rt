/// What is told after each turn of a run, or each step of an audit, how far that is. It gets a copy
/// of the numbers alone, and none of the devices: whatever it does with them, the run or audit goes
/// on as it would without it.
pub trait Observer<Numbers> {
    /// A turn or step has ended, and so much was done up to it.
    fn observe(&self, so_far: Numbers);
}

/// Nobody looks on.
#[derive(Clone, Copy, Debug, PartialEq, Eq)]
pub struct NoObserver;

impl<Numbers: Copy> Observer<Numbers> for NoObserver {
    fn observe(&self, _so_far: Numbers) {}
}
