//! What of an object's files is compared.
ghost use Rattle.std.specs.Prelude.{◌≡◌};
ghost use Rattle.pt_audit.specs.CompareBy.{fitting_word};

/// What of the files of an object is held against what stands in the root.
#[derive(Clone, Copy, Debug, PartialEq, Eq)]
pub enum CompareBy {
    /// Every byte.
    Bytes,
    /// Their lengths alone.
    Lengths,
}

impl CompareBy {
    /// What lines say of an object that fits: `same`, or `alike` where its files weren't read.
    pub fn fitting_word(self) -> &'static str
        ensures { result.now ≡ fitting_word self }
    {
        match self {
            CompareBy::Bytes => "same",
            CompareBy::Lengths => "alike",
        }
    }
}
