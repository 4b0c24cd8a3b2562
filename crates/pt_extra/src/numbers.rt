ghost use Rattle.std.specs.Prelude.{◌≡◌};
ghost use Rattle.pt_extra.specs.Counting.{no_numbers, one_more};

/// How many lines told of what a store lacks, each number up to 2^64 - 1.
#[derive(Clone, Copy, Debug, PartialEq, Eq)]
pub struct ExtraNumbers {
    /// The objects that the store doesn't have.
    pub extra: u64,
    /// What is no part of the root or of an object at its place.
    pub stray: u64,
}

impl ExtraNumbers {
    /// Of no line yet.
    pub fn none() -> ExtraNumbers
        ensures { result ≡ no_numbers }
    {
        ExtraNumbers { extra: 0, stray: 0 }
    }

    /// With an object more that the store doesn't have.
    pub fn with_extra(self) -> ExtraNumbers
        ensures { result ≡ record self { extra = one_more self.extra } }
    {
        ExtraNumbers {
            extra: self.extra.saturating_add(1),
            ..self
        }
    }

    /// With something more that is stray.
    pub fn with_stray(self) -> ExtraNumbers
        ensures { result ≡ record self { stray = one_more self.stray } }
    {
        ExtraNumbers {
            stray: self.stray.saturating_add(1),
            ..self
        }
    }
}
