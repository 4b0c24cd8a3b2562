//! What an audit finds at an object's place.
ghost use Rattle.std.specs.Prelude.{◌≡◌};
ghost use Rattle.pt_compare.specs.Difference.{is_same as is_same_finding, why_word};

use pt_tree::NamePath;

/// What is wrong at a path of an object that stands.
#[derive(Clone, Copy, Debug, PartialEq, Eq)]
pub enum Why {
    /// Nothing stands there.
    Missing,
    /// Something stands there that the object doesn't have.
    Extra,
    /// A file stands there for a folder, a folder for a file, or neither of them.
    Kind,
    /// Its file has other bytes.
    Bytes,
}

impl Why {
    /// Its word in the log.
    pub fn word(&self) -> &'static str
        ensures { result.now ≡ why_word self.now }
    {
        match self {
            Why::Missing => "missing",
            Why::Extra => "extra",
            Why::Kind => "kind",
            Why::Bytes => "bytes",
        }
    }
}

/// The first difference of an object that stands.
#[derive(Debug, Drop)]
pub struct Difference {
    /// Where it is, from the object's place on; the empty path is the place itself.
    pub path: NamePath,
    /// What is wrong there.
    pub why: Why,
}

/// What was found so far at the place of an object.
#[derive(Debug, Drop)]
pub enum Comparison {
    /// No difference.
    Same,
    /// Nothing stands at the place.
    Absent,
    /// It differs.
    Differs(Difference),
}

impl Comparison {
    /// Whether no difference was found.
    pub fn is_same(&self) -> bool
        ensures { result ≡ is_same_finding self.now }
    {
        match self {
            Comparison::Same => true,
            Comparison::Absent | Comparison::Differs(_) => false,
        }
    }
}
