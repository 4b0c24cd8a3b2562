use pt_name::Layout;
use pt_walk::Form;

/// What is asked of a check.
#[derive(Clone, Copy, Debug, PartialEq, Eq)]
pub struct Wants {
    /// Whether each file is read whole, and not only opened.
    pub reads: bool,
    /// Whether what lies directly in an identifier's folder makes an object, as in a run with
    /// `--gather`.
    pub form: Form,
    /// How many bytes the path of a file in its object may have in a destination; None where none
    /// is named.
    pub room: Option<u64>,
    /// How the places in a destination are cut.
    pub layout: Layout,
}
