use pt_messages::FaultReason;
use pt_move::Fault;

/// The two folders of a run or an audit, by their paths: the store, and the one in which the
/// storage root is.
#[derive(Clone, Copy)]
pub(crate) struct Folders<'a> {
    pub store: &'a str,
    pub folder: &'a str,
}

impl<'a> Folders<'a> {
    /// Whether a fault came of one of them itself, or of what lies right in it: a call on that
    /// failed, or the first is no store.
    pub(crate) fn have_at_top(self, fault: &Fault, why: &FaultReason) -> bool {
        match fault {
            Fault::Source | Fault::NotPairtree => why.is_right_in(self.store),
            Fault::Dest => why.is_right_in(self.folder),
            _ => false,
        }
    }
}
