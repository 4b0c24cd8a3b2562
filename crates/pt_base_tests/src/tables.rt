//! Tables of rows that hold, and what a call answered, held against what it should have: a row is
//! one `bool`, and the values that are dropped stay in here.
use pt_tree::NamePath;
use std::alloc::Global;
use std::process::Abort;

/// A row of a table.
pub(crate) trait Holds {
    /// Whether what it says is so.
    fn holds(&self, alloc: Global) -> bool;
}

/// What each row of this table says is so.
pub(crate) fn all_hold<R: Holds>(rt: &impl Abort, alloc: Global, what: &str, rows: &[R]) {
    for (i, row) in rows.iter().enumerate() {
        assert!(rt; row.holds(alloc), "{what}: row {i}");
    }
}

/// No row of this table goes otherwise than it says.
pub(crate) fn none_goes_wrong(rt: &impl Abort, what: &str, wrong: Option<usize>) {
    assert!(rt; wrong.is_none(), "{what}: row {wrong:?}");
}

/// It gave these bytes.
pub(crate) fn gives_bytes<E: Drop>(answer: Result<Vec<u8>, E>, want: &[u8]) -> bool {
    match answer {
        Ok(bytes) => bytes.as_slice() == want,
        Err(_) => false,
    }
}

/// It gave this text.
pub(crate) fn gives_text<E: Drop>(answer: Result<String, E>, want: &str) -> bool {
    match answer {
        Ok(text) => text.as_str() == want,
        Err(_) => false,
    }
}

/// It was refused with this fault.
pub(crate) fn refuses<T: Drop, E: PartialEq + Drop>(answer: Result<T, E>, fault: E) -> bool {
    match answer {
        Ok(_) => false,
        Err(found) => found == fault,
    }
}

/// The path's names, with a slash between each two, are this text.
pub(crate) fn is_path(path: &NamePath, want: &str) -> bool {
    gives_bytes(path.join(), want.as_bytes())
}
