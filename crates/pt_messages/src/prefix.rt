//! A prefix that reads otherwise than it looks.
use crate::reads::{Reads, read_small};
use crate::shown::escape;
use pt_name::{is_doubtful, read_prefix};
use std::alloc::{AllocError, AllocGlobal, Global};

const NAME: &str = "/pairtree_prefix";

/// Tells standard error of a store whose prefix holds a control character, a blank at an end, or a
/// byte order mark.
pub fn tell<R: Reads + Eprint + AllocGlobal>(rt: &R, store: &str) {
    let Ok(path) = path_in(rt.alloc(), store) else {
        return;
    };
    if has_doubtful(rt, path.as_str())
        && let Ok(path) = escape(rt.alloc(), path.as_str())
    {
        let _ = eprintln!(rt;
            "pairtree2ocfl: {path}: the prefix holds a control character, a blank at an end, or a byte order mark"
        );
    }
}

// The path of the prefix in a store.
fn path_in(alloc: Global, store: &str) -> Result<String, AllocError> {
    let mut path = String::from_str(alloc, store)?;
    path.push_str(NAME)?;
    Ok(path)
}

// Whether a file holds such a prefix. What can't be read, or isn't a prefix, is the run's own to
// tell.
fn has_doubtful<R: Reads + AllocGlobal>(rt: &R, path: &str) -> bool {
    match read_small(rt, path) {
        Ok(Some(bytes)) => match read_prefix(rt.alloc(), bytes.as_slice()) {
            Ok(prefix) => is_doubtful(prefix.as_str()),
            Err(_) => false,
        },
        _ => false,
    }
}
