ghost use Rattle.std.specs.Prelude.{◌≡◌, string_bytes};
ghost use Rattle.std.specs.List.{list_any};
ghost use Rattle.std.specs.Str.{chars};
ghost use Rattle.pt_tree.specs.Refusal.{Answers};
ghost use Rattle.pt_name.specs.Prefix.{ends_line, has_outer_blank as has_outer_blank_in};
ghost use Rattle.pt_name.specs.Prefix.{is_doubtful as is_doubtful_text};
ghost use Rattle.pt_name.specs.Prefix.{is_unseen, prefix_number, prefix_refusal, without_line_ends};

use std::alloc::Global;
use thiserror::Error;

// How many bytes the file of a prefix may have.
const LONGEST: usize = 1024;

/// Why a file's bytes are no prefix.
#[derive(Clone, Copy, Debug, PartialEq, Eq, Error)]
pub enum PrefixFault {
    /// The whole has more than 1,024 bytes.
    #[error("the prefix has more than 1024 bytes")]
    TooLong,
    /// What remains isn't UTF-8.
    #[error("the prefix is not UTF-8")]
    NotUtf8,
    /// A growth was refused.
    #[error("out of memory")]
    Memory,
}

impl PrefixFault {
    /// The fault's number: 1 `TooLong`, 2 `NotUtf8`, 3 `Memory`.
    pub fn number(&self) -> u8
        ensures { result ≡ prefix_number self.now }
    {
        match self {
            PrefixFault::TooLong => 1,
            PrefixFault::NotUtf8 => 2,
            PrefixFault::Memory => 3,
        }
    }
}

/// The prefix of a Pairtree 0.1 store, from the bytes of its file `pairtree_prefix`: all LF and CR
/// bytes at their end are taken off.
///
/// Refused, in this order, as `TooLong` (the whole has more than 1,024 bytes) and `NotUtf8` (what
/// remains isn't UTF-8); then as `Memory`, where a growth was refused.
pub fn read_prefix(alloc: Global, bytes: &[u8]) -> Result<String, PrefixFault>
    ensures { Answers (prefix_refusal bytes.now) PrefixFault.Memory result
        (λ prefix. string_bytes prefix ≡ without_line_ends bytes.now) }
{
    if bytes.len() > LONGEST {
        return Err(PrefixFault::TooLong);
    }
    match str::from_utf8(front_of(bytes)) {
        Ok(prefix) => match String::from_str(alloc, prefix) {
            Ok(prefix) => Ok(prefix),
            Err(_) => Err(PrefixFault::Memory),
        },
        Err(_) => Err(PrefixFault::NotUtf8),
    }
}

// The bytes before the LF and CR at their end.
fn front_of(bytes: &[u8]) -> &[u8]
    ensures { result.now ≡ without_line_ends bytes.now }
{
    let mut end = bytes.len();
    while end > 0 && is_line_end(bytes[end - 1]) {
        end -= 1;
    }
    &bytes[..end]
}

fn is_line_end(byte: u8) -> bool
    ensures { result ≡ ends_line byte }
{
    byte == b'\n' || byte == b'\r'
}

/// Whether a prefix reads otherwise than it looks: it has a control character, a byte order mark,
/// or a blank at an end.
pub fn is_doubtful(prefix: &str) -> bool
    ensures { result ≡ is_doubtful_text prefix.now }
{
    has_outer_blank(prefix.as_bytes()) || has_unseen(prefix)
}

// Whether a blank begins or ends a text.
fn has_outer_blank(text: &[u8]) -> bool
    ensures { result ≡ has_outer_blank_in text.now }
{
    text.starts_with(b" ") || text.ends_with(b" ")
}

// Whether a text has a character that isn't seen.
fn has_unseen(text: &str) -> bool
    ensures { result ≡ list_any is_unseen (chars text.now) }
{
    text.chars().any(|c| c.is_control() || c == '\u{feff}')
}
