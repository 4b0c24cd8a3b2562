ghost use Rattle.std.specs.Prelude.{◌≡◌, ◌++◌, IfOk, IfSome, IsTrue, OnOk, Some};
ghost use Rattle.std.specs.Str.{bytes_eq, is_utf8};
ghost use Rattle.std.specs.Cmp.{partial_equiv_from_equiv};
ghost use Rattle.std.specs.Cmp.Lexicographic.{slice_cmp, nat_list_eq_equiv, nat_list_cmp_total};
ghost use Rattle.std.specs.Cmp.Lexicographic.{texts_ties, texts_po};
ghost use Rattle.std.specs.Ordering.{nat_cmp};
ghost use Rattle.std.proofs.Common.{rules};
ghost use Rattle.pt_tree.specs.Name.{name_refusal, is_forbidden_name, is_name, name_number};
ghost use Rattle.pt_tree.specs.NameText.{text_bytes};
ghost use Rattle.pt_tree.specs.Short.{short_bytes};
ghost use Rattle.pt_tree.specs.Refusal.{Answers};

use crate::short::Short;
use crate::{KnownName, MemoryFault};
use std::alloc::{AllocError, Global};
use std::cmp::Ordering;
use std::fmt;
use std::marker::Model;
use std::rc::Rc;
use thiserror::Error;

const LONGEST: usize = 255;

/// Why bytes are no name.
#[derive(Clone, Copy, Debug, PartialEq, Eq, Error)]
pub enum NameFault {
    /// It has no byte.
    #[error("the name is empty")]
    Empty,
    /// It has more than 255 bytes.
    #[error("the name has more than 255 bytes")]
    TooLong,
    /// Its bytes aren't UTF-8.
    #[error("the name is not UTF-8")]
    NotUtf8,
    /// It holds `/` or NUL, or is `.` or `..`.
    #[error("the name holds a slash or a NUL, or is a dot or two")]
    Forbidden,
    /// A growth was refused.
    #[error("out of memory")]
    Memory,
}

impl NameFault {
    /// The fault's number: 1 `Empty`, 2 `TooLong`, 3 `NotUtf8`, 4 `Forbidden`, 5 `Memory`.
    pub fn number(&self) -> u8
        ensures { result ≡ name_number self.now }
    {
        match self {
            NameFault::Empty => 1,
            NameFault::TooLong => 2,
            NameFault::NotUtf8 => 3,
            NameFault::Forbidden => 4,
            NameFault::Memory => 5,
        }
    }
}

/// The name of an entry of a directory: 1 to 255 bytes of UTF-8 without `/` and NUL, neither `.`
/// nor `..`.
///
/// A copy shares its text, or has it too where it is short.
#[derive(Debug, Drop)]
pub struct Name {
    text: Text,
}

// The text of a name. Most names of a store are short, and take no memory of their own then.
#[derive(Drop)]
enum Text {
    Short(Short),
    Shared(Rc<Vec<u8>>),
}

// A short text is shown as a shared one.
impl fmt::Debug for Text {
    fn fmt<W: fmt::Write>(&self, f: &mut fmt::Formatter<W>) -> fmt::Result {
        match self {
            Text::Short(short) => f.debug_tuple("Shared").field(&short.bytes()).finish(),
            Text::Shared(bytes) => f.debug_tuple("Shared").field(bytes).finish(),
        }
    }
}

impl Model for Name {
    ghost use Rattle.std.specs.Prelude.{◌≡◌, List, ℕ, true};
    ghost use Rattle.pt_tree.specs.Name.{is_name};
    ghost use Rattle.pt_tree.specs.NameText.{text_bytes};

    ghost Value = { List ℕ };

    ghost view = { λ n. text_bytes n.text };

    ghost invariant = { λ n. is_name (text_bytes n.text) ≡ true };
}

impl Name {
    /// The name with these bytes.
    ///
    /// Refused, in this order, as `Empty`, `TooLong` (over 255 bytes), `NotUtf8` and `Forbidden`
    /// (it holds `/` or NUL, or is `.` or `..`); then as `Memory`, where the copy was refused.
    pub fn of(alloc: Global, bytes: &[u8]) -> Result<Name, NameFault>
        ensures { Answers (name_refusal bytes.now) NameFault.Memory result
            (λ name. name ≡ bytes.now) }
    {
        if let Some(refusal) = refusal(bytes) {
            return Err(refusal);
        }
        match text_of(alloc, bytes) {
            Ok(text) => Ok(Name { text }),
            Err(_) => Err(NameFault::Memory),
        }
    }

    /// A name that is known beforehand, whose bytes aren't looked at again. `Memory` where a growth
    /// was refused.
    pub fn of_known<K: KnownName>(alloc: Global, known: K) -> Result<Name, MemoryFault>
        ensures { IfOk result (λ name. name ≡ K.known_text known) }
    {
        let text = text_of(alloc, known.text().as_bytes())?;
        Ok(Name { text })
    }

    /// The bytes.
    pub fn bytes(&self) -> &[u8]
        ensures bytes { result.now ≡ self.now }
        ensures name { IsTrue (is_name self.now) }
    {
        match &self.text {
            Text::Short(short) => short.bytes(),
            Text::Shared(bytes) => bytes.as_slice(),
        }
    }

    // As `==`, for loops that compare the names of paths: two short names, as most in a store are,
    // are compared here, without a call, and `==` is called for others only.
    pub(crate) fn same(&self, other: &Name) -> bool
        ensures { result ≡ bytes_eq self.now other.now }
    {
        match (&self.text, &other.text) {
            (Text::Short(short), Text::Short(other)) => short.same(other),
            _ => self == other,
        }
    }

    // Adds the bytes to a text, which may ask for room for 21 bytes where there are fewer.
    pub(crate) fn add_to(&self, text: &mut Vec<u8>) -> Result<(), MemoryFault>
        ensures bytes { OnOk result (text.new.items ≡ text.old.items ++ self.now) }
        ensures name { IsTrue (is_name self.now) }
    {
        match &self.text {
            Text::Short(short) => short.add_to(text),
            Text::Shared(bytes) => Ok(text.extend_from_slice(bytes.as_slice())?),
        }
    }

    // The text, where it is short.
    pub(crate) fn short(&self) -> Option<&Short>
        ensures bytes { IfSome result (λ short. short_bytes short.now ≡ self.now) }
        ensures name { IsTrue (is_name self.now) }
    {
        match &self.text {
            Text::Short(short) => Some(short),
            Text::Shared(_) => None,
        }
    }

    /// A second name of the same bytes; `Memory` where a growth was refused.
    pub fn copy(&self) -> Result<Name, MemoryFault>
        ensures bytes { IfOk result (λ name. name ≡ self.now) }
        ensures name { IsTrue (is_name self.now) }
    {
        Ok(self.clone()?)
    }
}

/// As `copy`.
impl Clone for Name {
    ghost is_clone = { λ name second. second ≡ name };

    // A short name is answered by itself, so that it is copied in registers.
    fn clone(&self) -> Result<Name, AllocError>
        ensures bytes { IfOk result (λ second. second ≡ self.now) }
        ensures name { IsTrue (is_name self.now) }
    {
        let text = match &self.text {
            Text::Short(short) => {
                return Ok(Name {
                    text: Text::Short(short.copy()),
                });
            }
            Text::Shared(bytes) => Text::Shared(bytes.clone()?),
        };
        Ok(Name { text })
    }
}

// Names are equal where their bytes are. Of two short ones the whole arrays tell that: three words
// of eight bytes are compared, and there is no loop.
impl PartialEq for Name {
    ghost eq = { bytes_eq };

    ghost laws = { partial_equiv_from_equiv nat_list_eq_equiv };

    fn eq(&self, other: &Name) -> bool {
        match (&self.text, &other.text) {
            (Text::Short(short), Text::Short(other)) => short.same(other),
            _ => self.bytes() == other.bytes(),
        }
    }
}

impl Eq for Name {
    ghost laws = { nat_list_eq_equiv };
}

// Names come in the order of their bytes.
impl PartialOrd for Name {
    ghost partial_cmp = { λ x y. Some (slice_cmp nat_cmp x y) };

    ghost laws = { texts_po };

    fn partial_cmp(&self, other: &Name) -> Option<Ordering> {
        Some(self.cmp(other))
    }
}

impl Ord for Name {
    ghost cmp = { slice_cmp nat_cmp };

    ghost total = { nat_list_cmp_total };

    ghost matches_partial_cmp = { Prim.search rules };

    ghost matches_eq = { texts_ties };

    fn cmp(&self, other: &Name) -> Ordering {
        self.bytes().cmp(other.bytes())
    }
}

// The text of these bytes, held where it is short, else shared.
fn text_of(alloc: Global, bytes: &[u8]) -> Result<Text, MemoryFault>
    ensures { IfOk result (λ text. text_bytes text ≡ bytes.now) }
{
    if let Some(short) = Short::of(bytes) {
        return Ok(Text::Short(short));
    }
    match Rc::new(alloc, bytes.to_vec(alloc)?) {
        Ok(bytes) => Ok(Text::Shared(bytes)),
        Err(_) => Err(MemoryFault::Memory),
    }
}

// Why these bytes are no name, if they are none.
fn refusal(bytes: &[u8]) -> Option<NameFault>
    ensures { result ≡ name_refusal bytes.now }
{
    if bytes.is_empty() {
        Some(NameFault::Empty)
    } else if bytes.len() > LONGEST {
        Some(NameFault::TooLong)
    } else if !is_text(bytes) {
        Some(NameFault::NotUtf8)
    } else if is_forbidden(bytes) {
        Some(NameFault::Forbidden)
    } else {
        None
    }
}

fn is_text(bytes: &[u8]) -> bool
    ensures { result ≡ is_utf8 bytes.now }
{
    str::from_utf8(bytes).is_ok()
}

fn is_forbidden(bytes: &[u8]) -> bool
    ensures { result ≡ is_forbidden_name bytes.now }
{
    bytes.contains(&b'/')
        || bytes.contains(&0)
        || bytes == b".".as_slice()
        || bytes == b"..".as_slice()
}
