ghost use Rattle.std.specs.Prelude.{◌≡◌, [], ◌∷◌, ◌++◌, ◌*◌, ◌<◌, ◌≤◌, length, All, IfOk, OnOk};
ghost use Rattle.std.specs.Prelude.{Result};
ghost use Rattle.pt_tree.specs.Path.{joined};
ghost use Rattle.pt_name.specs.Place.{IsPlaceByte, IsPlaceName, place_of, tuples_from};

use crate::encoding::{digest_digits, last_name_with};
use pt_tree::{MemoryFault, Name, NameFault, NamePath};
use std::alloc::Global;
use std::marker::Model;
use thiserror::Error;

const DIGITS: u32 = 64;

const LARGEST: u32 = 32;

/// Why two numbers are no layout.
#[derive(Clone, Copy, Debug, PartialEq, Eq, Error)]
pub enum LayoutFault {
    /// One of the two is over 32.
    #[error("a number of the layout is over 32")]
    OutOfRange,
    /// One of the two is zero and the other isn't.
    #[error("one number of the layout is zero and the other is not")]
    OneZero,
    /// The product is over 64, the digits of a SHA-256.
    #[error("the tuples take more than 64 digits")]
    TooLong,
}

impl LayoutFault {
    ghost use Rattle.pt_name.specs.Layout.{layout_number};

    /// The fault's number: 1 `OutOfRange`, 2 `OneZero`, 3 `TooLong`.
    pub fn number(&self) -> u8
        ensures { result ≡ layout_number self.now }
    {
        match self {
            LayoutFault::OutOfRange => 1,
            LayoutFault::OneZero => 2,
            LayoutFault::TooLong => 3,
        }
    }
}

/// How places are cut: `count` tuples of `size` hex digits stand before the last name. The numbers
/// are `numberOfTuples` and `tupleSize` of extension 0003-hash-and-id-n-tuple-storage-layout.
#[derive(Clone, Copy, Debug, PartialEq, Eq)]
pub struct Layout {
    size: u32,
    count: u32,
}

impl Model for Layout {
    ghost use Rattle.pt_name.specs.Tuples.{Tuples, IsLayout};

    ghost Value = { Tuples };

    ghost view = { λ l. record { size = l.size; count = l.count } };

    ghost invariant = { λ l. IsLayout (record { size = l.size; count = l.count }) };

    ghost inverse = { λ t. record { size = t.size; count = t.count } };
}

impl Layout {
    ghost use Rattle.pt_name.specs.Tuples.{Tuples, IsLayout};
    ghost use Rattle.pt_name.specs.Layout.{layout_of};

    /// Three tuples of three digits, the default of extension 0003.
    pub fn default_form() -> Layout
        ensures { result ≡ record { size = 3; count = 3 } }
    {
        Layout { size: 3, count: 3 }
    }

    /// The layout of `count` tuples of `size` digits.
    ///
    /// Refused, in this order, as `OutOfRange` (one of the two over 32), `OneZero` (one of the two
    /// zero and the other not) and `TooLong` (the product over 64).
    pub fn of(size: u32, count: u32) -> Result<Layout, LayoutFault>
        ensures { result ≡ layout_of size count }
    {
        if size > LARGEST || count > LARGEST {
            return Err(LayoutFault::OutOfRange);
        }
        if (size == 0) != (count == 0) {
            return Err(LayoutFault::OneZero);
        }
        if size * count > DIGITS {
            return Err(LayoutFault::TooLong);
        }
        Ok(Layout { size, count })
    }

    /// How many digits each tuple has, 0 to 32.
    pub fn size(&self) -> u32
        ensures size { result ≡ self.now.size }
        ensures layout { IsLayout self.now }
    {
        self.size
    }

    /// How many tuples there are, 0 to 32.
    pub fn count(&self) -> u32
        ensures count { result ≡ self.now.count }
        ensures layout { IsLayout self.now }
    {
        self.count
    }

    /// The place of an identifier that isn't empty, by extension 0003: the tuples, cut from the
    /// front of its SHA-256 in lower-case hex, and its last name.
    ///
    /// Takes any bytes. `Memory` where a growth was refused.
    pub fn place(&self, alloc: Global, id: &[u8]) -> Result<NamePath, MemoryFault>
        requires { 0 < length id.now }
        ensures { IfOk result (λ path. path ≡ place_of self.now id.now) }
    {
        let digits = digest_digits(id);
        let mut path = NamePath::new(alloc);
        let (size, count) = (self.size as usize, self.count as usize);
        push_tuples(alloc, &mut path, size, count, &digits)?;
        push_name(alloc, &mut path, &last_name_with(alloc, id, &digits)?)?;
        Ok(path)
    }

    /// The same place as a text: its names with `/` between.
    ///
    /// Takes any bytes. `Memory` where a growth was refused.
    pub fn place_text(&self, alloc: Global, id: &[u8]) -> Result<Vec<u8>, MemoryFault>
        requires { 0 < length id.now }
        ensures { IfOk result (λ text. text.items ≡ joined (place_of self.now id.now)) }
    {
        self.place(alloc, id)?.join()
    }
}

// Adds `count` tuples of `size` digits from the front of the digits.
fn push_tuples(
    alloc: Global,
    path: &mut NamePath,
    size: usize,
    count: usize,
    digits: &[u8],
) -> Result<(), MemoryFault>
    requires enough { size * count ≤ length digits.now }
    requires some { 0 < count → 0 < size }
    requires bound { size ≤ 32 }
    requires safe { All IsPlaceByte digits.now }
    ensures { OnOk result (path.new ≡ path.old ++ tuples_from size count digits.now) }
{
    let mut rest = digits;
    for _ in 0..count {
        let (tuple, after) = rest.split_at(size);
        push_name(alloc, path, tuple)?;
        rest = after;
    }
    Ok(())
}

// Adds a name of 1 to 255 bytes that a place may have.
fn push_name(alloc: Global, path: &mut NamePath, bytes: &[u8]) -> Result<(), MemoryFault>
    requires { IsPlaceName bytes.now }
    ensures { OnOk result (path.new ≡ path.old ++ bytes.now ∷ []) }
{
    match Name::of(alloc, bytes) {
        Ok(name) => path.push(name),
        Err(fault) => match fault {
            NameFault::Memory => Err(MemoryFault::Memory),
            _ => unreachable!(),
        },
    }
}
