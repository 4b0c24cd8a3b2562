//! Numbers as people read them.
ghost use Rattle.std.specs.Prelude.{◌≡◌, IfOk, string_bytes};
ghost use Rattle.pt_messages.specs.Numbers.{counted_text, grouped, size_text, tenths_text};
ghost use Rattle.pt_messages.specs.Numbers.{time_text};

use std::alloc::{AllocError, Global};

/// A time of so many milliseconds: `1:05`, minutes and seconds, and from an hour on `9 h 10 min`.
/// An error where a growth was refused.
pub fn time(alloc: Global, millis: u64) -> Result<String, AllocError>
    ensures { IfOk result (λ text. string_bytes text ≡ time_text millis) }
{
    let seconds = millis / 1000;
    if seconds < 3600 {
        let (minutes, rest) = (seconds / 60, seconds % 60);
        return format!(in alloc; "{minutes}:{rest:02}");
    }
    let (hours, left) = (seconds / 3600, seconds / 60 % 60);
    format!(in alloc; "{hours} h {left} min")
}

/// So many bytes: `117 bytes`, and from a thousand on with one decimal of the largest unit that it
/// fills, `7.1 MB`. An error where a growth was refused.
pub fn size(alloc: Global, bytes: u64) -> Result<String, AllocError>
    ensures { IfOk result (λ text. string_bytes text ≡ size_text bytes) }
{
    if bytes < 1000 {
        count_text(alloc, bytes, "byte", "bytes")
    } else if bytes < 1_000_000 {
        tenths_of(alloc, bytes / 100, "kB")
    } else if bytes < 1_000_000_000 {
        tenths_of(alloc, bytes / 100_000, "MB")
    } else if bytes < 1_000_000_000_000 {
        tenths_of(alloc, bytes / 100_000_000, "GB")
    } else {
        tenths_of(alloc, bytes / 100_000_000_000, "TB")
    }
}

// So many tenths of a unit.
fn tenths_of(alloc: Global, tenths: u64, unit: &str) -> Result<String, AllocError>
    ensures { IfOk result (λ text. string_bytes text ≡ tenths_text tenths unit.now) }
{
    let (whole, part) = (group_digits(alloc, tenths / 10)?, tenths % 10);
    format!(in alloc; "{whole}.{part} {unit}")
}

/// So many of what is called `one` where there is one, and else `more`: `1 file`, `1,560 files`.
/// An error where a growth was refused.
pub fn count_text(alloc: Global, count: u64, one: &str, more: &str) -> Result<String, AllocError>
    ensures { IfOk result (λ text. string_bytes text ≡ counted_text count one.now more.now) }
{
    let number = group_digits(alloc, count)?;
    let name = if count == 1 { one } else { more };
    format!(in alloc; "{number} {name}")
}

/// A number with a comma before each three of its digits but the first ones: `1,560`. An error
/// where a growth was refused.
pub fn group_digits(alloc: Global, number: u64) -> Result<String, AllocError>
    ensures { IfOk result (λ text. string_bytes text ≡ grouped number) }
{
    let digits = format!(in alloc; "{number}")?;
    let mut text = String::new(alloc);
    let mut left = digits.as_str().len();
    for digit in digits.as_str().chars() {
        text.push(digit)?;
        left = left.saturating_sub(1);
        if left > 0 && left % 3 == 0 {
            text.push(',')?;
        }
    }
    Ok(text)
}
