ghost use Rattle.std.specs.Prelude.{◌≡◌, ◌++◌, IfOk};
ghost use Rattle.std.specs.Option.{ForSome};

use pt_tree::MemoryFault;
use std::alloc::Global;
use std::fmt;
use std::marker::Model;

/// A text of the command line or of its parser, seen as its bytes.
#[derive(Debug, Drop)]
pub struct Text {
    text: String,
}

impl Model for Text {
    ghost use Rattle.std.specs.Prelude.{List, ℕ, string_bytes};

    ghost Value = { List ℕ };

    ghost view = { λ t. string_bytes t.text };
}

impl Text {
    /// A copy of a text. Refused as `Memory`, where a growth was.
    pub fn of(alloc: Global, text: &str) -> Result<Text, MemoryFault>
        ensures { IfOk result (λ copy. copy ≡ text.now) }
    {
        Ok(Text {
            text: String::from_str(alloc, text)?,
        })
    }

    /// A text with another behind it. Refused as `Memory`, where a growth was.
    pub fn join(alloc: Global, text: &str, end: &str) -> Result<Text, MemoryFault>
        ensures { IfOk result (λ whole. whole ≡ text.now ++ end.now) }
    {
        let mut whole = String::from_str(alloc, text)?;
        whole.push_str(end)?;
        Ok(Text { text: whole })
    }

    /// The text that a value displays as. Refused as `Memory`, where a growth was.
    pub fn of_display<T: fmt::Display>(alloc: Global, value: &T) -> Result<Text, MemoryFault>
        ensures { IfOk result (λ made. ForSome (T.output value.now) (λ text. made ≡ text)) }
    {
        Ok(Text {
            text: value.to_string(alloc)?,
        })
    }

    /// The text.
    pub fn as_str(&self) -> &str
        ensures { result.now ≡ self.now }
    {
        self.text.as_str()
    }
}

impl fmt::Display for Text {
    ghost use Rattle.std.specs.Prelude.{Some};

    ghost output = { λ t. Some t };

    fn fmt<W: fmt::Write>(&self, f: &mut fmt::Formatter<W>) -> fmt::Result {
        f.write_str(self.as_str())
    }
}
