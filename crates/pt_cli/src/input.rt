//! The input of a machine.
ghost use Rattle.pt_cli.specs.Inputs.{InputWords};

use std::io::Read;

/// A machine with an input. Only `names -` asks for it.
pub trait HasInput {
    type Input: Read + Drop;

    /// Its input may be this, and asking for it leave it so.
    ghost gives: { Self → Self.Input → Self → Type 0 };

    /// Its input, from where it stands.
    fn input(&mut self) -> Self::Input
        ensures { gives self.old result self.new };
}

/// A machine with an input by its words, as `Machine` is one by all others.
pub trait InputMachine: HasInput {
    /// They.
    ghost input_words: { InputWords Self };
}

impl<H: HasInput> InputMachine for H
where
    H::Input: Read,
{
    ghost input_words = { record {
      Input = H.Input;
      gives = H.gives;
      remaining = H.Input.remaining;
    } };
}
