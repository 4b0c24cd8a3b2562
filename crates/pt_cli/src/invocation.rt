//! The words that the program was started with.
ghost use Rattle.std.specs.Prelude.{List, ℕ, map, string_bytes};
ghost use Rattle.std.specs.Result.{result_map_both};
ghost use Rattle.std.specs.declared.io.Error.{Error};
ghost use Rattle.std.specs.declared.result.Result.{Result};

use std::alloc::Global;
use std::io;

/// How the program was started: with words.
pub trait Invocation {
    /// Its words, the program's name first, may be these, or can't be had for this reason.
    ghost starts: { Self → Result (List (List ℕ)) Error → Type 0 };

    /// The words that it was started with, the program's name first. Refused where they aren't
    /// text, and as `OutOfMemory` where a growth was.
    fn words(&self, alloc: Global) -> io::Result<Vec<String>>
        ensures { starts self.now
            (result_map_both (λ words. map string_bytes words.items) (λ error. error) result) };
}
