//! A run that is rehearsed over a folder: it looks there, changes nothing, and tells the tree that
//! the run would leave.
//!
//! ```rust
//! let mut rehearsal = Rehearsal::new(alloc, HostDest::new(system, alloc, "root"));
//! // A run is made over it as over the folder.
//! let dest = rehearsal.into_dest();
//! ```
//!
//! What it promises:
//!
//! - `Rehearsal`: a destination over a destination folder that asks the system to look at an entry
//!   or to open one for reading, and for nothing else, whatever is called. Whatever is called, and
//!   however it is answered, the system keeps of the folder all that it kept (`keeps`).
//! - Where the folder tells its tree, a rehearsal tells the tree that the folder would hold after
//!   the calls (`told`), and with that meets `Dest`, all calls: what it answers to a look is what
//!   stands in that tree, and so are the first bytes of a file. It is the folder's own tree with
//!   each step played over it (`played`); no bytes are kept for that, the steps exist in proofs
//!   alone (`Played`).
//! - What it remembers fits the tree (`Fits`): what is remembered as a directory is one, all that
//!   isn't hidden is as in the folder.
//! - It refuses, with `Device`, exactly what it doesn't know (rehearsal.rt). That a run asks for
//!   none of it isn't proved: tests/cases/options.py rehearses every run of the other tests.
//! - How it came to what it is is known call by call: what each asked of the system, and why it was
//!   refused, where it was (`Calls`).
//!
//! No guarantee of README rests on its definitions.
#![tactic(auto)]

mod played;
mod rehearsal;
mod remembered;
mod text_set;

pub use rehearsal::Rehearsal;
