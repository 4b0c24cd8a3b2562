//! The program `pairtree2ocfl`: its words, its commands and its statuses.
//!
//! Read `answer` first, which says what words lead to:
//!
//! ```rust
//! let status = answer(&rt, &mut host, &words); // The first word is the program's name.
//! ```
//!
//! What it promises, on a machine of pt_host:
//!
//! - `answer` (`EndsWith`): words are answered as `read_words` has it, and that is done (`Obeys`,
//!   `Declines`). `migrate` makes the run of pt_host from SOURCE to DEST, with all that its options
//!   say, and the status is its status; `audit` makes the audit likewise, and `check` the check of
//!   SOURCE; `names` writes the two names, and `names -` those of the identifiers in the input's
//!   lines. Refused words (2) and want of memory (3) ask the machine only to tell why.
//! - `run` asks for the words that it was started with (`Invocation`), and ends with the status of
//!   `answer` to just these (`Ends`).
//! - `read_words`: the words are read exactly as `clap` reads them, for the grammar that the
//!   contract spells out (`ReadsWords`). What the parser accepts always has an answer.
//! - `names_to`: where it answers Ok, exactly the two lines were added. `list_names`: exactly the
//!   names of the lines before the first that is no identifier were added, in order (`ListsNames`).
//! - `read_identifiers`: Ok gives just the identifiers in the lines of all that was read
//!   (`ReadsIdentifiers`).
//!
//! No guarantee of README rests on its definitions.
#![tactic(auto)]

mod arg_specs;
mod arguments;
mod audit_words;
mod check_words;
mod command;
mod faults;
mod feedback_words;
mod grammar;
mod help;
mod hints;
mod identifier_lines;
mod ids;
mod ignore_words;
mod input;
mod invocation;
mod job_words;
mod layout_words;
mod line_reader;
mod list_fault;
mod listing;
mod meta_words;
mod migrate_words;
mod name_list;
mod names;
mod names_of_input;
mod names_words;
mod path_words;
mod program;
mod share_words;
mod words;

pub use command::{Audit, CheckArgs, Command, Migrate, NamesArgs};
pub use faults::WordsFault;
pub use identifier_lines::read_identifiers;
pub use input::{HasInput, InputMachine};
pub use invocation::Invocation;
pub use list_fault::{BadLine, FileFault, LineFault, ListFault};
pub use name_list::list_names;
pub use names::{NamesFault, names_to};
pub use program::{answer, run};
pub use pt_host::Text;
pub use words::read_words;
