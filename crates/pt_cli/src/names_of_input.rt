//! The command `names -`: the names of the identifiers on a machine's input.
ghost use Rattle.std.specs.Prelude.{◌≡◌, codes};
ghost use Rattle.std.specs.Str.{bytes_eq};
ghost use Rattle.pt_cli.specs.Calls.{TellsAll, TellsUnlisted, list_status};
ghost use Rattle.pt_host.specs.Told.{Tells};

use crate::input::{HasInput, InputMachine};
use crate::{ListFault, NamesArgs, list_names};
use pt_host::status::{DONE, FAILED, REFUSED};
use pt_host::{Host, Machine, end_with_fault};
use pt_move::Fault;
use std::alloc::AllocGlobal;

// The word for the identifiers on the input.
const INPUT: &str = "-";

// Whether the names of the identifiers on the input are asked for.
pub(crate) fn is_of_input(asked: &NamesArgs) -> bool
    ensures { result ≡ bytes_eq asked.now.id (codes "-") }
{
    asked.id.as_str() == INPUT
}

// Writes the names of the identifiers on the machine's input to its output, and gives the status of
// that.
pub(crate) fn write_names_of_input<R, H>(rt: &R, host: &mut H, asked: &NamesArgs) -> u8
where
    R: Eprint + AllocGlobal,
    H: Host + HasInput,
    ensures { TellsAll ⟦<H as Machine>⟧.words ⟦<H as InputMachine>⟧.input_words
        asked.now host.old host.new result }
{
    let mut input = host.input();
    let mut host_io = host.lend();
    let listed = list_names(rt.alloc(), asked, &mut input, &mut host_io.output);
    host.take_back(host_io);
    report_list(rt, host, listed)
}

// Says why not all names were written, if they weren't, and gives the status.
fn report_list<R: Eprint, H: Host>(rt: &R, host: &mut H, listed: Result<(), ListFault>) -> u8
    ensures status { result ≡ list_status listed }
    ensures told { TellsUnlisted ⟦<H as Machine>⟧.words listed host.old host.new }
{
    match listed {
        Ok(()) => DONE,
        Err(ListFault::Line(bad)) => {
            let _ = eprintln!(rt; "pairtree2ocfl: {bad}");
            REFUSED
        }
        Err(ListFault::Read) => end_unread(host),
        Err(ListFault::Write) => end_with_fault(host, &Fault::Log),
        Err(ListFault::Memory) => end_with_fault(host, &Fault::Memory),
    }
}

// Says that the input failed, and gives the status of that.
fn end_unread<H: Host>(host: &mut H) -> u8
    ensures status { result ≡ 3 }
    ensures told { Tells ⟦<H as Machine>⟧.words
        (codes "pairtree2ocfl: cannot read standard input\n") host.old host.new }
{
    host.tell("pairtree2ocfl: cannot read standard input\n");
    FAILED
}
