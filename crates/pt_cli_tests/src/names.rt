//! What `names` writes for an identifier, also to outputs that fail.
use pt_cli::{NamesFault, names_to};
use pt_name::Layout;
use std::alloc::Global;
use std::io;
use std::io::Write;
use std::test::Fail;

// A writer that takes so many bytes at a time and so many in all, and then fails; its flush may
// fail too.
struct Limited {
    bytes: Vec<u8>,
    at_a_time: usize,
    room: usize,
    flushes: bool,
}

impl Drop for Limited {
    fn drop(self) {
        let Limited {
            bytes: _,
            at_a_time: _,
            room: _,
            flushes: _,
        } = self;
    }
}

fn make_error() -> io::Error {
    io::Error::from(io::ErrorKind::Other)
}

impl Write for Limited {
    fn write(&mut self, buf: &[u8]) -> io::Result<usize> {
        let taken = buf.len().min(self.at_a_time).min(self.room);
        if taken == 0 {
            return Err(make_error());
        }
        self.bytes.extend_from_slice(&buf[..taken])?;
        self.room -= taken;
        Ok(taken)
    }

    fn flush(&mut self) -> io::Result<()> {
        if self.flushes {
            Ok(())
        } else {
            Err(make_error())
        }
    }
}

// A writer that takes nothing.
#[derive(Drop)]
struct Full;

impl Write for Full {
    fn write(&mut self, _: &[u8]) -> io::Result<usize> {
        Ok(0)
    }

    fn flush(&mut self) -> io::Result<()> {
        Ok(())
    }
}

// Identifiers, and the two lines of each.
const NAMES: &[(&str, &str)] = &[
    ("abc", "ab/c\nba7/816/bf8/abc\n"),
    (
        "ark:/13030/xt12t3",
        "ar/k+/=1/30/30/=x/t1/2t/3\n4b8/4fe/385/ark%3a%2f13030%2fxt12t3\n",
    ),
    (
        "..hor/rib:le-$id",
        ",,/ho/r=/ri/b+/le/-$/id\n487/326/d8c/%2e%2ehor%2frib%3ale-%24id\n",
    ),
];

fn are_names(alloc: Global, id: &str, lines: &str) -> Result<bool, Fail> {
    let mut out = Vec::new(alloc);
    names_to(alloc, &Layout::default_form(), "", id, &mut out)?;
    Ok(out.as_slice() == lines.as_bytes())
}

#[test]
fn pairpath_and_place_are_written(rt: HostRuntime) -> Result<(), Fail> {
    for (id, lines) in NAMES {
        assert!(rt; are_names(rt.alloc(), id, lines)?, "{id}");
    }
    Ok(())
}

// Bytes at a time, bytes in all, whether it flushes, the answer, what was written.
const OUTPUTS: &[(usize, usize, bool, Result<(), NamesFault>, &str)] = &[
    (100, 3, true, Err(NamesFault::Write), "ab/"),
    (100, 21, true, Ok(()), "ab/c\nba7/816/bf8/abc\n"),
    (1, 21, true, Ok(()), "ab/c\nba7/816/bf8/abc\n"),
    (1, 20, true, Err(NamesFault::Write), "ab/c\nba7/816/bf8/abc"),
    (
        4,
        21,
        false,
        Err(NamesFault::Write),
        "ab/c\nba7/816/bf8/abc\n",
    ),
];

// What `names` of `abc` answers; none where something else is written.
fn answer_of(
    alloc: Global,
    at_a_time: usize,
    room: usize,
    flushes: bool,
    written: &str,
) -> Option<Result<(), NamesFault>> {
    let mut out = Limited {
        bytes: Vec::new(alloc),
        at_a_time,
        room,
        flushes,
    };
    let answer = names_to(alloc, &Layout::default_form(), "", "abc", &mut out);
    (out.bytes.as_slice() == written.as_bytes()).then_some(answer)
}

#[test]
fn an_output_that_fails_is_told(rt: HostRuntime) {
    for (at_a_time, room, flushes, answer, written) in OUTPUTS {
        let found = answer_of(rt.alloc(), *at_a_time, *room, *flushes, written);
        assert!(rt;
            found == Some(*answer),
            "{room} bytes, {at_a_time} at a time: {found:?}"
        );
    }
    let full = names_to(rt.alloc(), &Layout::default_form(), "", "abc", &mut Full);
    assert!(rt; full == Err(NamesFault::Write));
}

// What `names` of the empty identifier answers, and how much it writes.
fn answer_of_nothing(alloc: Global) -> (Result<(), NamesFault>, usize) {
    let mut out = Vec::new(alloc);
    let answer = names_to(alloc, &Layout::default_form(), "", "", &mut out);
    (answer, out.len())
}

#[test]
fn the_empty_identifier_is_refused(rt: HostRuntime) {
    let answer = answer_of_nothing(rt.alloc());
    assert!(rt; answer == (Err(NamesFault::Empty), 0), "{answer:?}");
}

#[test]
fn faults_of_names_have_numbers(rt: HostRuntime) {
    assert!(rt; NamesFault::Empty.number() == 1);
    assert!(rt; NamesFault::Write.number() == 2 && NamesFault::Memory.number() == 3);
}
