//! What the names of the lines of an input are, and the identifiers in the lines of a file, also of
//! those that fail.
use pt_cli::{
    BadLine, FileFault, LineFault, ListFault, NamesArgs, Text, list_names, read_identifiers,
};
use pt_machine::HostFile;
use pt_name::Layout;
use std::alloc::Global;
use std::io;
use std::io::Read;
use std::test::Fail;

// An input that gives so many bytes at a time, and then fails or is at its end.
struct Pieces<'a> {
    bytes: &'a [u8],
    at_a_time: usize,
    fails: bool,
}

impl Drop for Pieces<'_> {
    fn drop(self) {
        let Pieces {
            bytes: _,
            at_a_time: _,
            fails: _,
        } = self;
    }
}

impl Read for Pieces<'_> {
    fn read(&mut self, buf: &mut [u8]) -> io::Result<usize> {
        let count = self.bytes.len().min(self.at_a_time).min(buf.len());
        if count == 0 && self.fails {
            return Err(io::Error::from(io::ErrorKind::Other));
        }
        let (front, rest) = self.bytes.split_at(count);
        buf[..count].copy_from_slice(front);
        self.bytes = rest;
        Ok(count)
    }
}

fn no_prefix(alloc: Global) -> Result<NamesArgs, Fail> {
    Ok(NamesArgs {
        id: Text::of(alloc, "-")?,
        prefix: Text::of(alloc, "")?,
        layout: Layout::default_form(),
    })
}

fn bad_line(number: u64, fault: LineFault) -> BadLine {
    BadLine { number, fault }
}

fn bad(number: u64, fault: LineFault) -> ListFault {
    ListFault::Line(bad_line(number, fault))
}

const ABC: &str = "ab/c\tba7/816/bf8/abc\n";

// Whether the names of these lines are written so, with this answer.
fn are_named(
    alloc: Global,
    lines: &[u8],
    answer: Result<(), ListFault>,
    written: &str,
) -> Result<bool, Fail> {
    let mut input = lines;
    let mut out = Vec::new(alloc);
    let found = list_names(alloc, &no_prefix(alloc)?, &mut input, &mut out);
    Ok(found == answer && out.as_slice() == written.as_bytes())
}

#[test]
fn lines_are_named_up_to_the_first_that_is_no_identifier(rt: HostRuntime) -> Result<(), Fail> {
    assert!(rt; are_named(rt.alloc(), b"", Ok(()), "")?);
    assert!(rt; are_named(rt.alloc(), b"abc\n", Ok(()), ABC)?);
    assert!(rt; are_named(rt.alloc(), b"abc\r\n", Ok(()), ABC)?);
    assert!(rt; are_named(rt.alloc(), b"abc", Ok(()), ABC)?);
    let empty = Err(bad(2, LineFault::Empty));
    assert!(rt; are_named(rt.alloc(), b"abc\n\nabc\n", empty, ABC)?);
    let no_text = Err(bad(2, LineFault::NotUtf8));
    assert!(rt; are_named(rt.alloc(), b"abc\n\xff\nabc\n", no_text, ABC)?);
    Ok(())
}

// Whether an input that gives so many bytes at a time and then fails is answered so.
fn is_broken_off(alloc: Global, at_a_time: usize) -> Result<bool, Fail> {
    let mut input = Pieces {
        bytes: b"abc\nabc",
        at_a_time,
        fails: true,
    };
    let mut out = Vec::new(alloc);
    let found = list_names(alloc, &no_prefix(alloc)?, &mut input, &mut out);
    Ok(found == Err(ListFault::Read) && out.as_slice() == ABC.as_bytes())
}

#[test]
fn an_input_that_fails_is_told_behind_its_whole_lines(rt: HostRuntime) -> Result<(), Fail> {
    assert!(rt; is_broken_off(rt.alloc(), 1)? && is_broken_off(rt.alloc(), 100)?);
    Ok(())
}

// What the lines of a file come to, which gives so many bytes at a time.
fn come_to(
    alloc: Global,
    bytes: &[u8],
    at_a_time: usize,
    fails: bool,
) -> Result<Vec<String>, FileFault> {
    let pieces = Pieces {
        bytes,
        at_a_time,
        fails,
    };
    read_identifiers(alloc, &mut HostFile::new(pieces))
}

// Whether these are the identifiers in the lines of a file.
fn are_read(alloc: Global, lines: &[u8], at_a_time: usize, wanted: &[&str]) -> bool {
    let Ok(ids) = come_to(alloc, lines, at_a_time, false) else {
        return false;
    };
    ids.len() == wanted.len() && ids.iter().zip(wanted).all(|(id, one)| id.as_str() == *one)
}

// Whether this line of a file is the first that is no identifier.
fn is_bad(alloc: Global, lines: &[u8], at_a_time: usize, wanted: BadLine) -> bool {
    let found = come_to(alloc, lines, at_a_time, false);
    matches!(found, Err(FileFault::Line(bad)) if bad == wanted)
}

// Lines of a file, and the identifiers in them.
const LISTS: &[(&[u8], &[&str])] = &[
    (b"", &[]),
    (b"abc", &["abc"]),
    (b"abc\r\nde\n", &["abc", "de"]),
    (b"abc\r", &["abc\r"]),
    (b"abc\n\xef\xbb\xbfde\n", &["abc", "\u{feff}de"]),
];

// Lines of a file, with the first that is no identifier.
const BAD_LISTS: &[(&[u8], u64, LineFault)] = &[
    (b"abc\n\nabc\n", 2, LineFault::Empty),
    (b"abc\n\xff", 2, LineFault::NotUtf8),
    (b"\xef\xbb\xbf", 1, LineFault::ByteOrderMark),
    (b"\xef\xbb\xbfabc\r\n\n", 1, LineFault::ByteOrderMark),
    (b"\xef\xbb\xbf\xff\n", 1, LineFault::NotUtf8),
];

#[test]
fn lines_of_a_file_are_read_whatever_its_pieces(rt: HostRuntime) {
    for at_a_time in [1, 2, 3, 100] {
        for (lines, ids) in LISTS {
            assert!(rt; are_read(rt.alloc(), lines, at_a_time, ids), "{ids:?}");
        }
        for (lines, number, fault) in BAD_LISTS {
            let bad = bad_line(*number, *fault);
            assert!(rt; is_bad(rt.alloc(), lines, at_a_time, bad), "{bad}");
        }
    }
}

#[test]
fn a_file_that_fails_is_told_unless_a_line_is_bad_before(rt: HostRuntime) {
    let failed = come_to(rt.alloc(), b"abc\nabc", 3, true);
    assert!(rt;
        matches!(failed, Err(FileFault::Read(error)) if error.kind() == io::ErrorKind::Other)
    );
    let bad = come_to(rt.alloc(), b"abc\n\n", 3, true);
    assert!(rt; matches!(bad, Err(FileFault::Line(bad)) if bad == bad_line(2, LineFault::Empty)));
}

#[test]
fn a_line_is_too_long_before_its_end_is_read(rt: HostRuntime) -> Result<(), Fail> {
    let mut line = Vec::new(rt.alloc());
    line.resize(65_538, b'n')?;
    let found = come_to(rt.alloc(), &line, 10_000, true);
    let wanted = bad_line(1, LineFault::TooLong);
    assert!(rt; matches!(found, Err(FileFault::Line(bad)) if bad == wanted));
    Ok(())
}

#[test]
fn faults_of_lists_have_numbers(rt: HostRuntime) {
    assert!(rt; LineFault::TooLong.number() == 1 && LineFault::Empty.number() == 2);
    assert!(rt; LineFault::NotUtf8.number() == 3 && LineFault::ByteOrderMark.number() == 4);
    assert!(rt; FileFault::Line(bad_line(1, LineFault::Empty)).number() == 1);
    assert!(rt; FileFault::Memory.number() == 3);
    assert!(rt; bad(1, LineFault::Empty).number() == 1 && ListFault::Read.number() == 2);
    assert!(rt; ListFault::Write.number() == 3 && ListFault::Memory.number() == 4);
}
