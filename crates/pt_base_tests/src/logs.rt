//! Logs in memory and over a writer: what they take, and how they fail.
use pt_memory::MemLog;
use pt_tree::{Log, TreeFault, WriterLog};
use std::cell::Cell;
use std::io;
use std::io::Write;

fn takes<L: Log>(log: &mut L, piece: &[u8]) -> bool {
    log.put(piece).is_ok()
}

fn is_full(log: &mut MemLog, piece: &[u8]) -> bool {
    log.put(piece) == Err(TreeFault::Device)
}

fn has(log: &MemLog, bytes: &[u8]) -> bool {
    log.bytes() == bytes
}

// It takes five more bytes, and fails at the first piece that doesn't fit.
fn takes_five(log: &mut MemLog) -> bool {
    log.fuse(Some(5));
    takes(log, b"def") && is_full(log, b"ghi") && has(log, b"abcdefgh") && log.failures() == 1
}

// Its fuse is blown: it takes what is empty alone.
fn takes_nothing(log: &mut MemLog) -> bool {
    takes(log, b"") && takes(log, b"") && is_full(log, b"i")
}

// Without its fuse it goes on.
fn goes_on(log: &mut MemLog) -> bool {
    log.fuse(None);
    takes(log, b"i") && has(log, b"abcdefghi")
}

fn takes_what_fits(log: &mut MemLog) -> bool {
    takes(log, b"") && takes(log, b"abc") && takes_five(log) && takes_nothing(log) && goes_on(log)
}

#[test]
fn a_log_takes_what_fits_its_fuse(rt: HostRuntime) {
    assert!(rt; takes_what_fits(&mut MemLog::new(rt.alloc())));
}

// A writer that takes so many bytes at a time, and may fail when it is flushed. What it took is one
// number: its bytes are the digits.
#[derive(Drop)]
struct Taker<'a> {
    taken: &'a Cell<u64>,
    at_a_time: usize,
    flushes: bool,
}

// The number that these bytes follow in its digits.
fn add_digits(number: u64, bytes: &[u8]) -> u64 {
    let mut number = number;
    for byte in bytes {
        number = number.wrapping_mul(256).wrapping_add(*byte as u64);
    }
    number
}

impl<'a> Write for Taker<'a> {
    fn write(&mut self, buf: &[u8]) -> io::Result<usize> {
        let count = buf.len().min(self.at_a_time);
        self.taken.set(add_digits(self.taken.get(), &buf[..count]));
        Ok(count)
    }

    fn flush(&mut self) -> io::Result<()> {
        if self.flushes {
            Ok(())
        } else {
            Err(io::Error::from(io::ErrorKind::Other))
        }
    }
}

// How many bytes a writer takes at a time, whether it is flushed, how often a log over it fails,
// and what it took of the pieces `ab` and `cde`.
#[derive(Clone, Copy)]
struct Writer(usize, bool, u64, &'static [u8]);

impl Writer {
    fn takes_pieces(&self) -> bool {
        let Writer(at_a_time, flushes, failures, bytes) = *self;
        let taken = Cell::new(0);
        let mut log = WriterLog::new(Taker {
            taken: &taken,
            at_a_time,
            flushes,
        });
        let takes_all = takes(&mut log, b"ab") && takes(&mut log, b"cde");
        takes_all == (failures == 0)
            && log.failures() == failures
            && taken.get() == add_digits(0, bytes)
    }
}

const WRITERS: &[Writer] = &[
    Writer(1, true, 0, b"abcde"),
    Writer(3, true, 0, b"abcde"),
    Writer(0, true, 1, b""),
    Writer(3, false, 1, b"ab"),
];

#[test]
fn a_writer_takes_a_piece_in_parts(rt: HostRuntime) {
    for (i, writer) in WRITERS.iter().enumerate() {
        assert!(rt; writer.takes_pieces(), "row {i}");
    }
}
