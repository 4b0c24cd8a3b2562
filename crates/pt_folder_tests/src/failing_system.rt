//! A system whose calls are counted, of which one may fail, and whose reads and writes are short.
use crate::steps::{DestStep, SourceStep};
use std::alloc::Allocator;
use std::cell::Cell;
use std::fs::{Metadata, OpenFile, OpenOptions};
use std::io;
use std::io::{ErrorKind, Read, Seek, SeekFrom, Write};
use std::rt::Files;

// So many bytes has each file that is opened.
pub const LEN: u64 = 20_000;

/// What the system did, and what it is to do: which call fails with which error (0 none, 1 the next
/// one), whether seeking does, and how many bytes are read or written at a time.
#[derive(Drop)]
pub struct SystemState {
    pub no_seek: Cell<bool>,
    pub calls: Cell<u64>,
    pub failing: Cell<u64>,
    pub error: ErrorKind,
    pub at_a_time: usize,
    pub written: Cell<u64>,
    pub names: &'static [u8],
}

impl SystemState {
    pub fn new(at_a_time: usize, error: ErrorKind, names: &'static [u8]) -> SystemState {
        SystemState {
            no_seek: Cell::new(false),
            calls: Cell::new(0),
            failing: Cell::new(0),
            error,
            at_a_time,
            written: Cell::new(0),
            names,
        }
    }

    /// Whether what isn't asked of a destination goes: what is found is so, and what changes in the
    /// system is changed.
    pub fn is_so_for_dest(&self, step: DestStep) -> bool {
        match step {
            DestStep::CallFails(call) => self.failing.set(call),
            DestStep::Calls(calls) => return self.calls.get() == calls,
            DestStep::Written(bytes) => return self.written.get() == bytes,
            _ => return false,
        }
        true
    }

    /// The same of a source.
    pub fn is_so_for_source(&self, step: SourceStep) -> bool {
        match step {
            SourceStep::CallFails(call) => self.failing.set(call),
            SourceStep::SeekFails(fails) => self.no_seek.set(fails),
            SourceStep::Calls(calls) => return self.calls.get() == calls,
            _ => return false,
        }
        true
    }

    // One more call, which may be the one that fails.
    fn count_call(&self) -> io::Result<()> {
        self.calls.set(self.calls.get().wrapping_add(1));
        let left = self.failing.get();
        self.failing.set(left.saturating_sub(1));
        if left == 1 {
            Err(io::Error::from(self.error))
        } else {
            Ok(())
        }
    }
}

/// The byte of each file at a place.
pub fn byte_at(place: u64) -> u8 {
    (place % 251) as u8
}

// The bytes of a file from a place on.
fn put_bytes(buf: &mut [u8], start: u64) {
    let mut place = start;
    for byte in buf.iter_mut() {
        *byte = byte_at(place);
        place = place.wrapping_add(1);
    }
}

#[derive(Drop)]
pub struct FailingSystem<'a> {
    pub state: &'a SystemState,
}

#[derive(Drop)]
pub struct FailingFile<'a> {
    state: &'a SystemState,
    place: u64,
}

// The names that are left, each given by a read of its own.
#[derive(Drop)]
pub struct FailingDir<'a> {
    state: &'a SystemState,
    left: &'static [u8],
}

impl<'a> Read for FailingFile<'a> {
    fn read(&mut self, buf: &mut [u8]) -> io::Result<usize> {
        self.state.count_call()?;
        let left = LEN.saturating_sub(self.place) as usize;
        let count = buf.len().min(self.state.at_a_time).min(left);
        put_bytes(&mut buf[..count], self.place);
        self.place = self.place.wrapping_add(count as u64);
        Ok(count)
    }
}

impl<'a> Write for FailingFile<'a> {
    fn write(&mut self, buf: &[u8]) -> io::Result<usize> {
        self.state.count_call()?;
        let count = buf.len().min(self.state.at_a_time);
        let written = self.state.written.get();
        self.state.written.set(written.wrapping_add(count as u64));
        Ok(count)
    }

    fn flush(&mut self) -> io::Result<()> {
        Ok(())
    }
}

impl<'a> Seek for FailingFile<'a> {
    fn seek(&mut self, to: SeekFrom) -> io::Result<u64> {
        self.state.count_call()?;
        match to {
            SeekFrom::Start(place) if !self.state.no_seek.get() => {
                self.place = place;
                Ok(place)
            }
            _ => Err(io::Error::from(ErrorKind::Unsupported)),
        }
    }
}

impl<'a> OpenFile for FailingFile<'a> {
    fn metadata(&self) -> io::Result<Metadata> {
        Ok(Metadata::of_file(LEN))
    }

    fn set_len(&self, _: u64) -> io::Result<()> {
        Ok(())
    }

    fn sync_all(&self) -> io::Result<()> {
        Ok(())
    }

    fn sync_data(&self) -> io::Result<()> {
        Ok(())
    }
}

impl<'a> Read for FailingDir<'a> {
    fn read(&mut self, buf: &mut [u8]) -> io::Result<usize> {
        self.state.count_call()?;
        let Some(end) = self.left.iter().position(|byte| *byte == 0) else {
            return Ok(0);
        };
        let name = &self.left[..end + 1];
        if name.len() > buf.len() {
            return Err(io::Error::from(ErrorKind::InvalidInput));
        }
        buf[..name.len()].copy_from_slice(name);
        self.left = &self.left[name.len()..];
        Ok(name.len())
    }
}

impl<'a> Files for FailingSystem<'a> {
    type File = FailingFile<'a>;

    type Dir = FailingDir<'a>;

    fn open_file(&self, how: &OpenOptions, _: &str) -> io::Result<FailingFile<'a>> {
        how.check()?;
        self.state.count_call()?;
        Ok(FailingFile {
            state: self.state,
            place: 0,
        })
    }

    fn open_dir(&self, _: &str) -> io::Result<FailingDir<'a>> {
        self.state.count_call()?;
        Ok(FailingDir {
            state: self.state,
            left: self.state.names,
        })
    }

    fn metadata(&self, _: &str) -> io::Result<Metadata> {
        Err(io::Error::from(ErrorKind::Unsupported))
    }

    // What a name ends in says its kind.
    fn symlink_metadata(&self, path: &str) -> io::Result<Metadata> {
        self.state.count_call()?;
        if path.ends_with('d') {
            Ok(Metadata::of_dir())
        } else if path.ends_with('l') {
            Ok(Metadata::of_symlink(1))
        } else {
            Ok(Metadata::of_file(LEN))
        }
    }

    fn copy(&self, _: &str, _: &str) -> io::Result<u64> {
        Err(io::Error::from(ErrorKind::Unsupported))
    }

    fn rename(&self, _: &str, _: &str) -> io::Result<()> {
        self.state.count_call()
    }

    fn remove_file(&self, _: &str) -> io::Result<()> {
        Err(io::Error::from(ErrorKind::Unsupported))
    }

    fn create_dir(&self, _: &str) -> io::Result<()> {
        self.state.count_call()
    }

    fn remove_dir(&self, _: &str) -> io::Result<()> {
        Err(io::Error::from(ErrorKind::Unsupported))
    }

    fn remove_dir_all<B: Allocator>(&self, _: B, _: &str) -> io::Result<()> {
        Err(io::Error::from(ErrorKind::Unsupported))
    }
}
