//! A writer, a file and a system that fail where they are told to.
use std::alloc::Allocator;
use std::fs::{Metadata, OpenFile, OpenOptions};
use std::io;
use std::io::{ErrorKind, Read, Seek, SeekFrom, Write};
use std::rt::Files;

/// Calls that are numbered from 1, of which one fails with an error of this kind, or none at 0.
#[derive(Clone, Copy)]
pub struct OneFails {
    number: u32,
    kind: ErrorKind,
    so_far: u32,
}

impl OneFails {
    /// The call of this number fails with an error of this kind; none does at 0. No call was made so far.
    pub fn new(number: u32, kind: ErrorKind) -> OneFails {
        OneFails {
            number,
            kind,
            so_far: 0,
        }
    }

    fn next(&mut self) -> io::Result<()> {
        self.so_far = self.so_far.saturating_add(1);
        if self.so_far == self.number {
            return Err(self.kind.into());
        }
        Ok(())
    }
}

/// A writer that takes at most so many bytes a call, and of which one write and one flush may fail.
#[derive(Drop)]
pub struct Flaky {
    pub taken: Vec<u8>,
    pub most: usize,
    pub writes: OneFails,
    pub flushes: OneFails,
}

impl Write for Flaky {
    fn write(&mut self, buf: &[u8]) -> io::Result<usize> {
        self.writes.next()?;
        let count = buf.len().min(self.most);
        self.taken.extend_from_slice(&buf[..count])?;
        Ok(count)
    }

    fn flush(&mut self) -> io::Result<()> {
        self.flushes.next()
    }
}

/// A file of so many bytes `x`, which are read and written one at a time. One of the calls may fail.
#[derive(Clone, Copy)]
pub struct OddFile {
    pub left: u32,
    pub calls: OneFails,
}

impl Read for OddFile {
    fn read(&mut self, buf: &mut [u8]) -> io::Result<usize> {
        self.calls.next()?;
        if self.left == 0 || buf.is_empty() {
            return Ok(0);
        }
        self.left -= 1;
        buf[0] = b'x';
        Ok(1)
    }
}

impl Write for OddFile {
    fn write(&mut self, buf: &[u8]) -> io::Result<usize> {
        self.calls.next()?;
        Ok(buf.len().min(1))
    }

    fn flush(&mut self) -> io::Result<()> {
        Ok(())
    }
}

impl Seek for OddFile {
    fn seek(&mut self, _to: SeekFrom) -> io::Result<u64> {
        Err(ErrorKind::Unsupported.into())
    }
}

impl OpenFile for OddFile {
    fn metadata(&self) -> io::Result<Metadata> {
        Err(ErrorKind::Unsupported.into())
    }

    fn set_len(&self, _size: u64) -> io::Result<()> {
        Err(ErrorKind::Unsupported.into())
    }

    fn sync_all(&self) -> io::Result<()> {
        Err(ErrorKind::Unsupported.into())
    }

    fn sync_data(&self) -> io::Result<()> {
        Err(ErrorKind::Unsupported.into())
    }
}

/// A system in which each path opens the same file, or fails to open with an error of one kind.
#[derive(Clone, Copy)]
pub struct OddSystem {
    pub refusal: Option<ErrorKind>,
    pub file: OddFile,
}

impl Files for OddSystem {
    type File = OddFile;

    type Dir = io::Empty;

    fn open_file(&self, how: &OpenOptions, _path: &str) -> io::Result<OddFile> {
        how.check()?;
        match self.refusal {
            Some(kind) => Err(kind.into()),
            None => Ok(self.file),
        }
    }

    fn open_dir(&self, _path: &str) -> io::Result<io::Empty> {
        Err(ErrorKind::Unsupported.into())
    }

    fn metadata(&self, _path: &str) -> io::Result<Metadata> {
        Err(ErrorKind::Unsupported.into())
    }

    fn symlink_metadata(&self, _path: &str) -> io::Result<Metadata> {
        Err(ErrorKind::Unsupported.into())
    }

    fn copy(&self, _from: &str, _to: &str) -> io::Result<u64> {
        Err(ErrorKind::Unsupported.into())
    }

    fn rename(&self, _from: &str, _to: &str) -> io::Result<()> {
        Err(ErrorKind::Unsupported.into())
    }

    fn remove_file(&self, _path: &str) -> io::Result<()> {
        Err(ErrorKind::Unsupported.into())
    }

    fn create_dir(&self, _path: &str) -> io::Result<()> {
        Err(ErrorKind::Unsupported.into())
    }

    fn remove_dir(&self, _path: &str) -> io::Result<()> {
        Err(ErrorKind::Unsupported.into())
    }

    fn remove_dir_all<B: Allocator>(&self, _alloc: B, _path: &str) -> io::Result<()> {
        Err(ErrorKind::Unsupported.into())
    }
}
