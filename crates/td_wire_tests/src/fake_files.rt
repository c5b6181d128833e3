//! Files of zeros, of any size, that are read in pieces of which each other one is interrupted.

use std::alloc::Allocator;
use std::fs::{FileTimes, Metadata, OpenFile, OpenOptions};
use std::io::{self, ErrorKind, SeekFrom};
use std::rt::Files;

/// A file system whose every file has so many bytes, each of them 0.
#[derive(Drop)]
pub struct Zeros {
    pub size: usize,
}

/// An open file: how many bytes are left, and whether the next read is interrupted.
#[derive(Drop)]
pub struct ZeroFile {
    left: usize,
    interrupted: bool,
}

/// A directory, of which there is none.
#[derive(Drop)]
pub struct NoDirectory;

fn unsupported() -> io::Error {
    io::Error::from(ErrorKind::Unsupported)
}

impl io::Read for ZeroFile {
    fn read(&mut self, buf: &mut [u8]) -> io::Result<usize> {
        self.interrupted = !self.interrupted;
        if self.interrupted {
            return Err(io::Error::from(ErrorKind::Interrupted));
        }
        let size = buf.len().min(self.left);
        self.left -= size;
        Ok(size)
    }
}

impl io::Write for ZeroFile {
    fn write(&mut self, _buf: &[u8]) -> io::Result<usize> {
        Err(unsupported())
    }

    fn flush(&mut self) -> io::Result<()> {
        Err(unsupported())
    }
}

impl io::Seek for ZeroFile {
    fn seek(&mut self, _to: SeekFrom) -> io::Result<u64> {
        Err(unsupported())
    }
}

impl OpenFile for ZeroFile {
    fn metadata(&self) -> io::Result<Metadata> {
        Err(unsupported())
    }

    fn set_len(&self, _size: u64) -> io::Result<()> {
        Err(unsupported())
    }

    fn sync_all(&self) -> io::Result<()> {
        Err(unsupported())
    }

    fn sync_data(&self) -> io::Result<()> {
        Err(unsupported())
    }
}

impl io::Read for NoDirectory {
    fn read(&mut self, _buf: &mut [u8]) -> io::Result<usize> {
        Err(unsupported())
    }
}

impl Files for Zeros {
    type File = ZeroFile;

    type Dir = NoDirectory;

    fn open_file(&self, _how: &OpenOptions, _path: &str) -> io::Result<ZeroFile> {
        Ok(ZeroFile {
            left: self.size,
            interrupted: false,
        })
    }

    fn open_dir(&self, _path: &str) -> io::Result<NoDirectory> {
        Err(unsupported())
    }

    fn metadata(&self, _path: &str) -> io::Result<Metadata> {
        Err(unsupported())
    }

    fn symlink_metadata(&self, _path: &str) -> io::Result<Metadata> {
        Err(unsupported())
    }

    fn copy(&self, _from: &str, _to: &str) -> io::Result<u64> {
        Err(unsupported())
    }

    fn rename(&self, _from: &str, _to: &str) -> io::Result<()> {
        Err(unsupported())
    }

    fn remove_file(&self, _path: &str) -> io::Result<()> {
        Err(unsupported())
    }

    fn create_dir(&self, _path: &str) -> io::Result<()> {
        Err(unsupported())
    }

    fn remove_dir(&self, _path: &str) -> io::Result<()> {
        Err(unsupported())
    }

    fn remove_dir_all<B: Allocator>(&self, _alloc: B, _path: &str) -> io::Result<()> {
        Err(unsupported())
    }
}
