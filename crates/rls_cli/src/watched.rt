//! A file system that tells what changes it, and fails where it is to.

use std::alloc::{Allocator, Global};
use std::cell::{Cell, RefCell};
use std::fs::{Metadata, OpenFile, OpenOptions};
use std::io;
use std::io::{ErrorKind, Read, Seek, SeekFrom, Write};
use std::rt::Files;

/// What was called, and how many calls pass before the one that fails.
#[derive(Drop)]
pub struct Watch {
    alloc: Global,
    told: RefCell<String>,
    left: Cell<u64>,
}

impl Watch {
    /// Nothing was called yet. The call with this number fails, counted from 0.
    pub fn new(alloc: Global, failing: u64) -> Watch {
        Watch {
            alloc,
            told: RefCell::new(String::new(alloc)),
            left: Cell::new(failing),
        }
    }

    /// The calls that changed something or were to, in order, and asks this for no more.
    pub fn told(&self) -> io::Result<String> {
        match self.told.try_borrow() {
            Ok(told) => Ok(told.clone()?),
            Err(_) => Err(io::Error::from(ErrorKind::ResourceBusy)),
        }
    }

    /// Lets a call pass, or fails.
    fn pass(&self) -> io::Result<()> {
        let left = self.left.get();
        self.left.set(left.wrapping_sub(1));
        match left {
            0 => Err(io::Error::from(ErrorKind::BrokenPipe)),
            _ => Ok(()),
        }
    }

    /// Tells a call on a file.
    fn note(&self, call: &str, name: &str) -> io::Result<()> {
        match self.told.try_borrow_mut() {
            Ok(mut told) => {
                told.push_str(call)?;
                told.push_str(name)?;
                Ok(())
            }
            Err(_) => Err(io::Error::from(ErrorKind::ResourceBusy)),
        }
    }
}

/// A file system whose calls are watched.
#[derive(Drop)]
pub struct Watched<'a, R> {
    pub rt: R,
    pub watch: &'a Watch,
}

/// A file of it.
#[derive(Drop)]
pub struct WatchedFile<'a, F> {
    file: F,
    name: String,
    watch: &'a Watch,
}

impl<F: Read> Read for WatchedFile<'_, F> {
    fn read(&mut self, buf: &mut [u8]) -> io::Result<usize> {
        self.watch.pass()?;
        self.file.read(buf)
    }
}

impl<F: Write> Write for WatchedFile<'_, F> {
    fn write(&mut self, buf: &[u8]) -> io::Result<usize> {
        self.watch.pass()?;
        self.watch.note(" write ", self.name.as_str())?;
        self.file.write(buf)
    }

    fn flush(&mut self) -> io::Result<()> {
        self.file.flush()
    }
}

impl<F: Seek> Seek for WatchedFile<'_, F> {
    fn seek(&mut self, to: SeekFrom) -> io::Result<u64> {
        self.watch.pass()?;
        self.file.seek(to)
    }
}

impl<F: OpenFile> OpenFile for WatchedFile<'_, F> {
    fn metadata(&self) -> io::Result<Metadata> {
        self.watch.pass()?;
        self.file.metadata()
    }

    fn set_len(&self, size: u64) -> io::Result<()> {
        self.file.set_len(size)
    }

    fn sync_all(&self) -> io::Result<()> {
        self.watch.pass()?;
        self.watch.note(" sync ", self.name.as_str())?;
        self.file.sync_all()
    }

    fn sync_data(&self) -> io::Result<()> {
        self.file.sync_data()
    }
}

impl<'a, R: Files> Files for Watched<'a, R> {
    type File = WatchedFile<'a, R::File>;

    type Dir = R::Dir;

    fn open_file(&self, how: &OpenOptions, path: &str) -> io::Result<WatchedFile<'a, R::File>> {
        self.watch.pass()?;
        if how.asks_create() {
            self.watch.note(" make ", path)?;
        }
        Ok(WatchedFile {
            name: String::from_str(self.watch.alloc, path)?,
            file: self.rt.open_file(how, path)?,
            watch: self.watch,
        })
    }

    fn open_dir(&self, path: &str) -> io::Result<R::Dir> {
        self.rt.open_dir(path)
    }

    fn metadata(&self, path: &str) -> io::Result<Metadata> {
        self.watch.pass()?;
        self.rt.metadata(path)
    }

    fn symlink_metadata(&self, path: &str) -> io::Result<Metadata> {
        self.rt.symlink_metadata(path)
    }

    fn copy(&self, from: &str, to: &str) -> io::Result<u64> {
        self.rt.copy(from, to)
    }

    fn rename(&self, from: &str, to: &str) -> io::Result<()> {
        self.watch.pass()?;
        self.watch.note(" rename ", to)?;
        self.rt.rename(from, to)
    }

    fn remove_file(&self, path: &str) -> io::Result<()> {
        self.rt.remove_file(path)
    }

    fn create_dir(&self, path: &str) -> io::Result<()> {
        self.rt.create_dir(path)
    }

    fn remove_dir(&self, path: &str) -> io::Result<()> {
        self.rt.remove_dir(path)
    }

    fn remove_dir_all<B: Allocator>(&self, alloc: B, path: &str) -> io::Result<()> {
        self.rt.remove_dir_all(alloc, path)
    }
}
