//! A runtime that takes and gives one byte a call, and fails once it has taken and given so many.
use std::alloc::Allocator;
use std::cell::{Cell, RefCell};
use std::fmt::Display;
use std::fs::{Metadata, OpenFile, OpenOptions};
use std::io::{self, ErrorKind, Read, Seek, SeekFrom, Write};
use std::rt::Files;

/// The runtime, over another one's files; its output is kept.
#[derive(Drop)]
pub(crate) struct Slow<R> {
    pub(crate) rt: R,
    /// How many bytes go through each file, and through the output, before its calls fail.
    pub(crate) good: usize,
    /// How many calls of the output were made.
    pub(crate) calls: Cell<u64>,
    /// What the output has taken.
    pub(crate) out: RefCell<Vec<u8>>,
}

/// A file of the runtime, and how many bytes still go through it.
#[derive(Drop)]
pub(crate) struct SlowFile<F: Drop> {
    file: F,
    left: usize,
}

fn broken() -> io::Error {
    io::Error::from(ErrorKind::Other)
}

impl<R> Print for Slow<R> {
    fn print<D: Display + Drop>(&self, _value: D) -> io::Result<()> {
        Err(broken())
    }

    fn println<D: Display + Drop>(&self, _value: D) -> io::Result<()> {
        Err(broken())
    }

    fn write_all(&self, _bytes: &[u8]) -> io::Result<()> {
        Err(broken())
    }

    fn write_some(&self, bytes: &[u8]) -> io::Result<usize> {
        self.calls.set(self.calls.get().saturating_add(1));
        let Ok(mut out) = self.out.try_borrow_mut() else {
            return Err(broken());
        };
        match bytes.first() {
            None => Ok(0),
            Some(_) if out.len() >= self.good => Err(broken()),
            Some(byte) => match out.push(*byte) {
                Ok(()) => Ok(1),
                Err(_) => Err(broken()),
            },
        }
    }
}

impl<F: Read + Drop> Read for SlowFile<F> {
    fn read(&mut self, buf: &mut [u8]) -> io::Result<usize> {
        if self.left == 0 {
            return Err(broken());
        }
        self.left -= 1;
        let most = buf.len().min(1);
        self.file.read(&mut buf[..most])
    }
}

impl<F: Write + Drop> Write for SlowFile<F> {
    fn write(&mut self, buf: &[u8]) -> io::Result<usize> {
        if self.left == 0 {
            return Err(broken());
        }
        self.left -= 1;
        let most = buf.len().min(1);
        self.file.write(&buf[..most])
    }

    fn flush(&mut self) -> io::Result<()> {
        self.file.flush()
    }
}

impl<F: Seek + Drop> Seek for SlowFile<F> {
    fn seek(&mut self, to: SeekFrom) -> io::Result<u64> {
        self.file.seek(to)
    }
}

impl<F: OpenFile + Drop> OpenFile for SlowFile<F> {
    fn metadata(&self) -> io::Result<Metadata> {
        self.file.metadata()
    }

    fn set_len(&self, size: u64) -> io::Result<()> {
        self.file.set_len(size)
    }

    fn sync_all(&self) -> io::Result<()> {
        self.file.sync_all()
    }

    fn sync_data(&self) -> io::Result<()> {
        self.file.sync_data()
    }
}

impl<R: Files> Files for Slow<R> {
    type File = SlowFile<R::File>;

    type Dir = R::Dir;

    fn open_file(&self, how: &OpenOptions, path: &str) -> io::Result<SlowFile<R::File>> {
        Ok(SlowFile {
            file: self.rt.open_file(how, path)?,
            left: self.good,
        })
    }

    fn open_dir(&self, path: &str) -> io::Result<R::Dir> {
        self.rt.open_dir(path)
    }

    fn metadata(&self, path: &str) -> io::Result<Metadata> {
        self.rt.metadata(path)
    }

    fn symlink_metadata(&self, path: &str) -> io::Result<Metadata> {
        self.rt.symlink_metadata(path)
    }

    fn copy(&self, from: &str, to: &str) -> io::Result<u64> {
        self.rt.copy(from, to)
    }

    fn rename(&self, from: &str, to: &str) -> io::Result<()> {
        self.rt.rename(from, to)
    }

    fn remove_file(&self, path: &str) -> io::Result<()> {
        self.rt.remove_file(path)
    }

    fn create_dir(&self, path: &str) -> io::Result<()> {
        self.rt.create_dir(path)
    }

    fn remove_dir(&self, path: &str) -> io::Result<()> {
        self.rt.remove_dir(path)
    }

    fn remove_dir_all<B: Allocator>(&self, alloc: B, path: &str) -> io::Result<()> {
        self.rt.remove_dir_all(alloc, path)
    }
}
