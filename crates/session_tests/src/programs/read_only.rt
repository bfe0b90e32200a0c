//! The files of a runtime, of which none can be written.
use std::alloc::Allocator;
use std::fs::{Files, Metadata, OpenOptions};
use std::io;
use std::io::ErrorKind;

/// Opens or makes what is asked for, but to be read alone. It can take a file away, and does nothing else.
#[derive(Drop)]
pub(super) struct ReadOnly<'a, R>(pub(super) &'a R);

fn unsupported() -> io::Error {
    io::Error::from(ErrorKind::Unsupported)
}

impl<R: Files> Files for ReadOnly<'_, R> {
    type File = R::File;

    type Dir = R::Dir;

    fn open_file(&self, how: &OpenOptions, path: &str) -> io::Result<R::File> {
        let made = how.open(self.0, path)?;
        let opened = OpenOptions::new().read(true).open(self.0, path);
        drop(made);
        opened
    }

    fn open_dir(&self, _path: &str) -> io::Result<R::Dir> {
        Err(unsupported())
    }

    fn metadata(&self, _path: &str) -> io::Result<Metadata> {
        Err(unsupported())
    }

    fn symlink_metadata(&self, _path: &str) -> io::Result<Metadata> {
        Err(unsupported())
    }

    fn copy(&self, _from: &str, _to: &str) -> io::Result<u64> {
        Err(unsupported())
    }

    fn rename(&self, _from: &str, _to: &str) -> io::Result<()> {
        Err(unsupported())
    }

    fn remove_file(&self, path: &str) -> io::Result<()> {
        self.0.remove_file(path)
    }

    fn create_dir(&self, _path: &str) -> io::Result<()> {
        Err(unsupported())
    }

    fn remove_dir(&self, _path: &str) -> io::Result<()> {
        Err(unsupported())
    }

    fn remove_dir_all<B: Allocator>(&self, _alloc: B, _path: &str) -> io::Result<()> {
        Err(unsupported())
    }
}
