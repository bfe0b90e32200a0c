//! The files of a sync, as the operating system has them. Tests: tools/try/feed.
ghost use Rattle.std.specs.Prelude.{⊤};

use crate::sync_system::SyncSystem;
use std::alloc::Global;
use std::fs::{Files, OpenOptions};
use std::io::ErrorKind;
use std::os::unix::fs::OpenOptionsExt;
use std::time::{Clock, Duration, Instant};
use std::{fs, thread};
use wm_disk::NoMemory;

/// The system's files and its clock.
#[derive(Clone, Copy)]
pub struct SyncFiles<'a, R> {
    /// The system that it runs on.
    pub rt: &'a R,
    /// The number of this process.
    pub process: u32,
    /// When the program began.
    pub begun: Instant,
}

/// A file that was made.
#[derive(Drop)]
pub struct SyncFile {
    folder: String,
    path: String,
}

impl<R: Files + Clock> SyncSystem for SyncFiles<'_, R> {
    type Made = SyncFile;

    ghost made_in = { λ _ _ _. ⊤ };

    ghost none_in = { λ _ _. ⊤ };

    ghost gone = { λ _ _. ⊤ };

    ghost removed = { λ _ _. ⊤ };

    ghost passed = { λ _ _. ⊤ };

    /// The file's name is the process's number and the nanoseconds since 1970, as `812.1764368523123456789`.
    fn make(&self, alloc: Global, folder: &str) -> Result<Option<SyncFile>, NoMemory> {
        let process = self.process;
        let nanos = match self.rt.since_1970() {
            Ok(time) => time.as_nanos(),
            Err(_) => 0,
        };
        let folder = String::from_str(alloc, folder)?;
        let path = format!(in alloc; "{folder}/{process}.{nanos}")?;
        let mut options = OpenOptions::new();
        options.write(true).create_new(true).mode(0o600);
        match options.open(self.rt, path.as_str()) {
            Ok(_file) => Ok(Some(SyncFile { folder, path })),
            Err(_) => Ok(None),
        }
    }

    /// A file is gone only if its folder is still there: a folder that was removed says nothing of what the server knows.
    fn is_gone(&self, made: &SyncFile) -> bool {
        match fs::symlink_metadata(self.rt, made.path.as_str()) {
            Ok(_) => false,
            Err(error) => {
                error.kind() == ErrorKind::NotFound
                    && fs::metadata(self.rt, made.folder.as_str()).is_ok()
            }
        }
    }

    fn remove(&self, made: SyncFile) {
        // A file that can't be removed is left for the feed.
        let _removed = fs::remove_file(self.rt, made.path.as_str());
    }

    fn elapsed(&self) -> u64 {
        match Instant::now(self.rt) {
            Ok(now) => u64::try_from(now.duration_since(self.begun).as_micros()).unwrap_or(
                u64::MAX,
            ),
            Err(_) => 0,
        }
    }

    fn sleep(&self, micros: u64) {
        thread::sleep(self.rt, Duration::from_micros(micros));
    }
}
