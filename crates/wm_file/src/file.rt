//! The real file. No contract can say what a file holds, so it keeps a log of its calls with their answers.
//! Only clauses read the log. Its definitions are in specs/FileDisks and specs/FileEvents.
//! Tests: session_tests/src/programs.
ghost use Rattle.std.specs.Prelude.{◌≡◌, ◌∷◌, [], ℕ, List, length, IfOk, MatchResult};
ghost use Rattle.std.proofs.Common.{inl, refl};
ghost use Rattle.wm_disk.specs.Points.{MayLeave};
ghost use Rattle.wm_file.specs.FileEvents.{measured, read, wrote, synced, measure_failed, read_failed, write_failed, sync_failed, point_after, one_failure_more, failures_of, IsHonest, FileLeftSince};
ghost use Rattle.wm_file.specs.FileLaws.{file_left_now, file_left_last};

use crate::call_log::CallLog;
use std::fs::{File, Files, OpenOptions};
use std::io;
use std::marker::PhantomData;
use std::os::fd::AsRawFd;
use std::os::unix::fs::FileExt;
use std::path::Path;
use wm_disk::{DeviceFailed, Disk, MAX_COUNTER};

/// What a file held, durably, when it was opened. Code over `S: Start` is proved for all contents.
pub trait Start: Drop {
    ghost content: { List ℕ };
}

/// For the real system to name. At this type itself a clause on values says nothing of a file that held bytes.
#[derive(Drop)]
pub struct Unknown;

impl Start for Unknown {
    ghost content = { [] };
}

const MEASURED: u64 = 0;

const READ: u64 = 1;

const WROTE: u64 = 2;

const SYNCED: u64 = 3;

const MEASURE_FAILED: u64 = 4;

const READ_FAILED: u64 = 5;

const WRITE_FAILED: u64 = 6;

const SYNC_FAILED: u64 = 7;

/// An open file, and the log of its calls. Each method makes one call, and then notes it with its answer.
#[derive(Drop)]
struct NotedFile {
    file: File,
    log: CallLog,
}

impl NotedFile {
    fn len(&mut self) -> Result<u64, DeviceFailed>
        ensures noted { MatchResult result
            (λ n. self.new.log.events ≡ measured n ∷ self.old.log.events)
            (λ _. self.new.log.events ≡ measure_failed ∷ self.old.log.events) }
    {
        let Ok(found) = self.file.metadata() else {
            self.log.note(&[MEASURE_FAILED, 0, 0], &[]);
            return Err(DeviceFailed);
        };
        self.log.note(&[MEASURED, 0, found.len()], &[]);
        Ok(found.len())
    }

    fn read_at(&mut self, at: u64, bytes: &mut [u8]) -> Result<(), DeviceFailed>
        ensures noted { MatchResult result
            (λ _. self.new.log.events ≡ read at bytes.new ∷ self.old.log.events)
            (λ _. self.new.log.events ≡ read_failed at (length bytes.old) ∷ self.old.log.events) }
    {
        let len = bytes.len() as u64;
        if self.file.read_exact_at(bytes, at).is_err() {
            self.log.note(&[READ_FAILED, at, len], &[]);
            return Err(DeviceFailed);
        }
        self.log.note(&[READ, at, len], bytes);
        Ok(())
    }

    fn write_at(&mut self, at: u64, bytes: &[u8]) -> Result<(), DeviceFailed>
        ensures noted { MatchResult result
            (λ _. self.new.log.events ≡ wrote at bytes.now ∷ self.old.log.events)
            (λ _. self.new.log.events ≡ write_failed at bytes.now ∷ self.old.log.events) }
    {
        if self.file.write_all_at(bytes, at).is_err() {
            self.log
                .note(&[WRITE_FAILED, at, bytes.len() as u64], bytes);
            return Err(DeviceFailed);
        }
        self.log.note(&[WROTE, at, bytes.len() as u64], bytes);
        Ok(())
    }

    fn sync(&mut self) -> Result<(), DeviceFailed>
        ensures noted { MatchResult result
            (λ _. self.new.log.events ≡ synced ∷ self.old.log.events)
            (λ _. self.new.log.events ≡ sync_failed ∷ self.old.log.events) }
    {
        if self.file.sync_data().is_err() {
            self.log.note(&[SYNC_FAILED, 0, 0], &[]);
            return Err(DeviceFailed);
        }
        self.log.note(&[SYNCED, 0, 0], &[]);
        Ok(())
    }
}

/// A file that held what `S` says when it was opened.
#[derive(Drop)]
pub struct FileDisk<S: Start> {
    file: NotedFile,
    failures: u64,
    start: PhantomData<S>,
    ghost counted: { failures ≡ failures_of file.log.events },
}

fn fault(failures: &mut u64) -> DeviceFailed
    ensures raised { failures.new ≡ one_failure_more failures.old }
{
    if *failures < MAX_COUNTER {
        *failures += 1;
    }
    DeviceFailed
}

// What is meant for a standard stream that was closed must not land in the file.
fn above_standard(file: File) -> io::Result<File> {
    if file.as_raw_fd() <= 2 {
        file.try_clone()
    } else {
        Ok(file)
    }
}

fn sync_folder(files: &impl Files<File = File>, path: &str) -> io::Result<()> {
    let folder = match Path::new(path).parent() {
        Some(folder) if !folder.as_str().is_empty() => folder.as_str(),
        _ => ".",
    };
    File::open(files, folder)?.sync_all()
}

impl<S: Start> FileDisk<S> {
    ghost use Rattle.wm_file.specs.FileDisks.{IsJustOpened};

    fn just_opened(file: File) -> FileDisk<S>
        ensures just_opened { IsJustOpened result }
    {
        FileDisk {
            file: NotedFile {
                file,
                log: CallLog::new(),
            },
            failures: 0,
            start: PhantomData,
        }
    }

    /// Opens a regular file that is there, to read and write it, and makes what it reads durable. The file
    /// is locked until the disk is dropped. `DeviceFailed` where it isn't there, there is no right to it or it
    /// can't be opened else, where it is no regular file, where another program has its lock, and where the
    /// sync failed: then nothing stays open or locked.
    pub fn open(files: &impl Files<File = File>, path: &str) -> Result<FileDisk<S>, DeviceFailed>
        ensures just_opened { IfOk result (λ disk. IsJustOpened disk) }
    {
        let Ok(file) = OpenOptions::new().read(true).write(true).open(files, path) else {
            return Err(DeviceFailed);
        };
        match file.metadata() {
            Ok(found) if found.is_file() => {}
            _ => return Err(DeviceFailed),
        }
        match above_standard(file) {
            Ok(file) if file.try_lock().is_ok() && file.sync_all().is_ok() => {
                Ok(FileDisk::just_opened(file))
            }
            _ => Err(DeviceFailed),
        }
    }

    /// Makes a new file, which holds nothing, locks it until the disk is dropped, and makes its name
    /// durable. `DeviceFailed` where something is there already or it can't be made, and where the lock or the
    /// sync of its folder failed: then the file that was made is taken away again, or stays where that fails.
    pub fn create(files: &impl Files<File = File>, path: &str) -> Result<FileDisk<S>, DeviceFailed>
        requires empty { S.Start.content ≡ [] }
        ensures just_opened { IfOk result (λ disk. IsJustOpened disk) }
    {
        let Ok(file) = File::create_new(files, path) else {
            return Err(DeviceFailed);
        };
        match above_standard(file) {
            Ok(file) if file.try_lock().is_ok() && sync_folder(files, path).is_ok() => {
                Ok(FileDisk::just_opened(file))
            }
            _ => {
                // Where it can't be taken away either, it stays: a start over it is refused.
                let _taken = files.remove_file(path);
                Err(DeviceFailed)
            }
        }
    }

    /// Opens a regular file as `open` does, or makes one as `create` does if nothing is there. The folder of a file that is there is
    /// synced too, since the program that made it may have been killed before it did that. `DeviceFailed` if something is there that `open` refuses, if the file
    /// can't be made, or if the sync of its folder failed: a file that was there stays as it was.
    pub fn open_or_create(
        files: &impl Files<File = File>,
        path: &str,
    ) -> Result<FileDisk<S>, DeviceFailed>
        requires empty { S.Start.content ≡ [] }
        ensures just_opened { IfOk result (λ disk. IsJustOpened disk) }
    {
        match FileDisk::open(files, path) {
            Ok(disk) if sync_folder(files, path).is_ok() => Ok(disk),
            Ok(_) => Err(DeviceFailed),
            Err(_) => FileDisk::create(files, path),
        }
    }
}

impl<S: Start> Disk for FileDisk<S> {
    ghost use Rattle.wm_file.specs.FileDisks.{events_of, file_failures};

    ghost honest = { λ f. IsHonest S.Start.content (events_of f) };

    ghost seen = { λ f. (point_after S.Start.content (events_of f)).seen };

    ghost may_leave = { λ f c. MayLeave (point_after S.Start.content (events_of f)) c };

    ghost moment = { λ f. length (events_of f) };

    ghost left_since = { λ f t c. FileLeftSince S.Start.content (events_of f) t c };

    ghost failures = { λ f. file_failures f };

    ghost reads_stand = { λ f h. inl refl };

    ghost counts_now = { λ f t c h le now. file_left_now S.Start.content (events_of f) t c now };

    ghost only_now = { λ f c h left. file_left_last S.Start.content (events_of f) c left };

    fn len(&mut self) -> Result<u64, DeviceFailed> {
        match self.file.len() {
            Ok(len) => Ok(len),
            Err(_) => Err(fault(&mut self.failures)),
        }
    }

    fn read_at(&mut self, at: u64, bytes: &mut [u8]) -> Result<(), DeviceFailed> {
        match self.file.read_at(at, bytes) {
            Ok(()) => Ok(()),
            Err(_) => Err(fault(&mut self.failures)),
        }
    }

    fn write_at(&mut self, at: u64, bytes: &[u8]) -> Result<(), DeviceFailed> {
        match self.file.write_at(at, bytes) {
            Ok(()) => Ok(()),
            Err(_) => Err(fault(&mut self.failures)),
        }
    }

    fn sync(&mut self) -> Result<(), DeviceFailed> {
        match self.file.sync() {
            Ok(()) => Ok(()),
            Err(_) => Err(fault(&mut self.failures)),
        }
    }
}
