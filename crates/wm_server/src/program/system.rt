//! What the program asks of the system that it runs on. Its definitions are in specs/program/Systems.
//! Tests: session_tests/src/programs.
ghost use Rattle.std.specs.Prelude.{⊤, ℕ, List, Option, Some, None, IfSome, MatchResult};

use std::fs::{File, Files};
use wm_disk::{DeviceFailed, Disk};
use wm_file::{FileDisk, Unknown};

/// A system with state files. What its calls did is a relation between the moments before and after each,
/// so all that a program did of the system is a chain of calls.
pub trait System {
    /// A state file that is open.
    type File: Disk + Drop;

    /// The file of a path was opened, or that was refused.
    ghost opens: { Self → List ℕ → Option Self.File → Self → Type 0 };

    /// A new file was made, or that was refused.
    ghost creates: { Self → List ℕ → Option Self.File → Self → Type 0 };

    /// The file of a path was opened, or made if none was there; or that was refused.
    ghost readies: { Self → List ℕ → Option Self.File → Self → Type 0 };

    /// An open file was let go.
    ghost closes: { Self → Self.File → Self → Type 0 };

    /// The file of a path was taken away, or that was refused.
    ghost removes: { Self → List ℕ → Self → Type 0 };

    /// Opens a state file that is there. `DeviceFailed` where it isn't there, there is no right to it, another
    /// program has it, or it can't be opened else: then nothing stays open.
    fn open(&mut self, path: &str) -> Result<Self::File, DeviceFailed>
        ensures { MatchResult result (λ file. opens self.old path.now (Some file) self.new) (λ _. opens self.old path.now None self.new) };

    /// Makes a file that wasn't there. `DeviceFailed` where something is there or it can't be made, locked or
    /// synced: then a file that was made is taken away again, where that can be done.
    fn create(&mut self, path: &str) -> Result<Self::File, DeviceFailed>
        ensures { MatchResult result (λ file. creates self.old path.now (Some file) self.new) (λ _. creates self.old path.now None self.new) };

    /// Opens a file that is there, or makes it, and makes its name durable. `DeviceFailed` if something is there that
    /// can't be opened, as by `open`, and if it can't be made, locked or synced.
    fn open_or_create(&mut self, path: &str) -> Result<Self::File, DeviceFailed>
        ensures { MatchResult result (λ file. readies self.old path.now (Some file) self.new) (λ _. readies self.old path.now None self.new) };

    /// Lets a file go.
    fn close(&mut self, file: Self::File)
        ensures { closes self.old file self.new };

    /// Takes a file away. Where that can't be done, it stays.
    fn remove(&mut self, path: &str)
        ensures { removes self.old path.now self.new };
}

/// The system of a process, by its files.
#[derive(Drop)]
pub struct Host<'a, F> {
    files: &'a F,
}

impl<'a, F: Files<File = File>> Host<'a, F> {
    /// The system with these files.
    pub fn new(files: &'a F) -> Host<'a, F> {
        Host { files }
    }
}

impl<F: Files<File = File>> System for Host<'_, F> {
    ghost use Rattle.wm_file.specs.FileDisks.{IsJustOpened};

    type File = FileDisk<Unknown>;

    ghost opens = { λ _ _ answer _. IfSome answer (λ file. IsJustOpened file) };

    ghost creates = { λ _ _ answer _. IfSome answer (λ file. IsJustOpened file) };

    ghost readies = { λ _ _ answer _. IfSome answer (λ file. IsJustOpened file) };

    ghost closes = { λ _ _ _. ⊤ };

    ghost removes = { λ _ _ _. ⊤ };

    fn open(&mut self, path: &str) -> Result<FileDisk<Unknown>, DeviceFailed> {
        FileDisk::open(self.files, path)
    }

    fn create(&mut self, path: &str) -> Result<FileDisk<Unknown>, DeviceFailed> {
        FileDisk::create(self.files, path)
    }

    fn open_or_create(&mut self, path: &str) -> Result<FileDisk<Unknown>, DeviceFailed> {
        FileDisk::open_or_create(self.files, path)
    }

    fn close(&mut self, _file: FileDisk<Unknown>) {}

    fn remove(&mut self, path: &str) {
        // Where it can't be taken away, it stays: a start over a part of a file is refused.
        let _taken = self.files.remove_file(path);
    }
}
