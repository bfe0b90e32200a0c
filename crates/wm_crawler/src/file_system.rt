//! What a crawl asks of a system of files, and the files of the operating system.
//! Definitions: specs/FileSystems.antt. Tests: crawler_tests/src/folders.rt.
ghost use Rattle.std.specs.Prelude.{◌≡◌, ◌≢◌, ◌≤◌, ◌<◌, ℕ, List, Option, Some, None, length, take, IfOk, IfErr, OnErr};
ghost use Rattle.std.specs.IoError.{error_kind};
ghost use Rattle.std.specs.declared.io.ErrorKind.TheVariants.{Interrupted};
ghost use Rattle.wm_names.specs.Paths.{Path};
ghost use Rattle.wm_crawler.specs.FileSystems.{GivesNames, Says};
ghost use Rattle.wm_crawler.specs.declared.stat.Stat.{Stat as stat_lem};

use crate::stat::Stat;
use std::fs::Files;
use std::io;
use std::io::Read;
use std::os::unix::fs::MetadataExt;

/// An open folder, which gives its names a part at a time.
pub trait NameReader {
    /// Nothing changes the folder.
    ghost stays: { Self → Type 0 };

    /// The names that weren't given yet, if nothing changes the folder.
    ghost left: { Self → List (List ℕ) };

    /// A read may fail.
    ghost may_fail: { Self → Type 0 };

    /// Puts some of the names that are left into the buffer, each with a zero byte behind it, and returns the number
    /// of their bytes, which is 0 if no name is left. An `Err` of the kind `Interrupted` says that the read may be
    /// tried again.
    fn read_names(&mut self, buffer: &mut [u8]) -> io::Result<usize>
        requires { 0 < length buffer.old }
        ensures bound { IfOk result (λ n. n ≤ length buffer.new) }
        ensures given { IfOk result (λ n. stays self.old → GivesNames (take n buffer.new) (left self.old) (left self.new)) }
        ensures kept { OnErr result (stays self.old → left self.new ≡ left self.old) }
        ensures unchanged { stays self.old → stays self.new }
        ensures failed { IfErr result (λ e. error_kind e ≢ Interrupted → may_fail self.old) }
        ensures faults { may_fail self.new → may_fail self.old };
}

/// The files of a system, by their whole paths. A link at the end of a path isn't followed, unless a slash stands behind it.
pub trait FileSystem {
    /// An open folder.
    type Names: NameReader + Drop;

    /// Nothing changes the files.
    ghost stays: { Self → Type 0 };

    /// The names in the folder at a path, if nothing changes the files; `None` if no folder is there.
    ghost names_at: { Self → Path → Option (List (List ℕ)) };

    /// What the system says of the file at a path, if nothing changes the files; `None` if nothing is there.
    ghost stat_at: { Self → Path → Option stat_lem };

    /// What is asked about a path may fail.
    ghost may_fail: { Self → Path → Type 0 };

    /// Opens the folder at a path.
    fn open_folder(&self, path: &str) -> io::Result<Self::Names>
        ensures opened { IfOk result (λ names. stays self.now → Self.Names.stays names × (names_at self.now path.now ≡ Some (Self.Names.left names))) }
        ensures faults { IfOk result (λ names. Self.Names.may_fail names → may_fail self.now path.now) }
        ensures missing { IfErr result (λ e. Says (error_kind e) (stays self.now → names_at self.now path.now ≡ None) (may_fail self.now path.now)) };

    /// Asks what stands at a path.
    fn stat(&self, path: &str) -> io::Result<Stat>
        ensures found { IfOk result (λ s. stays self.now → stat_at self.now path.now ≡ Some s) }
        ensures missing { IfErr result (λ e. Says (error_kind e) (stays self.now → stat_at self.now path.now ≡ None) (may_fail self.now path.now)) };
}

/// An open folder of the operating system. No contract can say what it holds.
#[derive(Drop)]
pub struct SystemNames<D> {
    dir: D,
}

impl<D: Read> NameReader for SystemNames<D> {
    ghost use Rattle.std.specs.Prelude.{⊤, []};

    ghost stays = { λ _. ⊥ };

    ghost left = { λ _. [] };

    ghost may_fail = { λ _. ⊤ };

    fn read_names(&mut self, buffer: &mut [u8]) -> io::Result<usize> {
        self.dir.read(buffer)
    }
}

/// The files of the operating system. Other programs may change them at any time, so a contract says nothing of
/// what they hold; that they are read as they are is tested.
impl<F: Files> FileSystem for F {
    ghost use Rattle.std.specs.Prelude.{⊤};

    type Names = SystemNames<F::Dir>;

    ghost stays = { λ _. ⊥ };

    ghost names_at = { λ _ _. None };

    ghost stat_at = { λ _ _. None };

    ghost may_fail = { λ _ _. ⊤ };

    fn open_folder(&self, path: &str) -> io::Result<SystemNames<F::Dir>> {
        let dir = self.open_dir(path)?;
        Ok(SystemNames { dir })
    }

    fn stat(&self, path: &str) -> io::Result<Stat> {
        let found = self.symlink_metadata(path)?;
        Ok(Stat {
            mode: found.mode(),
            size: found.len(),
            seconds: found.mtime(),
            nanoseconds: found.mtime_nsec(),
        })
    }
}
