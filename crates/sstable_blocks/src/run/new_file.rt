//! Files that take the place of others whole: the new one is written beside the old one, under its
//! name and `.sst-new`, and then renamed over it.
ghost use Rattle.std.specs.Prelude.{◌≡◌, ◌⊎◌, IfErr, IsOkUnless};
ghost use Rattle.sstable_blocks.specs.declared.run.new_file.NotMade.TheVariants.{Memory};

use super::sync::BufferedFile;
use sst_base::{Error, Result};
use std::alloc::{AllocError, Global};
use std::fs::{File, Metadata, OpenFile, OpenOptions};
use std::io::ErrorKind;
use std::os::unix::fs::MetadataExt;
use std::path::{Path, PathBuf};
use std::rt::Files;
use std::{fs, io};

// The greatest number of symbolic links that are followed, which is Linux's.
const MAX_LINKS: usize = 40;

/// A runtime whose files can be locked.
pub trait LockFiles: Files {
    /// Locks a file until its last handle is closed.
    ///
    /// # Errors
    ///
    /// `Error::Io` if another opening of the file is locked, or it cannot be locked.
    fn lock(&self, file: &Self::File) -> Result<()>
        ensures { IsOkUnless result Error.Io };
}

impl LockFiles for HostRuntime {
    fn lock(&self, file: &File) -> Result<()> {
        match file.try_lock() {
            Ok(()) => Ok(()),
            Err(_) => Err(Error::Io),
        }
    }
}

/// Why no new file is made.
#[derive(Clone, Copy, Debug, thiserror::Error)]
pub enum NotMade {
    /// What has the name is no regular file, or has no path that a file could be renamed to.
    #[error("no regular file")]
    NotRegular,
    /// The folder takes no new file, for this cause.
    #[error("{0}")]
    ClosedFolder(io::Error),
    /// What has the new file's name is no file of its own: no regular file, or one of two names.
    #[error("what lies at its name and `.sst-new` is no file of its own")]
    Taken,
    /// Another run writes the new file.
    #[error("another run writes it")]
    Busy,
    /// A call of the system failed.
    #[error("{0}")]
    Io(io::Error),
    /// An allocation failed.
    #[error("out of memory")]
    Memory,
}

impl From<io::Error> for NotMade {
    fn from(error: io::Error) -> NotMade {
        NotMade::Io(error)
    }
}

impl From<AllocError> for NotMade {
    ghost from_gives = { λ _ error. error ≡ Memory };

    fn from(_error: AllocError) -> NotMade {
        NotMade::Memory
    }
}

// A regular file that is replaced, or made: its path, and what is there.
#[derive(Drop)]
struct Replaced {
    path: PathBuf,
    old: Option<Metadata>,
}

/// A new file, locked and empty. It takes the place of the file of its name by
/// [`NewFile::put_in_place`]; until then it lies beside it, under its name and `.sst-new`.
///
/// A run that is killed leaves it there, and a later one writes it anew. The lock is held until it
/// is renamed or removed, so two runs never write one file.
#[derive(Drop)]
pub struct NewFile<'r, R: LockFiles> {
    rt: &'r R,
    file: R::File,
    path: String,
    replaced: Replaced,
}

// Returns the path that a symbolic link leads to, or `None` if none is at the path.
fn link_at<R: Files>(
    rt: &R,
    alloc: Global,
    path: Path<'_>,
) -> std::result::Result<Option<PathBuf>, NotMade> {
    let to = match rt.read_link(alloc, path.as_str()) {
        Ok(to) => to,
        Err(error) if error.kind() == ErrorKind::OutOfMemory => return Err(NotMade::Memory),
        Err(_) => return Ok(None),
    };
    // (a relative link begins at the folder that it is in)
    let folder = path.parent().unwrap_or(Path::new(""));
    Ok(Some(folder.join(alloc, to.as_path())?))
}

// Follows the symbolic links at a path, and returns the path of what is no link, or of nothing.
fn end_of_links<R: Files>(
    rt: &R,
    alloc: Global,
    name: &str,
) -> std::result::Result<PathBuf, NotMade> {
    let mut path = PathBuf::from_str(alloc, name)?;
    for _ in 0..MAX_LINKS {
        match link_at(rt, alloc, path.as_path())? {
            Some(next) => path = next,
            None => return Ok(path),
        }
    }
    Err(NotMade::Io(io::Error::from(ErrorKind::FilesystemLoop)))
}

// Whether two files are one.
fn is_same(a: &Metadata, b: &Metadata) -> bool {
    a.dev() == b.dev() && a.ino() == b.ino()
}

// Whether a path, whose last part is no symbolic link, is that of a file.
fn is_path_of<R: Files>(rt: &R, path: &str, file: &Metadata) -> bool {
    match fs::symlink_metadata(rt, path) {
        Ok(found) => is_same(&found, file),
        Err(_) => false,
    }
}

// Returns the file that one of this name replaces. A file that may not be written is not replaced.
fn replaced_by<R: Files>(
    rt: &R,
    alloc: Global,
    name: &str,
) -> std::result::Result<Replaced, NotMade> {
    let path = end_of_links(rt, alloc, name)?;
    let found = match fs::metadata(rt, name) {
        Ok(found) => found,
        Err(error) if error.kind() == ErrorKind::NotFound => {
            return Ok(Replaced { path, old: None });
        }
        Err(error) => return Err(NotMade::Io(error)),
    };
    if !found.is_file() || !is_path_of(rt, path.as_str(), &found) {
        return Err(NotMade::NotRegular);
    }
    OpenOptions::new().write(true).open(rt, name)?;
    let old = Some(found);
    Ok(Replaced { path, old })
}

// Whether a folder takes no new file, as the failure to make one says.
fn is_closed_folder(kind: ErrorKind) -> bool {
    match kind {
        ErrorKind::PermissionDenied | ErrorKind::ReadOnlyFilesystem | ErrorKind::InvalidFilename =>
            true,
        _ => false,
    }
}

// Whether a file is one that a run has made: a regular file with no other name.
fn is_own(file: &Metadata) -> bool {
    file.is_file() && file.nlink() == 1
}

// Opens a new file: it is made, or a run that was killed has left it. What it holds is left.
fn open_new<R: Files>(rt: &R, path: &str) -> std::result::Result<R::File, NotMade> {
    // (a pipe would be waited for)
    if let Ok(found) = fs::symlink_metadata(rt, path)
        && !is_own(&found)
    {
        return Err(NotMade::Taken);
    }
    match OpenOptions::new().write(true).create(true).open(rt, path) {
        Ok(file) => Ok(file),
        Err(error) if is_closed_folder(error.kind()) => Err(NotMade::ClosedFolder(error)),
        Err(error) => Err(NotMade::Io(error)),
    }
}

// Locks the new file at a path.
fn lock_new<R: LockFiles>(rt: &R, path: &str, file: &R::File) -> std::result::Result<(), NotMade> {
    if rt.lock(file).is_err() {
        return Err(NotMade::Busy);
    }
    // (another run may have renamed or removed the file between its opening and its lock)
    let found = file.metadata()?;
    if !is_path_of(rt, path, &found) {
        return Err(NotMade::Busy);
    }
    if is_own(&found) {
        Ok(())
    } else {
        Err(NotMade::Taken)
    }
}

// Empties a new file, and gives it the permissions of the one that it replaces.
fn empty_new<F: OpenFile>(file: &F, replaced: &Replaced) -> io::Result<()> {
    file.set_len(0)?;
    match &replaced.old {
        Some(old) => file.set_permissions(old.permissions()),
        None => Ok(()),
    }
}

// Syncs the folder of a path, so that a rename in it lasts. A folder that cannot be opened or
// synced is left: the file is whole under either name.
fn sync_folder<R: Files>(rt: &R, path: Path<'_>) {
    let folder = match path.parent() {
        Some(folder) if !folder.as_str().is_empty() => folder,
        _ => Path::new("."),
    };
    if let Ok(folder) = fs::open(rt, folder) {
        let _ = folder.sync_all();
    }
}

impl<'r, R: LockFiles> NewFile<'r, R> {
    /// Makes the new file for a name. A symbolic link stays, and the file that it leads to is
    /// replaced; its permissions stay too, its owner does not.
    ///
    /// # Errors
    ///
    /// See [`NotMade`]. Nothing is made, emptied or removed then, but for a new file of this run.
    pub fn create(
        rt: &'r R,
        alloc: Global,
        name: &str,
    ) -> std::result::Result<NewFile<'r, R>, NotMade> {
        let replaced = replaced_by(rt, alloc, name)?;
        let path = format!(in alloc; "{}.sst-new", replaced.path.as_str())?;
        let file = open_new(rt, path.as_str())?;
        lock_new(rt, path.as_str(), &file)?;
        if let Err(error) = empty_new(&file, &replaced) {
            let _ = fs::remove_file(rt, path.as_str());
            return Err(NotMade::Io(error));
        }
        Ok(NewFile {
            rt,
            file,
            path,
            replaced,
        })
    }

    /// Returns whether there is a file that this one will replace.
    pub fn is_replacement(&self) -> bool {
        fs::symlink_metadata(self.rt, self.replaced.path.as_path()).is_ok()
    }

    /// Returns the file through a buffer, to be written and synced.
    ///
    /// # Errors
    ///
    /// `Error::Io` if there is no further handle of the file, `Error::Memory` if an allocation
    /// fails.
    pub fn writer(&self, alloc: Global) -> Result<BufferedFile<R::File>>
        ensures { IfErr result (λ e. (e ≡ Error.Io) ⊎ (e ≡ Error.Memory)) }
    {
        BufferedFile::new(alloc, self.file.try_clone()?)
    }

    /// Renames the file over the one of its name, and syncs the folder, so that the rename lasts.
    /// Where the folder cannot be opened or synced, no error is returned: the file is whole under
    /// either name, but after a power cut it may be the old one that is there.
    ///
    /// # Errors
    ///
    /// Those of the system. The new file is then removed, and the one of its name is as it was.
    pub fn put_in_place(self) -> io::Result<()> {
        let to = self.replaced.path.as_path();
        if let Err(error) = fs::rename(self.rt, self.path.as_str(), to) {
            let _ = fs::remove_file(self.rt, self.path.as_str());
            return Err(error);
        }
        sync_folder(self.rt, to);
        Ok(())
    }

    /// Removes the file. The one of its name is as it was.
    pub fn discard(self) {
        let _ = fs::remove_file(self.rt, self.path.as_str());
    }
}
