//! A shelf that is a file, which holds the last snapshot.

ghost use Rattle.std.specs.Prelude.{◌≡◌, IfOk};

use crate::shelf::{Shelf, ShelfFault};
use gas_terms::NoMemory;
use std::alloc::Global;
use std::fs::{File, OpenFile};
use std::io::Write;
use std::rt::Files;
use std::{fs, io};

/// Keeps the last snapshot in a file. A snapshot is first written to the draft `PATH.SEAT.tmp`, which is renamed to the path
/// once it is whole. The draft is a new file with the old file's mode: what was at its path is removed, and never followed. A
/// put that fails leaves the old file, and removes the draft. A put fails if anything but a regular file is at the path: a
/// folder, a device, a pipe or a link stays as it is.
#[derive(Drop)]
pub struct FileShelf<R: Files> {
    files: R,
    path: String,
    draft: String,
    failures: u64,
}

impl<R: Files + Drop> FileShelf<R> {
    /// A shelf at the path, for a seat. Writes nothing yet. Fails if memory runs out.
    pub fn new(alloc: Global, files: R, path: &str, seat: u16) -> Result<FileShelf<R>, NoMemory>
        ensures { IfOk result (λ shelf. shelf.failures ≡ 0) }
    {
        let draft = format!(in alloc; "{path}.{seat}.tmp")?;
        let path = String::from_str(alloc, path)?;
        Ok(FileShelf {
            files,
            path,
            draft,
            failures: 0,
        })
    }
}

// Writes the whole draft, with the mode of the old file if there is one.
fn fill<R: Files>(files: &R, file: &mut R::File, path: &str, bytes: &[u8]) -> io::Result<()> {
    if let Ok(old) = fs::metadata(files, path) {
        file.set_permissions(old.permissions())?;
    }
    file.write_all(bytes)?;
    file.sync_all()
}

// Whether there is nothing at the path, or a regular file.
fn is_replaceable<R: Files>(files: &R, path: &str) -> bool {
    match fs::symlink_metadata(files, path) {
        Ok(found) => found.is_file(),
        Err(_) => true,
    }
}

fn replace<R: Files>(files: &R, draft: &str, path: &str, bytes: &[u8]) -> io::Result<()> {
    // A draft that was left here; if it can't be removed, the next call fails.
    fs::remove_file(files, draft).ok();
    let mut file = File::create_new(files, draft)?;
    let filled = fill(files, &mut file, path, bytes);
    let done = filled.and_then(|()| fs::rename(files, draft, path));
    if done.is_err() {
        fs::remove_file(files, draft).ok();
    }
    done
}

impl<R: Files> Shelf for FileShelf<R> {
    ghost failures = { λ s. s.failures };

    fn put(&mut self, bytes: &[u8]) -> Result<(), ShelfFault> {
        let path = self.path.as_str();
        let done = is_replaceable(&self.files, path)
            && replace(&self.files, self.draft.as_str(), path, bytes).is_ok();
        if done {
            return Ok(());
        }
        self.failures = self.failures.saturating_add(1);
        Err(ShelfFault)
    }

    fn failures(&self) -> u64 {
        self.failures
    }
}
