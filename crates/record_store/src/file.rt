//! A file of the system as a disk.
ghost use Rattle.std.specs.Prelude.{◌≡◌, ◌≤◌, false, [], min, ◌+◌, ◌-◌, ◌^◌, IsErr, IsOk, Some, string_bytes, IfOk};
ghost use Rattle.std.specs.Option.{option_map};
ghost use Rattle.record_store.specs.Model.{HasCause, Rose};
ghost use Rattle.record_store.specs.MemoryValue.{quiet_time};

use crate::disk::{Access, Disk, DiskErr};
use std::alloc::{AllocError, Global};
use std::fs::{File, Files, OpenFile, OpenOptions};
use std::os::unix::fs::FileExt;
use std::{fs, io};

/// A file of the system, which is locked while it is open: a second one at the same path fails to open. It tells nothing.
///
/// Each failed call raises the count, which stands still at the end of its type. After a sync that failed every later call
/// fails, since the system may have dropped what was written.
#[derive(Drop)]
pub struct FileDisk<R> {
    alloc: Global,
    files: R,
    file: Option<File>,
    path: Option<String>,
    access: Access,
    lost: bool,
    /// How often it has failed.
    pub faults: u64,
}

impl<R> FileDisk<R> {
    /// A disk on which no file is open.
    pub fn new(alloc: Global, files: R) -> FileDisk<R>
        ensures { result.faults ≡ 0 }
    {
        FileDisk {
            alloc,
            files,
            file: None,
            path: None,
            access: Access::Change,
            lost: false,
            faults: 0,
        }
    }
}

impl<R: Files<File = File> + Drop> Disk for FileDisk<R> {
    ghost tells = { λ _. false };

    ghost time = { λ _. quiet_time [] };

    ghost opened = { λ d. option_map (λ path. record { path = string_bytes path; access = d.access }) d.path };

    ghost faults = { λ d. d.faults };

    fn open(&mut self, path: &str, access: Access) -> Result<(), DiskErr> {
        if self.lost {
            return Err(count(&mut self.faults));
        }
        if let (Ok(copied), Ok(file)) = (
            String::from_str(self.alloc, path),
            open_file(&self.files, path, access),
        ) {
            self.file = Some(file);
            self.path = Some(copied);
            self.access = access;
            return Ok(());
        }
        Err(count(&mut self.faults))
    }

    fn len(&mut self) -> Result<u64, DiskErr> {
        match length_of(&self.file, self.lost) {
            Ok(len) => Ok(len),
            Err(_) => Err(count(&mut self.faults)),
        }
    }

    fn read_at(&mut self, at: u64, room: &mut [u8]) -> Result<(), DiskErr> {
        match read(&self.file, self.lost, at, room) {
            Ok(()) => Ok(()),
            Err(_) => Err(count(&mut self.faults)),
        }
    }

    fn write_at(&mut self, at: u64, bytes: &[u8]) -> Result<(), DiskErr> {
        match write(&self.file, self.lost, at, bytes) {
            Ok(()) => Ok(()),
            Err(_) => Err(count(&mut self.faults)),
        }
    }

    fn sync(&mut self) -> Result<(), DiskErr> {
        match sync(&self.file, self.lost) {
            Ok(()) => Ok(()),
            Err(_) => {
                self.lost = true;
                Err(count(&mut self.faults))
            }
        }
    }
}

/// Counts a failure.
fn count(faults: &mut u64) -> DiskErr
    ensures rose { Rose faults.old faults.new }
    ensures later { faults.old ≤ faults.new }
{
    *faults = faults.saturating_add(1);
    DiskErr::Failed
}

/// The file at the path, opened and locked for this.
fn open_file<R: Files<File = File>>(files: &R, path: &str, access: Access) -> io::Result<File> {
    match access {
        Access::Change => open_to_change(files, path),
        Access::Read => open_to_read(files, path),
    }
}

/// The file at the path, which is made where it is missing, and which no other open file of the system has locked: so two
/// programs never write one store. Of an empty one, which may be new, the folder is synced: the name of a new file is on
/// the disk only then. A device is refused.
fn open_to_change<R: Files<File = File>>(files: &R, path: &str) -> io::Result<File> {
    let file = OpenOptions::new()
        .read(true)
        .write(true)
        .create(true)
        .open(files, path)?;
    file.try_lock()?;
    let about = file.metadata()?;
    if !about.is_file() {
        return Err(io::ErrorKind::InvalidInput.into());
    }
    if about.len() == 0 {
        let folder = OpenOptions::new().read(true).open(files, folder_of(path))?;
        folder.sync_all()?;
    }
    Ok(file)
}

/// The file at the path, which no program that locks it changes while it is read. A folder, a pipe or a device is
/// refused, and not opened.
fn open_to_read<R: Files<File = File>>(files: &R, path: &str) -> io::Result<File> {
    if !fs::metadata(files, path)?.is_file() {
        return Err(io::ErrorKind::InvalidInput.into());
    }
    let file = OpenOptions::new().read(true).open(files, path)?;
    file.try_lock_shared()?;
    Ok(file)
}

/// The folder of a path: what stands before its last `/`.
fn folder_of(path: &str) -> &str {
    match path.rsplit_once('/') {
        Some(("", _)) => "/",
        Some((folder, _)) => folder,
        None => ".",
    }
}

/// The file that is open, if one is and no sync of it has failed.
fn opened(file: &Option<File>, lost: bool) -> io::Result<&File> {
    match file {
        Some(file) if !lost => Ok(file),
        _ => Err(io::ErrorKind::Other.into()),
    }
}

fn length_of(file: &Option<File>, lost: bool) -> io::Result<u64> {
    Ok(opened(file, lost)?.metadata()?.len())
}

fn read(file: &Option<File>, lost: bool, at: u64, room: &mut [u8]) -> io::Result<()> {
    opened(file, lost)?.read_exact_at(room, at)
}

fn write(file: &Option<File>, lost: bool, at: u64, bytes: &[u8]) -> io::Result<()> {
    opened(file, lost)?.write_all_at(bytes, at)
}

/// Waits until the file's bytes and its length are on the disk (`fdatasync`), and not its times, which nothing here reads.
fn sync(file: &Option<File>, lost: bool) -> io::Result<()> {
    opened(file, lost)?.sync_data()
}
