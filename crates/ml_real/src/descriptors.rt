// Opens, makes and removes files and folders, for one user alone. No file gets the number of a standard stream.
use std::fs::{DirBuilder, File, OpenOptions};
use std::io::ErrorKind;
use std::os::fd::AsRawFd;
use std::os::unix::fs::{DirBuilderExt, OpenOptionsExt};
use std::{fs, io};

// Only the user that the program runs as may use the list's files and folders: whoever can read the list's key can make its cookies.
const FILE_MODE: u32 = 0o600;

const FOLDER_MODE: u32 = 0o700;

// The system's ENFILE and EMFILE.
const TOO_MANY_OF_MACHINE: i32 = 23;

const TOO_MANY_OF_PROCESS: i32 = 24;

/// Opens a file to sync it.
pub(crate) fn open_to_sync(rt: &HostRuntime, path: &str) -> io::Result<File> {
    let (file, _) = open_to_read(rt, path)?;
    Ok(file)
}

/// Opens a file to read it, and answers how many bytes it has.
pub(crate) fn open_to_read(rt: &HostRuntime, path: &str) -> io::Result<(File, u64)> {
    let len = regular(rt, path)?;
    Ok((above_streams(File::open(rt, path)?)?, len))
}

/// Opens a file that is there to read and to write it, with its bytes as they are.
pub(crate) fn open_to_change(rt: &HostRuntime, path: &str) -> io::Result<File> {
    regular(rt, path)?;
    above_streams(OpenOptions::new().read(true).write(true).open(rt, path)?)
}

/// Opens a file to read and to write it, with its bytes as they are, and makes it if it is missing. If something is there, it
/// is a regular file, as `length_of` finds.
pub(crate) fn open_to_write(rt: &HostRuntime, path: &str) -> io::Result<File> {
    open_made(rt, path, false)
}

/// Opens a file to write it from nothing. What an earlier run left of it is gone then.
pub(crate) fn open_anew(rt: &HostRuntime, path: &str) -> io::Result<File> {
    length_of(rt, path)?;
    open_made(rt, path, true)
}

// Opens a file to read and to write it, without its bytes if `is_emptied`, and makes it if it is missing.
fn open_made(rt: &HostRuntime, path: &str, is_emptied: bool) -> io::Result<File> {
    let file = OpenOptions::new()
        .read(true)
        .write(true)
        .create(true)
        .truncate(is_emptied)
        .mode(FILE_MODE)
        .open(rt, path)?;
    above_streams(file)
}

/// Removes a file, if it is there.
pub(crate) fn remove_file(rt: &HostRuntime, path: &str) -> io::Result<()> {
    for _ in 0..u64::MAX {
        match fs::remove_file(rt, path) {
            Err(error) if error.kind() == ErrorKind::Interrupted => {}
            Err(error) if error.kind() == ErrorKind::NotFound => return Ok(()),
            answer => return answer,
        }
    }
    Err(ErrorKind::Interrupted.into())
}

/// Whether a file couldn't be opened because this process or the whole machine has no descriptor left.
pub(crate) fn lacks_descriptor(error: &io::Error) -> bool {
    matches!(
        error.raw_os_error(),
        Some(TOO_MANY_OF_MACHINE | TOO_MANY_OF_PROCESS)
    )
}

/// Opens a folder to sync it.
pub(crate) fn open_folder(rt: &HostRuntime, path: &str) -> io::Result<File> {
    if !fs::metadata(rt, path)?.is_dir() {
        return Err(ErrorKind::NotADirectory.into());
    }
    above_streams(File::open(rt, path)?)
}

/// Makes a folder, and answers whether it wasn't there.
pub(crate) fn make_folder(rt: &HostRuntime, path: &str) -> io::Result<bool> {
    for _ in 0..u64::MAX {
        match DirBuilder::new().mode(FOLDER_MODE).create(rt, path) {
            Ok(()) => return Ok(true),
            Err(error) if error.kind() == ErrorKind::Interrupted => {}
            Err(error) if error.kind() == ErrorKind::AlreadyExists => return Ok(false),
            Err(error) => return Err(error),
        }
    }
    Err(ErrorKind::Interrupted.into())
}

/// The length of a regular file, or None if nothing is there.
pub(crate) fn length_of(rt: &HostRuntime, path: &str) -> io::Result<Option<u64>> {
    match regular(rt, path) {
        Ok(len) => Ok(Some(len)),
        Err(error) if error.kind() == ErrorKind::NotFound => Ok(None),
        Err(error) => Err(error),
    }
}

// The length of a regular file. Anything else there is an error: whoever opens a FIFO waits for another program.
fn regular(rt: &HostRuntime, path: &str) -> io::Result<u64> {
    let found = fs::metadata(rt, path)?;
    if found.is_file() {
        Ok(found.len())
    } else {
        Err(ErrorKind::InvalidInput.into())
    }
}

// A standard stream that was closed leaves its number to the next file that is opened, and what is
// meant for standard output would land in that file. So no file keeps a number below 3: the clone
// has a higher one, and the number is free again, so that a call on the stream fails.
fn above_streams(file: File) -> io::Result<File> {
    if file.as_raw_fd() <= 2 {
        file.try_clone()
    } else {
        Ok(file)
    }
}
