// The log that a run finds, and the new file that takes its place.
use crate::descriptors::{open_anew, open_to_change, remove_file};
use crate::places::Paths;
use std::fs::File;
use std::io::ErrorKind;
use std::os::unix::fs::FileExt;
use std::{fs, io};

/// The log, below the list's folder.
pub(crate) const LOG: &[u8] = b"log";

// The file that is to take the log's name.
const NEW_LOG: &[u8] = b"log.new";

// How many bytes of a log are copied at once.
const PIECE: usize = 65_536;

/// What a run finds of the log.
#[derive(Clone, Copy, PartialEq, Eq)]
pub(crate) enum FoundLog {
    /// No log, or an empty one, or one byte that is no closed gate.
    Little,
    /// One closed gate and nothing else.
    Gate,
    /// More than one byte.
    Records,
}

/// What a run finds of the log, as it reads.
pub(crate) fn find(log: &File) -> io::Result<FoundLog> {
    if byte_at(log, 1)?.is_some() {
        return Ok(FoundLog::Records);
    }
    match byte_at(log, 0)? {
        Some(0) => Ok(FoundLog::Gate),
        _ => Ok(FoundLog::Little),
    }
}

/// Opens the log to change it, if there is one.
pub(crate) fn open_log(rt: &HostRuntime, paths: &mut Paths<'_>) -> io::Result<Option<File>> {
    match open_to_change(rt, paths.below(LOG)?) {
        Ok(log) => Ok(Some(log)),
        Err(error) if error.kind() == ErrorKind::NotFound => Ok(None),
        Err(error) => Err(error),
    }
}

/// The log's bytes, as they read, in a new file.
pub(crate) fn new_log(rt: &HostRuntime, paths: &mut Paths<'_>, log: &File) -> io::Result<File> {
    let new = open_anew(rt, paths.below(NEW_LOG)?)?;
    copy(log, &new)?;
    Ok(new)
}

/// A log's first bytes, in a new file.
pub(crate) fn first_log(rt: &HostRuntime, paths: &mut Paths<'_>, bytes: &[u8]) -> io::Result<File> {
    let new = open_anew(rt, paths.below(NEW_LOG)?)?;
    new.write_all_at(bytes, 0)?;
    Ok(new)
}

/// Gives the new file the log's name. Its bytes are on the disk by then: otherwise a crash could leave the log empty, or half of it.
pub(crate) fn rename_new_log(rt: &HostRuntime, paths: &mut Paths<'_>) -> io::Result<()> {
    let (new, log) = paths.both(NEW_LOG, LOG)?;
    for _ in 0..u64::MAX {
        match fs::rename(rt, new, log) {
            Err(error) if error.kind() == ErrorKind::Interrupted => {}
            answer => return answer,
        }
    }
    Err(ErrorKind::Interrupted.into())
}

/// Removes what an earlier run, or this one, has left of a new file.
pub(crate) fn remove_new_log(rt: &HostRuntime, paths: &mut Paths<'_>) -> io::Result<()> {
    remove_file(rt, paths.below(NEW_LOG)?)
}

// The byte at this place of a file, or None at its end.
fn byte_at(file: &File, at: u64) -> io::Result<Option<u8>> {
    let mut byte = [0u8; 1];
    for _ in 0..u64::MAX {
        match file.read_at(&mut byte, at) {
            Ok(0) => return Ok(None),
            Ok(_) => return Ok(Some(byte[0])),
            Err(error) if error.kind() == ErrorKind::Interrupted => {}
            Err(error) => return Err(error),
        }
    }
    Err(ErrorKind::Interrupted.into())
}

// Copies a file's bytes piece by piece, reading and writing each: a copy that the kernel makes by itself may be of what the disk
// has, and not of what reads give.
fn copy(from: &File, to: &File) -> io::Result<()> {
    let mut piece = [0u8; PIECE];
    let mut at: u64 = 0;
    for _ in 0..u64::MAX {
        match from.read_at(&mut piece, at) {
            Ok(0) => return Ok(()),
            Ok(count) => {
                to.write_all_at(&piece[..count], at)?;
                at = at.saturating_add(count as u64);
            }
            Err(error) if error.kind() == ErrorKind::Interrupted => {}
            Err(error) => return Err(error),
        }
    }
    Err(ErrorKind::Interrupted.into())
}
