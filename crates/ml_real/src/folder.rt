// The folder of a list: reads and writes its log and its files, and holds its lock.
ghost use Rattle.std.specs.Prelude.{◌≤◌, IfOk};

use crate::changes::Changes;
use crate::descriptors::{
    lacks_descriptor, length_of, make_folder, open_folder, open_to_read, open_to_write, remove_file,
};
use crate::file_numbers::Listing;
use crate::log::LOG;
use crate::places::{Paths, Place, depth_of};
use memchr::memchr_iter;
use ml_base::{Bytes, Name};
use std::alloc::{AllocError, Global};
use std::fs::{File, TryLockError};
use std::io::{ErrorKind, Read, Write};
use std::os::unix::fs::FileExt;
use std::time::Duration;
use std::{io, thread};

// The most bytes of a configuration that is kept. One that the program makes has fewer.
const LARGEST_CONFIG: usize = 4096;

// How often a run tries a lock that another run has, and the longest pause between two tries in milliseconds: ten seconds in all.
const LOCK_TRIES: u32 = 205;

const LONGEST_PAUSE: u64 = 50;

/// The folder of a list, which is made and locked at its first use. It counts no faults.
#[derive(Drop)]
pub(crate) struct Folder<'a> {
    rt: &'a HostRuntime,
    dir: &'a str,
    paths: Paths<'a>,
    // The lock ends when this file is closed.
    lock: Option<File>,
    // Whether this run has waited for the lock. It waits once: after that every further call tries the lock once.
    has_waited: bool,
    // The log, once a first sync has found it or a first change has opened it.
    log: Option<File>,
    // The file that was last looked for and wasn't there: every item of a stream asks for the floor, which most lists don't have.
    // The lock keeps others from making it.
    absent: Option<Name>,
    // The configuration, once it was read: every delivery asks for it, and no item changes it.
    config: Option<Bytes>,
    // The last folder that was listed, as long as no file of it was changed: a walk over its files lists it once.
    listing: Option<Listing>,
    changes: Changes,
}

impl<'a> Folder<'a> {
    /// Does nothing yet, and takes no memory.
    pub fn new(rt: &'a HostRuntime, dir: &'a str) -> Self {
        Folder {
            rt,
            dir,
            paths: Paths::new(rt.alloc(), dir),
            lock: None,
            has_waited: false,
            log: None,
            absent: None,
            config: None,
            listing: None,
            changes: Changes::new(rt.alloc()),
        }
    }

    /// Takes the room for paths. After that a first sync takes none of its own.
    pub fn take_room(&mut self, alloc: Global) -> Result<(), AllocError> {
        self.paths.take_room(alloc)
    }

    // Makes the folder and takes its lock, unless that is done. After an error the next call tries again.
    fn ready(&mut self) -> io::Result<()> {
        if self.lock.is_some() {
            return Ok(());
        }
        if self.dir.is_empty() {
            return Err(ErrorKind::NotFound.into());
        }
        self.take_room(self.rt.alloc())?;
        self.make_list()?;
        let path = self.paths.below(b"lock")?;
        length_of(self.rt, path)?;
        let lock = open_to_write(self.rt, path)?;
        let tries = if self.has_waited { 1 } else { LOCK_TRIES };
        self.has_waited = true;
        take_lock(self.rt, &lock, tries)?;
        self.lock = Some(lock);
        Ok(())
    }

    // Makes the list's folder, and those above it, if they are missing. Syncing the list's own entry is left to the first sync.
    fn make_list(&mut self) -> io::Result<()> {
        match make_folder(self.rt, self.dir) {
            Err(error) if error.kind() == ErrorKind::NotFound => {
                self.make_above()?;
                make_folder(self.rt, self.dir)?;
            }
            answer => {
                answer?;
            }
        }
        Ok(())
    }

    // Makes the folders above the list's own that are missing, from the top. Each entry reaches the disk before the next folder
    // is made: otherwise a crash could leave a list to which no path leads. An earlier run may have made the last folder that was
    // there, and may have been killed before it synced its entry; so that entry is synced too.
    fn make_above(&mut self) -> io::Result<()> {
        let dir = self.dir;
        let mut is_first = true;
        for at in memchr_iter(b'/', dir.as_bytes()) {
            if at == 0 {
                continue;
            }
            let Some(above) = dir.get(..at) else {
                return Err(ErrorKind::InvalidFilename.into());
            };
            if make_folder(self.rt, above)? {
                if is_first {
                    sync_folder(self.rt, self.paths.above(above, "/../..")?)?;
                    is_first = false;
                }
                sync_folder(self.rt, self.paths.above(above, "/..")?)?;
            }
        }
        Ok(())
    }

    /// The bytes of the log. A log that isn't there is empty.
    pub fn read_log(&mut self, alloc: Global) -> io::Result<Bytes> {
        self.ready()?;
        match open_to_read(self.rt, self.paths.below(LOG)?) {
            Ok((file, len)) => read_all(alloc, file, len),
            Err(error) if error.kind() == ErrorKind::NotFound => Ok(Bytes::new(alloc)),
            Err(error) => Err(error),
        }
    }

    /// Writes a piece into the log from this byte on.
    pub fn write_log(&mut self, at: u64, bytes: &[u8]) -> io::Result<()> {
        if at == 0 && !bytes.is_empty() && self.changes.lacks_gate() {
            return self
                .changes
                .begin_log(self.rt, &mut self.paths, &mut self.log, bytes);
        }
        self.log()?.write_all_at(bytes, at)
    }

    /// Cuts the log to this many bytes.
    pub fn cut_log(&mut self, len: u64) -> io::Result<()> {
        self.log()?.set_len(len)
    }

    // The log, to change it. It is made if it is missing.
    fn log(&mut self) -> io::Result<&File> {
        self.ready()?;
        self.changes.note_log();
        if self.log.is_none() {
            let path = self.paths.below(LOG)?;
            if length_of(self.rt, path)?.is_none() || self.changes.may_miss_entries() {
                self.changes.note_list();
            }
            self.log = Some(open_to_write(self.rt, path)?);
        }
        match &self.log {
            Some(file) => Ok(file),
            None => Err(ErrorKind::NotFound.into()),
        }
    }

    /// The bytes of a file, or None if it isn't there.
    pub fn read(&mut self, alloc: Global, name: Name) -> io::Result<Option<Bytes>> {
        self.ready()?;
        if self.absent == Some(name) {
            return Ok(None);
        }
        if let Some(bytes) = self.kept(name) {
            return Ok(Some(Bytes::from_slice(alloc, bytes)?));
        }
        match open_to_read(self.rt, self.paths.file(name)?) {
            Ok((file, len)) => {
                let bytes = read_all(alloc, file, len)?;
                self.keep(alloc, name, bytes.as_slice());
                Ok(Some(bytes))
            }
            Err(error) if error.kind() == ErrorKind::NotFound => {
                self.absent = Some(name);
                Ok(None)
            }
            Err(error) => Err(error),
        }
    }

    // The bytes of the configuration, if they are kept and it is this file.
    fn kept(&self, name: Name) -> Option<&[u8]> {
        match &self.config {
            Some(config) if name == Name::CONFIG => Some(config.as_slice()),
            _ => None,
        }
    }

    // Keeps the bytes of a file if it is the configuration, and no larger than one is. If there is no memory for them, they are
    // read again.
    fn keep(&mut self, alloc: Global, name: Name, bytes: &[u8]) {
        if name == Name::CONFIG && bytes.len() <= LARGEST_CONFIG {
            self.config = Bytes::from_slice(alloc, bytes).ok();
        }
    }

    // Forgets what is kept of a file, and of its folder, before it is changed.
    fn forget(&mut self, name: Name) {
        if name == Name::CONFIG {
            self.config = None;
        }
        self.forget_listed(name.kind);
    }

    /// Whether a file is there, by its metadata.
    pub fn has(&mut self, name: Name) -> io::Result<bool> {
        self.ready()?;
        if self.absent == Some(name) {
            return Ok(false);
        }
        let there = length_of(self.rt, self.paths.file(name)?)?.is_some();
        if !there {
            self.absent = Some(name);
        }
        Ok(there)
    }

    /// The first place from this one on for which the folder of a kind has an entry, or `end` if there is none before that. For a kind
    /// whose files aren't drawn it answers `from`.
    pub fn skip(&mut self, kind: u8, from: u64, end: u64) -> io::Result<u64>
        requires { from ≤ end }
        ensures { IfOk result (λ at. (from ≤ at) × (at ≤ end)) }
    {
        if from == end || !matches!(kind, Name::HELD | Name::ENTRY) {
            return Ok(from);
        }
        self.ready()?;
        if !self.is_listed(kind) {
            let folder = Place::toward(Name { kind, at: from }, 1);
            self.listing = None;
            self.listing = Some(Listing::read(self.rt, kind, self.paths.folder(folder)?)?);
        }
        match &self.listing {
            Some(listing) => Ok(listing.first(from, end)),
            None => Ok(from),
        }
    }

    // Whether the last folder that was listed is that of a kind.
    fn is_listed(&self, kind: u8) -> bool {
        match &self.listing {
            Some(listing) => listing.is_of(kind),
            None => false,
        }
    }

    // Forgets what was listed of a kind's folder, before one of its files is changed.
    fn forget_listed(&mut self, kind: u8) {
        if self.is_listed(kind) {
            self.listing = None;
        }
    }

    /// Gives a file these bytes. What is to be synced is noted first, so nothing is written if there is no memory for that.
    pub fn write(&mut self, name: Name, bytes: &[u8]) -> io::Result<()> {
        self.ready()?;
        self.absent = None;
        self.forget(name);
        if let Some(file) = self.changes.kept_file(name) {
            let written = write_whole(&file, u64::MAX, bytes);
            self.changes.keep_file(name, file);
            return written;
        }
        let found = length_of(self.rt, self.paths.file(name)?)?;
        if found.is_none() || self.changes.may_miss_entries() {
            self.changes.note_entry(name)?;
        }
        let is_new = self.changes.note_file(name)?;
        let file = match self.file_to_write(name) {
            Ok(file) => file,
            Err(error) => {
                if is_new {
                    self.changes.forget_file(name);
                }
                return Err(error);
            }
        };
        let written = if found.is_some() && self.changes.may_miss_entries() {
            write_anew(&file, bytes)
        } else {
            write_whole(&file, found.unwrap_or(0), bytes)
        };
        self.changes.keep_file(name, file);
        written
    }

    // Opens a file to write it.
    fn file_to_write(&mut self, name: Name) -> io::Result<File> {
        match self.open_file(name) {
            // There is no descriptor left, but files are kept open for the next sync.
            Err(error) if lacks_descriptor(&error) && self.changes.keeps_files() => {
                self.changes.close_files()?;
                self.open_file(name)
            }
            answer => answer,
        }
    }

    // Opens a file to write it, and makes it and the folders on the way to it if they are missing.
    fn open_file(&mut self, name: Name) -> io::Result<File> {
        match open_to_write(self.rt, self.paths.file(name)?) {
            Err(error) if error.kind() == ErrorKind::NotFound => {
                self.changes.note_folders(name)?;
                self.make_folders(name)?;
                open_to_write(self.rt, self.paths.file(name)?)
            }
            answer => answer,
        }
    }

    fn make_folders(&mut self, name: Name) -> io::Result<()> {
        for depth in 1..=depth_of(name)? {
            make_folder(self.rt, self.paths.folder(Place::toward(name, depth))?)?;
        }
        Ok(())
    }

    /// Removes a file. It is no error if none is there.
    pub fn remove(&mut self, name: Name) -> io::Result<()> {
        self.ready()?;
        self.forget(name);
        self.changes.note_entry(name)?;
        remove_file(self.rt, self.paths.file(name)?)?;
        self.changes.forget_file(name);
        Ok(())
    }

    /// Brings what has changed since the last good sync to the disk. Only the first use takes memory.
    pub fn sync(&mut self) -> io::Result<()> {
        self.ready()?;
        self.changes.sync(self.rt, &mut self.paths, &mut self.log)
    }

    /// Writes bytes to standard output. No byte is kept back.
    pub fn give(&self, bytes: &[u8]) -> io::Result<()> {
        let mut output = self.rt.stdout();
        let mut rest = bytes;
        for _ in 0..u64::MAX {
            if rest.is_empty() {
                return output.flush();
            }
            match output.write(rest) {
                Ok(0) => return Err(ErrorKind::WriteZero.into()),
                Ok(count) => rest = &rest[count..],
                Err(error) if error.kind() == ErrorKind::Interrupted => {}
                Err(error) => return Err(error),
            }
        }
        Err(ErrorKind::Interrupted.into())
    }
}

// The bytes of a file of this length, by one read if the disk gives them at once. The list's lock keeps others from
// changing it meanwhile.
fn read_all(alloc: Global, mut file: File, len: u64) -> io::Result<Bytes> {
    let Ok(len) = usize::try_from(len) else {
        return Err(ErrorKind::FileTooLarge.into());
    };
    let mut bytes = Vec::new(alloc);
    bytes.resize(len, 0)?;
    let filled = fill(&mut file, bytes.as_mut_slice())?;
    bytes.truncate(filled);
    Ok(Bytes::from_vec(bytes))
}

// Reads until the buffer is full or the file ends, and answers how many bytes were read.
fn fill(file: &mut File, buf: &mut [u8]) -> io::Result<usize> {
    let mut filled = 0;
    for _ in 0..u64::MAX {
        if filled >= buf.len() {
            return Ok(filled);
        }
        match file.read(&mut buf[filled..]) {
            Ok(0) => return Ok(filled),
            Ok(count) => filled += count,
            Err(error) if error.kind() == ErrorKind::Interrupted => {}
            Err(error) => return Err(error),
        }
    }
    Err(ErrorKind::Interrupted.into())
}

// Gives a file of at most `most` bytes these bytes and no others.
fn write_whole(file: &File, most: u64, bytes: &[u8]) -> io::Result<()> {
    file.write_all_at(bytes, 0)?;
    let len = bytes.len() as u64;
    if most > len {
        file.set_len(len)
    } else {
        Ok(())
    }
}

// Gives a file these bytes and no others, in none of the blocks that it had.
//
// An earlier run may have written it, and its sync may have failed. ext4 treats a block of a new file as never written until
// a write of it is done. After that write has failed, bytes that are written over it in place read well, and their sync is good,
// yet the file is zeros after the machine restarts. A file that was cut has none of these blocks.
fn write_anew(file: &File, bytes: &[u8]) -> io::Result<()> {
    file.set_len(0)?;
    file.write_all_at(bytes, 0)
}

// Takes the lock of a list, in at most `tries` tries. Most runs hold it only for a moment, so the pauses are short at first.
// A file system that has no locks, or none left, says so at once.
fn take_lock(rt: &HostRuntime, lock: &File, tries: u32) -> io::Result<()> {
    let mut pause: u64 = 1;
    for _ in 1..tries {
        match lock.try_lock() {
            Ok(()) => return Ok(()),
            Err(TryLockError::Error(error)) if error.kind() != ErrorKind::Interrupted => {
                return Err(error);
            }
            Err(_) => thread::sleep(rt, Duration::from_millis(pause)),
        }
        pause = pause.saturating_mul(2).min(LONGEST_PAUSE);
    }
    Ok(lock.try_lock()?)
}

// Brings the entries of a folder above the list's own to the disk.
fn sync_folder(rt: &HostRuntime, path: &str) -> io::Result<()> {
    match open_folder(rt, path) {
        Ok(folder) => folder.sync_all(),
        Err(error) => barred_or(error),
    }
}

/// No error if a folder may not be opened: it isn't this user's, so another one made it before.
pub(crate) fn barred_or(error: io::Error) -> io::Result<()> {
    if error.kind() == ErrorKind::PermissionDenied {
        Ok(())
    } else {
        Err(error)
    }
}
