// What a run has changed and has to bring to the disk before a sync is good.
use crate::descriptors::{length_of, open_folder, open_to_sync};
use crate::folder::barred_or;
use crate::log::{FoundLog, find, first_log, new_log, open_log, remove_new_log, rename_new_log};
use crate::places::{Paths, Place, depth_of};
use ml_base::Name;
use std::alloc::{AllocError, Global};
use std::collections::{BTreeMap, BTreeSet};
use std::fs::File;
use std::io;
use std::io::ErrorKind;

// How many files are kept open until the next sync, of the 1,024 descriptors that a process usually has.
const MOST_KEPT: usize = 256;

/// The log, files and folders that were changed since the last good sync.
#[derive(Drop)]
pub(crate) struct Changes {
    log: bool,
    // Whether the log that this run found is on the disk as it reads.
    is_log_settled: bool,
    // Whether something was changed before the first good sync.
    is_touched: bool,
    // Whether the log that was found is one closed gate: nothing was pending.
    is_closed: bool,
    // Whether the log that was found has no closed gate, and wasn't changed since.
    lacks_gate: bool,
    // Whether every entry that this run found is on the disk, so that only those that it makes or removes have to be synced.
    are_names_settled: bool,
    // The files, each with the descriptor that wrote it, if that is kept: on Linux this one reports a write-back that
    // failed, and one that is opened later may not.
    files: BTreeMap<Name, Option<File>>,
    kept: usize,
    // Whether the list's own folder has an entry that was made, renamed or removed, or that may have been.
    list: bool,
    // The folders below it for which the same holds.
    folders: BTreeSet<Place>,
    // Whether the folder that the list's folder stands in has to be synced.
    outside: bool,
    // Whether a sync has failed. What it had to write may be lost then, and no later one is good.
    is_lost: bool,
}

impl Changes {
    /// The changes that a run begins with. It takes no memory.
    ///
    /// The log and the list's own entry count as changed: an earlier run may have been killed before its sync.
    pub fn new(alloc: Global) -> Self {
        Changes {
            log: true,
            is_log_settled: false,
            is_touched: false,
            is_closed: false,
            lacks_gate: false,
            are_names_settled: false,
            files: BTreeMap::new(alloc),
            kept: 0,
            list: true,
            folders: BTreeSet::new(alloc),
            outside: true,
            is_lost: false,
        }
    }

    /// Notes that the log has changed.
    pub fn note_log(&mut self) {
        self.log = true;
        self.is_touched = true;
        self.lacks_gate = false;
    }

    /// Whether the log that this run found has at most one byte, and that is no closed gate.
    pub fn lacks_gate(&self) -> bool {
        self.lacks_gate
    }

    /// Gives a log that lacks a gate these bytes, at least one. They go into a new file, which is synced and then takes the log's name. So
    /// if one closed gate reads, its block was written well once. Otherwise the sync of a log's first byte could have failed; if a later run
    /// then wrote on in that block, ext4 could show it, call it synced, and have zeros on the disk.
    pub fn begin_log(
        &mut self,
        rt: &HostRuntime,
        paths: &mut Paths<'_>,
        log: &mut Option<File>,
        bytes: &[u8],
    ) -> io::Result<()> {
        self.log = true;
        self.is_touched = true;
        let new = first_log(rt, paths, bytes);
        self.name_log(rt, paths, log, new)
    }

    /// Whether an entry that is there may be missing on the disk: an earlier run that was killed may leave such entries.
    pub fn may_miss_entries(&self) -> bool {
        !self.are_names_settled
    }

    /// Notes that an entry of the list's own folder may have been made.
    pub fn note_list(&mut self) {
        self.list = true;
    }

    /// Notes the folders on the way to a file, whether or not they and the file are there.
    pub fn note_folders(&mut self, name: Name) -> io::Result<()> {
        self.is_touched = true;
        self.list = true;
        for depth in 1..=depth_of(name)? {
            self.folders.insert(Place::toward(name, depth))?;
        }
        Ok(())
    }

    /// Notes what has to be synced when a file's entry is made or removed: its folder, and also the folders on the way to it if
    /// an earlier run may have made them.
    pub fn note_entry(&mut self, name: Name) -> io::Result<()> {
        if !self.are_names_settled {
            return self.note_folders(name);
        }
        match depth_of(name)? {
            0 => self.list = true,
            depth => {
                self.folders.insert(Place::toward(name, depth))?;
            }
        }
        Ok(())
    }

    /// Notes a file that is to be written, and answers whether it wasn't noted yet.
    pub fn note_file(&mut self, name: Name) -> Result<bool, AllocError> {
        if self.files.contains_key(&name) {
            return Ok(false);
        }
        self.files.insert(name, None)?;
        Ok(true)
    }

    /// Forgets a file that was removed or could not be opened: it has nothing to sync.
    pub fn forget_file(&mut self, name: Name) {
        if let Some(Some(_)) = self.files.remove(&name) {
            self.kept = self.kept.saturating_sub(1);
        }
    }

    /// Keeps a noted file open until the next sync, as far as there is room.
    pub fn keep_file(&mut self, name: Name, file: File) {
        if self.kept >= MOST_KEPT {
            return;
        }
        if let Some(place) = self.files.get_mut(&name) {
            *place = Some(file);
            self.kept = self.kept.saturating_add(1);
        }
    }

    /// A file that is kept open. It is kept no longer.
    pub fn kept_file(&mut self, name: Name) -> Option<File> {
        let file = self.files.get_mut(&name)?.take()?;
        self.kept = self.kept.saturating_sub(1);
        Some(file)
    }

    /// Whether files are kept open.
    pub fn keeps_files(&self) -> bool {
        self.kept > 0
    }

    /// Brings the files that are kept open to the disk and closes them. They stay noted.
    pub fn close_files(&mut self) -> io::Result<()> {
        for (_, place) in self.files.iter_mut() {
            if let Some(file) = place.take() {
                note_if_lost(file.sync_data(), &mut self.is_lost)?;
            }
        }
        self.kept = 0;
        Ok(())
    }

    /// Brings all of it to the disk and forgets it. An error forgets nothing that isn't on the disk. It takes no memory.
    pub fn sync(
        &mut self,
        rt: &HostRuntime,
        paths: &mut Paths<'_>,
        log: &mut Option<File>,
    ) -> io::Result<()> {
        if self.is_lost {
            return Err(ErrorKind::Other.into());
        }
        // The files come first: until they are closed there may be no descriptor left for log and folders. The log comes before the
        // folders: if it takes its name anew after a folder was synced, a crash could bring the old one back. Otherwise the order
        // doesn't matter, since no sync is good before all of it is on the disk.
        self.sync_kept_files()?;
        self.sync_closed_files(rt, paths)?;
        self.sync_log(rt, paths, log)?;
        if self.is_list_there(rt, paths) {
            self.list = false;
            self.outside = false;
        }
        self.sync_list(rt, paths)?;
        self.sync_folders(rt, paths)?;
        self.is_touched = true;
        self.are_names_settled = self.is_closed;
        self.log = false;
        self.files.clear();
        self.list = false;
        self.folders.clear();
        self.outside = false;
        Ok(())
    }

    // Whether an earlier run has synced the entries of the log and of the list's folder: without that it would have written no file.
    fn is_list_there(&self, rt: &HostRuntime, paths: &mut Paths<'_>) -> bool {
        self.is_closed && !self.is_touched && has_config(rt, paths)
    }

    // Without it a crash could leave the log without what was written, or with what was cut off.
    fn sync_log(
        &mut self,
        rt: &HostRuntime,
        paths: &mut Paths<'_>,
        log: &mut Option<File>,
    ) -> io::Result<()> {
        if !self.log {
            return Ok(());
        }
        if !self.is_log_settled {
            return self.settle_found_log(rt, paths, log);
        }
        match log {
            Some(file) => note_if_lost(file.sync_data(), &mut self.is_lost),
            None => Ok(()),
        }
    }

    // For the first sync of a run: after it, the log that the run found is on the disk as it reads. What an earlier run wrote may be
    // there in part. If its sync failed, Linux shows bytes that the disk hasn't got, and calls them written.
    fn settle_found_log(
        &mut self,
        rt: &HostRuntime,
        paths: &mut Paths<'_>,
        log: &mut Option<File>,
    ) -> io::Result<()> {
        if log.is_none() {
            *log = open_log(rt, paths)?;
        }
        let standing = match log {
            Some(file) => find(file)?,
            None => FoundLog::Little,
        };
        if standing == FoundLog::Records {
            self.renew_log(rt, paths, log)?;
        } else {
            self.sync_short_log(rt, paths, log.as_ref())?;
        }
        self.is_closed = standing == FoundLog::Gate && !self.is_touched;
        self.lacks_gate = standing == FoundLog::Little;
        self.is_log_settled = true;
        Ok(())
    }

    // A log of at most one byte isn't written anew. A run closes the first gate and syncs that before it cuts the log: so if one closed
    // gate reads, the disk has a closed one too, and nothing counts that it may have after that.
    fn sync_short_log(
        &mut self,
        rt: &HostRuntime,
        paths: &mut Paths<'_>,
        log: Option<&File>,
    ) -> io::Result<()> {
        if let Some(file) = log {
            note_if_lost(file.sync_data(), &mut self.is_lost)?;
        }
        // A run that was killed, before a crash left this log, may have left one.
        remove_new_log(rt, paths)
    }

    // The log's bytes, as they read, go into a new file, which is synced and then takes the log's name; the folder is synced after that.
    // At every instant one of the two is whole under that name. The lock is a file of its own and holds throughout.
    //
    // Any other order could lose answered items in a crash:
    // - bytes written in place are pending until a sync is good: the whole log may be left with any bytes;
    // - if the new file takes the name before it is synced, the name may lead to an empty file, or to half of one;
    // - if the old log is removed before the new one takes its name, there may be none, which counts as an empty one;
    // - if the log is changed before the folder is synced, it may come back as it was, without what was answered since.
    fn renew_log(
        &mut self,
        rt: &HostRuntime,
        paths: &mut Paths<'_>,
        log: &mut Option<File>,
    ) -> io::Result<()> {
        let Some(old) = log else {
            return Ok(());
        };
        let new = new_log(rt, paths, old);
        self.name_log(rt, paths, log, new)
    }

    // Brings a new file to the disk, and gives it the log's name.
    fn name_log(
        &mut self,
        rt: &HostRuntime,
        paths: &mut Paths<'_>,
        log: &mut Option<File>,
        new: io::Result<File>,
    ) -> io::Result<()> {
        match settle_new_log(rt, paths, new, &mut self.is_lost) {
            Ok(new) => {
                *log = Some(new);
                self.list = true;
                self.lacks_gate = false;
                Ok(())
            }
            Err(error) => {
                // Its space may be wanted. If it can't be removed, the next run writes over it.
                let _ = remove_new_log(rt, paths);
                Err(error)
            }
        }
    }

    // Brings the files that are kept open to the disk, closes them and forgets them. Without it a crash could leave a written file
    // with other bytes.
    fn sync_kept_files(&mut self) -> io::Result<()> {
        for (_, place) in self.files.iter() {
            if let Some(file) = place {
                note_if_lost(file.sync_data(), &mut self.is_lost)?;
            }
        }
        self.files.retain(|_, place| place.is_none());
        self.kept = 0;
        Ok(())
    }

    // The same for the files that were closed before. Each of them is opened for it.
    fn sync_closed_files(&mut self, rt: &HostRuntime, paths: &mut Paths<'_>) -> io::Result<()> {
        for (name, _) in self.files.iter() {
            let file = open_to_sync(rt, paths.file(*name)?)?;
            note_if_lost(file.sync_data(), &mut self.is_lost)?;
        }
        Ok(())
    }

    // Without it, after a crash a new file or folder could be missing, a removed file there, or an old log under its name.
    fn sync_list(&mut self, rt: &HostRuntime, paths: &mut Paths<'_>) -> io::Result<()> {
        if self.list {
            let folder = open_folder(rt, paths.folder(Place::LIST)?)?;
            note_if_lost(folder.sync_all(), &mut self.is_lost)?;
        }
        Ok(())
    }

    // The same for the folders below the list's own, and for the one that it stands in.
    fn sync_folders(&mut self, rt: &HostRuntime, paths: &mut Paths<'_>) -> io::Result<()> {
        for place in self.folders.iter() {
            match open_folder(rt, paths.folder(*place)?) {
                Ok(folder) => note_if_lost(folder.sync_all(), &mut self.is_lost)?,
                // Nothing was removed from a folder that isn't there.
                Err(error) => absent_or(error)?,
            }
        }
        if self.outside {
            // Without it a crash could leave all of this and no entry that leads to it.
            match open_folder(rt, paths.below(b"..")?) {
                Ok(folder) => note_if_lost(folder.sync_all(), &mut self.is_lost)?,
                Err(error) => barred_or(error)?,
            }
        }
        Ok(())
    }
}

// A new file, on the disk and under the log's name.
fn settle_new_log(
    rt: &HostRuntime,
    paths: &mut Paths<'_>,
    new: io::Result<File>,
    is_lost: &mut bool,
) -> io::Result<File> {
    let new = new?;
    note_if_lost(new.sync_data(), is_lost)?;
    rename_new_log(rt, paths)?;
    Ok(new)
}

// Whether there is a configuration. It comes with the first change in a list's log.
fn has_config(rt: &HostRuntime, paths: &mut Paths<'_>) -> bool {
    match paths.file(Name::CONFIG) {
        Ok(path) => matches!(length_of(rt, path), Ok(Some(_))),
        Err(_) => false,
    }
}

fn absent_or(error: io::Error) -> io::Result<()> {
    if error.kind() == ErrorKind::NotFound {
        Ok(())
    } else {
        Err(error)
    }
}

// On Linux a sync that failed calls pages clean that never reached the disk: a later sync would be good without them.
fn note_if_lost(synced: io::Result<()>, is_lost: &mut bool) -> io::Result<()> {
    if synced.is_err() {
        *is_lost = true;
    }
    synced
}
