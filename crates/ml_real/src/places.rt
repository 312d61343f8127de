// The folders of a list, and the paths of its files.
use memchr::memchr_iter;
use ml_base::{Name, Set, path};
use std::alloc::{AllocError, Global};
use std::io::ErrorKind;
use std::{io, str};

// Room for a slash and the longest path of a file.
const ROOM: usize = 49;

/// A folder of a list: its own at depth 0, and below that the folders on the way to its files.
#[derive(Clone, Copy, Debug, PartialEq, Eq, PartialOrd, Ord)]
pub(crate) struct Place {
    depth: u8,
    // A file below the folder, the same one for all files there: so a folder has one value.
    file: Name,
}

impl Place {
    /// The list's own folder.
    pub const LIST: Place = Place {
        depth: 0,
        file: Name::LOG,
    };

    /// The folder at this depth on the way to a file.
    pub fn toward(name: Name, depth: u8) -> Place {
        if depth == 0 {
            return Place::LIST;
        }
        let file = match name.kind {
            Name::POST | Name::INDEX | Name::THREADS if depth == 1 => Name::threads(1),
            Name::DIGEST | Name::DIGEST_BOUNCES if depth == 1 => Name::bucket(Set::Digest, 1),
            Name::POST => Name::index(name.at / 100),
            Name::INDEX => name,
            kind => Name { kind, at: 1 },
        };
        Place { depth, file }
    }
}

/// Makes paths below a list's folder, each in the memory of those before.
#[derive(Drop)]
pub(crate) struct Paths<'a> {
    dir: &'a str,
    text: String,
    second: String,
}

impl<'a> Paths<'a> {
    /// No path yet. It takes no memory.
    pub fn new(alloc: Global, dir: &'a str) -> Self {
        Paths {
            dir,
            text: String::new(alloc),
            second: String::new(alloc),
        }
    }

    /// Takes room for all paths to come, so that a sync takes no memory.
    pub fn take_room(&mut self, alloc: Global) -> Result<(), AllocError> {
        let room = self.dir.len().saturating_add(ROOM);
        if self.text.capacity() < room {
            self.text = String::with_capacity(alloc, room)?;
        }
        if self.second.capacity() < room {
            self.second = String::with_capacity(alloc, room)?;
        }
        Ok(())
    }

    /// The path of something below the folder, from its path there.
    pub fn below(&mut self, rest: &[u8]) -> io::Result<&str> {
        set_path(&mut self.text, self.dir, rest)?;
        Ok(self.text.as_str())
    }

    /// The paths of two things below the folder.
    pub fn both(&mut self, one: &[u8], other: &[u8]) -> io::Result<(&str, &str)> {
        set_path(&mut self.text, self.dir, one)?;
        set_path(&mut self.second, self.dir, other)?;
        Ok((self.text.as_str(), self.second.as_str()))
    }

    /// The path of a folder above the list's own, and then a text of at most eight bytes. It takes no memory.
    pub fn above(&mut self, folder: &str, rest: &str) -> io::Result<&str> {
        self.text.clear();
        self.text.push_str(folder)?;
        self.text.push_str(rest)?;
        Ok(self.text.as_str())
    }

    /// The path of a file.
    pub fn file(&mut self, name: Name) -> io::Result<&str> {
        let mut room = [0u8; 48];
        let rest = path_text(name, &mut room)?;
        self.below(rest)
    }

    /// The path of a folder.
    pub fn folder(&mut self, place: Place) -> io::Result<&str> {
        let mut room = [0u8; 48];
        let rest = path_text(place.file, &mut room)?;
        self.below(front(rest, place.depth))
    }
}

// Makes `text` the path of something below a folder, from its path there.
fn set_path(text: &mut String, dir: &str, rest: &[u8]) -> io::Result<()> {
    let Ok(rest) = str::from_utf8(rest) else {
        return Err(ErrorKind::InvalidFilename.into());
    };
    text.clear();
    text.push_str(dir)?;
    text.push_str("/")?;
    text.push_str(rest)?;
    Ok(())
}

// The path of a file below the list's folder. A name outside the table has none.
fn path_text(name: Name, room: &mut [u8; 48]) -> io::Result<&[u8]> {
    if !name.is_in_table() {
        return Err(ErrorKind::InvalidInput.into());
    }
    let len = path(name, room);
    Ok(&room[..len])
}

/// How many folders below the list's own stand on the way to a file.
pub(crate) fn depth_of(name: Name) -> io::Result<u8> {
    let mut room = [0u8; 48];
    let depth = memchr_iter(b'/', path_text(name, &mut room)?).count();
    Ok(u8::try_from(depth).unwrap_or(u8::MAX))
}

// The path as far as the slash of this depth, counted from 1, and a dot at depth 0.
fn front(rest: &[u8], depth: u8) -> &[u8] {
    if depth == 0 {
        return b".";
    }
    memchr_iter(b'/', rest)
        .nth(depth as usize - 1)
        .and_then(|at| rest.get(..at))
        .unwrap_or(rest)
}
