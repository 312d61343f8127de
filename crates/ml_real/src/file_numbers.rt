// Which numbers the files of a folder have: a folder is listed once, and then asked for the next number.
ghost use Rattle.std.specs.Prelude.{◌≤◌};

use ml_base::{is_drawn, read_number};
use std::io::ErrorKind;
use std::{fs, io};

/// The numbers under which the folder of a kind had an entry when it was listed.
#[derive(Drop)]
pub(crate) struct Listing {
    kind: u8,
    // In ascending order.
    numbers: Vec<u64>,
}

impl Listing {
    /// Lists the folder of a kind. One that isn't there has no entry.
    pub fn read(rt: &HostRuntime, kind: u8, path: &str) -> io::Result<Listing> {
        let mut numbers = Vec::new(rt.alloc());
        match fs::read_dir(rt, path) {
            Ok(entries) => {
                for entry in entries {
                    match entry {
                        Ok(entry) => push_number(&mut numbers, entry.file_name())?,
                        // A name that isn't text isn't one that the program gives.
                        Err(error) if error.kind() == ErrorKind::InvalidFilename => {}
                        Err(error) => return Err(error),
                    }
                }
            }
            Err(error) if error.kind() == ErrorKind::NotFound => {}
            Err(error) => return Err(error),
        }
        numbers.sort_unstable();
        Ok(Listing { kind, numbers })
    }

    /// Whether it is of this kind.
    pub fn is_of(&self, kind: u8) -> bool {
        self.kind == kind
    }

    /// The first number from this one on that has an entry, or `end` if none before that has one.
    pub fn first(&self, from: u64, end: u64) -> u64
        requires { from ≤ end }
        ensures { (from ≤ result) × (result ≤ end) }
    {
        let (Ok(at) | Err(at)) = self.numbers.binary_search(&from);
        match self.numbers.get(at) {
            Some(number) if from <= *number && *number < end => *number,
            _ => end,
        }
    }
}

// Adds the number that a name spells, if it may be drawn. The program spells it in one way, so any other name counts for nothing.
fn push_number(numbers: &mut Vec<u64>, name: &str) -> io::Result<()> {
    match read_number(name.as_bytes()) {
        Some(number) if is_drawn(number) => {
            numbers.push(number)?;
            Ok(())
        }
        _ => Ok(()),
    }
}
