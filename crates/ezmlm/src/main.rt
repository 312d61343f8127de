//! ezmlm, a mailing list manager: its words are run over the real input, clock and disk.
#![tactic(auto)]

use ml_command::ezmlm_main;
use ml_real::{RealClock, RealSite, StdSource};
use ml_run::{Why, stop};
use std::env;
use std::io::{self, ErrorKind};
use std::process::ExitCode;

/// The first word names the list's folder, and the others say what to do.
fn main(rt: HostRuntime) -> ExitCode {
    match words(&rt) {
        Ok(words) => run_words(&rt, &words),
        Err(error) if error.kind() == ErrorKind::OutOfMemory => stop_for_memory(&rt),
        // A word that isn't UTF-8 belongs to no command.
        Err(_) => run_words(&rt, &[]),
    }
}

// The words after the program's name.
fn words(rt: &HostRuntime) -> io::Result<Vec<String>> {
    let mut words = Vec::new(rt.alloc());
    for word in env::args(rt)?.skip(1) {
        words.push(word)?;
    }
    Ok(words)
}

// Does what the words after the folder's say. Without a folder there are no words, and no call on the disk is made.
fn run_words(rt: &HostRuntime, words: &[String]) -> ExitCode {
    let mut source = StdSource::new(rt);
    let mut clock = RealClock::new(rt);
    let (dir, rest) = match words {
        [dir, rest @ ..] => (dir.as_str(), rest),
        [] => ("", words),
    };
    let mut site = RealSite::new(rt, dir);
    if site.take_room(rt.alloc()).is_err() {
        return stop_for_memory(rt);
    }
    let (status, _) = ezmlm_main(rt.alloc(), rest, &mut source, site, &mut clock);
    ExitCode::from(status)
}

// Says that memory ran out before anything was done.
fn stop_for_memory(rt: &HostRuntime) -> ExitCode {
    let (status, _) = stop(RealSite::new(rt, ""), Why::Memory);
    ExitCode::from(status)
}
