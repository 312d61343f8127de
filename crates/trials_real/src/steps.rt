// One step of a row, and the text of what it answers.
ghost use Rattle.std.specs.Prelude.{◌≡◌};
ghost use Rattle.ml_base.specs.Name as spec;

use ml_base::{Bytes, Name};
use ml_real::RealSite;
use ml_site::{Failed, Site, SiteError};
use std::alloc::{AllocError, Global};
use std::io::ErrorKind;
use std::os::unix::fs::{PermissionsExt, symlink};
use std::test::Fail;
use std::{fs, io};

// A step. Files are given by kind and place.
#[derive(Clone, Copy)]
pub(crate) enum Step {
    // A row of this name begins, with an empty folder `real`.
    Row(&'static str),
    // Another program makes a folder, gives a file these bytes, makes the second path a link to the first, or removes a file.
    MakeFolder(&'static str),
    MakeFile(&'static str, &'static str),
    MakeLink(&'static str, &'static str),
    RemoveLink(&'static str),
    // What is at a path, or `none`, and who may do what with it.
    Bytes(&'static str),
    Mode(&'static str),
    // A run begins on the list in this folder, and the one before it ends.
    Run(&'static str),
    // Of two runs the other one goes on.
    Other,
    // A run ends.
    End,
    // Calls of the run.
    Sync,
    ReadLog,
    WriteLog(u64, &'static str),
    CutLog(u64),
    Read(u8, u64),
    Write(u8, u64, &'static str),
    // All files of a kind, from one place up to but not including another.
    WriteAll(u8, u64, u64, &'static str),
    Remove(u8, u64),
    // The place where a walk over a kind, from one place up to another, may go on.
    Skip(u8, u64, u64),
    // How many of its calls have failed.
    Failures,
}

// The run that goes on, and the other one.
#[derive(Drop)]
pub(crate) struct Runs<'a> {
    rt: &'a HostRuntime,
    run: Option<RealSite<'a>>,
    other: Option<RealSite<'a>>,
}

impl<'a> Runs<'a> {
    pub(crate) fn new(rt: &'a HostRuntime) -> Self {
        Runs {
            rt,
            run: None,
            other: None,
        }
    }

    // Does a step, and gives what it answered.
    pub(crate) fn answer(&mut self, step: Step) -> Result<Bytes, Fail> {
        match step {
            Step::Run(dir) => self.run = Some(RealSite::new(self.rt, dir)),
            Step::End => self.run = None,
            Step::Other => {
                let run = self.run.take();
                self.run = self.other.take();
                self.other = run;
            }
            _ => return self.done(step),
        }
        Ok(Bytes::from_slice(self.rt.alloc(), b"ok")?)
    }

    fn done(&mut self, step: Step) -> Result<Bytes, Fail> {
        let alloc = self.rt.alloc();
        if let Some(bytes) = beside(self.rt, step)? {
            return Ok(bytes);
        }
        let Some(site) = &mut self.run else {
            return Ok(Bytes::from_slice(alloc, b"no run")?);
        };
        Ok(told(alloc, call(alloc, site, step))?)
    }
}

// What a step of another program answers, or None if the step isn't one of these.
fn beside(rt: &HostRuntime, step: Step) -> io::Result<Option<Bytes>> {
    match step {
        Step::Row(_) => {
            let _ = fs::remove_dir_all(rt, "real");
            fs::create_dir(rt, "real")?;
        }
        Step::MakeFolder(path) => fs::create_dir_all(rt, path)?,
        Step::MakeFile(path, text) => fs::write(rt, path, text.as_bytes())?,
        Step::MakeLink(to, path) => symlink(rt, to, path)?,
        Step::RemoveLink(path) => fs::remove_file(rt, path)?,
        Step::Bytes(path) => return Ok(Some(bytes_of(rt, path)?)),
        Step::Mode(path) => return Ok(Some(mode_of(rt, path)?)),
        _ => return Ok(None),
    }
    Ok(Some(Bytes::from_slice(rt.alloc(), b"ok")?))
}

fn bytes_of(rt: &HostRuntime, path: &str) -> io::Result<Bytes> {
    match fs::read(rt, path) {
        Ok(bytes) => Ok(Bytes::from_vec(bytes)),
        Err(error) if error.kind() == ErrorKind::NotFound => {
            Ok(Bytes::from_slice(rt.alloc(), b"none")?)
        }
        Err(error) => Err(error),
    }
}

// The mode, in octal digits.
fn mode_of(rt: &HostRuntime, path: &str) -> io::Result<Bytes> {
    let mode = fs::metadata(rt, path)?.permissions().mode() & 0o777;
    let text = format!(in rt.alloc(); "{mode:o}")?;
    Ok(Bytes::from_slice(rt.alloc(), text.as_bytes())?)
}

// The text of a call's answer.
fn told(alloc: Global, answer: Result<Bytes, SiteError>) -> Result<Bytes, AllocError> {
    match answer {
        Ok(bytes) => Ok(bytes),
        Err(SiteError::Failed) => Bytes::from_slice(alloc, b"failed"),
        Err(SiteError::Memory) => Bytes::from_slice(alloc, b"no memory"),
    }
}

fn plain(answer: Result<(), Failed>) -> Result<(), SiteError> {
    match answer {
        Ok(()) => Ok(()),
        Err(Failed) => Err(SiteError::Failed),
    }
}

// What a call of a run answers.
fn call(alloc: Global, site: &mut RealSite<'_>, step: Step) -> Result<Bytes, SiteError> {
    match step {
        Step::Sync => plain(site.sync())?,
        Step::ReadLog => return site.read_log(alloc),
        Step::WriteLog(at, text) => site.write_log(alloc, at, text.as_bytes())?,
        Step::CutLog(len) => plain(site.cut_log(len))?,
        Step::Failures => {
            let text = format!(in alloc; "{}", site.failures())?;
            return Ok(Bytes::from_slice(alloc, text.as_bytes())?);
        }
        _ => return call_on_file(alloc, site, step),
    }
    Ok(Bytes::from_slice(alloc, b"ok")?)
}

fn call_on_file(alloc: Global, site: &mut RealSite<'_>, step: Step) -> Result<Bytes, SiteError> {
    match step {
        Step::Read(kind, at) => return read(alloc, site, Name { kind, at }),
        Step::Write(kind, at, text) => write(alloc, site, Name { kind, at }, text)?,
        Step::WriteAll(kind, from, end, text) => {
            for at in from..end {
                write(alloc, site, Name { kind, at }, text)?;
            }
        }
        Step::Remove(kind, at) => remove(alloc, site, Name { kind, at })?,
        Step::Skip(kind, from, end) => return skip(alloc, site, kind, from, end),
        _ => return Ok(Bytes::from_slice(alloc, b"no call")?),
    }
    Ok(Bytes::from_slice(alloc, b"ok")?)
}

// Whether a site's calls accept the name.
fn is_file(name: Name) -> bool
    ensures { result ≡ spec.is_file name }
{
    name.is_in_table() && name.kind != 0
}

fn read(alloc: Global, site: &mut RealSite<'_>, name: Name) -> Result<Bytes, SiteError> {
    if !is_file(name) {
        return Ok(Bytes::from_slice(alloc, b"no file")?);
    }
    match site.read_file(alloc, name)? {
        Some(bytes) => Ok(bytes),
        None => Ok(Bytes::from_slice(alloc, b"none")?),
    }
}

fn write(alloc: Global, site: &mut RealSite<'_>, name: Name, text: &str) -> Result<(), SiteError> {
    if !is_file(name) {
        return Err(SiteError::Memory);
    }
    site.write_file(alloc, name, text.as_bytes())
}

fn remove(alloc: Global, site: &mut RealSite<'_>, name: Name) -> Result<(), SiteError> {
    if !is_file(name) {
        return Err(SiteError::Memory);
    }
    site.remove_file(alloc, name)
}

fn skip(
    alloc: Global,
    site: &mut RealSite<'_>,
    kind: u8,
    from: u64,
    end: u64,
) -> Result<Bytes, SiteError> {
    if from > end {
        return Ok(Bytes::from_slice(alloc, b"no range")?);
    }
    let at = site.skip_files(alloc, kind, from, end)?;
    let text = format!(in alloc; "{at}")?;
    Ok(Bytes::from_slice(alloc, text.as_bytes())?)
}
