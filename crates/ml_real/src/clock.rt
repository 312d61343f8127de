// The system's clock, as a clock that counts its faults.
ghost use Rattle.std.specs.Prelude.{◌≡◌, None};

use ml_base::LAST_MOMENT;
use ml_site::{Clock, Failed};
use std::io;
use std::time::SystemTime;

/// The system's clock.
#[derive(Drop)]
pub struct RealClock<'a> {
    rt: &'a HostRuntime,
    faults: u64,
}

impl<'a> RealClock<'a> {
    /// A clock that hasn't failed yet. It takes no memory.
    pub fn new(rt: &'a HostRuntime) -> Self
        ensures { result.faults ≡ 0 }
    {
        RealClock { rt, faults: 0 }
    }
}

// Seconds since the beginning of 1970. A clock that shows an earlier time is an error.
fn seconds(rt: &HostRuntime) -> io::Result<u64> {
    let now = SystemTime::now(rt)?;
    match now.duration_since(SystemTime::UNIX_EPOCH) {
        Ok(age) => Ok(age.as_secs()),
        Err(_) => Err(io::ErrorKind::InvalidData.into()),
    }
}

impl<'a> Clock for RealClock<'a> {
    ghost shows = { λ _. None };

    ghost faults = { λ s. s.faults };

    fn now(&mut self) -> Result<u64, Failed> {
        match seconds(self.rt) {
            Ok(moment) if moment <= LAST_MOMENT => Ok(moment),
            _ => {
                self.faults = self.faults.saturating_add(1);
                Err(Failed)
            }
        }
    }
}
