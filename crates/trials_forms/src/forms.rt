// The calls of the tables, as words: a verb and what it is given. Those on configurations need the files.
use crate::{configuration, texts};
use ml_base::Bytes;
use ml_site::{Fill, Image, MemClock, MemSite, MemSource};
use std::alloc::Global;
use std::test::Fail;
use trials_lists::copy;
use trials_scripts::{OnSite, Program, ended_with};

pub(crate) struct Forms;

// The files of a site, with those of its image.
fn on_site(alloc: Global, site: MemSite, image: &Image) -> Result<OnSite, Fail> {
    let files = copy(alloc, &image.files)?;
    Ok(OnSite { site, files })
}

// What a call on the files of a site answers, or one on words only.
fn answered(alloc: Global, words: &[String], files: &mut OnSite) -> Result<Bytes, Fail> {
    let [verb, words @ ..] = words else {
        return Err(Fail::new("no call"));
    };
    let verb = verb.as_str();
    let mut out = Bytes::new(alloc);
    if !configuration::told(alloc, verb, words, files, &mut out)? {
        texts::told(alloc, verb, words, &mut out)?;
    }
    Ok(out)
}

impl Program for Forms {
    fn ended(
        alloc: Global,
        words: &[String],
        _input: &mut MemSource,
        site: MemSite,
        _clock: &mut MemClock,
    ) -> Result<(u8, MemSite), Fail> {
        let image = site.crash(alloc, 0, Fill::Old)?;
        let text = answered(alloc, words, &mut on_site(alloc, site, &image)?)?;
        ended_with(alloc, 0, image, text.as_slice())
    }
}
