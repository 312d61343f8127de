// The configuration's file, the keys' file and the words of `make`: each call that takes memory once, and failing reads passed on.
use crate::answer_text::{push_bool, push_debug};
use ml_base::{Bytes, Files, Layer, MapFiles, Name, Numbers, PartError, Put};
use ml_config::{
    Config, ConfigError, Former, Keys, config_from_words, initial, key, load, read_config,
    set_keys, write_config,
};
use std::alloc::{AllocError, Global};
use std::collections::BTreeMap;
use std::test::Fail;
use trials_scripts::OnSite;

// Adds what a call answers, or answers false if it isn't one of these: `load` the configuration of the files, and the file that is written of
// it; `zeroed` the first byte of a file of this text that can be 0 without damage; `is_read` whether a text is read as a configuration;
// `absent` configuration and keys, twice; `key` the keys; `set_keys` the keys that are read after they were set; `make` the configuration's
// file by these words; `taken` whether these are words of `make`; `files` the files of a new list by them; and the words of errors.
pub(crate) fn told(
    alloc: Global,
    verb: &str,
    words: &[String],
    files: &mut OnSite,
    out: &mut Bytes,
) -> Result<bool, Fail> {
    if verb == "load" {
        loaded(alloc, files, out)?;
    } else if verb == "absent" {
        absent(alloc, files, out)?;
    } else if verb == "key" {
        keys(alloc, files, out)?;
    } else {
        return told_of_words(alloc, verb, words, out);
    }
    Ok(true)
}

// The same for a call that needs no files.
fn told_of_words(
    alloc: Global,
    verb: &str,
    words: &[String],
    out: &mut Bytes,
) -> Result<bool, Fail> {
    let text = match words.first() {
        Some(word) => word.as_bytes(),
        None => &[],
    };
    if verb == "zeroed" {
        zeroed(alloc, text, out)?;
    } else if verb == "is_read" {
        push_bool(out, is_read(alloc, text)?)?;
    } else if verb == "set_keys" {
        keys_set(alloc, out)?;
    } else if verb == "make" {
        made(alloc, words, out)?;
    } else if verb == "taken" {
        taken(alloc, words, out)?;
    } else if verb == "files" {
        files_of(alloc, words, out)?;
    } else if verb == "config_errors" {
        errors(alloc, out)?;
    } else {
        return Ok(false);
    }
    Ok(true)
}

fn errors(alloc: Global, out: &mut Bytes) -> Result<(), AllocError> {
    let text = format!(in alloc; "{}; {}", ConfigError::Usage, ConfigError::Memory)?;
    out.extend(text.as_bytes())
}

fn is_read(alloc: Global, text: &[u8]) -> Result<bool, AllocError> {
    Ok(read_config(alloc, text)?.is_some())
}

fn loaded<F: Files>(alloc: Global, files: &mut F, out: &mut Bytes) -> Result<(), AllocError> {
    match load(alloc, files) {
        Ok(Some(config)) => push_config(alloc, out, &config),
        Ok(None) => out.extend(b"none"),
        Err(error) => push_debug(alloc, out, &error),
    }
}

// Adds a configuration's values on a line, and then its file.
fn push_config(alloc: Global, out: &mut Bytes, config: &Config) -> Result<(), AllocError> {
    push_debug(alloc, out, &config.flags)?;
    push_value(out, config.local.as_slice())?;
    push_value(out, config.host.as_slice())?;
    push_value(out, config.owner.bytes())?;
    push_value(out, config.prefix.as_slice())?;
    out.push(b' ')?;
    out.push_number(config.max)?;
    out.push(b'\n')?;
    push_file(alloc, out, config)
}

fn push_value(out: &mut Bytes, value: &[u8]) -> Result<(), AllocError> {
    out.push(b' ')?;
    out.extend(value)
}

// Adds the file of a configuration.
fn push_file(alloc: Global, out: &mut Bytes, config: &Config) -> Result<(), AllocError> {
    let file = write_config(alloc, config)?;
    out.extend(file.as_slice())
}

// The file of a configuration with this text, but with 0 for the byte at a place.
fn with_zero(alloc: Global, text: &[u8], at: usize) -> Result<MapFiles, AllocError> {
    let mut bytes = Vec::from_slice(alloc, text)?;
    if let Some(byte) = bytes.get_mut(at) {
        *byte = 0;
    }
    let mut files = BTreeMap::new(alloc);
    files.insert(Name { kind: 1, at: 0 }, Bytes::from_vec(bytes))?;
    Ok(MapFiles::new(files, Numbers::new(alloc)))
}

fn is_damaged(alloc: Global, files: &mut MapFiles) -> bool {
    matches!(
        load(alloc, files),
        Err(PartError::Damaged(Name { kind: 1, at: 0 }))
    )
}

fn zeroed(alloc: Global, text: &[u8], out: &mut Bytes) -> Result<(), AllocError> {
    for at in 0..text.len() {
        if !is_damaged(alloc, &mut with_zero(alloc, text, at)?) {
            out.extend(b"byte ")?;
            out.push_number(at as u64)?;
            out.extend(b": ")?;
            return loaded(alloc, &mut with_zero(alloc, text, at)?, out);
        }
    }
    out.extend(b"none")
}

fn absent(alloc: Global, files: &mut OnSite, out: &mut Bytes) -> Result<(), AllocError> {
    for _ in 0..2 {
        loaded(alloc, files, out)?;
        out.extend(b"; ")?;
        keys(alloc, files, out)?;
        out.extend(b"; ")?;
    }
    Ok(())
}

fn keys<F: Files>(alloc: Global, files: &mut F, out: &mut Bytes) -> Result<(), AllocError> {
    match key(alloc, files) {
        Ok(keys) => push_keys(alloc, out, &keys),
        Err(error) => push_debug(alloc, out, &error),
    }
}

// Adds the bytes of the key, and those of the former one with its moment.
fn push_keys(alloc: Global, out: &mut Bytes, keys: &Keys) -> Result<(), AllocError> {
    push_debug(alloc, out, &keys.key.as_slice())?;
    if let Some(former) = &keys.former {
        out.push(b' ')?;
        push_debug(alloc, out, &former.key.as_slice())?;
        out.push(b' ')?;
        out.push_number(former.changed)?;
    }
    Ok(())
}

fn keys_set(alloc: Global, out: &mut Bytes) -> Result<(), AllocError> {
    let former = Former {
        key: [1; 32],
        changed: 1_000_000_300,
    };
    let set = Keys {
        key: [2; 32],
        former: Some(former),
    };
    let puts = set_keys(alloc, &set)?;
    let files = MapFiles::new(BTreeMap::new(alloc), Numbers::new(alloc));
    keys(alloc, &mut Layer::new(files, puts), out)
}

fn made(alloc: Global, words: &[String], out: &mut Bytes) -> Result<(), AllocError> {
    match config_from_words(alloc, words) {
        Ok(made) => push_file(alloc, out, &made.0),
        Err(error) => push_debug(alloc, out, &error),
    }
}

fn taken(alloc: Global, words: &[String], out: &mut Bytes) -> Result<(), AllocError> {
    match config_from_words(alloc, words) {
        Ok(_) => out.extend(b"taken"),
        Err(error) => push_debug(alloc, out, &error),
    }
}

fn files_of(alloc: Global, words: &[String], out: &mut Bytes) -> Result<(), AllocError> {
    match config_from_words(alloc, words) {
        Ok(made) => push_initial(alloc, out, &made.0, &made.1),
        Err(error) => push_debug(alloc, out, &error),
    }
}

fn push_initial(
    alloc: Global,
    out: &mut Bytes,
    config: &Config,
    key: &[u8; 32],
) -> Result<(), AllocError> {
    let puts = initial(alloc, config, key)?;
    push_puts(out, puts.as_slice())
}

// Adds the kind, place and text of every file.
fn push_puts(out: &mut Bytes, puts: &[Put]) -> Result<(), AllocError> {
    for put in puts {
        out.push_number(put.name.kind as u64)?;
        out.push(b' ')?;
        out.push_number(put.name.at)?;
        match &put.bytes {
            Some(bytes) => push_value(out, bytes.as_slice())?,
            None => out.extend(b" is removed")?,
        }
        out.push(b'|')?;
    }
    Ok(())
}
