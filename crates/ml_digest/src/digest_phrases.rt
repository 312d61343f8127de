// The words and lines that digests are made of. Each function adds one at the end of a buffer.
ghost use Rattle.std.specs.Prelude.{◌≡◌, ◌++◌, ◌∷◌, [], OnOk, codes, replicate};
ghost use Rattle.std.specs.Fmt.{decimal};
ghost use Rattle.ml_base.specs.Texts.{lf, lines_text, with_line_end, list_address, post_address, mailing_list_line};
ghost use Rattle.ml_digest.specs.Digest.{issue_title, end_line, asterisks};
ghost use Rattle.ml_digest.specs.Steps.{first_text, header_text};

use ml_base::Bytes;
use ml_config::Config;
use std::alloc::AllocError;

// A line made of two parts.
pub(crate) fn add_line(out: &mut Bytes, name: &[u8], value: &[u8]) -> Result<(), AllocError>
    ensures { OnOk result (out.new ≡ out.old ++ (name.now ++ value.now ++ lf)) }
{
    out.extend(name)?;
    out.extend(value)?;
    out.push(b'\n')
}

// An LF, unless the text ends in one.
pub(crate) fn end_text_line(out: &mut Bytes) -> Result<(), AllocError>
    ensures { OnOk result (out.new ≡ with_line_end out.old) }
{
    if out.as_slice().ends_with(b"\n") {
        Ok(())
    } else {
        out.push(b'\n')
    }
}

// NAME Digest Issue I.
pub(crate) fn add_title(out: &mut Bytes, name: &[u8], issue: u64) -> Result<(), AllocError>
    ensures { OnOk result (out.new ≡ out.old ++ issue_title name.now issue) }
{
    out.extend(name)?;
    out.extend(b" Digest Issue ")?;
    out.push_number(issue)
}

// LOCAL-help@HOST.
fn add_help(out: &mut Bytes, config: &Config) -> Result<(), AllocError>
    ensures { OnOk result (out.new ≡ out.old ++ list_address config.now.local config.now.host (codes "help")) }
{
    out.extend(config.local.as_slice())?;
    out.extend(b"-help@")?;
    out.extend(config.host.as_slice())
}

// The line by which mail of the list is known.
fn add_mailing_list(out: &mut Bytes, config: &Config) -> Result<(), AllocError>
    ensures { OnOk result (out.new ≡ out.old ++ (mailing_list_line config.now.local config.now.host ++ lf)) }
{
    out.extend(b"Mailing-List: contact ")?;
    add_help(out, config)?;
    out.extend(b"; run by ezmlm\n")?;
    Ok(())
}

// The line that says whom a digest is from.
fn add_from(out: &mut Bytes, config: &Config) -> Result<(), AllocError>
    ensures { OnOk result (out.new ≡ out.old ++ (codes "From: " ++ list_address config.now.local config.now.host (codes "help") ++ lf)) }
{
    out.extend(b"From: ")?;
    add_help(out, config)?;
    out.push(b'\n')
}

// The line that says whom a digest is for.
fn add_to(out: &mut Bytes, config: &Config) -> Result<(), AllocError>
    ensures { OnOk result (out.new ≡ out.old ++ (codes "To: " ++ post_address config.now.local config.now.host ++ lf)) }
{
    out.extend(b"To: ")?;
    out.extend(config.local.as_slice())?;
    out.push(b'@')?;
    add_line(out, config.host.as_slice(), b"")
}

// The header lines up to the date.
fn add_first_lines(out: &mut Bytes, config: &Config) -> Result<(), AllocError>
    ensures { OnOk result (out.new ≡ out.old ++ first_text config.now) }
{
    add_mailing_list(out, config)?;
    out.extend(b"Precedence: bulk\n")?;
    add_from(out, config)?;
    add_to(out, config)?;
    Ok(())
}

// The header of a digest, and the empty line after it.
pub(crate) fn add_header(
    out: &mut Bytes,
    config: &Config,
    issue: u64,
    date: &[u8],
) -> Result<(), AllocError>
    ensures { OnOk result (out.new ≡ out.old ++ header_text config.now issue date.now) }
{
    add_first_lines(out, config)?;
    add_line(out, b"Date: ", date)?;
    out.extend(b"Subject: ")?;
    add_title(out, config.local.as_slice(), issue)?;
    out.extend(b"\n\n")?;
    Ok(())
}

// The line `End of NAME Digest Issue I`, and a line of as many asterisks as that has bytes.
pub(crate) fn add_end(out: &mut Bytes, name: &[u8], issue: u64) -> Result<(), AllocError>
    ensures { OnOk result (out.new ≡ out.old ++ lines_text (end_line name.now issue ∷ asterisks name.now issue ∷ [])) }
{
    let start = out.len();
    out.extend(b"End of ")?;
    add_title(out, name, issue)?;
    let count = out.len() - start;
    out.push(b'\n')?;
    add_asterisks(out, count)?;
    out.push(b'\n')?;
    Ok(())
}

// As many asterisks as `count`.
fn add_asterisks(out: &mut Bytes, count: usize) -> Result<(), AllocError>
    ensures { OnOk result (out.new ≡ out.old ++ replicate count 42) }
{
    for _ in 0..count {
        out.push(b'*')?;
    }
    Ok(())
}
