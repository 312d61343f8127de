// The text that the list sends of a message.
ghost use Rattle.std.specs.Prelude.{◌≡◌, ◌++◌, ◌∷◌, [], IfOk, OnOk, codes, replicate};
ghost use Rattle.std.specs.Option.{option_map};
ghost use Rattle.ml_base.specs.Texts.{lf, list_address, post_address, mailing_list_line};
ghost use Rattle.ml_header.specs.Rewriting.{rewritten};
ghost use Rattle.ml_header.specs.Sent as words;
ghost use Rattle.ml_plain.specs.Posting as spec;
ghost use Rattle.ml_post.specs.SentPieces.{first_three, list_field, delivered_line, pointer_line};

use ml_base::Bytes;
use ml_config::Config;
use ml_header::Message;
use std::alloc::{AllocError, Global};

// The names of the fields that are left out.
const LEFT_OUT: &[u8] =
    b"return-path\nreturn-receipt-to\ncontent-length\nprecedence\nlist-post\nlist-help\nlist-unsubscribe\nlist-subscribe\n";

// The text that the list sends of a message.
pub(crate) fn sent_text(
    alloc: Global,
    config: &Config,
    message: &Message<'_>,
) -> Result<Bytes, AllocError>
    ensures { IfOk result (λ text. text ≡ spec.sent_text config.now message.now) }
{
    if !config.flags.t {
        return with_lines(alloc, config, message, None);
    }
    let trailer = list_trailer(alloc, config)?;
    with_lines(alloc, config, message, Some(trailer.as_slice()))
}

// The text, with this trailer if it is due.
fn with_lines(
    alloc: Global,
    config: &Config,
    message: &Message<'_>,
    trailer: Option<&[u8]>,
) -> Result<Bytes, AllocError>
    ensures { IfOk result (λ text. text ≡ rewritten message.now words.left_out (words.list_lines config.now.local config.now.host) (spec.prefix_of config.now) (option_map (λ t. t.now) trailer.entry)) }
{
    let lines = list_lines(alloc, config)?;
    message.rewritten(alloc, LEFT_OUT, lines.as_slice(), prefix(config), trailer)
}

// The prefix of subjects, if they are marked with one.
fn prefix(config: &Config) -> Option<&[u8]>
    ensures { option_map (λ p. p.now) result ≡ spec.prefix_of config.now }
{
    if config.flags.f && !config.prefix.is_empty() {
        Some(config.prefix.as_slice())
    } else {
        None
    }
}

// The trailer's three lines.
fn list_trailer(alloc: Global, config: &Config) -> Result<Bytes, AllocError>
    ensures { IfOk result (λ text. text ≡ words.list_trailer config.now.local config.now.host) }
{
    let mut out = Bytes::new(alloc);
    out.extend(b"---------------------------------------------------------------------\n")?;
    add_pointer(
        &mut out,
        config,
        b"To unsubscribe, mail to ",
        b"unsubscribe",
    )?;
    add_pointer(&mut out, config, b"For help, mail to ", b"help")?;
    Ok(out)
}

// The seven lines at the front.
fn list_lines(alloc: Global, config: &Config) -> Result<Bytes, AllocError>
    ensures { IfOk result (λ text. text ≡ words.list_lines config.now.local config.now.host) }
{
    let mut out = Bytes::new(alloc);
    add_first_lines(&mut out, config)?;
    add_list_field(&mut out, config, b"List-Help: <mailto:", b"help")?;
    add_list_field(
        &mut out,
        config,
        b"List-Unsubscribe: <mailto:",
        b"unsubscribe",
    )?;
    add_list_field(&mut out, config, b"List-Subscribe: <mailto:", b"subscribe")?;
    add_delivered(&mut out, config)?;
    Ok(out)
}

// The first three of them.
fn add_first_lines(out: &mut Bytes, config: &Config) -> Result<(), AllocError>
    ensures { OnOk result (out.new ≡ out.old ++ first_three config.now.local config.now.host) }
{
    add_mailing_list(out, config)?;
    out.extend(b"Precedence: bulk\nList-Post: <mailto:")?;
    add_post_address(out, config)?;
    out.extend(b">\n")?;
    Ok(())
}

// The line that tells mail of the list from other mail.
fn add_mailing_list(out: &mut Bytes, config: &Config) -> Result<(), AllocError>
    ensures { OnOk result (out.new ≡ out.old ++ (mailing_list_line config.now.local config.now.host ++ lf)) }
{
    out.extend(b"Mailing-List: contact ")?;
    add_list_address(out, config, b"help")?;
    out.extend(b"; run by ezmlm\n")?;
    Ok(())
}

// A field with one of the list's addresses, between `mailto:` and `>`.
fn add_list_field(
    out: &mut Bytes,
    config: &Config,
    name: &[u8],
    rest: &[u8],
) -> Result<(), AllocError>
    ensures { OnOk result (out.new ≡ out.old ++ list_field config.now.local config.now.host name.now rest.now) }
{
    out.extend(name)?;
    add_list_address(out, config, rest)?;
    out.extend(b">\n")
}

// The field that says which list it was.
fn add_delivered(out: &mut Bytes, config: &Config) -> Result<(), AllocError>
    ensures { OnOk result (out.new ≡ out.old ++ delivered_line config.now.local config.now.host) }
{
    out.extend(b"Delivered-To: mailing list ")?;
    add_post_address(out, config)?;
    out.push(b'\n')?;
    Ok(())
}

// A line that points to one of the list's addresses.
fn add_pointer(
    out: &mut Bytes,
    config: &Config,
    words: &[u8],
    rest: &[u8],
) -> Result<(), AllocError>
    ensures { OnOk result (out.new ≡ out.old ++ pointer_line config.now.local config.now.host words.now rest.now) }
{
    out.extend(words)?;
    add_list_address(out, config, rest)?;
    out.push(b'\n')
}

// LOCAL@HOST.
fn add_post_address(out: &mut Bytes, config: &Config) -> Result<(), AllocError>
    ensures { OnOk result (out.new ≡ out.old ++ post_address config.now.local config.now.host) }
{
    out.extend(config.local.as_slice())?;
    out.push(b'@')?;
    out.extend(config.host.as_slice())
}

// LOCAL-rest@HOST.
fn add_list_address(out: &mut Bytes, config: &Config, rest: &[u8]) -> Result<(), AllocError>
    ensures { OnOk result (out.new ≡ out.old ++ list_address config.now.local config.now.host rest.now) }
{
    out.extend(config.local.as_slice())?;
    out.push(b'-')?;
    out.extend(rest)?;
    out.push(b'@')?;
    out.extend(config.host.as_slice())
}
