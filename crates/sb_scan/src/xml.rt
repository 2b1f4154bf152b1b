//! The body of an Error message.

ghost use Rattle.std.specs.Prelude.{◌≡◌, ◌<◌, ◌++◌, IfOk, OnOk, flat_map, chars, codes, decimal};
ghost use Rattle.sb_model.specs.ErrorBody.{error_body, error_characters, escaped_character, lifetime_body, unit_bytes, utf16, utf16_of};

use sb_log::{Body, Text};
use std::alloc::{AllocError, Global};

fn push_unit(body: &mut Vec<u8>, unit: u32) -> Result<(), AllocError>
    requires { unit < 65536 }
    ensures { OnOk result (body.new.items ≡ body.old.items ++ unit_bytes unit) }
{
    body.push((unit % 256) as u8)?;
    body.push((unit / 256) as u8)?;
    Ok(())
}

fn push_character(body: &mut Vec<u8>, character: u32) -> Result<(), AllocError>
    requires { character < 0x110000 }
    ensures { OnOk result (body.new.items ≡ body.old.items ++ utf16_of character) }
{
    if character < 0x10000 {
        push_unit(body, character)
    } else {
        let above = character - 0x10000;
        push_unit(body, 0xd800 + above / 1024)?;
        push_unit(body, 0xdc00 + above % 1024)
    }
}

/// Text of the basic kind, whose characters are its bytes.
fn push_ascii(body: &mut Vec<u8>, bytes: &[u8]) -> Result<(), AllocError>
    ensures { OnOk result (body.new.items ≡ body.old.items ++ flat_map utf16_of bytes.now) }
{
    for byte in bytes {
        push_character(body, u32::from(*byte))?;
    }
    Ok(())
}

fn push_escaped(body: &mut Vec<u8>, character: char) -> Result<(), AllocError>
    ensures { OnOk result (body.new.items ≡ body.old.items ++ flat_map utf16_of (escaped_character character)) }
{
    match character {
        '&' => push_ascii(body, b"&amp;"),
        '<' => push_ascii(body, b"&lt;"),
        '>' => push_ascii(body, b"&gt;"),
        _ => push_character(body, character as u32),
    }
}

fn push_text(body: &mut Vec<u8>, text: &str) -> Result<(), AllocError>
    ensures { OnOk result (body.new.items ≡ body.old.items ++ flat_map utf16_of (flat_map escaped_character (chars text.now))) }
{
    for character in text.chars() {
        push_escaped(body, character)?;
    }
    Ok(())
}

fn error(alloc: Global, code: &[u8], text: &str) -> Result<Body, AllocError>
    ensures { IfOk result (λ body. body ≡ flat_map utf16_of (error_characters code.now (chars text.now))) }
{
    let mut body = Vec::new(alloc);
    push_ascii(
        &mut body,
        b"<Error xmlns=\"http://schemas.microsoft.com/SQL/ServiceBroker/Error\"><Code>",
    )?;
    push_ascii(&mut body, code)?;
    push_ascii(&mut body, b"</Code><Description>")?;
    push_text(&mut body, text)?;
    push_ascii(&mut body, b"</Description></Error>")?;
    Ok(Body::from_vec(body))
}

/// The body of an Error that ended the partner's side: XML in UTF-16LE.
pub fn error_body(alloc: Global, code: u32, text: &Text) -> Result<Body, AllocError>
    ensures { IfOk result (λ body. body ≡ error_body code text.now) }
{
    let digits = format!(in alloc; "{code}")?;
    error(alloc, digits.as_bytes(), text.as_str())
}

/// The body of the Error that a passed lifetime brings.
pub fn lifetime_body(alloc: Global) -> Result<Body, AllocError>
    ensures { IfOk result (λ body. body ≡ lifetime_body) }
{
    error(alloc, b"-1", "The lifetime has passed")
}

/// A text in UTF-16LE, without a mark in front.
pub fn utf16(alloc: Global, text: &str) -> Result<Body, AllocError>
    ensures { IfOk result (λ body. body ≡ utf16 text.now) }
{
    let mut body = Vec::new(alloc);
    for character in text.chars() {
        push_character(&mut body, character as u32)?;
    }
    Ok(Body::from_vec(body))
}
