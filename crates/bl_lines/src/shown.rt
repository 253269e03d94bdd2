ghost use Rattle.std.specs.Prelude.{◌≡◌, ◌<◌, ◌++◌, OnOk, IfOk};
ghost use Rattle.std.specs.String.{string_bytes};
ghost use Rattle.bl_commands.specs.Texts.{hex_digit, is_plain, shown_byte, shown_bytes};

use std::alloc::{AllocError, Global};

fn hex_digit(digit: u8) -> u8
    requires { digit < 16 }
    ensures { result ≡ hex_digit digit }
{
    if digit < 10 {
        b'0' + digit
    } else {
        b'a' + (digit - 10)
    }
}

fn is_plain(byte: u8) -> bool
    ensures { result ≡ is_plain byte }
{
    byte >= 0x20 && byte <= 0x7e && byte != b'"' && byte != b'\\'
}

// Adds a byte as it is shown.
fn show_byte(byte: u8, text: &mut String) -> Result<(), AllocError>
    ensures { OnOk result (string_bytes text.new ≡ string_bytes text.old ++ shown_byte byte) }
{
    if is_plain(byte) {
        text.push(char::from(byte))
    } else {
        text.push_str("\\x")?;
        text.push(char::from(hex_digit(byte / 16 % 16)))?;
        text.push(char::from(hex_digit(byte % 16)))
    }
}

/// The bytes as they are shown, which is ASCII.
pub fn shown_bytes(alloc: Global, bytes: &[u8]) -> Result<String, AllocError>
    ensures { IfOk result (λ text. string_bytes text ≡ shown_bytes bytes.now) }
{
    let mut text = String::new(alloc);
    for byte in bytes {
        show_byte(*byte, &mut text)?;
    }
    Ok(text)
}
