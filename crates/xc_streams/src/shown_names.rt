//! What messages say of where a fault is.
ghost use Rattle.std.specs.Prelude.{◌≡◌, ◌<◌, ◌++◌, IfOk, OnOk, flat_map, length, map, option_copied, slice_get};
ghost use Rattle.xc_streams.specs.ShownNames.{hex_digit, is_unescaped, shown_byte, source_text, IsSource};

use std::alloc::{AllocError, Global};

/// The name of the file with this number, from 0, or none where no file is named.
pub fn source_at(files: &[Vec<u8>], number: usize) -> Option<&[u8]>
    ensures named { IsSource (map (λ w. w.items) files.now) (option_copied result) }
    ensures numbered { number < length files.now → option_copied result
        ≡ slice_get (map (λ w. w.items) files.now) number }
{
    if files.is_empty() {
        return None;
    }
    let last = files.len() - 1;
    Some(files[number.min(last)].as_slice())
}

/// A hexadecimal digit.
fn hex_digit(n: u8) -> u8
    requires { n < 16 }
    ensures { result ≡ hex_digit n }
{
    if n < 10 { b'0' + n } else { b'a' - 10 + n }
}

/// Whether a byte is shown as it is.
fn is_unescaped(byte: u8) -> bool
    ensures { result ≡ is_unescaped byte }
{
    byte >= b' ' && byte <= b'~' && byte != b'\\'
}

/// Puts a byte of a name at a text's end.
fn put_byte(text: &mut Vec<u8>, byte: u8) -> Result<(), AllocError>
    ensures { OnOk result (text.new.items ≡ text.old.items ++ shown_byte byte) }
{
    if is_unescaped(byte) {
        text.extend_from_slice(&[byte])
    } else {
        text.extend_from_slice(&[b'\\', b'x', hex_digit(byte / 16), hex_digit(byte % 16)])
    }
}

/// Puts a name at a text's end.
fn put_name(text: &mut Vec<u8>, name: &[u8]) -> Result<(), AllocError>
    ensures { OnOk result (text.new.items ≡ text.old.items ++ flat_map shown_byte name.now) }
{
    for byte in name {
        put_byte(text, *byte)?;
    }
    Ok(())
}

/// The front of a message about a file, or about standard input.
pub fn source_text(alloc: Global, file: Option<&[u8]>) -> Result<Vec<u8>, AllocError>
    ensures { IfOk result (λ text. text.items ≡ source_text (option_copied file.entry)) }
{
    let mut text = Vec::new(alloc);
    match file {
        Some(name) => {
            put_name(&mut text, name)?;
            text.extend_from_slice(b": ")?;
        }
        None => text.extend_from_slice(b"standard input: ")?,
    }
    Ok(text)
}
