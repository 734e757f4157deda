//! Bytes as a text: one character a byte, whose number is the byte.
ghost use Rattle.std.specs.Prelude.{◌≡◌, option_map, string_bytes, encode_utf8_all, IfOk};
ghost use Rattle.json_base.specs.Texts.{bytes_of, text_form};
ghost use Rattle.serde_json.specs.View.{view};

use memory::OutOfMemory;
use serde_json::Value;
use std::alloc::Global;

/// The text of these bytes.
fn text_of(alloc: Global, bytes: &[u8]) -> Result<String, OutOfMemory>
    ensures { IfOk result (λ text. string_bytes text ≡ encode_utf8_all bytes.now) }
{
    let mut text = String::new(alloc);
    for byte in bytes {
        text.push(*byte as char)?;
    }
    Ok(text)
}

/// The bytes whose text this is; none where a character is no byte.
fn bytes_of(alloc: Global, text: &str) -> Result<Option<Vec<u8>>, OutOfMemory>
    ensures { IfOk result (λ found. option_map (λ v. v.items) found ≡ bytes_of text.now) }
{
    let mut bytes = Vec::new(alloc);
    for character in text.chars() {
        match u8::try_from(character as u32) {
            Err(_) => return Ok(None),
            Ok(byte) => bytes.push(byte)?,
        }
    }
    Ok(Some(bytes))
}

/// The tree of these bytes.
pub fn bytes_to_json(alloc: Global, bytes: &[u8]) -> Result<Value, OutOfMemory>
    ensures { IfOk result (λ json. view json ≡ text_form.tree bytes.now) }
{
    Ok(Value::String(text_of(alloc, bytes)?))
}

/// The bytes whose tree this is.
pub fn bytes_from_json(
    alloc: Global,
    json: &Value,
    hashes: u8,
) -> Result<Option<Vec<u8>>, OutOfMemory>
    ensures { IfOk result (λ found. option_map (λ v. v.items) found ≡ text_form.read hashes (view json.now)) }
{
    let _hashes = hashes;
    match json.as_str() {
        None => Ok(None),
        Some(text) => bytes_of(alloc, text),
    }
}
