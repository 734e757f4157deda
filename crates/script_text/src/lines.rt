//! The lines of a text.
ghost use Rattle.std.specs.Prelude.{◌≡◌, ◌<◌, ◌∷◌, length, option_map, IfOk};
ghost use Rattle.std.specs.List.{position};
ghost use Rattle.script_text.specs.Lines.{lines, is_line_end, is_blank, line_data};
ghost use Rattle.serde_json.specs.View.{view};

use memory::OutOfMemory;
use serde_json::Value;
use std::alloc::Global;

/// The first line of a text, and what stands behind it.
pub(crate) fn split_line(text: &[u8]) -> (&[u8], &[u8])
    requires { 0 < length text.now }
    ensures parts { lines text.now ≡ result.0.now ∷ lines result.1.now }
    ensures shorter { length result.1.now < length text.now }
{
    match line_end(text) {
        Some(at) => (&text[..at], &text[at + 1..]),
        None => (text, &[]),
    }
}

/// Where the first line ends, if LF ends it.
fn line_end(text: &[u8]) -> Option<usize>
    ensures { result ≡ position is_line_end text.now }
{
    text.iter().position(|byte| *byte == b'\n')
}

/// Whether a line has spaces, tabs and CR alone.
pub(crate) fn is_blank(line: &[u8]) -> bool
    ensures { result ≡ is_blank line.now }
{
    line.iter()
        .all(|byte| *byte == b' ' || *byte == b'\t' || *byte == b'\r')
}

/// What a line reads as, if it is JSON.
pub(crate) fn read_line(alloc: Global, line: &[u8]) -> Result<Option<Value>, OutOfMemory>
    ensures { IfOk result (λ value. option_map view value ≡ line_data line.now) }
{
    match Value::from_slice(alloc, line) {
        Ok(value) => Ok(Some(value)),
        Err(error) => {
            if error.is_memory() {
                return Err(OutOfMemory);
            }
            Ok(None)
        }
    }
}
