//! The words of the command, as the system gives them.
//!
//! No contract can say what these are. A word is taken as its bytes, since it need not be text.
use memory::OutOfMemory;
use std::alloc::Global;
use std::env::FillError;
use std::rt::Env;

/// The room that is tried first for a word.
const FIRST_ROOM: usize = 256;

/// The words after the program's own name.
pub fn gather<E: Env>(env: &E, alloc: Global) -> Result<Vec<Vec<u8>>, OutOfMemory> {
    let mut words = Vec::new(alloc);
    for place in 1..usize::MAX {
        let Some(word) = word_at(env, alloc, place)? else {
            break;
        };
        words.push(word)?;
    }
    Ok(words)
}

/// The word at a place, where there is one. The room for it is doubled until it fits.
fn word_at<E: Env>(env: &E, alloc: Global, place: usize) -> Result<Option<Vec<u8>>, OutOfMemory> {
    let mut room = FIRST_ROOM;
    for _doubling in 0..usize::BITS {
        let mut bytes = vec![in alloc; 0u8; room]?;
        match env.arg(place, bytes.as_mut_slice()) {
            Ok(count) => {
                bytes.truncate(count);
                return Ok(Some(bytes));
            }
            Err(FillError::NotPresent) => return Ok(None),
            Err(FillError::TooLong) => room = room.saturating_add(room),
        }
    }
    Err(OutOfMemory)
}
