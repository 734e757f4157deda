//! From the words of the command, as bytes, to the status with which the program ends.
ghost use Rattle.std.specs.Prelude.{◌≡◌, ◌⊎◌, map, option_map, IfOk, OnErr};
ghost use Rattle.node_core.specs.Journal.{empty_journal};
ghost use Rattle.table_play.specs.Headline.{IsPlay, IsRunJournal, WantsFirst};
ghost use Rattle.table_play.specs.Words.{IsTexts};

use crate::play::play;
use crate::saying::say;
use line_io::{Sink, Source};
use memory::OutOfMemory;
use node_core::Journal;
use report_text::usage_line;
use script_text::Status;
use std::alloc::Global;
use std::str::from_utf8;

/// The words as text, or none where one of them is no text.
fn texts(alloc: Global, words: &[Vec<u8>]) -> Result<Option<Vec<&str>>, OutOfMemory>
    ensures { IfOk result (λ texts. IsTexts (map (λ word. word.items) words.now)
        (option_map (λ texts. map (λ text. text.now) texts.items) texts)) }
{
    let mut texts = Vec::new(alloc);
    for word in words {
        let Ok(text) = from_utf8(word.as_slice()) else {
            return Ok(None);
        };
        texts.push(text)?;
    }
    Ok(Some(texts))
}

/// Plays as the words ask, which are bytes; one that is no text makes them no command.
fn play_bytes<S: Source, K: Sink>(
    alloc: Global,
    words: &[Vec<u8>],
    source: &mut S,
    sink: &mut K,
    journal: &mut Journal,
) -> Status
    requires { journal.old ≡ empty_journal }
    ensures play { IsPlay (map (λ word. word.items) words.now) result journal.new (S.left source.old) (S.left source.new)
        (S.faults source.old) (S.faults source.new) (K.held sink.old) (K.held sink.new) (K.faults sink.old) (K.faults sink.new)
        ⊎ WantsFirst result journal.new (K.held sink.old) (K.held sink.new) }
    ensures run { IsRunJournal journal.new }
{
    match texts(alloc, words) {
        Err(_) => Status::OutOfMemory,
        Ok(None) => say(sink, usage_line().as_bytes(), Status::Usage),
        Ok(Some(texts)) => play(alloc, texts.as_slice(), source, sink, journal),
    }
}

/// Plays as the words ask that were gathered, or ends for want of the memory that they needed.
pub fn play_command<S: Source, K: Sink>(
    alloc: Global,
    words: &Result<Vec<Vec<u8>>, OutOfMemory>,
    source: &mut S,
    sink: &mut K,
    journal: &mut Journal,
) -> Status
    requires { journal.old ≡ empty_journal }
    ensures play { IfOk words.now (λ words. IsPlay (map (λ word. word.items) words.items) result journal.new (S.left source.old) (S.left source.new)
        (S.faults source.old) (S.faults source.new) (K.held sink.old) (K.held sink.new) (K.faults sink.old) (K.faults sink.new)
        ⊎ WantsFirst result journal.new (K.held sink.old) (K.held sink.new)) }
    ensures wanted { OnErr words.now (WantsFirst result journal.new (K.held sink.old) (K.held sink.new)) }
    ensures untouched { OnErr words.now (S.left source.new ≡ S.left source.old) }
    ensures run { IsRunJournal journal.new }
{
    match words {
        Err(_) => Status::OutOfMemory,
        Ok(words) => play_bytes(alloc, words.as_slice(), source, sink, journal),
    }
}
