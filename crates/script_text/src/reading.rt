//! Reading a script line by line.
ghost use Rattle.std.specs.Prelude.{◌≡◌, OnErr, IfOk, IfErr};
ghost use Rattle.script_text.specs.Lines.{Accepted, read_lines, said, most_line_bytes, take_line, take_json, take_data, take_named, take_setup, take_word, at_first};
ghost use Rattle.script_text.specs.LineReads.{IsTaken, IsScriptRefusedAs};
ghost use Rattle.script_text.specs.Sound.{IsSound};
ghost use Rattle.serde_json.specs.View.{view};

use crate::line_refused::LineRefused;
use crate::lines::{is_blank, read_line, split_line};
use crate::members::text_in;
use crate::shapes::{has_members, is_here};
use crate::words::{setup_of, word_named};
use crate::{Reason, Script, ScriptItem, ScriptRefused, ScriptWord};
use contract_types::Setup;
use memory::OutOfMemory;
use serde_json::Value;
use std::alloc::Global;
use std::collections::BTreeSet;
use std::marker::Model;

/// The most bytes of a line, without its LF.
pub const MOST_LINE_BYTES: usize = 65536;

/// What the lines so far said.
#[derive(Drop)]
struct Reader {
    begun: bool,
    setup: Setup,
    items: Vec<ScriptItem>,
    /// The numbers of operations that the items give.
    known: BTreeSet<u64>,
}

impl Model for Reader {
    ghost use Rattle.std.specs.Prelude.{◌≡◌, ℕ};
    ghost use Rattle.std.specs.Ordering.{nat_cmp};
    ghost use Rattle.std.specs.BTreeSet.{contains};
    ghost use Rattle.script_text.specs.Script.{is_known};
    ghost use Rattle.script_text.specs.Lines.{Reading};

    ghost Value = { Reading };

    ghost view = { λ a. record { begun = a.begun; setup = a.setup; items = a.items.items } };

    ghost invariant = { λ a. (q : ℕ) → contains nat_cmp a.known q ≡ is_known q a.items.items };
}

impl Reader {
    /// Nothing was said so far.
    fn new(alloc: Global) -> Result<Reader, OutOfMemory>
        ensures { IfOk result (λ reader. reader ≡ at_first) }
    {
        let setup = Setup::whole(alloc, 1, 8)?;
        Ok(Reader {
            begun: false,
            setup,
            items: Vec::new(alloc),
            known: BTreeSet::new(alloc),
        })
    }

    /// What was said.
    fn into_script(self) -> Script
        ensures { result ≡ said self }
    {
        Script::new(self.setup, self.items)
    }

    /// Takes the next line, which has this number.
    fn take_line(&mut self, alloc: Global, number: u64, line: &[u8]) -> Result<(), LineRefused>
        ensures { IsTaken result self.new (take_line self.old number line.now) }
    {
        if is_blank(line) {
            return Ok(());
        }
        match read_line(alloc, line)? {
            Some(value) => self.take_json(alloc, number, &value),
            None => Err(LineRefused::Because(Reason::BadJson)),
        }
    }

    /// Takes what a line reads as, if it is an object.
    fn take_json(&mut self, alloc: Global, number: u64, line: &Value) -> Result<(), LineRefused>
        ensures { IsTaken result self.new (take_json self.old number (view line.now)) }
    {
        if !line.is_object() {
            return Err(LineRefused::Because(Reason::BadJson));
        }
        self.take_data(alloc, number, line)
    }

    /// Takes an object with the members of its word, if none is of the other program.
    fn take_data(&mut self, alloc: Global, number: u64, line: &Value) -> Result<(), LineRefused>
        ensures { IsTaken result self.new (take_data self.old number (view line.now)) }
    {
        let name = text_in("do", line).ok_or(Reason::Word)?;
        if !has_members(name, line)? {
            return Err(LineRefused::Because(Reason::Member));
        }
        if !is_here(line) {
            return Err(LineRefused::Because(Reason::NotHere));
        }
        self.take_named(alloc, number, name, line)
    }

    /// Takes the word of this name.
    fn take_named(
        &mut self,
        alloc: Global,
        number: u64,
        name: &str,
        line: &Value,
    ) -> Result<(), LineRefused>
        ensures { IsTaken result self.new (take_named self.old number name.now (view line.now)) }
    {
        if name == "setup" {
            return self.take_setup(alloc, line);
        }
        let word = word_named(alloc, &self.setup, name, line)?;
        self.take_word(number, word)
    }

    /// Takes a setup, if the line is the first that is not blank.
    fn take_setup(&mut self, alloc: Global, line: &Value) -> Result<(), LineRefused>
        ensures { IsTaken result self.new (take_setup self.old (view line.now)) }
    {
        if self.begun {
            return Err(LineRefused::Because(Reason::Place));
        }
        self.setup = setup_of(alloc, line)?;
        self.begun = true;
        Ok(())
    }

    /// Takes a word, if its operation is new.
    fn take_word(&mut self, line: u64, word: ScriptWord) -> Result<(), LineRefused>
        ensures { IsTaken result self.new (take_word self.old line word) }
    {
        self.items.reserve(1)?;
        if let ScriptWord::Request { op, .. } = &word {
            if !self.known.insert(op.0)? {
                return Err(LineRefused::Because(Reason::OpKnown));
            }
        }
        self.items.push_reserved(ScriptItem { line, word });
        self.begun = true;
        Ok(())
    }
}

/// Reads a script to its end, or to the first line that is refused.
///
/// Its first line may set up the table; without one the table has one shard, one node and eight hashes. The first
/// line that is refused is told with the first reason that holds of it, unless a line up to it has more than
/// 65,536 bytes without its LF.
pub fn read_script(alloc: Global, text: &[u8]) -> Result<Script, ScriptRefused>
    ensures ok { IfOk result (λ script. read_lines text.now ≡ Accepted script) }
    ensures sound { IfOk result IsSound }
    ensures refused { IfErr result (λ why. IsScriptRefusedAs why (read_lines text.now)) }
{
    let mut reader = match Reader::new(alloc) {
        Ok(reader) => reader,
        Err(_no_memory) => return Err(ScriptRefused::OutOfMemory),
    };
    let mut rest = text;
    let mut number = 0;
    while !rest.is_empty() {
        let (line, after) = split_line(rest);
        number += 1;
        if line.len() > MOST_LINE_BYTES {
            return Err(ScriptRefused::LineTooLong);
        }
        match reader.take_line(alloc, number, line) {
            Ok(()) => rest = after,
            Err(LineRefused::Because(reason)) => return Err(ScriptRefused::Line(number, reason)),
            Err(LineRefused::OutOfMemory) => return Err(ScriptRefused::OutOfMemory),
        }
    }
    Ok(reader.into_script())
}
