//! The top call.
ghost use Rattle.std.specs.Prelude.{◌≡◌, ◌⊎◌, ◌≤◌, ℕ, List, [], None, Some, true, false, map, IfOk};
ghost use Rattle.std.specs.List.{list_all};
ghost use Rattle.node_core.specs.Journal.{empty_journal};
ghost use Rattle.script_text.specs.Lines.{Accepted, read_lines};
ghost use Rattle.script_text.specs.Sound.{fits_table};
ghost use Rattle.report_text.specs.Report.{report, joined};
ghost use Rattle.world_core.specs.runs.Answers.{answers_to};
ghost use Rattle.world_core.specs.runs.GivenUp.{IsGivenUp};
ghost use Rattle.world_core.specs.runs.Served.{IsNotServed};
ghost use Rattle.world_core.specs.runs.write_dispatch.Dispatch.{are_majorities};
ghost use Rattle.world_core.specs.runs.DonePoints.{Took};
ghost use Rattle.world_core.specs.runs.Story.{IsRegisterStory, answer, points, story};
ghost use Rattle.world_core.specs.runs.StoryOrder.{IsStoryInOrder};
ghost use Rattle.region_map.specs.declared.id.Id.{Id};
ghost use Rattle.register_laws.specs.declared.operation.Reply.{Reply};
ghost use Rattle.contract_types.specs.Setup.{SetupState};
ghost use Rattle.register_laws.specs.declared.operation.OpId.{OpId};
ghost use Rattle.contract_types.specs.declared.counts.Counts.{Counts};
ghost use Rattle.exec_types.specs.declared.outcome.Outcome.TheVariants.{Done, NotServing, NoMajority};
ghost use Rattle.table_play.specs.Play.{ending_of, number_of};
ghost use Rattle.table_play.specs.Headline.{is_command, IsPlay, IsRunJournal, Ends, Wants, WantsUnsaid, Says, outcome_of_script, plays, status_of};

use crate::events::play_items;
use crate::saying::say;
use contract_types::Which;
use line_io::{ReadRefused, Sink, Source, read_all};
use memory::OutOfMemory;
use node_core::Journal;
use register_laws::OpId;
use report_text::{
    Ending, PrintRefused, Refusal, limit_line, print_report, read_fault_line, script_line,
    usage_line,
};
use script_text::{MOST_LINE_BYTES, Script, ScriptRefused, Status, read_script};
use std::alloc::Global;
use world_core::World;
use world_steps::{MOST_ENTRIES, MOST_WEIGHT};

/// The most bytes of a script.
const MOST_SCRIPT_BYTES: u64 = 16_777_216;

/// The most bytes of a line of it.
const LINE_BYTES: u64 = MOST_LINE_BYTES as u64;

/// The greatest number that a life, a term, a timestamp, an id counter, a log index or a part number may be.
const GREATEST_NUMBER: u64 = (1 << 62) - 1;

/// Whether the words are the one command, `play`.
fn is_command(words: &[&str]) -> bool
    ensures { result ≡ is_command (map (λ w. w.now) words.now) }
{
    match words {
        [word] => *word == "play",
        _ => false,
    }
}

/// The number of a limit that an event may meet.
fn number_of(which: Which) -> u64
    ensures { result ≡ number_of which }
{
    match which {
        Which::JournalEntries => MOST_ENTRIES,
        Which::JournalWeight => MOST_WEIGHT,
        Which::Numbers => GREATEST_NUMBER,
        Which::ScriptBytes => 0,
        Which::LineBytes => 0,
    }
}

/// How a run ended that met a limit, or none.
fn ending_of(met: Option<Which>) -> Ending
    ensures { result ≡ ending_of met }
{
    match met {
        None => Ending::End,
        Some(which) => Ending::Limit {
            which,
            number: number_of(which),
        },
    }
}

/// The status of a run that met a limit, or none.
fn status_of(met: Option<Which>) -> Status
    ensures { result ≡ status_of met }
{
    match met {
        None => Status::Ok,
        Some(which) => Status::Limit {
            which,
            number: number_of(which),
        },
    }
}

/// Prints the report of what was played, and ends with its status.
fn print<K: Sink>(
    alloc: Global,
    script: &Script,
    journal: &Journal,
    down: &[OpId],
    refused: &[Refusal],
    met: Option<Which>,
    sink: &mut K,
) -> Status
    ensures { Says (status_of met) (joined (report script.now.setup script.now.items journal.now.past down.now refused.now (ending_of met)))
        result (K.held sink.old) (K.held sink.new) (K.faults sink.old) (K.faults sink.new)
        ⊎ WantsUnsaid result (K.held sink.old) (K.held sink.new) }
{
    match print_report(
        alloc,
        script.setup(),
        script.items(),
        journal,
        down,
        refused,
        ending_of(met),
        sink,
    ) {
        Err(PrintRefused::WriteFault) => Status::WriteFault,
        Err(PrintRefused::OutOfMemory) => Status::OutOfMemory,
        Ok(()) => status_of(met),
    }
}

/// The table of a script as it begins.
fn begin(alloc: Global, script: &Script) -> Result<World, OutOfMemory>
    ensures { IfOk result (λ world. world ≡ record { setup = script.now.setup; past = []; lost = []; ended = None }) }
{
    let setup = script.setup().copy(alloc)?;
    World::begin(alloc, setup)
}

/// Plays a script that was read, and prints its report.
fn play_script<K: Sink>(
    alloc: Global,
    script: &Script,
    sink: &mut K,
    journal: &mut Journal,
) -> Status
    requires empty { journal.old ≡ empty_journal }
    requires fits { list_all (λ item. fits_table script.now.setup item.word) script.now.items ≡ true }
    ensures ends { Ends (plays script.now) result journal.new (K.held sink.old) (K.held sink.new) (K.faults sink.old) (K.faults sink.new)
        ⊎ Wants (Accepted script.now) result journal.new (K.held sink.old) (K.held sink.new) }
    ensures run { IsRunJournal journal.new }
{
    let Ok(mut world) = begin(alloc, script) else {
        return Status::OutOfMemory;
    };
    let mut down = Vec::new(alloc);
    let mut refused = Vec::new(alloc);
    let played = play_items(alloc, &mut world, script.items(), &mut down, &mut refused);
    *journal = world.into_journal();
    match played {
        Err(_) => Status::OutOfMemory,
        Ok(met) => print(alloc, script, journal, &down, &refused, met, sink),
    }
}

/// Plays the script of a text, or says which line is refused and why, or that a line is too long.
fn play_text<K: Sink>(alloc: Global, text: &[u8], sink: &mut K, journal: &mut Journal) -> Status
    requires { journal.old ≡ empty_journal }
    ensures ends { Ends (outcome_of_script (read_lines text.now)) result journal.new (K.held sink.old) (K.held sink.new) (K.faults sink.old) (K.faults sink.new)
        ⊎ Wants (read_lines text.now) result journal.new (K.held sink.old) (K.held sink.new) }
    ensures run { IsRunJournal journal.new }
{
    match read_script(alloc, text) {
        Err(ScriptRefused::OutOfMemory) => Status::OutOfMemory,
        Err(ScriptRefused::Line(line, reason)) => match script_line(alloc, line, reason) {
            Err(_) => Status::OutOfMemory,
            Ok(printed) => say(sink, printed.as_bytes(), Status::Script { line, reason }),
        },
        Err(ScriptRefused::LineTooLong) => match limit_line(alloc, Which::LineBytes, LINE_BYTES) {
            Err(_) => Status::OutOfMemory,
            Ok(line) => say(
                sink,
                line.as_bytes(),
                Status::Limit {
                    which: Which::LineBytes,
                    number: LINE_BYTES,
                },
            ),
        },
        Ok(script) => play_script(alloc, &script, sink, journal),
    }
}

/// What the words ask, without what the laws of runs say of the journal.
fn play_words<S: Source, K: Sink>(
    alloc: Global,
    words: &[&str],
    source: &mut S,
    sink: &mut K,
    journal: &mut Journal,
) -> Status
    requires { journal.old ≡ empty_journal }
    ensures play { IsPlay (map (λ w. w.now) words.now) result journal.new (S.left source.old) (S.left source.new)
        (S.faults source.old) (S.faults source.new) (K.held sink.old) (K.held sink.new) (K.faults sink.old) (K.faults sink.new) }
    ensures run { IsRunJournal journal.new }
{
    if !is_command(words) {
        return say(sink, usage_line().as_bytes(), Status::Usage);
    }
    match read_all(alloc, source, MOST_SCRIPT_BYTES) {
        Err(ReadRefused::ReadFault) => {
            say(sink, read_fault_line().as_bytes(), Status::ReadFault)
        }
        Err(ReadRefused::TooLong) => {
            match limit_line(alloc, Which::ScriptBytes, MOST_SCRIPT_BYTES) {
                Err(_) => Status::OutOfMemory,
                Ok(line) => say(
                    sink,
                    line.as_bytes(),
                    Status::Limit {
                        which: Which::ScriptBytes,
                        number: MOST_SCRIPT_BYTES,
                    },
                ),
            }
        }
        Err(ReadRefused::OutOfMemory) => Status::OutOfMemory,
        Ok(text) => play_text(alloc, text.as_slice(), sink, journal),
    }
}

/// Plays the script that the source gives, and prints its report; `journal` is then the journal of this call.
///
/// The words are `play` alone. The status tells how it ended: with the whole report, or why not.
pub fn play<S: Source, K: Sink>(
    alloc: Global,
    words: &[&str],
    source: &mut S,
    sink: &mut K,
    journal: &mut Journal,
) -> Status
    requires { journal.old ≡ empty_journal }
    ensures play { IsPlay (map (λ w. w.now) words.now) result journal.new (S.left source.old) (S.left source.new)
        (S.faults source.old) (S.faults source.new) (K.held sink.old) (K.held sink.new) (K.faults sink.old) (K.faults sink.new) }
    ensures run { IsRunJournal journal.new }
    ensures stories { (setup : SetupState) (key : List ℕ) → journal.new.setup ≡ Some setup
        → IsRegisterStory setup journal.new.past key (story setup journal.new.past key) }
    ensures story_order { (setup : SetupState) (key : List ℕ) → journal.new.setup ≡ Some setup
        → IsStoryInOrder setup journal.new.past key }
    ensures done_points { (setup : SetupState) (op : OpId) (reply : Reply) (branch : Id) (timestamp : ℕ) → journal.new.setup ≡ Some setup
        → answer journal.new.past op ≡ Some (Done reply branch timestamp) → Took (points journal.new.past) op branch timestamp }
    ensures not_serving_only { (setup : SetupState) (op : OpId) → journal.new.setup ≡ Some setup
        → answer journal.new.past op ≡ Some NotServing → IsNotServed setup journal.new.past op }
    ensures not_serving_always { (setup : SetupState) (op : OpId) → journal.new.setup ≡ Some setup
        → IsNotServed setup journal.new.past op → answer journal.new.past op ≡ Some NotServing }
    ensures no_majority { (op : OpId) (counts : Counts)
        → answer journal.new.past op ≡ Some (NoMajority counts) → are_majorities counts ≡ false }
    ensures given_up { (setup : SetupState) (op : OpId) (counts : Counts) → journal.new.setup ≡ Some setup
        → answer journal.new.past op ≡ Some (NoMajority counts) → IsGivenUp setup journal.new.past op counts }
    ensures answered_once { (op : OpId) → answers_to journal.new.past op ≤ 1 }
{
    play_words(alloc, words, source, sink, journal)
}
