//! What the promises of `play` come to.
ghost use Rattle.std.specs.Prelude.{◌≡◌, ◌⊎◌, ℕ, List, Some, true, false};
ghost use Rattle.line_io.specs.Counts.{rose};
ghost use Rattle.node_core.specs.Journal.{JournalState};
ghost use Rattle.script_text.specs.declared.status.Status.{Status};
ghost use Rattle.script_text.specs.declared.status.Status.TheVariants.{OutOfMemory};
ghost use Rattle.table_play.specs.Headline.{is_command, IsPlay};
ghost use Rattle.script_text.specs.Lines.{Accepted, read_lines};
ghost use Rattle.script_text.specs.Script.{ScriptState};
ghost use Rattle.table_play.specs.Lines.{AllDo};
ghost use Rattle.table_play.specs.Play.{unplayed};
ghost use Rattle.table_play.specs.Whole.{outcome_of_text, IsWhole};

/// Where the words are the command, and the source and the sink tell their bytes and meet no fault, the status, the
/// journal and the bytes written are a function of the text; or memory was wanted, and nothing was written.
pub fn plays_are_whole()
    ensures { (words : List (List ℕ)) (result : Status) (journal : JournalState) (text rest held written : List ℕ)
        (faults faults' writes writes' : ℕ)
        → IsPlay words result journal (Some text) (Some rest) faults faults' (Some held) (Some written) writes writes'
        → is_command words ≡ true → rose faults faults' ≡ false → rose writes writes' ≡ false
        → IsWhole (outcome_of_text text) result journal held written
        ⊎ ((result ≡ OutOfMemory) × (written ≡ held)) }
{}

/// Each line of an accepted script that is reached before a limit does what its word says: an event adds its entry,
/// meets a limit, or is told of a node that is down, or up where it was to come up; a delivery may also be refused
/// since its message was not sent or is for another node, and does nothing where its message is for a number that is
/// no node of the table. No other event is passed over.
pub fn accepted_lines_are_played()
    ensures { (text : List ℕ) (script : ScriptState) → read_lines text ≡ Accepted script
        → AllDo script.setup unplayed script.items }
{}
