//! The weights of a step's input and outputs.
ghost use Rattle.std.specs.Prelude.{◌≡◌};
ghost use Rattle.journal_weight.specs.Weights.{capped, step_weight, content_weight};

use crate::weigh::{Weigh, total};
use exec_types::{Input, Outcome, Output, Outputs};
use register_laws::{Op, Reply};

impl Weigh for Op {
    ghost use Rattle.journal_weight.specs.Weights.{op_weight};

    ghost weight = { op_weight };

    fn weigh(&self) -> u64 {
        match self {
            Op::Put(value) => value.weigh(),
            Op::Delete => 0,
            Op::Cas { expect, put } => expect.weigh().saturating_add(put.weigh()),
            Op::Read => 0,
        }
    }
}

impl Weigh for Reply {
    ghost use Rattle.journal_weight.specs.Weights.{reply_weight};

    ghost weight = { reply_weight };

    fn weigh(&self) -> u64 {
        match self {
            Reply::Was(value) => value.weigh(),
            Reply::Swapped => 0,
            Reply::Kept(value) => value.weigh(),
        }
    }
}

impl Weigh for Outcome {
    ghost use Rattle.journal_weight.specs.Weights.{outcome_weight};

    ghost weight = { outcome_weight };

    fn weigh(&self) -> u64 {
        match self {
            Outcome::Done { reply, .. } => reply.weigh(),
            Outcome::NotServing => 0,
            Outcome::NoMajority(_) => 0,
        }
    }
}

/// What an output holds.
fn content(output: &Output) -> u64
    ensures { result ≡ capped (content_weight output.now) }
{
    match output {
        Output::Message { message, .. } => message.weigh(),
        Output::Dispatched { key, .. } => key.weigh(),
        Output::Viewed { results, .. } => total(results.as_slice()),
        Output::Answer { outcome, .. } => outcome.weigh(),
    }
}

impl Weigh for Output {
    ghost use Rattle.journal_weight.specs.Weights.{output_weight};

    ghost weight = { output_weight };

    fn weigh(&self) -> u64 {
        content(self).saturating_add(64)
    }
}

impl Weigh for Input {
    ghost use Rattle.journal_weight.specs.Weights.{input_weight};

    ghost weight = { input_weight };

    fn weigh(&self) -> u64 {
        match self {
            Input::Request { key, what, .. } => key.weigh().saturating_add(what.weigh()),
            Input::GiveUp { .. } => 0,
            Input::See { .. } => 0,
            Input::Tick => 0,
            Input::Deliver { .. } => 0,
            Input::Crash => 0,
            Input::Restart => 0,
        }
    }
}

/// What a step of a node weighs, by its input and its outputs: 64, and 64 for each output; the bytes of each key, key bound and value; 64 for
/// each piece of a region map, and for each change of the table's log; 256 for each shard and each contract. A sum
/// above the greatest number counts as that number.
#[tactic(auto, unfolding(crate::specs::Weights::step_weight))]
pub fn weight(input: &Input, outputs: &Outputs) -> u64
    ensures { result ≡ step_weight input.now outputs.now }
{
    let given = input.weigh();
    let gave = total(outputs.as_slice());
    given.saturating_add(gave).saturating_add(64)
}
