//! The weights of messages.
use crate::weigh::{Weigh, total};
use contract_types::{Ack, Change};
use exec_types::{Message, Part};
use raft_vote::RaftMessage;

impl Weigh for RaftMessage<Change> {
    ghost use Rattle.journal_weight.specs.Weights.{log_message_weight};

    ghost weight = { log_message_weight };

    fn weigh(&self) -> u64 {
        match self {
            RaftMessage::VoteAsk { .. } => 0,
            RaftMessage::VoteSay { .. } => 0,
            RaftMessage::Append { entries, .. } => total(entries.as_slice()),
            RaftMessage::AppendSay { .. } => 0,
        }
    }
}

impl Weigh for Ack {
    ghost use Rattle.journal_weight.specs.Weights.{ack_weight};

    ghost weight = { ack_weight };

    fn weigh(&self) -> u64 {
        match self {
            Ack::NeedBranch {
                based_on,
                origin,
                ..
            } => based_on.weigh().saturating_add(origin.weigh()),
            Ack::InProgress => 0,
            Ack::Ready => 0,
            Ack::NeedPrimary { versions } => versions.weigh(),
            Ack::Backfilling => 0,
            Ack::Streaming => 0,
        }
    }
}

impl Weigh for Part {
    ghost use Rattle.journal_weight.specs.Weights.{part_weight};

    ghost weight = { part_weight };

    fn weigh(&self) -> u64 {
        match self {
            Part::Write { key, row, .. } => key.weigh().saturating_add(row.value.weigh()),
            Part::Sync { .. } => 0,
        }
    }
}

impl Weigh for Message {
    ghost use Rattle.journal_weight.specs.Weights.{message_weight};

    ghost weight = { message_weight };

    fn weigh(&self) -> u64 {
        match self {
            Message::Raft(message) => message.weigh(),
            Message::Say { ack, .. } => ack.weigh(),
            Message::Stream(stream) => stream.part.weigh(),
            Message::Got(_) => 0,
        }
    }
}
