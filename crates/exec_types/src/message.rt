//! What nodes send one another.
ghost use Rattle.std.specs.Prelude.{◌≡◌, IfOk};
ghost use Rattle.exec_types.specs.Parts.{timestamp_of, effect_of};
ghost use Rattle.exec_types.specs.Sessions.{setup_session_name};

use contract_types::{Ack, Change, setup_id};
use memory::OutOfMemory;
use raft_vote::RaftMessage;
use region_map::{Id, Key, NodeId};
use std::alloc::Global;
use store_api::{Item, Row};

/// The name of a session: the id under which the secondary asked for it, and that under which the primary
/// opened it.
#[derive(Clone, Copy, Debug, PartialEq, Eq)]
pub struct SessionName {
    pub asked: Id,
    pub opened: Id,
}

impl SessionName {
    /// The session of a secondary with a primary, in the shard of a place, with which a table begins.
    pub fn setup(place: u64, primary: NodeId, server: NodeId) -> SessionName
        ensures { result ≡ setup_session_name place primary server }
    {
        SessionName {
            asked: setup_id(place, server),
            opened: setup_id(place, primary),
        }
    }
}

/// One part of a session's stream.
#[derive(Drop)]
pub enum Part {
    /// The row that the operation at this timestamp left at its key.
    Write { at: u64, key: Key, row: Row },
    /// The operation at this timestamp left every row as it was.
    Sync { at: u64 },
}

/// A numbered part of a session's stream, from its primary.
#[derive(Drop)]
pub struct Stream {
    pub session: SessionName,
    pub number: u64,
    pub part: Part,
}

/// How far a secondary came: it has the parts of the session up to `upto`, and all of its region stands at
/// least at the timestamp `stands`, where it is told. It acts on the log up to `view`.
#[derive(Clone, Copy, Debug, PartialEq, Eq)]
pub struct Got {
    pub session: SessionName,
    pub upto: u64,
    pub stands: Option<u64>,
    pub view: u64,
}

/// One message.
#[derive(Drop)]
pub enum Message {
    /// What the nodes of the log send to one another.
    Raft(RaftMessage<Change>),
    /// A replica tells the leader how far it is under the contract of this id.
    Say { contract: Id, ack: Ack },
    Stream(Stream),
    Got(Got),
}

impl Part {
    /// The timestamp that the part brings its region to.
    pub fn timestamp(&self) -> u64
        ensures { result ≡ timestamp_of self.now }
    {
        match self {
            Part::Write { at, .. } | Part::Sync { at } => *at,
        }
    }

    /// The key that the part gives a row, with the row; none where it leaves every row as it is.
    pub fn effect(&self, alloc: Global) -> Result<Option<Item>, OutOfMemory>
        ensures { IfOk result (λ effect. effect ≡ effect_of self.now) }
    {
        match self {
            Part::Write { key, row, .. } => {
                let key = key.copy(alloc)?;
                let row = row.copy(alloc)?;
                Ok(Some(Item {
                    key,
                    row: Some(row),
                }))
            }
            Part::Sync { .. } => Ok(None),
        }
    }

    /// The same part again.
    pub fn copy(&self, alloc: Global) -> Result<Part, OutOfMemory>
        ensures { IfOk result (λ part. part ≡ self.now) }
    {
        match self {
            Part::Write { at, key, row } => {
                let key = key.copy(alloc)?;
                let row = row.copy(alloc)?;
                Ok(Part::Write { at: *at, key, row })
            }
            Part::Sync { at } => Ok(Part::Sync { at: *at }),
        }
    }
}

impl Message {
    /// The same message again.
    pub fn copy(&self, alloc: Global) -> Result<Message, OutOfMemory>
        ensures { IfOk result (λ message. message ≡ self.now) }
    {
        match self {
            Message::Raft(message) => Ok(Message::Raft(message.copy(alloc)?)),
            Message::Say { contract, ack } => Ok(Message::Say {
                contract: *contract,
                ack: ack.copy(alloc)?,
            }),
            Message::Stream(stream) => {
                let part = stream.part.copy(alloc)?;
                Ok(Message::Stream(Stream {
                    session: stream.session,
                    number: stream.number,
                    part,
                }))
            }
            Message::Got(got) => Ok(Message::Got(*got)),
        }
    }
}
