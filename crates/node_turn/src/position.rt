//! What a turn reads and what it gives.
ghost use Rattle.std.specs.Prelude.{◌≡◌};
ghost use Rattle.node_turn.specs.Turn.{at_first};

use exec_types::Input;
use register_laws::OpId;

/// An input that the script has for a node, and the operation whose outcome it waits for.
#[derive(Drop)]
pub struct TurnItem {
    pub input: Input,
    pub after: Option<OpId>,
}

/// A copy of a message: the first or the second.
#[derive(Clone, Copy, Debug, PartialEq, Eq)]
pub struct MessageCopy {
    /// The number of the message, from 1.
    pub message: u64,
    pub copy: u64,
}

/// How far a node has come with its items and its messages.
#[derive(Clone, Copy, Debug, PartialEq, Eq)]
pub struct Position {
    /// So many items were taken or refused.
    pub gone: u64,
    /// The copy that was taken last; message and copy are 0 where none was.
    pub taken: MessageCopy,
}

/// Before the first turn nothing was taken.
pub fn first_position() -> Position
    ensures { result ≡ at_first }
{
    Position {
        gone: 0,
        taken: MessageCopy {
            message: 0,
            copy: 0,
        },
    }
}

/// What a node does in a turn.
#[derive(Clone, Copy, Debug, PartialEq, Eq)]
pub enum Act {
    /// It takes the next item.
    Item,
    /// The next item is passed over: the node is down, or it is up and the item is a restart.
    Refused,
    Tick,
    /// It takes the message of this number.
    Deliver { message: u64 },
    Nothing,
}

/// What a turn does.
#[derive(Clone, Copy, Debug)]
pub struct Turned {
    pub act: Act,
    /// The operation whose outcome the next item waits for, where that item was due in this turn.
    pub waited: Option<OpId>,
    /// How far the node has come then.
    pub position: Position,
}
