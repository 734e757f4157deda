//! How a program ends.
ghost use Rattle.std.specs.Prelude.{◌≡◌};
ghost use Rattle.script_text.specs.Statuses.{reason_text, status_number};

use contract_types::Which;

/// Why a line of a script is refused: the first of these that holds, in this order.
#[derive(Clone, Copy, Debug, PartialEq, Eq)]
pub enum Reason {
    /// The line is no JSON object.
    BadJson,
    /// `do` is missing, or no word.
    Word,
    /// No program plays this word yet.
    NotBuilt,
    /// A member is missing, unknown or of a wrong kind, or a number in `shards` is above 63.
    Member,
    /// A member is one of the other program.
    NotHere,
    /// A setup is not the first line that is not blank.
    Place,
    /// The number of nodes, of hashes or of rounds is none that a table or a line may have.
    Range,
    /// A node that does not stand in `shards` is none of the table.
    Node,
    /// A key, or a bound other than a `from` of `""`, is not of 1 to 64 bytes.
    KeyLength,
    /// A value has more than 1,024 bytes.
    ValueLength,
    /// An earlier line has this operation's number.
    OpKnown,
    /// A setup has no shards, or more than 16.
    NoShards,
    /// A shard's region is empty, or has hashes that the table has not.
    Region,
    /// A shard has no replicas, or one that is no node of the table.
    Replicas,
    /// A voter is no replica, or a primary is no voter.
    Roles,
    /// Two shards overlap.
    Overlap,
    /// Some key lies in no shard.
    Gap,
}

/// How a program ended.
#[derive(Clone, Copy, Debug, PartialEq, Eq)]
pub enum Status {
    Ok,
    /// The words of the command are not known.
    Usage,
    /// This line of the script, counted from 1, is the first that is refused.
    Script { line: u64, reason: Reason },
    /// A read of the source failed.
    ReadFault,
    /// A write of the sink failed.
    WriteFault,
    /// This quantity would have passed its number.
    Limit { which: Which, number: u64 },
    OutOfMemory,
}

impl Reason {
    /// The word that is printed.
    pub fn text(&self) -> &'static str
        ensures { result.now ≡ reason_text self.now }
    {
        match self {
            Reason::BadJson => "bad_json",
            Reason::Word => "word",
            Reason::NotBuilt => "not_built",
            Reason::Member => "member",
            Reason::NotHere => "not_here",
            Reason::Place => "place",
            Reason::Range => "range",
            Reason::Node => "node",
            Reason::KeyLength => "key_length",
            Reason::ValueLength => "value_length",
            Reason::OpKnown => "op_known",
            Reason::NoShards => "no_shards",
            Reason::Region => "region",
            Reason::Replicas => "replicas",
            Reason::Roles => "roles",
            Reason::Overlap => "overlap",
            Reason::Gap => "gap",
        }
    }
}

impl Status {
    /// The exit status of the process; 1 is left to the runtime.
    pub fn number(&self) -> u8
        ensures { result ≡ status_number self.now }
    {
        match self {
            Status::Ok => 0,
            Status::Usage => 2,
            Status::Script { .. } => 3,
            Status::ReadFault => 4,
            Status::WriteFault => 5,
            Status::Limit { .. } => 6,
            Status::OutOfMemory => 7,
        }
    }
}
