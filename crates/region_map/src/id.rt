//! The numbers of nodes, and the ids of branches, contracts and sessions.
use std::fmt;

/// The number of a node.
#[derive(Clone, Copy, Debug, PartialEq, Eq, PartialOrd, Ord, Hash)]
pub struct NodeId(pub u8);

/// The id of a branch, a contract or a session: who made it, in which life, and its number there.
///
/// A node counts from its setup on in one counter for all three kinds, so no id is made twice.
/// It is printed as `node.life.counter`.
#[derive(Clone, Copy, Debug, PartialEq, Eq, PartialOrd, Ord, Hash)]
pub struct Id {
    pub node: NodeId,
    pub life: u64,
    pub counter: u64,
}

impl fmt::Display for Id {
    ghost use Rattle.std.specs.Prelude.{Some, ◌++◌, codes, decimal};

    ghost output = { λ id. Some (decimal id.node.0 ++ codes "." ++ decimal id.life ++ codes "." ++ decimal id.counter) };

    fn fmt<W: fmt::Write>(&self, f: &mut fmt::Formatter<W>) -> fmt::Result {
        write!(f, "{}.{}.{}", self.node.0, self.life, self.counter)
    }
}
