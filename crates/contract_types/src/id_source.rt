//! The ids that a node makes.
ghost use Rattle.std.specs.Prelude.{◌≡◌};
ghost use Rattle.contract_types.specs.Sources.{made, behind};

use region_map::{Id, NUMBERS_END, NodeId};

/// A node in one of its lives, and the counter of the next id that it makes there: of a branch, a contract or a
/// session.
#[derive(Clone, Copy, Debug, PartialEq, Eq)]
pub struct IdSource {
    pub node: NodeId,
    pub life: u64,
    pub next: u64,
}

impl IdSource {
    /// The next id, which is made once; none exactly where the counter would come to `NUMBERS_END`.
    pub fn make(&mut self) -> Option<Id>
        ensures id { result ≡ made self.old }
        ensures next { self.new ≡ behind self.old }
    {
        let next = self.next;
        if next >= NUMBERS_END - 1 {
            return None;
        }
        self.next = next + 1;
        Some(Id {
            node: self.node,
            life: self.life,
            counter: next,
        })
    }
}
