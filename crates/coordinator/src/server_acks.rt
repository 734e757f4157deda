//! The last acks under the id of one contract.
ghost use Rattle.std.specs.Prelude.{◌≡◌, ◌==◌, ◌∷◌, [], not, filter, position, IfOk, OnOk, OnErr};
ghost use Rattle.coordinator.specs.Acks.{with_server_ack};
ghost use Rattle.coordinator.specs.Proposals.{is_used};

use branch_history::version::is_same_id;
use contract_plan::rests_on;
use contract_types::{Ack, ServerAck, TableState};
use memory::OutOfMemory;
use region_map::{Id, NodeId};
use std::alloc::Global;
use std::marker::Model;

/// The last ack of each server, in the order in which the servers sent their first ones.
#[derive(Drop)]
pub struct ServerAcks {
    items: Vec<ServerAck>,
}

impl Model for ServerAcks {
    ghost use Rattle.std.specs.Prelude.{List};
    ghost use Rattle.contract_types.specs.declared.ack.ServerAck.{ServerAck};

    ghost Value = { List ServerAck };

    ghost view = { λ a. a.items.items };
}

impl ServerAcks {
    /// The first ack under a contract's id.
    pub fn first(alloc: Global, server: NodeId, ack: Ack) -> Result<ServerAcks, OutOfMemory>
        ensures { IfOk result (λ acks. acks ≡ record { server = server; ack = ack } ∷ []) }
    {
        let mut items = Vec::new(alloc);
        items.push(ServerAck { server, ack })?;
        Ok(ServerAcks { items })
    }

    /// The acks.
    pub fn as_slice(&self) -> &[ServerAck]
        ensures { result.now ≡ self.now }
    {
        self.items.as_slice()
    }

    /// A server sent this ack. It comes in the place of the one before it.
    pub fn put(&mut self, server: NodeId, ack: Ack) -> Result<(), OutOfMemory>
        ensures ok { OnOk result (self.new ≡ with_server_ack server ack self.old) }
        ensures err { OnErr result (self.new ≡ self.old) }
    {
        match place_of(&self.items, server) {
            Some(place) => {
                self.items[place].ack = ack;
                Ok(())
            }
            None => {
                self.items.push(ServerAck { server, ack })?;
                Ok(())
            }
        }
    }

    /// Forgets the acks that plans for the table rest on; these acks are those under a contract's id.
    pub fn forget_used(&mut self, state: &TableState, contract: &Id)
        ensures { self.new ≡ filter (λ a. not (is_used state.now contract.now a)) self.old }
    {
        self.items.retain(|ack| !is_used(state, contract, ack));
    }
}

/// Where the ack of a server is.
fn place_of(acks: &[ServerAck], server: NodeId) -> Option<usize>
    ensures { result ≡ position (λ a. a.server.0 == server.0) acks.now }
{
    acks.iter().position(|ack| ack.server.0 == server.0)
}

/// Whether the plan for a contract of the table rests on an ack under this id.
fn is_used(state: &TableState, contract: &Id, ack: &ServerAck) -> bool
    ensures { result ≡ is_used state.now contract.now ack.now }
{
    state.contracts().as_slice().iter().any(|c| {
        is_same_id(&c.id, contract) && rests_on(c, state, ack.server, &ack.ack)
    })
}
