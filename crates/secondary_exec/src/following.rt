//! What a secondary keeps of the primary that it follows.
ghost use Rattle.std.specs.Prelude.{◌≡◌, ◌++◌, ◌∷◌, [], ◌↔◌, IfOk, OnOk, IsErrOf, IsTrue};
ghost use Rattle.exec_types.specs.Parts.{timestamp_of, effect_of};
ghost use Rattle.store_api.specs.Versions.{advanced_rows, advanced_map};
ghost use Rattle.secondary_exec.specs.Stream.{setup_following, is_ours, acknowledgement, stream_row, stream_ends_numbers};

use contract_types::{Contract, setup_id};
use exec_types::{Got, Message, Output, Outputs, Part, SessionName, Stream};
use memory::OutOfMemory;
use region_map::{Id, NUMBERS_END, NodeId, Region, StepRefused};
use std::alloc::Global;
use store_api::Store;

/// A secondary that joined its primary's session, which is for a region and a branch.
#[derive(Drop)]
pub struct Following {
    pub primary: NodeId,
    pub region: Region,
    pub branch: Id,
    pub session: SessionName,
    /// The number of the last part that it applied.
    pub got: u64,
    /// The timestamp of the last part that it applied: all of the region stands there.
    pub position: u64,
}

impl Following {
    /// What a secondary begins with under a contract, in the shard of a place: it is joined, and has the first
    /// part of its session.
    pub fn setup(
        alloc: Global,
        contract: &Contract,
        primary: NodeId,
        me: NodeId,
        place: u64,
    ) -> Result<Following, OutOfMemory>
        ensures { IfOk result (λ following. following ≡ setup_following contract.now primary me place) }
    {
        Ok(Following {
            primary,
            region: contract.region.copy(alloc)?,
            branch: setup_id(place, primary),
            session: SessionName::setup(place, primary, me),
            got: 1,
            position: 0,
        })
    }

    /// Whether a part of a stream comes from the primary in the session.
    pub fn is_ours(&self, from: NodeId, stream: &Stream) -> bool
        ensures { result ≡ is_ours self.now from stream.now }
    {
        from.0 == self.primary.0 && stream.session == self.session
    }

    /// Takes a part of the stream of a node. The next part of its session is applied and acknowledged, an earlier
    /// one acknowledged again, and any other does nothing.
    pub fn stream<T: Store>(
        &mut self,
        alloc: Global,
        from: NodeId,
        stream: &Stream,
        view: u64,
        store: &mut T,
        out: &mut Outputs,
    ) -> Result<(), StepRefused>
        ensures following { OnOk result (self.new ≡ (stream_row self.old (T.rows store.old) (T.versions store.old) from stream.now view).following) }
        ensures rows { OnOk result (T.rows store.new ≡ (stream_row self.old (T.rows store.old) (T.versions store.old) from stream.now view).rows) }
        ensures versions { OnOk result (T.versions store.new ≡ (stream_row self.old (T.rows store.old) (T.versions store.old) from stream.now view).versions) }
        ensures out { OnOk result (out.new ≡ out.old ++ (stream_row self.old (T.rows store.old) (T.versions store.old) from stream.now view).outs) }
        ensures numbers { IsErrOf result StepRefused.NumbersEnd ↔ IsTrue (stream_ends_numbers self.old from stream.now) }
    {
        if !self.is_ours(from, stream) {
            return Ok(());
        }
        if stream.number <= self.got {
            self.acknowledge(view, out)?;
            return Ok(());
        }
        if stream.number - self.got != 1 || stream.part.timestamp() <= self.position {
            return Ok(());
        }
        if stream.number >= NUMBERS_END {
            return Err(StepRefused::NumbersEnd);
        }
        self.apply(alloc, &stream.part, store)?;
        self.got = stream.number;
        self.acknowledge(view, out)?;
        Ok(())
    }

    /// Brings the region to the part's timestamp, with its row.
    fn apply<T: Store>(
        &mut self,
        alloc: Global,
        part: &Part,
        store: &mut T,
    ) -> Result<(), StepRefused>
        ensures following { OnOk result (self.new ≡ record self.old { position = timestamp_of part.now }) }
        ensures rows { OnOk result (T.rows store.new
            ≡ advanced_rows (effect_of part.now) self.old.region self.old.branch (timestamp_of part.now) (T.versions store.old) (T.rows store.old)) }
        ensures versions { OnOk result (T.versions store.new ≡ advanced_map self.old.region self.old.branch (timestamp_of part.now) (T.versions store.old)) }
        ensures memory { IsErrOf result StepRefused.NumbersEnd → ⊥ }
    {
        let at = part.timestamp();
        let effect = part.effect(alloc)?;
        store.advance(alloc, &self.region, self.branch, at, effect)?;
        self.position = at;
        Ok(())
    }

    /// Tells the primary how far this secondary came.
    pub fn acknowledge(&self, view: u64, out: &mut Outputs) -> Result<(), OutOfMemory>
        ensures { OnOk result (out.new ≡ out.old ++ acknowledgement self.now view ∷ []) }
    {
        let got = Got {
            session: self.session,
            upto: self.got,
            stands: Some(self.position),
            view,
        };
        out.push(Output::Message {
            to: self.primary,
            message: Message::Got(got),
        })?;
        Ok(())
    }
}
