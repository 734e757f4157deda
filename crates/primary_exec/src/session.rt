//! The sessions of a primary.
ghost use Rattle.std.specs.Prelude.{◌≡◌, ◌+◌, ◌^◌, ◌<◌, ◌++◌, map, filter, OnOk, IfOk};
ghost use Rattle.std.specs.List.{All, list_any};
ghost use Rattle.primary_exec.specs.Execution.{has_room, with_sent, sends, is_session, with_acked, is_any_session, parts_end_numbers};

use exec_types::{Message, Output, Outputs, Part, SessionName, Stream};
use memory::OutOfMemory;
use region_map::{NUMBERS_END, NodeId};
use std::alloc::Global;

/// A session with this many unacknowledged parts ends in place of one more.
pub const MOST_UNACKED: u64 = 1024;

/// A session of a primary with one secondary.
///
/// The parts up to `sent` were sent, and those up to `acked` are acknowledged.
#[derive(Clone, Copy, Debug)]
pub struct Session {
    pub server: NodeId,
    pub name: SessionName,
    pub sent: u64,
    pub acked: u64,
}

impl Session {
    /// Whether one more part may be sent.
    pub fn has_room(&self) -> bool
        ensures { result ≡ has_room self.now }
    {
        self.sent.saturating_sub(self.acked) < MOST_UNACKED
    }

    /// Whether this is the session of that name with that server.
    pub fn is(&self, from: NodeId, name: &SessionName) -> bool
        ensures { result ≡ is_session from name.now self.now }
    {
        self.server == from && self.name == *name
    }
}

impl Session {
    /// Takes note of the parts that a server acknowledged in a session, if it is this one.
    fn take_ack(&mut self, from: NodeId, name: &SessionName, upto: u64)
        ensures { self.new ≡ with_acked from name.now upto self.old }
    {
        if self.is(from, name) {
            self.acked = self.acked.max(upto.min(self.sent));
        }
    }
}

/// Whether the next part of a session that has room would have a number that no part reaches.
pub fn ends_numbers(sessions: &[Session]) -> bool
    ensures { result ≡ parts_end_numbers sessions.now }
{
    for session in sessions {
        if session.has_room() && session.sent >= NUMBERS_END - 1 {
            return true;
        }
    }
    false
}

/// Whether the server has a live session of that name.
pub fn is_live(sessions: &[Session], from: NodeId, name: &SessionName) -> bool
    ensures { result ≡ is_any_session from name.now sessions.now }
{
    for session in sessions {
        if session.is(from, name) {
            return true;
        }
    }
    false
}

/// Sends a part in each session that has room; the others end.
pub fn send(
    alloc: Global,
    sessions: &[Session],
    part: &Part,
    out: &mut Outputs,
) -> Result<Vec<Session>, OutOfMemory>
    requires { All (λ s. s.sent < 2 ^ 62) sessions.now }
    ensures sessions { IfOk result (λ kept. kept.items ≡ map with_sent (filter has_room sessions.now)) }
    ensures out { OnOk result (out.new ≡ out.old ++ map (sends part.now) (filter has_room sessions.now)) }
{
    let mut kept = Vec::new(alloc);
    for session in sessions {
        if session.has_room() {
            let number = session.sent + 1;
            let part = part.copy(alloc)?;
            out.push(Output::Message {
                to: session.server,
                message: Message::Stream(Stream {
                    session: session.name,
                    number,
                    part,
                }),
            })?;
            kept.push(Session {
                server: session.server,
                name: session.name,
                sent: number,
                acked: session.acked,
            })?;
        }
    }
    Ok(kept)
}

/// Takes note of the parts that a server acknowledged in a session.
pub fn acknowledge(sessions: &mut [Session], from: NodeId, name: &SessionName, upto: u64)
    ensures { sessions.new ≡ map (with_acked from name.now upto) sessions.old }
{
    for session in sessions.iter_mut() {
        session.take_ack(from, name, upto);
    }
}
