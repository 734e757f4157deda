//! The rows of the node's step, over its parts.
ghost use Rattle.std.specs.Prelude.{◌≡◌, ◌<◌, ◌++◌, ◌↔◌, position, IfSome, OnOk, IsErrOf, IsTrue};
ghost use Rattle.secondary_exec.specs.Stream.{is_ours};
ghost use Rattle.node_core.specs.Parts.{is_for, request_all, requests_end_numbers, stream_all, streams_end_numbers, got_all, give_up_all, give_up_all_outs, decide_all, decide_all_outs};

use exec_types::{Got, Outcome, Output, Outputs, Stream};
use memory::OutOfMemory;
use primary_exec::Primary;
use region_map::{Key, NodeId, StepRefused};
use register_laws::{Op, OpId};
use secondary_exec::Following;
use std::alloc::Global;
use store_plain::PlainStore;

/// The place of the execution whose region has a key, where there are so many hashes.
fn place_for(executions: &[Primary], key: &Key, hashes: u8) -> Option<usize>
    requires { 0 < hashes }
    ensures { result ≡ position (is_for hashes key.now) executions.now }
{
    executions
        .iter()
        .position(|execution| execution.is_for(key, hashes))
}

/// A client asks for an operation: the execution of the key's region dispatches it; where there is none, the node
/// does not serve the key.
pub fn request(
    executions: &mut [Primary],
    hashes: u8,
    store: &mut PlainStore,
    alloc: Global,
    op: OpId,
    key: &Key,
    what: &Op,
    out: &mut Outputs,
) -> Result<(), StepRefused>
    requires { 0 < hashes }
    ensures executions { OnOk result (executions.new
        ≡ (request_all hashes executions.old store.old.rows store.old.versions op key.now what.now).executions) }
    ensures rows { OnOk result (store.new.rows
        ≡ (request_all hashes executions.old store.old.rows store.old.versions op key.now what.now).rows) }
    ensures versions { OnOk result (store.new.versions
        ≡ (request_all hashes executions.old store.old.rows store.old.versions op key.now what.now).versions) }
    ensures out { OnOk result (out.new
        ≡ out.old ++ (request_all hashes executions.old store.old.rows store.old.versions op key.now what.now).outs) }
    ensures numbers { IsErrOf result StepRefused.NumbersEnd ↔ IsTrue (requests_end_numbers hashes executions.old key.now) }
{
    let Some(place) = place_for(executions, key, hashes) else {
        out.push(Output::Answer {
            op,
            outcome: Outcome::NotServing,
        })?;
        return Ok(());
    };
    executions[place].request(alloc, op, key, what, store, out)?;
    Ok(())
}

/// A client gives up its operation.
pub fn give_up(executions: &mut [Primary], op: OpId, out: &mut Outputs) -> Result<(), OutOfMemory>
    ensures executions { OnOk result (executions.new ≡ give_up_all executions.old op) }
    ensures out { OnOk result (out.new ≡ out.old ++ give_up_all_outs executions.old op) }
{
    for execution in executions.iter_mut() {
        execution.give_up(op, out)?;
    }
    Ok(())
}

/// The place of the following that a part of a stream comes to.
fn place_of(followings: &[Following], from: NodeId, stream: &Stream) -> Option<usize>
    ensures { result ≡ position (λ f. is_ours f from stream.now) followings.now }
{
    followings
        .iter()
        .position(|following| following.is_ours(from, stream))
}

/// The network brings a part of a primary's stream: the following that has the part's session takes it.
pub fn take_stream(
    followings: &mut [Following],
    store: &mut PlainStore,
    alloc: Global,
    from: NodeId,
    stream: &Stream,
    view: u64,
    out: &mut Outputs,
) -> Result<(), StepRefused>
    ensures followings { OnOk result (followings.new
        ≡ (stream_all followings.old store.old.rows store.old.versions from stream.now view).followings) }
    ensures rows { OnOk result (store.new.rows
        ≡ (stream_all followings.old store.old.rows store.old.versions from stream.now view).rows) }
    ensures versions { OnOk result (store.new.versions
        ≡ (stream_all followings.old store.old.rows store.old.versions from stream.now view).versions) }
    ensures out { OnOk result (out.new
        ≡ out.old ++ (stream_all followings.old store.old.rows store.old.versions from stream.now view).outs) }
    ensures numbers { IsErrOf result StepRefused.NumbersEnd ↔ IsTrue (streams_end_numbers followings.old from stream.now) }
{
    let Some(place) = place_of(followings, from, stream) else {
        return Ok(());
    };
    followings[place].stream(alloc, from, stream, view, store, out)?;
    Ok(())
}

/// The network brings a secondary's word of how far it came.
pub fn take_got(executions: &mut [Primary], from: NodeId, got: &Got)
    ensures { executions.new ≡ got_all executions.old from got.now }
{
    for execution in executions.iter_mut() {
        execution.got(from, got);
    }
}

/// What ends each step: each execution answers the operations that are decided.
pub fn decide(executions: &mut [Primary], out: &mut Outputs) -> Result<(), OutOfMemory>
    ensures executions { OnOk result (executions.new ≡ decide_all executions.old) }
    ensures out { OnOk result (out.new ≡ out.old ++ decide_all_outs executions.old) }
{
    for execution in executions.iter_mut() {
        execution.decide(out)?;
    }
    Ok(())
}
