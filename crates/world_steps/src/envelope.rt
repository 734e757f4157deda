//! Messages on their way.
ghost use Rattle.std.specs.Prelude.{◌≡◌, ℕ, ◌+◌, ◌==◌, ◌<◌, ◌&&◌, ◌||◌, ◌++◌, ◌∷◌, [], Some, OnOk, IfOk, List, length, option_copied};
ghost use Rattle.region_map.specs.declared.id.NodeId.{NodeId};
ghost use Rattle.exec_types.specs.declared.output.Output.{Output};
ghost use Rattle.runs.specs.declared.envelope.Envelope.{Envelope};
ghost use Rattle.runs.specs.Run.{sent_by, numbered, opened};
ghost use Rattle.world_steps.specs.Waiting.{is_between};
ghost use Rattle.world_steps.specs.Pairs.{pair_has, comes_between};

use crate::waiting_sets::WaitingSets;
use exec_types::{Message, Output};
use memory::OutOfMemory;
use node_core::Brought;
use region_map::NodeId;
use runs::Envelope;
use std::alloc::Global;

/// The message of a number, which counts from 1.
pub fn find(sent: &[Envelope], number: u64) -> Option<&Envelope>
    ensures { option_copied result ≡ numbered sent.now number }
{
    if number == 0 {
        None
    } else {
        sent.get((number - 1) as usize)
    }
}

/// What a delivery of this message brings.
pub fn open(alloc: Global, envelope: &Envelope) -> Result<Brought, OutOfMemory>
    ensures { IfOk result (λ brought. Some brought ≡ opened (Some envelope.now)) }
{
    let message = envelope.message.copy(alloc)?;
    Ok(Brought {
        from: envelope.from,
        message,
    })
}

/// Puts a message behind those that were sent before. It waits.
fn send(
    sent: &mut Vec<Envelope>,
    waits: &mut WaitingSets,
    envelope: Envelope,
) -> Result<(), OutOfMemory>
    ensures sent { OnOk result (sent.new.items ≡ sent.old.items ++ envelope ∷ []) }
    ensures nodes { waits.new.nodes ≡ waits.old.nodes }
    ensures waits { OnOk result ((a b : NodeId) → a.0 < waits.old.nodes → b.0 < waits.old.nodes → (n : ℕ)
        → pair_has waits.new a b n
        ≡ (comes_between (length sent.old.items) sent.new.items a b n || pair_has waits.old a b n)) }
{
    waits.add(&envelope, sent.len() as u64 + 1)?;
    sent.push(envelope)?;
    Ok(())
}

/// Puts the message of an output, if it is one, behind those that were sent before. It waits.
fn put_output(
    alloc: Global,
    from: NodeId,
    output: &Output,
    sent: &mut Vec<Envelope>,
    waits: &mut WaitingSets,
) -> Result<(), OutOfMemory>
    ensures sent { (rest : List Output) → OnOk result (sent.new.items ++ sent_by from rest
        ≡ sent.old.items ++ sent_by from (output.now ∷ rest)) }
    ensures behind { OnOk result ((more : List Envelope) × (sent.new.items ≡ sent.old.items ++ more)) }
    ensures nodes { waits.new.nodes ≡ waits.old.nodes }
    ensures waits { OnOk result ((a b : NodeId) → a.0 < waits.old.nodes → b.0 < waits.old.nodes → (n : ℕ)
        → pair_has waits.new a b n
        ≡ (comes_between (length sent.old.items) sent.new.items a b n || pair_has waits.old a b n)) }
{
    let Output::Message { to, message } = output else {
        return Ok(());
    };
    let message = message.copy(alloc)?;
    send(
        sent,
        waits,
        Envelope {
            from,
            to: *to,
            message,
        },
    )?;
    Ok(())
}

/// Puts the messages among some outputs of a node behind those that were sent before. They wait.
pub fn collect(
    alloc: Global,
    from: NodeId,
    outputs: &[Output],
    sent: &mut Vec<Envelope>,
    waits: &mut WaitingSets,
) -> Result<(), OutOfMemory>
    ensures sent { OnOk result (sent.new.items ≡ sent.old.items ++ sent_by from outputs.now) }
    ensures nodes { waits.new.nodes ≡ waits.old.nodes }
    ensures waits { OnOk result ((a b : NodeId) → a.0 < waits.old.nodes → b.0 < waits.old.nodes → (n : ℕ)
        → pair_has waits.new a b n
        ≡ (comes_between (length sent.old.items) sent.new.items a b n || pair_has waits.old a b n)) }
{
    for output in outputs {
        put_output(alloc, from, output, sent, waits)?;
    }
    Ok(())
}
