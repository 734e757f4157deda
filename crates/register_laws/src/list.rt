//! Lists of operations: which ones a register could have taken, and which keep the order that clients saw.
ghost use Rattle.std.specs.Prelude.{◌≡◌, ◌↔◌, ℕ, IsTrue};
ghost use Rattle.std.specs.Option.{option_copied};
ghost use Rattle.register_laws.specs.Register.{State, reply_of, state_after, same_state};
ghost use Rattle.register_laws.specs.Lists.{IsLegal, KeepsOrder, ended_before, last_asked};

use crate::{Op, OpId, Reply, Span, Told, Value};

/// Whether a borrowed state is this one.
fn is_state(state: Option<&Value>, other: &Option<Value>) -> bool
    ensures { result ≡ same_state (option_copied state.entry) other.now }
{
    match (state, other) {
        (Some(value), Some(other)) => *value == *other,
        (None, None) => true,
        _ => false,
    }
}

/// Whether this is the register's reply from a borrowed state.
fn is_reply(state: Option<&Value>, op: &Op, reply: &Reply) -> bool
    ensures { IsTrue result ↔ (reply.now ≡ reply_of (option_copied state.entry) op.now) }
{
    match (op, reply) {
        (Op::Cas { expect, .. }, Reply::Swapped) => is_state(state, expect),
        (Op::Cas { expect, .. }, Reply::Kept(kept)) => {
            !is_state(state, expect) && is_state(state, kept)
        }
        (Op::Cas { .. }, Reply::Was(_)) => false,
        (_, Reply::Was(before)) => is_state(state, before),
        _ => false,
    }
}

/// The state that an operation leaves, borrowed from the state before or from the operation.
fn state_left<'a>(state: Option<&'a Value>, op: &'a Op) -> Option<&'a Value>
    ensures { option_copied result ≡ state_after (option_copied state.entry) op.now }
{
    match op {
        Op::Put(value) => Some(value),
        Op::Delete => None,
        Op::Cas { expect, put } => {
            if is_state(state, expect) {
                put.as_ref()
            } else {
                state
            }
        }
        Op::Read => state,
    }
}

/// Whether each reply is the register's after all earlier members of the list, from no value.
pub fn legal(list: &[Told]) -> bool
    ensures { IsTrue result ↔ IsLegal list.now }
{
    let mut state = None;
    for told in list {
        if !is_reply(state, &told.what, &told.reply) {
            return false;
        }
        state = state_left(state, &told.what);
    }
    true
}

/// Whether a span of the operation was answered before a moment.
fn is_ended_before(spans: &[Span], op: OpId, moment: u64) -> bool
    ensures { result ≡ ended_before spans.now op moment }
{
    for span in spans {
        if let Some(answered) = span.answered
            && span.op == op
            && answered < moment
        {
            return true;
        }
    }
    false
}

/// The last moment at which the operation was asked, 0 where it never was.
fn asked_last(spans: &[Span], op: OpId) -> u64
    ensures { result ≡ last_asked spans.now op }
{
    let mut last = 0;
    for span in spans {
        if span.op == op {
            last = last.max(span.asked);
        }
    }
    last
}

/// Whether no member of the list stands after another that was asked after its answer.
///
/// An operation that has no span is in order with all others; where one has several spans, each of them counts.
pub fn keeps_order(list: &[OpId], spans: &[Span]) -> bool
    ensures { IsTrue result ↔ KeepsOrder list.now spans.now }
{
    let mut moment = 0;
    for op in list {
        if is_ended_before(spans, *op, moment) {
            return false;
        }
        moment = moment.max(asked_last(spans, *op));
    }
    true
}
