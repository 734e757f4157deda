//! The worked lists of operations.
use register_laws::{Op, OpId, Reply, Span, Told, Value, keeps_order, legal, step};
use std::alloc::Global;
use std::test::Fail;

/// An operation that was told: a put of a byte, or a read with the byte that it found, if any.
#[derive(Clone, Copy)]
enum Line {
    Put(u8),
    Read(Option<u8>),
}

fn value(alloc: Global, byte: u8) -> Result<Value, Fail> {
    let mut bytes = Vec::new(alloc);
    bytes.push(byte)?;
    Ok(Value::new(bytes)?)
}

fn value_if(alloc: Global, byte: Option<u8>) -> Result<Option<Value>, Fail> {
    match byte {
        None => Ok(None),
        Some(byte) => Ok(Some(value(alloc, byte)?)),
    }
}

fn told(alloc: Global, op: u64, line: Line) -> Result<Told, Fail> {
    let (what, was) = match line {
        Line::Put(byte) => (Op::Put(value(alloc, byte)?), None),
        Line::Read(was) => (Op::Read, value_if(alloc, was)?),
    };
    Ok(Told {
        op: OpId(op),
        what,
        reply: Reply::Was(was),
    })
}

fn is_legal(alloc: Global, lines: &[Line]) -> Result<bool, Fail> {
    let mut list = Vec::new(alloc);
    for line in lines {
        list.push(told(alloc, 1, *line)?)?;
    }
    Ok(legal(&list))
}

/// Whether a compare-and-set of x to none swaps from this state and leaves none, or is told that there was none.
fn swaps(alloc: Global, state: Option<u8>, reply: &Reply) -> Result<bool, Fail> {
    let state = value_if(alloc, state)?;
    let swap = Op::Cas {
        expect: Some(value(alloc, b'x')?),
        put: None,
    };
    let (given, left) = step(alloc, &state, &swap)?;
    Ok(given == *reply && left.is_none())
}

/// Whether copies are the same again.
fn is_copied(alloc: Global) -> Result<bool, Fail> {
    let swap = Op::Cas {
        expect: Some(value(alloc, b'x')?),
        put: None,
    };
    let reply = Reply::Kept(Some(value(alloc, b'y')?));
    Ok(swap.copy(alloc)? == swap && reply.copy(alloc)? == reply)
}

#[test]
fn lists_are_legal_by_their_replies(rt: HostRuntime) -> Result<(), Fail> {
    let put = Line::Put(b'x');
    assert!(rt; is_legal(rt.alloc(), &[])?);
    assert!(rt; is_legal(rt.alloc(), &[put, Line::Read(Some(b'x'))])?);
    assert!(rt; !is_legal(rt.alloc(), &[put, Line::Read(None)])?);
    assert!(rt; !is_legal(rt.alloc(), &[put, Line::Read(Some(b'y'))])?);
    Ok(())
}

#[test]
fn an_answer_goes_before_a_later_question(rt: HostRuntime) {
    let spans = [
        Span {
            op: OpId(1),
            asked: 1,
            answered: Some(3),
        },
        Span {
            op: OpId(2),
            asked: 4,
            answered: None,
        },
    ];
    assert!(rt; keeps_order(&[OpId(1), OpId(2)], &spans));
    assert!(rt; !keeps_order(&[OpId(2), OpId(1)], &spans));
    assert!(rt; !keeps_order(&[OpId(2), OpId(7), OpId(1)], &spans));
    assert!(rt; keeps_order(&[OpId(2), OpId(1)], &[]));
}

#[test]
fn a_cas_swaps_where_the_value_is_as_expected(rt: HostRuntime) -> Result<(), Fail> {
    assert!(rt; swaps(rt.alloc(), Some(b'x'), &Reply::Swapped)?);
    assert!(rt; swaps(rt.alloc(), None, &Reply::Kept(None))?);
    assert!(rt; is_copied(rt.alloc())?);
    Ok(())
}
