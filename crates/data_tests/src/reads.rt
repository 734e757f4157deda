//! The worked waiting reads.
ghost use Rattle.std.specs.Prelude.{◌≡◌};
ghost use Rattle.majority_read.specs.Reads.{behind_upto};

use majority_read::Reads;
use register_laws::{OpId, Value};
use std::alloc::Global;
use std::test::Fail;

fn value(alloc: Global, text: &str) -> Result<Option<Value>, Fail> {
    let bytes = Vec::from_slice(alloc, text.as_bytes())?;
    Ok(Some(Value::new(bytes)?))
}

fn is_value(value: &Option<Value>, wanted: Option<&str>) -> bool {
    match (value, wanted) {
        (None, None) => true,
        (Some(value), Some(wanted)) => value.as_bytes() == wanted.as_bytes(),
        _ => false,
    }
}

/// Whether the read that is taken up to a timestamp has this operation, sync and value.
fn takes(reads: &mut Reads, at: u64, op: u64, sync: u64, wanted: Option<&str>) -> bool
    ensures { reads.new ≡ behind_upto at reads.old }
{
    match reads.take_upto(at) {
        None => false,
        Some(read) => read.0 == OpId(op) && read.1 == sync && is_value(&read.2, wanted),
    }
}

#[test]
fn reads_come_out_in_the_order_of_their_syncs(rt: HostRuntime) -> Result<(), Fail> {
    let mut reads = Reads::new(rt.alloc());
    assert!(rt; reads.take_upto(9).is_none());
    reads.ask(OpId(7), 2, value(rt.alloc(), "x")?)?;
    reads.ask(OpId(3), 5, None)?;
    reads.ask(OpId(7), 6, value(rt.alloc(), "y")?)?;
    assert!(rt; reads.take_upto(1).is_none());
    assert!(rt; takes(&mut reads, 5, 7, 2, Some("x")));
    assert!(rt; takes(&mut reads, 5, 3, 5, None));
    assert!(rt; reads.take_upto(5).is_none());
    assert!(rt; takes(&mut reads, 9, 7, 6, Some("y")));
    assert!(rt; reads.take_upto(9).is_none());
    Ok(())
}

#[test]
fn the_least_read_of_an_operation_is_dropped(rt: HostRuntime) -> Result<(), Fail> {
    let mut reads = Reads::new(rt.alloc());
    assert!(rt; !reads.drop_read(OpId(1)));
    reads.ask(OpId(1), 1, None)?;
    reads.ask(OpId(2), 2, None)?;
    reads.ask(OpId(1), 3, None)?;
    assert!(rt; reads.sync_of(OpId(1)) == Some(1));
    assert!(rt; reads.sync_of(OpId(9)).is_none());
    assert!(rt; !reads.drop_read(OpId(9)));
    assert!(rt; reads.drop_read(OpId(1)));
    assert!(rt; reads.sync_of(OpId(1)) == Some(3));
    reads.ask(OpId(4), 4, value(rt.alloc(), "")?)?;
    assert!(rt; takes(&mut reads, 9, 2, 2, None));
    assert!(rt; takes(&mut reads, 9, 1, 3, None));
    assert!(rt; !reads.drop_read(OpId(1)));
    assert!(rt; reads.drop_read(OpId(4)));
    assert!(rt; reads.take_upto(9).is_none());
    Ok(())
}
