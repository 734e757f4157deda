ghost use Rattle.std.specs.Prelude.{◌<◌};

use super::*;
use branch_history::Version;
use contract_types::{
    Applied, Change, Condition, Contracts, Counts, Ids, Results, Setup, ShardConfig, TableConfig,
    Which,
};
use exec_types::{Input, Outcome, Output, Outputs};
use line_io::MemorySink;
use node_core::{Entry, Journal};
use region_map::{Id, Key, NodeId, NodeSet, Region, RegionMap};
use register_laws::{Op, OpId, Reply, Value};
use script_text::{Reason, ScriptItem, ScriptWord};
use std::alloc::Global;
use std::test::Fail;

const FIRST: Id = Id {
    node: NodeId(0),
    life: 1,
    counter: 0,
};

/// The first branch of the second of two shards, whose primary is node 2.
const SECOND: Id = Id {
    node: NodeId(2),
    life: 1,
    counter: 1,
};

fn value(alloc: Global, text: &str) -> Result<Option<Value>, Fail> {
    Ok(Some(Value::new(text.as_bytes().to_vec(alloc)?)?))
}

fn done(reply: Reply, timestamp: u64) -> Option<Outcome> {
    Some(Outcome::Done {
        reply,
        branch: FIRST,
        timestamp,
    })
}

fn item(alloc: Global, op: u64, key: &str, what: Op) -> Result<ScriptItem, Fail> {
    Ok(ScriptItem {
        line: op,
        word: ScriptWord::Request {
            op: OpId(op),
            node: NodeId(0),
            key: Key::new(key.as_bytes().to_vec(alloc)?)?,
            what,
        },
    })
}

/// The step of a node that was asked, and dispatched the operation at a timestamp above 0.
fn entry(
    alloc: Global,
    op: u64,
    key: &str,
    what: Op,
    timestamp: u64,
    outcome: Option<Outcome>,
) -> Result<Entry, Fail> {
    let op = OpId(op);
    let key = Key::new(key.as_bytes().to_vec(alloc)?)?;
    let mut outputs = Outputs::new(alloc);
    if timestamp > 0 {
        outputs.push(Output::Dispatched {
            op,
            key: key.copy(alloc)?,
            branch: FIRST,
            timestamp,
        })?;
    }
    if let Some(outcome) = outcome {
        outputs.push(Output::Answer { op, outcome })?;
    }
    Ok(Entry {
        node: NodeId(0),
        input: Input::Request { op, key, what },
        outputs,
    })
}

fn read_items(alloc: Global, keys: &[&str]) -> Result<Vec<ScriptItem>, Fail> {
    let mut items = Vec::new(alloc);
    let mut op = 0;
    for key in keys {
        op = (op % 1000) + 1;
        items.push(item(alloc, op, key, Op::Read)?)?;
    }
    Ok(items)
}

fn play(
    alloc: Global,
    journal: &mut Journal,
    op: u64,
    key: &str,
    what: Op,
    timestamp: u64,
    outcome: Option<Outcome>,
) -> Result<(), Fail> {
    journal.push(entry(alloc, op, key, what, timestamp, outcome)?)?;
    Ok(())
}

fn play_on_a(alloc: Global, journal: &mut Journal) -> Result<(), Fail> {
    let quoted = value(alloc, "\u{e9}\"")?;
    play(
        alloc,
        journal,
        2,
        "a",
        Op::Delete,
        3,
        done(Reply::Was(quoted), 3),
    )?;
    let kept = value(alloc, "x")?;
    play(
        alloc,
        journal,
        3,
        "a",
        Op::Delete,
        4,
        done(Reply::Kept(kept), 4),
    )?;
    play(
        alloc,
        journal,
        4,
        "a",
        Op::Delete,
        5,
        done(Reply::Swapped, 5),
    )?;
    play(
        alloc,
        journal,
        5,
        "a",
        Op::Read,
        6,
        done(Reply::Kept(None), 6),
    )
}

fn play_on_b(alloc: Global, journal: &mut Journal) -> Result<(), Fail> {
    let counts = Counts {
        voters: 1,
        of: 3,
        temp: Some((2, 5)),
    };
    play(
        alloc,
        journal,
        1,
        "b",
        Op::Delete,
        2,
        done(Reply::Was(None), 2),
    )?;
    play(
        alloc,
        journal,
        6,
        "b",
        Op::Delete,
        0,
        Some(Outcome::NotServing),
    )?;
    play(
        alloc,
        journal,
        7,
        "b",
        Op::Delete,
        7,
        Some(Outcome::NoMajority(counts)),
    )?;
    play(alloc, journal, 8, "b", Op::Read, 8, None)
}

const ALL_FATES: &str =
    "table nodes 3 hash 8 shards 1\nop 1 done none 0.1.0:2\nop 2 done \"\u{e9}\\\"\" 0.1.0:3\nop 3 done kept \"x\" 0.1.0:4\nop 4 done swapped 0.1.0:5\nop 5 done kept none 0.1.0:6\nop 6 unavailable not_serving\nop 7 unavailable no_majority voters 1 of 3 temp 2 of 5\nop 8 open\nop 9 unsent\nop 10 down\nrefused 12 no_such_message\nrefused 14 not_yours\nstory \"a\" 2 3 4 5\nstory \"b\" 1 7\nlimit journal_entries 20000\n";

#[test]
fn tells_what_became_of_each_operation(rt: HostRuntime) -> Result<(), Fail> {
    let alloc = rt.alloc();
    let items = read_items(alloc, &["b", "a", "a", "a", "a", "b", "b", "b", "b", "a"])?;
    let mut journal = Journal::empty(alloc);
    play_on_b(alloc, &mut journal)?;
    play_on_a(alloc, &mut journal)?;
    let refused = [
        Refusal {
            line: 12,
            reason: EventRefused::NoSuchMessage,
        },
        Refusal {
            line: 14,
            reason: EventRefused::NotYours,
        },
    ];
    let ending = Ending::Limit {
        which: Which::JournalEntries,
        number: 20000,
    };
    let mut sink = MemorySink::new(alloc, Vec::new(alloc));
    sink.reserve(1000)?;
    let setup = Setup::whole(alloc, 3, 8)?;
    print_report(
        alloc,
        &setup,
        &items,
        &journal,
        &[OpId(10)],
        &refused,
        ending,
        &mut sink,
    )?;
    assert_eq!(rt; sink.bytes(), ALL_FATES.as_bytes());
    Ok(())
}

/// A shard of the keys from one bound to another, which its primary alone keeps.
fn shard(from: Option<Key>, to: Option<Key>, primary: u8) -> ShardConfig
    requires { primary < 64 }
{
    let set = NodeSet::empty().with(NodeId(primary));
    ShardConfig {
        region: Region {
            hash_from: 0,
            hash_to: 1,
            from,
            to,
        },
        replicas: set,
        voters: set,
        primary: NodeId(primary),
    }
}

/// Three nodes and two shards: node 0 has the keys before m, and node 2 the others.
fn two_shards(alloc: Global) -> Result<Setup, Fail> {
    let mut shards = Vec::new(alloc);
    let to = Key::new("m".as_bytes().to_vec(alloc)?)?;
    let from = to.copy(alloc)?;
    shards.push(shard(None, Some(to), 0))?;
    shards.push(shard(Some(from), None, 2))?;
    let config = TableConfig::new(alloc, 3, 1, shards)?;
    Ok(Setup::new(config))
}

/// A delete that a node dispatched on a branch.
fn dispatch(
    alloc: Global,
    journal: &mut Journal,
    op: u64,
    key: &str,
    branch: Id,
    timestamp: u64,
) -> Result<(), Fail> {
    let op = OpId(op);
    let key = Key::new(key.as_bytes().to_vec(alloc)?)?;
    let mut outputs = Outputs::new(alloc);
    outputs.push(Output::Dispatched {
        op,
        key: key.copy(alloc)?,
        branch,
        timestamp,
    })?;
    journal.push(Entry {
        node: branch.node,
        input: Input::Request {
            op,
            key,
            what: Op::Delete,
        },
        outputs,
    })?;
    Ok(())
}

/// A tick at which a node acted on its log from its first change on.
fn view(
    alloc: Global,
    journal: &mut Journal,
    node: NodeId,
    results: Vec<(Change, Applied)>,
) -> Result<(), Fail> {
    let mut outputs = Outputs::new(alloc);
    outputs.push(Output::Viewed {
        first: 1,
        results: Results::from(results),
    })?;
    journal.push(Entry {
        node,
        input: Input::Tick,
        outputs,
    })?;
    Ok(())
}

#[test]
fn tells_the_current_branch_of_each_key(rt: HostRuntime) -> Result<(), Fail> {
    let alloc = rt.alloc();
    let mut journal = Journal::empty(alloc);
    dispatch(alloc, &mut journal, 1, "a", FIRST, 1)?;
    view(alloc, &mut journal, NodeId(1), Vec::new(alloc))?;
    dispatch(alloc, &mut journal, 2, "z", FIRST, 1)?;
    dispatch(alloc, &mut journal, 3, "z", SECOND, 1)?;
    let items = read_items(alloc, &["a", "z", "z"])?;
    let setup = two_shards(alloc)?;
    let mut sink = MemorySink::new(alloc, Vec::new(alloc));
    sink.reserve(1000)?;
    print_report(
        alloc,
        &setup,
        &items,
        &journal,
        &[],
        &[],
        Ending::End,
        &mut sink,
    )?;
    assert_eq!(rt;
        sink.bytes(),
        b"table nodes 3 hash 1 shards 2\nop 1 open\nop 2 open\nop 3 open\nstory \"a\" 1\nstory \"z\" 3\nend\n".as_slice()
    );
    Ok(())
}

/// No contract has this id.
fn skipped(alloc: Global) -> Result<Change, Fail> {
    Ok(Change::NewContracts {
        removed: Ids::from(vec![in alloc; SECOND]?),
        added: Contracts::from(Vec::new(alloc)),
    })
}

/// Node 2 begins a branch of the keys from m on, which goes on from timestamp 2 of the one before.
fn next_branch(alloc: Global, branch: Id) -> Result<Change, Fail> {
    let from = Key::new("m".as_bytes().to_vec(alloc)?)?;
    let region = shard(Some(from), None, 2).region;
    let end = Version {
        branch: Some(SECOND),
        timestamp: 2,
    };
    let based_on = RegionMap::constant(alloc, region.copy(alloc)?, 1, SECOND)?;
    let origin = RegionMap::constant(alloc, region.copy(alloc)?, 1, end)?;
    Ok(Change::RegisterBranch {
        branch,
        region,
        tenure: 0,
        maker: NodeId(2),
        based_on,
        origin,
    })
}

#[test]
fn tells_skipped_changes_and_follows_the_log(rt: HostRuntime) -> Result<(), Fail> {
    let alloc = rt.alloc();
    let third = Id {
        node: NodeId(2),
        life: 1,
        counter: 2,
    };
    let mut journal = Journal::empty(alloc);
    dispatch(alloc, &mut journal, 1, "z", SECOND, 1)?;
    dispatch(alloc, &mut journal, 2, "z", SECOND, 3)?;
    let mut results = Vec::new(alloc);
    results.push((skipped(alloc)?, Applied::Skipped(Condition::Removed)))?;
    results.push((next_branch(alloc, third)?, Applied::Taken))?;
    view(alloc, &mut journal, NodeId(0), Vec::new(alloc))?;
    view(alloc, &mut journal, NodeId(1), results)?;
    dispatch(alloc, &mut journal, 3, "z", third, 3)?;
    let items = read_items(alloc, &["z"])?;
    let setup = two_shards(alloc)?;
    let mut sink = MemorySink::new(alloc, Vec::new(alloc));
    sink.reserve(1000)?;
    print_report(
        alloc,
        &setup,
        &items,
        &journal,
        &[],
        &[],
        Ending::End,
        &mut sink,
    )?;
    assert_eq!(rt;
        sink.bytes(),
        b"table nodes 3 hash 1 shards 2\nop 1 open\nskipped 1 removed\nstory \"z\" 1 3\nend\n".as_slice()
    );
    Ok(())
}

#[test]
fn stops_at_a_fault(rt: HostRuntime) -> Result<(), Fail> {
    let alloc = rt.alloc();
    let items = read_items(alloc, &["k"])?;
    let mut sink = MemorySink::new(alloc, vec![in alloc; 3]?);
    sink.reserve(1000)?;
    let journal = Journal::empty(alloc);
    let printed = print_report(
        alloc,
        &Setup::whole(alloc, 1, 1)?,
        &items,
        &journal,
        &[],
        &[],
        Ending::End,
        &mut sink,
    );
    assert_eq!(rt; printed, Err(PrintRefused::WriteFault));
    assert_eq!(rt;
        sink.bytes(),
        b"table nodes 1 hash 1 shards 1\nop 1 unsent\n".as_slice()
    );
    Ok(())
}

#[test]
fn lines_that_stand_alone(rt: HostRuntime) -> Result<(), Fail> {
    let alloc = rt.alloc();
    assert_eq!(rt; usage_line(), "usage\n");
    assert_eq!(rt; read_fault_line(), "read fault\n");
    assert_eq!(rt;
        limit_line(alloc, Which::LineBytes, 4096)?.as_str(),
        "limit line_bytes 4096\n"
    );
    assert_eq!(rt;
        script_line(alloc, 3, Reason::NotBuilt)?.as_str(),
        "script 3 not_built\n"
    );
    Ok(())
}
