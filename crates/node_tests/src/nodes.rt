//! A table with a shard for each of two nodes: its nodes alone, and how a primary of a later contract starts.
ghost use Rattle.std.specs.Prelude.{◌≡◌, ◌<◌, IfOk};

use branch_history::Version;
use contract_types::{Ack, Contract, Setup, ShardConfig, TableConfig, first_contract};
use exec_types::{Input, Message, Outcome, Output, Outputs};
use node_core::{Brought, Node};
use primary_exec::{Asking, Primary};
use region_map::{Id, Key, NodeId, NodeSet, Region, RegionMap};
use register_laws::{Op, OpId, Value};
use std::alloc::Global;
use std::test::Fail;
use store_api::{Item, Row, Store};
use store_plain::PlainStore;

fn key(alloc: Global, text: &str) -> Result<Key, Fail> {
    let bytes = Vec::from_slice(alloc, text.as_bytes())?;
    Ok(Key::new(bytes)?)
}

/// A shard that both nodes keep.
fn shard(from: Option<Key>, to: Option<Key>, primary: u8) -> ShardConfig {
    let both = NodeSet::empty().with(NodeId(0)).with(NodeId(1));
    ShardConfig {
        region: Region {
            hash_from: 0,
            hash_to: 1,
            from,
            to,
        },
        replicas: both,
        voters: both,
        primary: NodeId(primary),
    }
}

/// Node 0 is the primary of the keys below m, and node 1 of the others.
fn setup(alloc: Global) -> Result<Setup, Fail>
    ensures { IfOk result (λ setup. setup.nodes ≡ 2) }
{
    let low = shard(None, Some(key(alloc, "m")?), 0);
    let high = shard(Some(key(alloc, "m")?), None, 1);
    let shards = vec![in alloc; low, high]?;
    let config = TableConfig::new(alloc, 2, 1, shards)?;
    Ok(Setup::new(config))
}

fn put(alloc: Global, op: u64, text: &str) -> Result<Input, Fail> {
    let value = Vec::from_slice(alloc, b"x")?;
    Ok(Input::Request {
        op: OpId(op),
        key: key(alloc, text)?,
        what: Op::Put(Value::new(value)?),
    })
}

/// An ack in words.
fn needs(alloc: Global, ack: &Ack, to: NodeId) -> Result<String, Fail> {
    match ack {
        Ack::NeedBranch { branch, .. } => Ok(format!(in alloc; "needs {branch} to {}", to.0)?),
        _ => Ok(format!(in alloc; "other to {}", to.0)?),
    }
}

/// One output in words.
fn said(alloc: Global, output: &Output) -> Result<String, Fail> {
    let text = match output {
        Output::Message { to, message } => match message {
            Message::Raft(_) => format!(in alloc; "log to {}", to.0)?,
            Message::Say { ack, .. } => needs(alloc, ack, *to)?,
            Message::Stream(stream) => format!(in alloc; "part {} to {}", stream.number, to.0)?,
            Message::Got(got) => format!(in alloc; "got {} to {}", got.upto, to.0)?,
        },
        Output::Dispatched {
            branch,
            timestamp,
            ..
        } => format!(in alloc; "{branch}:{timestamp}")?,
        Output::Viewed { first, .. } => format!(in alloc; "viewed {first}")?,
        Output::Answer { outcome, .. } => match outcome {
            Outcome::Done {
                branch,
                timestamp,
                ..
            } => format!(in alloc; "done {branch}:{timestamp}")?,
            Outcome::NotServing => format!(in alloc; "not serving")?,
            Outcome::NoMajority(_) => format!(in alloc; "no majority")?,
        },
    };
    Ok(text)
}

/// What a step gave, in words.
fn told(alloc: Global, outputs: &Outputs) -> Result<String, Fail> {
    let mut text = String::new(alloc);
    for output in outputs.as_slice() {
        let more = said(alloc, output)?;
        text.push_str(more.as_str())?;
        text.push_str(", ")?;
    }
    Ok(text)
}

/// One step, of which nothing is claimed: so a test of many steps is proved one step at a time.
fn stepped(
    alloc: Global,
    node: Node,
    input: &Input,
    brought: Option<Brought>,
) -> Result<(Node, Outputs), Fail> {
    Ok(node.step(alloc, input, brought)?)
}

/// A node of a table as it begins, of which nothing is claimed either.
fn begun(alloc: Global, setup: &Setup, me: u8) -> Result<Node, Fail>
    requires { me < setup.now.nodes }
{
    Ok(Node::begin(alloc, setup, NodeId(me))?)
}

/// Whether a step gave what these words say.
fn says(alloc: Global, outputs: &Outputs, words: &str) -> Result<bool, Fail> {
    Ok(told(alloc, outputs)?.as_str() == words)
}

/// The first message that a step of a node gave.
fn first(alloc: Global, from: u8, outputs: &Outputs) -> Result<Option<Brought>, Fail> {
    for output in outputs.as_slice() {
        if let Output::Message { message, .. } = output {
            return Ok(Some(Brought {
                from: NodeId(from),
                message: message.copy(alloc)?,
            }));
        }
    }
    Ok(None)
}

#[test]
fn each_node_serves_its_own_shard(rt: HostRuntime) -> Result<(), Fail> {
    let alloc = rt.alloc();
    let setup = setup(alloc)?;
    let zero = begun(alloc, &setup, 0)?;
    let one = begun(alloc, &setup, 1)?;
    let low = key(alloc, "a")?;
    assert!(rt; zero.serving(&low) && !one.serving(&low));
    let deliver = Input::Deliver { message: 1 };
    let (zero, refused) = stepped(alloc, zero, &put(alloc, 1, "z")?, None)?;
    assert!(rt; says(alloc, &refused, "not serving, ")?);
    let (zero, asked) = stepped(alloc, zero, &put(alloc, 2, "a")?, None)?;
    assert!(rt; says(alloc, &asked, "part 2 to 1, 0.1.0:1, ")?);
    let (one, taken) = stepped(alloc, one, &deliver, first(alloc, 0, &asked)?)?;
    assert!(rt; says(alloc, &taken, "got 2 to 0, ")?);
    let (_zero, done) = stepped(alloc, zero, &deliver, first(alloc, 1, &taken)?)?;
    assert!(rt; says(alloc, &done, "done 0.1.0:1, ")?);
    let (_one, other) = stepped(alloc, one, &put(alloc, 3, "z")?, None)?;
    assert!(rt; says(alloc, &other, "part 2 to 0, 1.1.1:1, ")?);
    Ok(())
}

/// A contract of the keys below m, which node 0 holds and votes on alone.
fn alone(alloc: Global) -> Result<Contract, Fail> {
    let mut shard = shard(None, Some(key(alloc, "m")?), 0);
    shard.voters = NodeSet::empty().with(NodeId(0));
    Ok(first_contract(alloc, 0, &shard)?)
}

/// A branch of node 0.
fn branch(counter: u64) -> Id {
    Id {
        node: NodeId(0),
        life: 1,
        counter,
    }
}

fn at(counter: u64, timestamp: u64) -> Version {
    Version {
        branch: Some(branch(counter)),
        timestamp,
    }
}

/// A store with a row that was deleted at timestamp 4 of branch 0.
fn written(alloc: Global, part: &Region, key: &Key) -> Result<PlainStore, Fail> {
    let mut store = PlainStore::new(alloc, 1)?;
    let row = Row {
        value: None,
        recency: 4,
    };
    let item = Item {
        key: key.copy(alloc)?,
        row: Some(row),
    };
    store.start_branch(alloc, part, branch(0), 0)?;
    store.advance(alloc, part, branch(0), 4, Some(item))?;
    Ok(store)
}

/// Whether an ack wants branch 1, which goes on from timestamp 4 of branch 0 at one key, and says nothing of another.
fn asks(ack: &Ack, of: &Key, other: &Key) -> bool {
    match ack {
        Ack::NeedBranch {
            branch: wanted,
            based_on,
            origin,
        } => {
            let bases = based_on.get(of) == Some(&branch(0)) && based_on.get(other).is_none();
            let begins = origin.get(of) == Some(&at(0, 4)) && origin.get(other).is_none();
            *wanted == branch(1) && bases && begins
        }
        _ => false,
    }
}

#[test]
fn a_primary_starts_the_branch_that_it_asked_for(rt: HostRuntime) -> Result<(), Fail> {
    let alloc = rt.alloc();
    let low = key(alloc, "a")?;
    let high = key(alloc, "z")?;
    let contract = alone(alloc)?;
    let mut store = written(alloc, &contract.region, &low)?;
    let everything = Region {
        hash_from: 0,
        hash_to: 1,
        from: None,
        to: None,
    };
    let current = RegionMap::constant(alloc, everything, 1, branch(0))?;
    let asking = Asking {
        contract,
        branch: branch(1),
    };
    assert!(rt; asks(&asking.ack(alloc, &current, &store)?, &low, &high));
    let mut primary = Primary::start(alloc, asking, NodeId(0), 5, &mut store)?;
    assert!(rt; !primary.ready() && matches!(primary.ack(), Ack::InProgress));
    let mut out = Outputs::new(alloc);
    primary.decide(&mut out)?;
    assert!(rt; primary.ready() && matches!(primary.ack(), Ack::Ready));
    assert!(rt; out.as_slice().is_empty());
    assert!(rt; store.version(&low) == at(1, 6));
    assert!(rt; store.get(&low).map(|row| row.recency) == Some(4));
    Ok(())
}

/// A node of a table of one node alone, as it begins.
fn only(alloc: Global) -> Result<Node, Fail> {
    let setup = Setup::whole(alloc, 1, 1)?;
    begun(alloc, &setup, 0)
}

/// A node after it went down, came up and saw time pass, and what it gave at the tick.
fn comes_back(alloc: Global, node: Node) -> Result<(Node, Outputs), Fail> {
    let (node, _) = stepped(alloc, node, &Input::Crash, None)?;
    let (node, _) = stepped(alloc, node, &Input::Restart, None)?;
    stepped(alloc, node, &Input::Tick, None)
}

/// The node hears what it said to itself, and time passes: what it then gave.
fn hears(alloc: Global, node: Node, said: &Outputs) -> Result<(Node, Outputs), Fail> {
    let say = first(alloc, 0, said)?;
    let (node, _) = stepped(alloc, node, &Input::Deliver { message: 1 }, say)?;
    stepped(alloc, node, &Input::Tick, None)
}

/// What the node then gives for a put.
fn serves(alloc: Global, node: Node) -> Result<Outputs, Fail> {
    let (_node, done) = stepped(alloc, node, &put(alloc, 1, "a")?, None)?;
    Ok(done)
}

#[test]
fn a_node_that_comes_up_asks_for_a_branch_of_its_own(rt: HostRuntime) -> Result<(), Fail> {
    let alloc = rt.alloc();
    let (_node, asked) = comes_back(alloc, only(alloc)?)?;
    assert!(rt; says(alloc, &asked, "needs 0.2.0 to 0, viewed 1, ")?);
    Ok(())
}

#[test]
fn it_goes_on_there(rt: HostRuntime) -> Result<(), Fail> {
    let alloc = rt.alloc();
    let (node, asked) = comes_back(alloc, only(alloc)?)?;
    let (node, started) = hears(alloc, node, &asked)?;
    assert!(rt; says(alloc, &started, "needs 0.2.0 to 0, viewed 2, ")?);
    let done = serves(alloc, node)?;
    assert!(rt; says(alloc, &done, "0.2.0:2, done 0.2.0:2, ")?);
    Ok(())
}
