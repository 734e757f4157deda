//! Entries whose weights were added by hand.
use branch_history::Version;
use contract_types::{Ack, Applied, Change, Contract, Contracts, Ids, Results, TableConfig};
use exec_types::{Input, Message, Outcome, Output, Outputs, Part, SessionName, Stream};
use journal_weight::weight;
use raft_vote::{Log, LogEntry, RaftMessage};
use region_map::{Id, Key, NodeId, NodeSet, Region, RegionMap};
use register_laws::{Op, OpId, Reply, Value};
use std::alloc::Global;
use std::test::Fail;
use store_api::Row;

const ID: Id = Id {
    node: NodeId(0),
    life: 1,
    counter: 0,
};

fn key(alloc: Global, text: &str) -> Result<Key, Fail> {
    Ok(Key::new(Vec::from_slice(alloc, text.as_bytes())?)?)
}

fn value(alloc: Global, text: &str) -> Result<Value, Fail> {
    Ok(Value::new(Vec::from_slice(alloc, text.as_bytes())?)?)
}

/// The keys from "a" up to "cd".
fn part(alloc: Global) -> Result<Region, Fail> {
    Ok(Region {
        hash_from: 0,
        hash_to: 1,
        from: Some(key(alloc, "a")?),
        to: Some(key(alloc, "cd")?),
    })
}

/// One piece, of that region.
fn versions(alloc: Global) -> Result<RegionMap<Version>, Fail> {
    Ok(RegionMap::constant(alloc, part(alloc)?, 1, Version::zero())?)
}

fn branches(alloc: Global) -> Result<RegionMap<Id>, Fail> {
    Ok(RegionMap::constant(alloc, part(alloc)?, 1, ID)?)
}

fn contract(alloc: Global) -> Result<Contract, Fail> {
    Ok(Contract {
        id: ID,
        region: part(alloc)?,
        replicas: NodeSet::empty(),
        voters: NodeSet::empty(),
        temp_voters: None,
        primary: None,
        since: 1,
        tenure: 1,
    })
}

/// Two contracts in the place of another.
fn new_contracts(alloc: Global) -> Result<Change, Fail> {
    let removed = vec![in alloc; ID]?;
    let added = vec![in alloc; contract(alloc)?, contract(alloc)?]?;
    Ok(Change::NewContracts {
        removed: Ids::from(removed),
        added: Contracts::from(added),
    })
}

fn new_branch(alloc: Global) -> Result<Change, Fail> {
    Ok(Change::RegisterBranch {
        branch: ID,
        region: part(alloc)?,
        tenure: 1,
        maker: NodeId(0),
        based_on: branches(alloc)?,
        origin: versions(alloc)?,
    })
}

/// A message of the log with two entries: an empty one, and a configuration of one shard.
fn append(alloc: Global) -> Result<Message, Fail> {
    let config = TableConfig::whole(alloc, 1, 1)?;
    let empty = LogEntry {
        term: 1,
        change: Change::Noop,
    };
    let full = LogEntry {
        term: 1,
        change: Change::SetConfig(config),
    };
    Ok(Message::Raft(RaftMessage::Append {
        term: 1,
        prev_index: 0,
        prev_term: 0,
        entries: Log::from(vec![in alloc; empty, full]?),
        commit: 0,
    }))
}

fn write(alloc: Global) -> Result<Message, Fail> {
    let row = Row {
        value: Some(value(alloc, "four")?),
        recency: 1,
    };
    Ok(Message::Stream(Stream {
        session: SessionName {
            asked: ID,
            opened: ID,
        },
        number: 1,
        part: Part::Write {
            at: 1,
            key: key(alloc, "k")?,
            row,
        },
    }))
}

fn say(ack: Ack) -> Message {
    Message::Say { contract: ID, ack }
}

fn to(message: Message) -> Output {
    Output::Message {
        to: NodeId(1),
        message,
    }
}

fn viewed(alloc: Global, change: Change) -> Result<Output, Fail> {
    let results = vec![in alloc; (change, Applied::Taken)]?;
    Ok(Output::Viewed {
        first: 1,
        results: Results::from(results),
    })
}

fn answer(reply: Reply) -> Output {
    Output::Answer {
        op: OpId(1),
        outcome: Outcome::Done {
            reply,
            branch: ID,
            timestamp: 1,
        },
    }
}

fn request(alloc: Global, what: Op) -> Result<Input, Fail> {
    Ok(Input::Request {
        op: OpId(1),
        key: key(alloc, "ten")?,
        what,
    })
}

/// The weight of a step without outputs.
fn of_input(alloc: Global, input: Input) -> u64 {
    weight(&input, &Outputs::new(alloc))
}

/// The weight of a tick with one output.
fn of_output(alloc: Global, output: Output) -> Result<u64, Fail> {
    let mut outputs = Outputs::new(alloc);
    outputs.push(output)?;
    Ok(weight(&Input::Tick, &outputs))
}

#[test]
fn inputs_weigh_their_keys_and_values(rt: HostRuntime) -> Result<(), Fail> {
    let alloc = rt.alloc();
    assert_eq!(rt; of_input(alloc, Input::Tick), 64);
    assert_eq!(rt; of_input(alloc, request(alloc, Op::Read)?), 67);
    let put = Op::Put(value(alloc, "four")?);
    assert_eq!(rt; of_input(alloc, request(alloc, put)?), 71);
    let cas = Op::Cas {
        expect: Some(value(alloc, "12345")?),
        put: Some(value(alloc, "")?),
    };
    assert_eq!(rt; of_input(alloc, request(alloc, cas)?), 72);
    Ok(())
}

#[test]
fn messages_weigh_their_parts(rt: HostRuntime) -> Result<(), Fail> {
    let alloc = rt.alloc();
    assert_eq!(rt; of_output(alloc, to(say(Ack::Ready)))?, 128);
    assert_eq!(rt; of_output(alloc, to(write(alloc)?))?, 133);
    assert_eq!(rt; of_output(alloc, to(append(alloc)?))?, 512);
    let tells = Ack::NeedPrimary {
        versions: versions(alloc)?,
    };
    assert_eq!(rt; of_output(alloc, to(say(tells)))?, 195);
    let asks = Ack::NeedBranch {
        branch: ID,
        based_on: branches(alloc)?,
        origin: versions(alloc)?,
    };
    assert_eq!(rt; of_output(alloc, to(say(asks)))?, 262);
    Ok(())
}

#[test]
fn other_outputs_weigh_their_parts(rt: HostRuntime) -> Result<(), Fail> {
    let alloc = rt.alloc();
    let dispatched = Output::Dispatched {
        op: OpId(1),
        key: key(alloc, "ten")?,
        branch: ID,
        timestamp: 1,
    };
    assert_eq!(rt; of_output(alloc, dispatched)?, 131);
    assert_eq!(rt; of_output(alloc, answer(Reply::Was(None)))?, 128);
    assert_eq!(rt;
        of_output(alloc, answer(Reply::Kept(Some(value(alloc, "four")?))))?,
        132
    );
    assert_eq!(rt; of_output(alloc, viewed(alloc, Change::Noop)?)?, 192);
    assert_eq!(rt;
        of_output(alloc, viewed(alloc, new_contracts(alloc)?)?)?,
        710
    );
    assert_eq!(rt; of_output(alloc, viewed(alloc, new_branch(alloc)?)?)?, 329);
    Ok(())
}
