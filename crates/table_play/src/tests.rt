//! Worked scripts, from their bytes to their reports.
use crate::play::play;
use journal_story::story::story;
use line_io::{MemorySink, MemorySource};
use memory::OutOfMemory;
use node_core::Journal;
use region_map::Key;
use register_laws::{Reply, Told};
use std::alloc::Global;
use std::process::Abort;
use std::test::Fail;

/// Plays a script from memory to memory; the calls of these numbers of the source and of the sink fail (0: none).
fn outcome(
    alloc: Global,
    script: &[u8],
    read_fails: u64,
    write_fails: u64,
) -> Result<(MemorySink, u8), OutOfMemory> {
    let bytes = Vec::from_slice(alloc, script)?;
    let failing = vec![in alloc; read_fails]?;
    let mut source = MemorySource::new(bytes, failing);
    let mut sink = MemorySink::new(alloc, vec![in alloc; write_fails]?);
    sink.reserve(4096)?;
    let mut journal = Journal::empty(alloc);
    let status = play(alloc, &["play"], &mut source, &mut sink, &mut journal);
    Ok((sink, status.number()))
}

fn expect(
    rt: &impl Abort,
    played: Result<(MemorySink, u8), OutOfMemory>,
    written: &[u8],
    status: u8,
) -> Result<(), OutOfMemory> {
    let (sink, number) = played?;
    let same = sink.bytes() == written;
    assert!(rt; same && number == status);
    Ok(())
}

const FIRST: &[u8] =
    b"{\"do\":\"setup\",\"nodes\":3,\"hash\":1}\n{\"do\":\"put\",\"op\":1,\"node\":0,\"key\":\"a\",\"value\":\"x\"}\n{\"do\":\"deliver\",\"message\":1}\n{\"do\":\"deliver\",\"message\":3}\n{\"do\":\"deliver\",\"message\":3}\n";

/// A key that is put, read, deleted and read again.
const FOUR: &[u8] =
    b"{\"do\":\"setup\",\"nodes\":1,\"hash\":1}\n{\"do\":\"put\",\"op\":1,\"node\":0,\"key\":\"a\",\"value\":\"x\"}\n{\"do\":\"read\",\"op\":2,\"node\":0,\"key\":\"a\"}\n{\"do\":\"delete\",\"op\":3,\"node\":0,\"key\":\"a\"}\n{\"do\":\"read\",\"op\":4,\"node\":0,\"key\":\"a\"}";

#[test]
fn plays_worked_scripts(rt: HostRuntime) -> Result<(), Fail> {
    let cases: [(&[u8], &[u8]); 20] = [
        (
            FIRST,
            b"table nodes 3 hash 1 shards 1\nop 1 done none 0.1.0:1\nstory \"a\" 1\nend\n",
        ),
        (
            FOUR,
            b"table nodes 1 hash 1 shards 1\nop 1 done none 0.1.0:1\nop 2 done \"x\" 0.1.0:2\nop 3 done \"x\" 0.1.0:3\nop 4 done none 0.1.0:4\nstory \"a\" 1 2 3 4\nend\n",
        ),
        // an empty script
        (b"", b"table nodes 1 hash 8 shards 1\nend\n"),
        // one node decides at once
        (
            b"{\"do\":\"put\",\"op\":1,\"node\":0,\"key\":\"a\",\"value\":\"x\"}\n",
            b"table nodes 1 hash 8 shards 1\nop 1 done none 0.1.0:1\nstory \"a\" 1\nend\n",
        ),
        // a secondary does not serve
        (
            b"{\"do\":\"setup\",\"nodes\":3}\n{\"do\":\"put\",\"op\":1,\"node\":1,\"key\":\"a\",\"value\":\"x\"}",
            b"table nodes 3 hash 8 shards 1\nop 1 unavailable not_serving\nstory \"a\"\nend\n",
        ),
        // neither does it serve a read
        (
            b"{\"do\":\"setup\",\"nodes\":3,\"hash\":1}\n{\"do\":\"read\",\"op\":1,\"node\":1,\"key\":\"a\"}",
            b"table nodes 3 hash 1 shards 1\nop 1 unavailable not_serving\nstory \"a\"\nend\n",
        ),
        // a message that was not sent
        (
            b"{\"do\":\"setup\",\"nodes\":3}\n{\"do\":\"put\",\"op\":1,\"node\":0,\"key\":\"a\",\"value\":\"x\"}\n{\"do\":\"deliver\",\"message\":9}\n",
            b"table nodes 3 hash 8 shards 1\nop 1 open\nrefused 3 no_such_message\nstory \"a\" 1\nend\n",
        ),
        // given up, and then decided late
        (
            b"{\"do\":\"setup\",\"nodes\":3,\"hash\":1}\n{\"do\":\"put\",\"op\":1,\"node\":0,\"key\":\"a\",\"value\":\"x\"}\n{\"do\":\"giveup\",\"node\":0,\"for\":1}\n{\"do\":\"read\",\"op\":2,\"node\":0,\"key\":\"a\"}\n{\"do\":\"flush\"}",
            b"table nodes 3 hash 1 shards 1\nop 1 unavailable no_majority voters 1 of 3\nop 2 done \"x\" 0.1.0:2\nstory \"a\" 1 2\nend\n",
        ),
        // a read that is not decided stands in no story
        (
            b"{\"do\":\"setup\",\"nodes\":3,\"hash\":1}\n{\"do\":\"put\",\"op\":1,\"node\":0,\"key\":\"a\",\"value\":\"x\"}\n{\"do\":\"read\",\"op\":2,\"node\":0,\"key\":\"a\"}\n{\"do\":\"giveup\",\"node\":0,\"for\":2}",
            b"table nodes 3 hash 1 shards 1\nop 1 open\nop 2 unavailable no_majority voters 1 of 3\nstory \"a\" 1\nend\n",
        ),
        // what is lost is not flushed
        (
            b"{\"do\":\"setup\",\"nodes\":3,\"hash\":1}\n{\"do\":\"put\",\"op\":1,\"node\":0,\"key\":\"a\",\"value\":\"x\"}\n{\"do\":\"lose\",\"message\":1}\n{\"do\":\"lose\",\"message\":2}\n{\"do\":\"lose\",\"message\":3}\n{\"do\":\"flush\"}\n{\"do\":\"read\",\"op\":2,\"node\":0,\"key\":\"a\"}",
            b"table nodes 3 hash 1 shards 1\nop 1 open\nop 2 open\nrefused 5 no_such_message\nstory \"a\" 1\nend\n",
        ),
        // one ack is enough, and what is lost may still be delivered
        (
            b"{\"do\":\"setup\",\"nodes\":3,\"hash\":1}\n{\"do\":\"put\",\"op\":1,\"node\":0,\"key\":\"a\",\"value\":\"x\"}\n{\"do\":\"lose\",\"message\":1}\n{\"do\":\"lose\",\"message\":2}\n{\"do\":\"deliver\",\"message\":2}\n{\"do\":\"flush\"}",
            b"table nodes 3 hash 1 shards 1\nop 1 done none 0.1.0:1\nstory \"a\" 1\nend\n",
        ),
        // two keys
        (
            b"{\"do\":\"setup\",\"nodes\":1,\"hash\":1}\n{\"do\":\"put\",\"op\":1,\"node\":0,\"key\":\"b\",\"value\":\"x\"}\n{\"do\":\"put\",\"op\":2,\"node\":0,\"key\":\"a\",\"value\":\"y\"}\n{\"do\":\"read\",\"op\":3,\"node\":0,\"key\":\"b\"}",
            b"table nodes 1 hash 1 shards 1\nop 1 done none 0.1.0:1\nop 2 done none 0.1.0:2\nop 3 done \"x\" 0.1.0:3\nstory \"a\" 2\nstory \"b\" 1 3\nend\n",
        ),
        // compare and set
        (
            b"{\"do\":\"setup\",\"nodes\":1,\"hash\":1}\n{\"do\":\"put\",\"op\":1,\"node\":0,\"key\":\"a\",\"value\":\"x\"}\n{\"do\":\"cas\",\"op\":2,\"node\":0,\"key\":\"a\",\"expect\":\"y\",\"value\":\"z\"}\n{\"do\":\"cas\",\"op\":3,\"node\":0,\"key\":\"a\",\"expect\":\"x\",\"value\":null}\n{\"do\":\"read\",\"op\":4,\"node\":0,\"key\":\"a\"}",
            b"table nodes 1 hash 1 shards 1\nop 1 done none 0.1.0:1\nop 2 done kept \"x\" 0.1.0:2\nop 3 done swapped 0.1.0:3\nop 4 done none 0.1.0:4\nstory \"a\" 1 2 3 4\nend\n",
        ),
        // eight shards by hash: the branch is that of the key's shard
        (
            b"{\"do\":\"setup\",\"nodes\":1,\"hash\":8,\"shards\":[{\"hash\":[0,1],\"replicas\":[0],\"primary\":0},{\"hash\":[1,2],\"replicas\":[0],\"primary\":0},{\"hash\":[2,3],\"replicas\":[0],\"primary\":0},{\"hash\":[3,4],\"replicas\":[0],\"primary\":0},{\"hash\":[4,5],\"replicas\":[0],\"primary\":0},{\"hash\":[5,6],\"replicas\":[0],\"primary\":0},{\"hash\":[6,7],\"replicas\":[0],\"primary\":0},{\"hash\":[7,8],\"replicas\":[0],\"primary\":0}]}\n{\"do\":\"put\",\"op\":1,\"node\":0,\"key\":\"a\",\"value\":\"x\"}\n{\"do\":\"put\",\"op\":2,\"node\":0,\"key\":\"h\",\"value\":\"x\"}",
            b"table nodes 1 hash 8 shards 8\nop 1 done none 0.1.1:1\nop 2 done none 0.1.0:1\nstory \"a\" 1\nstory \"h\" 2\nend\n",
        ),
        // two shards by key: each is written at its own primary alone
        (
            b"{\"do\":\"setup\",\"nodes\":5,\"hash\":1,\"shards\":[{\"to\":\"m\",\"replicas\":[0,1,2],\"primary\":0},{\"from\":\"m\",\"replicas\":[2,3,4],\"primary\":3}]}\n{\"do\":\"put\",\"op\":1,\"node\":0,\"key\":\"a\",\"value\":\"x\"}\n{\"do\":\"put\",\"op\":2,\"node\":3,\"key\":\"z\",\"value\":\"y\"}\n{\"do\":\"flush\"}\n{\"do\":\"put\",\"op\":3,\"node\":3,\"key\":\"a\",\"value\":\"x\"}\n{\"do\":\"put\",\"op\":4,\"node\":0,\"key\":\"z\",\"value\":\"y\"}",
            b"table nodes 5 hash 1 shards 2\nop 1 done none 0.1.0:1\nop 2 done none 3.1.1:1\nop 3 unavailable not_serving\nop 4 unavailable not_serving\nstory \"a\" 1\nstory \"z\" 2\nend\n",
        ),
        // the ack of a replica that does not vote is not enough
        (
            b"{\"do\":\"setup\",\"nodes\":3,\"hash\":1,\"shards\":[{\"replicas\":[0,1,2],\"voters\":[0,1],\"primary\":0}]}\n{\"do\":\"put\",\"op\":1,\"node\":0,\"key\":\"a\",\"value\":\"x\"}\n{\"do\":\"deliver\",\"message\":2}\n{\"do\":\"deliver\",\"message\":3}",
            b"table nodes 3 hash 1 shards 1\nop 1 open\nstory \"a\" 1\nend\n",
        ),
        // and that of a voter is
        (
            b"{\"do\":\"setup\",\"nodes\":3,\"hash\":1,\"shards\":[{\"replicas\":[0,1,2],\"voters\":[0,1],\"primary\":0}]}\n{\"do\":\"put\",\"op\":1,\"node\":0,\"key\":\"a\",\"value\":\"x\"}\n{\"do\":\"deliver\",\"message\":2}\n{\"do\":\"deliver\",\"message\":3}\n{\"do\":\"deliver\",\"message\":1}\n{\"do\":\"deliver\",\"message\":4}",
            b"table nodes 3 hash 1 shards 1\nop 1 done none 0.1.0:1\nstory \"a\" 1\nend\n",
        ),
        // a branch that is asked for late is not taken: it is based on a branch that another one followed
        (
            b"{\"do\":\"setup\",\"nodes\":1,\"hash\":1}\n{\"do\":\"crash\",\"node\":0}\n{\"do\":\"restart\",\"node\":0}\n{\"do\":\"tick\",\"node\":0}\n{\"do\":\"crash\",\"node\":0}\n{\"do\":\"restart\",\"node\":0}\n{\"do\":\"tick\",\"node\":0}\n{\"do\":\"deliver\",\"message\":2}\n{\"do\":\"tick\",\"node\":0}\n{\"do\":\"deliver\",\"message\":1}\n{\"do\":\"tick\",\"node\":0}\n{\"do\":\"read\",\"op\":1,\"node\":0,\"key\":\"a\"}\n",
            b"table nodes 1 hash 1 shards 1\nop 1 done none 0.3.0:2\nskipped 4 based_on\nstory \"a\" 1\nend\n",
        ),
        // a node that is down takes no operation, and one that is up no restart
        (
            b"{\"do\":\"setup\",\"nodes\":3,\"hash\":1}\n{\"do\":\"crash\",\"node\":0}\n{\"do\":\"put\",\"op\":1,\"node\":0,\"key\":\"a\",\"value\":\"x\"}\n{\"do\":\"restart\",\"node\":1}\n",
            b"table nodes 3 hash 1 shards 1\nop 1 down\nrefused 4 up\nstory \"a\"\nend\n",
        ),
        // a message is not brought to a node that it is not for
        (
            b"{\"do\":\"setup\",\"nodes\":3,\"hash\":1}\n{\"do\":\"put\",\"op\":1,\"node\":0,\"key\":\"a\",\"value\":\"x\"}\n{\"do\":\"deliver\",\"message\":1,\"node\":2}\n",
            b"table nodes 3 hash 1 shards 1\nop 1 open\nrefused 3 not_yours\nstory \"a\" 1\nend\n",
        ),
    ];
    for (script, report) in cases {
        expect(&rt, outcome(rt.alloc(), script, 0, 0), report, 0)?;
    }
    Ok(())
}

#[test]
fn tells_faults(rt: HostRuntime) -> Result<(), Fail> {
    let alloc = rt.alloc();
    expect(
        &rt,
        outcome(alloc, b"{\"do\":\"stop\",\"node\":0}\n", 0, 0),
        b"script 1 word\n",
        3,
    )?;
    expect(&rt, outcome(alloc, b"{\"do\"", 2, 0), b"read fault\n", 4)?;
    expect(
        &rt,
        outcome(alloc, FIRST, 0, 3),
        b"table nodes 3 hash 1 shards 1\nop 1 done none 0.1.0:1\n",
        5,
    )?;
    expect(
        &rt,
        outcome(alloc, FOUR, 0, 3),
        b"table nodes 1 hash 1 shards 1\nop 1 done none 0.1.0:1\n",
        5,
    )?;
    Ok(())
}

#[test]
fn refuses_other_words(rt: HostRuntime) -> Result<(), Fail> {
    let mut source = MemorySource::new(Vec::new(rt.alloc()), Vec::new(rt.alloc()));
    let mut sink = MemorySink::new(rt.alloc(), Vec::new(rt.alloc()));
    sink.reserve(64)?;
    let mut journal = Journal::empty(rt.alloc());
    let status = play(
        rt.alloc(),
        &["play", "twice"],
        &mut source,
        &mut sink,
        &mut journal,
    );
    assert_eq!(rt; sink.bytes(), b"usage\n".as_slice());
    assert_eq!(rt; status.number(), 2);
    Ok(())
}

/// A reply in words.
fn reply_text(reply: &Reply) -> &'static str {
    match reply {
        Reply::Was(None) => "none",
        Reply::Was(Some(value)) => {
            if value.as_bytes() == b"x".as_slice() {
                "x"
            } else {
                "other"
            }
        }
        Reply::Swapped => "swapped",
        Reply::Kept(_) => "kept",
    }
}

/// The story of a key in the journal of a script: each operation with its reply.
fn story_text(alloc: Global, script: &[u8], key: &[u8]) -> Result<String, Fail> {
    let mut source = MemorySource::new(Vec::from_slice(alloc, script)?, Vec::new(alloc));
    let mut sink = MemorySink::new(alloc, Vec::new(alloc));
    sink.reserve(4096)?;
    let mut journal = Journal::empty(alloc);
    let _status = play(alloc, &["play"], &mut source, &mut sink, &mut journal);
    let key = Key::new(Vec::from_slice(alloc, key)?)?;
    let told: Vec<Told> = story(alloc, &journal, &key)?;
    let mut text = String::new(alloc);
    for one in told.as_slice() {
        let piece = format!(in alloc; " {} {}", one.op.0, reply_text(&one.reply))?;
        text.push_str(piece.as_str())?;
    }
    Ok(text)
}

/// Operations on two keys.
const TWO_KEYS: &[u8] =
    b"{\"do\":\"setup\",\"nodes\":1,\"hash\":1}\n{\"do\":\"put\",\"op\":1,\"node\":0,\"key\":\"a\",\"value\":\"x\"}\n{\"do\":\"put\",\"op\":2,\"node\":0,\"key\":\"b\",\"value\":\"y\"}\n{\"do\":\"read\",\"op\":3,\"node\":0,\"key\":\"a\"}\n{\"do\":\"cas\",\"op\":4,\"node\":0,\"key\":\"a\",\"expect\":\"x\",\"value\":\"z\"}\n{\"do\":\"cas\",\"op\":5,\"node\":0,\"key\":\"a\",\"expect\":\"x\",\"value\":null}\n";

/// A put and a read of which nothing is delivered.
const UNDECIDED: &[u8] =
    b"{\"do\":\"setup\",\"nodes\":3,\"hash\":1}\n{\"do\":\"put\",\"op\":1,\"node\":0,\"key\":\"a\",\"value\":\"x\"}\n{\"do\":\"read\",\"op\":2,\"node\":0,\"key\":\"a\"}\n";

#[test]
fn tells_the_story_of_one_key(rt: HostRuntime) -> Result<(), Fail> {
    let alloc = rt.alloc();
    let cases: [(&[u8], &[u8], &str); 4] = [
        (TWO_KEYS, b"a", " 1 none 3 x 4 swapped 5 kept"),
        (TWO_KEYS, b"b", " 2 none"),
        (TWO_KEYS, b"c", ""),
        // a read that is not done stands in no story
        (UNDECIDED, b"a", " 1 none"),
    ];
    for (script, key, told) in cases {
        let text = story_text(alloc, script, key)?;
        assert_eq!(rt; text.as_str(), told);
    }
    Ok(())
}

/// A journal takes 20,000 entries, and the event behind them meets the limit.
#[test]
fn ends_at_the_limit_of_entries(rt: HostRuntime) -> Result<(), Fail> {
    let alloc = rt.alloc();
    let mut script = Vec::from_slice(alloc, b"{\"do\":\"setup\",\"nodes\":1,\"hash\":1}\n")?;
    for _ in 0..20_000 {
        script.extend_from_slice(b"{\"do\":\"tick\",\"node\":0}\n")?;
    }
    let full: &[u8] = b"table nodes 1 hash 1 shards 1\nend\n";
    expect(&rt, outcome(alloc, &script, 0, 0), full, 0)?;
    script.extend_from_slice(b"{\"do\":\"tick\",\"node\":0}\n")?;
    let over: &[u8] = b"table nodes 1 hash 1 shards 1\nlimit journal_entries 20000\n";
    expect(&rt, outcome(alloc, &script, 0, 0), over, 6)?;
    Ok(())
}
