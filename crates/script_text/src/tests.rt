//! Worked scripts.
use crate::lines::read_line;
use crate::shapes::{has_members, is_here};
use crate::words::word_named;
use crate::{Reason, ScriptRefused, ScriptWord, Setup, Status, read_script};
use contract_types::ShardConfig;
use region_map::Key;
use register_laws::{Op, Value};
use std::alloc::Global;
use std::test::Fail;

/// What is told of a script here: its nodes, its hashes and the lines of its items.
fn told(alloc: Global, text: &[u8]) -> Result<(u8, u8, Vec<u64>), ScriptRefused> {
    let script = read_script(alloc, text)?;
    let mut lines = Vec::new(alloc);
    for item in script.items() {
        if lines.push(item.line).is_err() {
            return Err(ScriptRefused::OutOfMemory);
        }
    }
    Ok((script.setup().nodes(), script.setup().hashes(), lines))
}

#[test]
fn accepts_scripts(rt: HostRuntime) -> Result<(), Fail> {
    let setup = "{\"do\":\"setup\",\"nodes\":3,\"hash\":1}\n";
    let put = "{\"do\":\"put\",\"op\":1,\"node\":0,\"key\":\"a\",\"value\":\"x\"}\n";
    let first_write = format!(in rt.alloc(); "{setup}{put}{{\"do\":\"deliver\",\"message\":3}}")?;
    let with_blanks = format!(in rt.alloc(); "\n \t\r\n{setup}\n\n{put}\n")?;
    let cases: [(&str, u8, u8, &[u64]); 11] = [
        ("", 1, 8, &[]),
        (first_write.as_str(), 3, 1, &[2, 3]),
        (with_blanks.as_str(), 3, 1, &[6]),
        ("{\"do\":\"setup\",\"nodes\":7}", 7, 8, &[]),
        (
            "{\"do\":\"put\",\"do\":\"deliver\",\"message\":1}",
            1,
            8,
            &[1],
        ),
        (
            "{\"do\":\"deliver\",\"message\":18446744073709551615}\r\n",
            1,
            8,
            &[1],
        ),
        (
            "{\"do\":\"delete\",\"op\":1,\"node\":0,\"key\":\"a\"}",
            1,
            8,
            &[1],
        ),
        (
            "{\"do\":\"read\",\"op\":1,\"node\":0,\"key\":\"a\"}",
            1,
            8,
            &[1],
        ),
        ("{\"do\":\"giveup\",\"node\":0,\"for\":1}", 1, 8, &[1]),
        ("{\"do\":\"lose\",\"message\":1}", 1, 8, &[1]),
        ("{\"do\":\"flush\"}", 1, 8, &[1]),
    ];
    for (text, nodes, hashes, lines) in cases {
        let (read_nodes, read_hashes, read_lines) = told(rt.alloc(), text.as_bytes())?;
        assert_eq!(rt; read_nodes, nodes, "{text}");
        assert_eq!(rt; read_hashes, hashes, "{text}");
        assert_eq!(rt; read_lines.as_slice(), lines, "{text}");
    }
    let script = read_script(rt.alloc(), first_write.as_bytes())?;
    assert_eq!(rt; script.items().len(), 2);
    assert!(rt;
        matches!(
            &script.items()[1].word,
            ScriptWord::Deliver {
                message: 3,
                node: None
            }
        )
    );
    Ok(())
}

#[test]
fn refuses_the_first_bad_line(rt: HostRuntime) -> Result<(), Fail> {
    let good = "{\"do\":\"deliver\",\"message\":1}\n";
    let cases: [(&str, Reason); 25] = [
        (
            "{\"do\":\"delete\",\"op\":1,\"node\":0,\"key\":\"a\",\"value\":\"x\"}",
            Reason::Member,
        ),
        ("{\"do\":\"read\",\"op\":1,\"node\":0}", Reason::Member),
        ("{\"do\":\"giveup\",\"node\":0,\"op\":1}", Reason::Member),
        (
            "{\"do\":\"lose\",\"message\":1,\"from\":0,\"to\":1}",
            Reason::Member,
        ),
        ("{\"do\":\"setup\",\"nodes\":3}", Reason::Place),
        (
            "{\"do\":\"put\",\"op\":1,\"node\":1,\"key\":\"a\",\"value\":\"x\"}",
            Reason::Node,
        ),
        (
            "{\"do\":\"put\",\"op\":1,\"node\":0,\"key\":\"\",\"value\":\"x\"}",
            Reason::KeyLength,
        ),
        (
            "{\"do\":\"put\",\"op\":1,\"node\":0,\"key\":1,\"value\":\"x\"}",
            Reason::Member,
        ),
        (
            "{\"do\":\"put\",\"op\":1,\"node\":0,\"key\":\"a\"}",
            Reason::Member,
        ),
        (
            "{\"do\":\"put\",\"op\":1,\"node\":0,\"key\":\"a\",\"value\":\"x\",\"after\":0}",
            Reason::NotHere,
        ),
        (
            "{\"do\":\"put\",\"op\":-1,\"node\":0,\"key\":\"a\",\"value\":\"x\"}",
            Reason::Member,
        ),
        ("{\"do\":\"deliver\",\"message\":1.0}", Reason::Member),
        (
            "{\"do\":\"deliver\",\"message\":18446744073709551616}",
            Reason::Member,
        ),
        ("{\"do\":\"deliver\",\"message\":1} {}", Reason::BadJson),
        ("{\"do\":\"Deliver\",\"message\":1}", Reason::Word),
        ("{\"message\":1}", Reason::Word),
        ("{\"do\":1,\"message\":1}", Reason::Word),
        ("[]", Reason::BadJson),
        ("\"deliver\"", Reason::BadJson),
        ("deliver", Reason::BadJson),
        ("{", Reason::BadJson),
        ("\u{a0}", Reason::BadJson),
        ("{\"do\":\"stop\"}", Reason::Word),
        ("{\"do\":\"fail\",\"node\":0}", Reason::NotBuilt),
        ("{\"do\":\"config\"}", Reason::NotBuilt),
    ];
    for (bad, reason) in cases {
        let text = format!(in rt.alloc(); "{good}{bad}\n{bad}")?;
        assert_eq!(rt;
            told(rt.alloc(), text.as_bytes()).err(),
            Some(ScriptRefused::Line(2, reason)),
            "{bad}"
        );
    }
    let first: [(&[u8], Reason); 6] = [
        (b"\xff", Reason::BadJson),
        (b"{\"do\":\"setup\",\"nodes\":0}", Reason::Range),
        (b"{\"do\":\"setup\",\"nodes\":8}", Reason::Range),
        (b"{\"do\":\"setup\",\"nodes\":3,\"hash\":3}", Reason::Range),
        (
            b"{\"do\":\"setup\",\"nodes\":3,\"hash\":null}",
            Reason::Member,
        ),
        (
            b"{\"do\":\"setup\",\"nodes\":9,\"seed\":1}",
            Reason::NotHere,
        ),
    ];
    for (bad, reason) in first {
        assert_eq!(rt;
            told(rt.alloc(), bad).err(),
            Some(ScriptRefused::Line(1, reason))
        );
    }
    Ok(())
}

/// Why a line is refused in a table of three nodes, if it is.
fn refusal(alloc: Global, members: &str) -> Result<Option<ScriptRefused>, Fail> {
    let text = format!(in alloc; "{{\"do\":\"setup\",\"nodes\":3}}\n{{\"do\":{members}}}")?;
    Ok(told(alloc, text.as_bytes()).err())
}

#[test]
fn accepts_faults_and_rounds(rt: HostRuntime) -> Result<(), Fail> {
    let accepted: [&str; 11] = [
        "\"see\",\"node\":0,\"other\":2,\"up\":true",
        "\"see\",\"node\":1,\"other\":1,\"up\":false",
        "\"crash\",\"node\":2",
        "\"restart\",\"node\":2",
        "\"tick\",\"node\":0",
        "\"deliver\",\"message\":1,\"node\":2",
        "\"lose\",\"from\":0,\"to\":2",
        "\"flush\",\"only\":[]",
        "\"flush\",\"only\":[2,0,2]",
        "\"settle\",\"rounds\":1",
        "\"settle\",\"rounds\":100,\"only\":[1]",
    ];
    for members in accepted {
        assert!(rt; refusal(rt.alloc(), members)?.is_none(), "{members}");
    }
    Ok(())
}

#[test]
fn refuses_faults_and_rounds(rt: HostRuntime) -> Result<(), Fail> {
    let refused: [(&str, Reason); 24] = [
        ("\"see\",\"node\":0,\"other\":2,\"up\":1", Reason::Member),
        ("\"see\",\"node\":0,\"other\":3,\"up\":true", Reason::Node),
        ("\"see\",\"node\":0,\"up\":true", Reason::Member),
        ("\"see\",\"node\":0,\"other\":2", Reason::Member),
        ("\"crash\"", Reason::Member),
        ("\"crash\",\"node\":3", Reason::Node),
        ("\"restart\",\"node\":0,\"up\":true", Reason::Member),
        ("\"tick\",\"node\":null", Reason::Member),
        ("\"deliver\",\"message\":1,\"node\":3", Reason::Node),
        ("\"deliver\",\"message\":1,\"node\":null", Reason::Member),
        ("\"lose\"", Reason::Member),
        ("\"lose\",\"from\":0", Reason::Member),
        ("\"lose\",\"from\":0,\"to\":3", Reason::Node),
        ("\"flush\",\"only\":0", Reason::Member),
        ("\"flush\",\"only\":null", Reason::Member),
        ("\"flush\",\"only\":[0,3]", Reason::Node),
        ("\"settle\"", Reason::Member),
        ("\"settle\",\"rounds\":0", Reason::Range),
        ("\"settle\",\"rounds\":101", Reason::Range),
        ("\"settle\",\"rounds\":1,\"only\":[3]", Reason::Node),
        ("\"settle\",\"rounds\":0,\"only\":[3]", Reason::Range),
        ("\"flush\",\"only\":[64]", Reason::Node),
        ("\"crash\",\"node\":3,\"after\":1", Reason::NotHere),
        ("\"crash\",\"node\":3,\"after\":null", Reason::Member),
    ];
    for (members, reason) in refused {
        assert_eq!(rt;
            refusal(rt.alloc(), members)?,
            Some(ScriptRefused::Line(2, reason)),
            "{members}"
        );
    }
    Ok(())
}

/// The bytes of a bound, or nothing.
fn bound_text(bound: &Option<Key>) -> &str {
    match bound {
        Some(key) => std::str::from_utf8(key.as_bytes()).unwrap_or("?"),
        None => "",
    }
}

/// What is told of the shards of a table of three nodes: their hashes and bounds, how many replicas and voters
/// they have, and their primaries.
fn shards_told(alloc: Global, members: &str) -> Result<String, Fail> {
    let text = format!(in alloc; "{{\"do\":\"setup\",\"nodes\":3{members}}}")?;
    let mut told = String::new(alloc);
    let script = match read_script(alloc, text.as_bytes()) {
        Ok(script) => script,
        Err(ScriptRefused::Line(_, reason)) => return Ok(format!(in alloc; "{}", reason.text())?),
        Err(_) => return Ok(told),
    };
    for shard in script.setup().config().shards() {
        let ShardConfig {
            region,
            replicas,
            voters,
            primary,
        } = shard;
        let from = bound_text(&region.from);
        let to = bound_text(&region.to);
        told = format!(in alloc;
            "{told}{}-{} {from}..{to} {}/{} {}; ",
            region.hash_from,
            region.hash_to,
            replicas.len(),
            voters.len(),
            primary.0
        )?;
    }
    Ok(told)
}

#[test]
fn reads_shards(rt: HostRuntime) -> Result<(), Fail> {
    let long = "k".repeat(rt.alloc(), 65)?;
    let too_long = format!(in rt.alloc();
        ",\"shards\":[{{\"replicas\":[0],\"primary\":0,\"to\":\"{long}\"}}]"
    )?;
    let cases: [(&str, &str); 26] = [
        ("", "0-8 .. 3/3 0; "),
        (
            ",\"shards\":[{\"replicas\":[2,0,1],\"primary\":2,\"to\":\"m\"},{\"replicas\":[2,1,1],\"voters\":[1],\"primary\":1,\"from\":\"m\"}]",
            "0-8 ..m 3/3 2; 0-8 m.. 2/1 1; ",
        ),
        (
            ",\"hash\":2,\"shards\":[{\"replicas\":[0],\"primary\":0,\"hash\":[1,2]},{\"replicas\":[1],\"primary\":1,\"hash\":[0,1],\"from\":\"\",\"to\":null}]",
            "1-2 .. 1/1 0; 0-1 .. 1/1 1; ",
        ),
        (",\"shards\":[]", "no_shards"),
        (",\"shards\":null", "member"),
        (",\"shards\":[1]", "member"),
        (",\"shards\":[{\"primary\":0}]", "member"),
        (",\"shards\":[{\"replicas\":[0]}]", "member"),
        (",\"shards\":[{\"replicas\":0,\"primary\":0}]", "member"),
        (",\"shards\":[{\"replicas\":[],\"primary\":0}]", "replicas"),
        (
            ",\"shards\":[{\"replicas\":[0,3],\"primary\":0}]",
            "replicas",
        ),
        (
            ",\"shards\":[{\"replicas\":[0,64],\"primary\":0}]",
            "member",
        ),
        (",\"shards\":[{\"replicas\":[0,1],\"primary\":2}]", "roles"),
        (
            ",\"shards\":[{\"replicas\":[0],\"voters\":[0,1],\"primary\":0}]",
            "roles",
        ),
        (
            ",\"shards\":[{\"replicas\":[0],\"voters\":null,\"primary\":0}]",
            "member",
        ),
        (
            ",\"shards\":[{\"replicas\":[0],\"primary\":0,\"hash\":[0]}]",
            "member",
        ),
        (
            ",\"shards\":[{\"replicas\":[0],\"primary\":0,\"hash\":[0,8,8]}]",
            "member",
        ),
        (
            ",\"shards\":[{\"replicas\":[0],\"primary\":0,\"hash\":[0,9]}]",
            "region",
        ),
        (
            ",\"shards\":[{\"replicas\":[0],\"primary\":0,\"hash\":[0,4]}]",
            "gap",
        ),
        (
            ",\"shards\":[{\"replicas\":[0],\"primary\":0,\"from\":null}]",
            "member",
        ),
        (
            ",\"shards\":[{\"replicas\":[0],\"primary\":0,\"from\":\"b\"}]",
            "gap",
        ),
        (
            ",\"shards\":[{\"replicas\":[0],\"primary\":0,\"to\":\"\"}]",
            "key_length",
        ),
        (too_long.as_str(), "key_length"),
        (
            ",\"shards\":[{\"replicas\":[0],\"primary\":0,\"region\":0}]",
            "member",
        ),
        (
            ",\"shards\":[{\"replicas\":[0],\"primary\":0},{\"replicas\":[0],\"primary\":0,\"from\":\"m\"}]",
            "overlap",
        ),
        (
            ",\"shards\":[{\"replicas\":[0],\"primary\":0,\"to\":\"m\"},{\"replicas\":[0],\"primary\":0,\"from\":\"n\"}]",
            "gap",
        ),
    ];
    for (members, expected) in cases {
        assert_eq!(rt;
            shards_told(rt.alloc(), members)?.as_str(),
            expected,
            "{members}"
        );
    }
    Ok(())
}

#[test]
fn keeps_lengths_and_numbers(rt: HostRuntime) -> Result<(), Fail> {
    let cases: [(u64, usize, usize, Option<Reason>); 6] = [
        (2, 64, 1024, None),
        (2, 1, 0, None),
        (1, 1, 1, Some(Reason::OpKnown)),
        (1, 65, 1025, Some(Reason::KeyLength)),
        (2, 65, 1, Some(Reason::KeyLength)),
        (2, 1, 1025, Some(Reason::ValueLength)),
    ];
    for (op, key_length, value_length, refused) in cases {
        let key = "k".repeat(rt.alloc(), key_length)?;
        let value = "v".repeat(rt.alloc(), value_length)?;
        let text = format!(in rt.alloc();
            "{{\"do\":\"put\",\"op\":1,\"node\":0,\"key\":\"a\",\"value\":\"\"}}\n{{\"do\":\"put\",\"op\":{op},\"node\":0,\"key\":\"{key}\",\"value\":\"{value}\"}}"
        )?;
        let expected = match refused {
            Some(reason) => Some(ScriptRefused::Line(2, reason)),
            None => None,
        };
        assert_eq!(rt;
            told(rt.alloc(), text.as_bytes()).err(),
            expected,
            "{op} {key_length} {value_length}"
        );
    }
    let reason = Reason::NotBuilt;
    assert!(rt; reason.text() == "not_built");
    assert_eq!(rt; Status::Script { line: 1, reason }.number(), 3);
    let most = " ".repeat(rt.alloc(), 65536)?;
    let blank = format!(in rt.alloc(); "{most}\r\n")?;
    assert!(rt; told(rt.alloc(), most.as_bytes()).is_ok());
    assert_eq!(rt;
        told(rt.alloc(), blank.as_bytes()).err(),
        Some(ScriptRefused::LineTooLong)
    );
    Ok(())
}

/// What a line asks of a table of two nodes as a cas; no program plays one yet.
fn cas(alloc: Global, members: &str) -> Result<Option<Op>, Fail> {
    let line = format!(in alloc; "{{\"do\":\"cas\",\"op\":1,\"node\":1,\"key\":\"a\"{members}}}")?;
    let Some(line) = read_line(alloc, line.as_bytes())? else {
        return Ok(None);
    };
    if !(matches!(has_members("cas", &line), Ok(true)) && is_here(&line)) {
        return Ok(None);
    }
    match word_named(alloc, &Setup::whole(alloc, 2, 8)?, "cas", &line) {
        Ok(ScriptWord::Request { what, .. }) => Ok(Some(what)),
        _ => Ok(None),
    }
}

fn value(alloc: Global, text: &str) -> Result<Option<Value>, Fail> {
    let bytes = Vec::from_slice(alloc, text.as_bytes())?;
    Ok(Some(Value::new(bytes)?))
}

#[test]
fn null_is_no_value_in_a_cas(rt: HostRuntime) -> Result<(), Fail> {
    let alloc = rt.alloc();
    let first = cas(alloc, ",\"expect\":null,\"value\":\"x\"")?;
    assert_eq!(rt;
        first,
        Some(Op::Cas {
            expect: None,
            put: value(alloc, "x")?
        })
    );
    let last = cas(alloc, ",\"value\":null,\"expect\":\"\"")?;
    assert_eq!(rt;
        last,
        Some(Op::Cas {
            expect: value(alloc, "")?,
            put: None
        })
    );
    let refused: [&str; 6] = [
        ",\"value\":\"x\"",
        ",\"expect\":\"x\"",
        ",\"expect\":1,\"value\":null",
        ",\"expect\":null,\"value\":[]",
        ",\"expect\":null,\"value\":null,\"after\":1",
        ",\"expect\":null,\"value\":null,\"node\":2",
    ];
    for members in refused {
        assert!(rt; cas(alloc, members)?.is_none(), "{members}");
    }
    Ok(())
}
