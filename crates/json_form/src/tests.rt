//! One value of each kind, as the text of its tree and back.
use crate::JsonForm;
use region_map::{Id, NodeId, NodeSet, Region};
use register_laws::Op;
use std::alloc::Global;

/// Whether the tree of a value has this text, and the value that is read from the text has the same one.
fn is_written<T: JsonForm>(alloc: Global, value: &T, text: &str) -> bool {
    let Ok(json) = value.to_json(alloc) else {
        return false;
    };
    let Ok(written) = json.to_string(alloc) else {
        return false;
    };
    let Ok(json) = serde_json::Value::from_str(alloc, text) else {
        return false;
    };
    let Ok(Some(again)) = T::from_json(alloc, &json, 1) else {
        return false;
    };
    let Ok(json) = again.to_json(alloc) else {
        return false;
    };
    let Ok(again) = json.to_string(alloc) else {
        return false;
    };
    written.as_str() == text && again.as_str() == text
}

/// Whether a text is the tree of no value of this type.
fn is_refused<T: JsonForm>(alloc: Global, _like: &T, text: &str) -> bool {
    let Ok(json) = serde_json::Value::from_str(alloc, text) else {
        return false;
    };
    matches!(T::from_json(alloc, &json, 1), Ok(None))
}

#[test]
fn values_are_written_and_read(rt: HostRuntime) {
    let alloc = rt.alloc();
    let id = Id {
        node: NodeId(0),
        life: 1,
        counter: 12,
    };
    assert!(rt; is_written(alloc, &id, "\"0.1.12\""));
    assert!(rt; is_refused(alloc, &id, "\"0.01.12\""));
    assert!(rt; is_refused(alloc, &id, "\"0.1\""));
    assert!(rt; is_refused(alloc, &id, "\"0.1.12.3\""));
    let set = NodeSet::empty().with(NodeId(3)).with(NodeId(0));
    assert!(rt; is_written(alloc, &set, "[0,3]"));
    assert!(rt; is_refused(alloc, &set, "[3,0]"));
    assert!(rt; is_refused(alloc, &set, "[0,0]"));
    let region = Region {
        hash_from: 0,
        hash_to: 1,
        from: None,
        to: None,
    };
    let whole = "{\"from\":null,\"hash_from\":0,\"hash_to\":1,\"to\":null}";
    assert!(rt; is_written(alloc, &region, whole));
    assert!(rt; is_written(alloc, &Op::Read, "\"read\""));
    assert!(rt; is_refused(alloc, &Op::Read, "\"reads\""));
    assert!(rt; is_written(alloc, &7u64, "7"));
    assert!(rt; is_refused(alloc, &7u64, "-7"));
    assert!(rt; is_refused(alloc, &7u64, "7.0"));
}
