//! New contracts: one change for each condition that may fail, and one that is taken.
use crate::parts::{everything, id, only, table};
use contract_types::{Applied, Change, Condition, Contract, Contracts, Holder, Ids};
use region_map::{Id, NodeId};
use std::alloc::Global;
use std::test::Fail;
use table_apply::apply;

/// A contract of all keys with this id and, if any, this primary, which is to come.
#[derive(Clone, Copy)]
struct Added {
    id: Id,
    primary: Option<u8>,
}

fn contract(added: Added) -> Contract {
    Contract {
        id: added.id,
        region: everything(),
        replicas: only(0),
        voters: only(0),
        temp_voters: None,
        primary: added.primary.map(held_by),
        since: 0,
        tenure: 0,
    }
}

fn held_by(server: u8) -> Holder {
    Holder {
        server: NodeId(server),
        hand_over: None,
    }
}

fn contracts(alloc: Global, added: Option<Added>) -> Result<Contracts, Fail> {
    let mut contracts = Contracts::new(alloc);
    if let Some(one) = added {
        contracts.push(contract(one))?;
    }
    Ok(contracts)
}

/// Whether this becomes of a change at index 1 that puts these in the place of one contract.
fn becomes(
    alloc: Global,
    removed: Id,
    added: Option<Added>,
    applied: Applied,
) -> Result<bool, Fail> {
    let mut state = table(alloc, only(0))?;
    let change = Change::NewContracts {
        removed: Ids::from(vec![in alloc; removed]?),
        added: contracts(alloc, added)?,
    };
    let became = apply(alloc, &mut state, 1, &change)?;
    Ok(became == applied)
}

fn one(id: Id, primary: Option<u8>) -> Option<Added> {
    Some(Added { id, primary })
}

#[test]
fn the_first_condition_of_new_contracts_that_fails_is_named(rt: HostRuntime) -> Result<(), Fail> {
    let alloc = rt.alloc();
    let first = id(0, 0, 0);
    let new = id(0, 1, 5);
    for (removed, added, applied) in [
        (id(9, 9, 9), None, Applied::Skipped(Condition::Removed)),
        (first, None, Applied::Skipped(Condition::Regions)),
        (
            first,
            one(new, Some(1)),
            Applied::Skipped(Condition::Primary),
        ),
        (first, one(first, None), Applied::Skipped(Condition::IdNew)),
        (
            first,
            one(first, Some(1)),
            Applied::Skipped(Condition::Primary),
        ),
        (first, one(new, Some(0)), Applied::Taken),
    ] {
        assert!(rt; becomes(alloc, removed, added, applied)?);
    }
    Ok(())
}
