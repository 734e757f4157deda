//! New branches: one change for each condition that may fail, and one that is taken; and what is taken always.
use crate::parts::{branches, everything, id, only, table, versions};
use branch_history::Version;
use contract_types::{Applied, Change, Condition, TableState};
use region_map::{Id, NodeId};
use std::alloc::Global;
use std::test::Fail;
use table_apply::apply;

/// Whether this becomes of a change at index 1 that registers a branch of all keys.
fn becomes(
    alloc: Global,
    branch: Id,
    tenure: u64,
    based_on: Id,
    origin: Version,
    applied: Applied,
) -> Result<bool, Fail> {
    let mut state = table(alloc, only(0))?;
    let based_on = branches(alloc, based_on)?;
    let origin = versions(alloc, origin)?;
    let change = Change::RegisterBranch {
        branch,
        region: everything(),
        tenure,
        maker: NodeId(0),
        based_on,
        origin,
    };
    let became = apply(alloc, &mut state, 1, &change)?;
    Ok(became == applied)
}

#[test]
fn the_first_condition_of_a_branch_that_fails_is_named(rt: HostRuntime) -> Result<(), Fail> {
    let alloc = rt.alloc();
    let first = id(0, 1, 0);
    let new = id(0, 2, 0);
    let zero = Version::zero();
    let strange = Version {
        branch: Some(id(7, 7, 7)),
        timestamp: 3,
    };
    for (branch, tenure, based_on, origin, applied) in [
        (new, 5, first, zero, Applied::Skipped(Condition::Tenure)),
        (new, 0, new, zero, Applied::Skipped(Condition::BasedOn)),
        (first, 0, first, zero, Applied::Skipped(Condition::IdNew)),
        (new, 0, first, strange, Applied::Skipped(Condition::IdNew)),
        (first, 5, new, zero, Applied::Skipped(Condition::Tenure)),
        (new, 0, first, zero, Applied::Taken),
    ] {
        assert!(rt; becomes(alloc, branch, tenure, based_on, origin, applied)?);
    }
    Ok(())
}

/// The change that does nothing, and that which sets the configuration that is there.
fn takes_both(alloc: Global, state: &mut TableState) -> Result<bool, Fail> {
    let nothing = apply(alloc, state, 1, &Change::Noop)?;
    let change = Change::SetConfig(state.config().copy(alloc)?);
    let config = apply(alloc, state, 2, &change)?;
    Ok(nothing == Applied::Taken && config == Applied::Taken)
}

#[test]
fn what_is_taken_without_conditions(rt: HostRuntime) -> Result<(), Fail> {
    let alloc = rt.alloc();
    let mut state = table(alloc, only(0))?;
    assert!(rt; takes_both(alloc, &mut state)?);
    Ok(())
}
