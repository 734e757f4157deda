//! How a primary that waits for its branch starts once that is registered.
ghost use Rattle.std.specs.Prelude.{◌≡◌, [], IfOk, OnOk, IsErrOf, IsTrue, position, nat_lt, false};
ghost use Rattle.node_core.specs.Starting.{current_of, is_current, due, place_of, placed, start_one, start_each, due_ends_numbers, starts_end_numbers};

use branch_history::version::is_same_id;
use contract_types::{Contract, TableState};
use memory::OutOfMemory;
use primary_exec::{Asking, Primary};
use region_map::{Id, NodeId, Region, RegionMap, StepRefused};
use std::alloc::Global;
use store_plain::PlainStore;

/// The current branches of a table.
pub fn current(table: &TableState) -> &RegionMap<Id>
    ensures { result.now ≡ current_of table.now }
{
    let current = table.current();
    // Its pieces are canonical, so it is the one map with these branches.
    let _pieces = current.pieces();
    current
}

/// Whether a branch is the current one everywhere on a region.
fn is_current(
    alloc: Global,
    table: &TableState,
    region: &Region,
    branch: &Id,
) -> Result<bool, OutOfMemory>
    ensures { IfOk result (λ is. is ≡ is_current table.now region.now branch.now) }
{
    let there = current(table).mask(alloc, region)?;
    let is_everywhere = there
        .pieces()
        .iter()
        .all(|piece| is_same_id(&piece.1, branch));
    Ok(is_everywhere)
}

/// The timestamp with which the branch begins, where it is the current one of its region.
fn due(alloc: Global, table: &TableState, asking: &Asking) -> Result<Option<u64>, OutOfMemory>
    ensures { IfOk result (λ initial. initial ≡ due table.now asking.now) }
{
    if !is_current(alloc, table, &asking.contract.region, &asking.branch)? {
        return Ok(None);
    }
    match table.history().birth(&asking.branch) {
        None => Ok(None),
        Some(birth) => Ok(Some(birth.initial)),
    }
}

/// At which place the contract of an id stands.
fn place_of(contracts: &[Contract], id: &Id) -> u64
    ensures { result ≡ place_of contracts.now id.now }
{
    let mut place = 0;
    for contract in contracts {
        if is_same_id(&contract.id, id) {
            return place;
        }
        place += 1;
    }
    place
}

/// Before which execution one comes that is put among others in table order.
fn place_among(contracts: &[Contract], id: &Id, executions: &[Primary]) -> Option<usize>
    ensures { result ≡ position (λ x. nat_lt (place_of contracts.now id.now) (place_of contracts.now x.contract.id)) executions.now }
{
    let place = place_of(contracts, id);
    executions.iter().position(|execution| place < place_of(contracts, &execution.contract().id))
}

/// Puts an execution among others that are in table order.
fn put(
    contracts: &[Contract],
    execution: Primary,
    executions: &mut Vec<Primary>,
) -> Result<(), OutOfMemory>
    ensures { OnOk result (executions.new.items ≡ placed contracts.now execution executions.old.items) }
{
    match place_among(contracts, &execution.contract().id, executions) {
        Some(place) => executions.insert(place, execution)?,
        None => executions.push(execution)?,
    }
    Ok(())
}

/// A primary starts where it may; else it still asks.
fn start_one(
    alloc: Global,
    me: NodeId,
    table: &TableState,
    asks: Asking,
    left: &mut Vec<Asking>,
    executions: &mut Vec<Primary>,
    store: &mut PlainStore,
) -> Result<(), StepRefused>
    ensures started { OnOk result (record { asking = left.new.items; executions = executions.new.items; versions = store.new.versions }
        ≡ start_one me table.now.contracts asks (due table.now asks) (record { asking = left.old.items; executions = executions.old.items; versions = store.old.versions })) }
    ensures rows { OnOk result (store.new.rows ≡ store.old.rows) }
    ensures ends { IsErrOf result StepRefused.NumbersEnd → IsTrue (due_ends_numbers (due table.now asks)) }
    ensures goes { OnOk result (due_ends_numbers (due table.now asks) ≡ false) }
{
    match due(alloc, table, &asks)? {
        None => left.push(asks)?,
        Some(initial) => {
            let execution = Primary::start(alloc, asks, me, initial, store)?;
            put(table.contracts().as_slice(), execution, executions)?;
        }
    }
    Ok(())
}

/// Each of these starts that may, in their order; the others still ask.
pub fn start_each(
    alloc: Global,
    me: NodeId,
    table: &TableState,
    asking: Vec<Asking>,
    executions: &mut Vec<Primary>,
    store: &mut PlainStore,
) -> Result<Vec<Asking>, StepRefused>
    ensures started { IfOk result (λ left. record { asking = left.items; executions = executions.new.items; versions = store.new.versions }
        ≡ start_each me table.now asking.items (record { asking = []; executions = executions.old.items; versions = store.old.versions })) }
    ensures rows { OnOk result (store.new.rows ≡ store.old.rows) }
    ensures ends { IsErrOf result StepRefused.NumbersEnd → IsTrue (starts_end_numbers table.now asking.items) }
    ensures goes { OnOk result (starts_end_numbers table.now asking.items ≡ false) }
{
    let mut left = Vec::new(alloc);
    for asks in asking {
        start_one(alloc, me, table, asks, &mut left, executions, store)?;
    }
    Ok(left)
}
