//! The changes that a journal tells, and the table that follows from them.
ghost use Rattle.std.specs.Prelude.{◌≡◌, ◌++◌, ◌∷◌, [], reverse, map, IfOk, OnOk};
ghost use Rattle.contract_types.specs.Tables.{setup as table_of};
ghost use Rattle.step_runs.specs.runs.Committed.{viewed_in, viewed_by};
ghost use Rattle.step_runs.specs.runs.Latest.{longer, longest, told_step, told_from};

use contract_types::{Applied, Change, Setup, TableState};
use exec_types::Output;
use memory::OutOfMemory;
use node_core::Entry;
use std::alloc::Global;
use table_apply::apply;
use table_log::fits;

fn add_results<'a>(
    viewed: &mut Vec<&'a (Change, Applied)>,
    results: &'a [(Change, Applied)],
) -> Result<(), OutOfMemory>
    ensures { OnOk result (map (λ r. r.now) viewed.new.items ≡ map (λ r. r.now) viewed.old.items ++ results.now) }
{
    for one in results {
        viewed.push(one)?;
    }
    Ok(())
}

fn add_output<'a>(
    viewed: &mut Vec<&'a (Change, Applied)>,
    output: &'a Output,
) -> Result<(), OutOfMemory>
    ensures { OnOk result (map (λ r. r.now) viewed.new.items
        ≡ map (λ r. r.now) viewed.old.items ++ viewed_in (output.now ∷ [])) }
{
    if let Output::Viewed { results, .. } = output {
        add_results(viewed, results.as_slice())?;
    }
    Ok(())
}

fn add_outputs<'a>(
    viewed: &mut Vec<&'a (Change, Applied)>,
    outputs: &'a [Output],
) -> Result<(), OutOfMemory>
    ensures { OnOk result (map (λ r. r.now) viewed.new.items
        ≡ map (λ r. r.now) viewed.old.items ++ viewed_in outputs.now) }
{
    for output in outputs {
        add_output(viewed, output)?;
    }
    Ok(())
}

/// The changes that a node told to have acted on.
fn viewed_by<'a>(
    alloc: Global,
    node: u8,
    entries: &'a [Entry],
) -> Result<Vec<&'a (Change, Applied)>, OutOfMemory>
    ensures { IfOk result (λ viewed. map (λ r. r.now) viewed.items ≡ viewed_by node (reverse entries.now)) }
{
    let mut viewed = Vec::new(alloc);
    for entry in entries {
        if entry.node.0 == node {
            add_outputs(&mut viewed, entry.outputs.as_slice())?;
        }
    }
    Ok(viewed)
}

/// The longer of two lists; the first one where they are as long.
fn longer<'a>(
    first: Vec<&'a (Change, Applied)>,
    second: Vec<&'a (Change, Applied)>,
) -> Vec<&'a (Change, Applied)>
    ensures { map (λ r. r.now) result.items ≡ longer (map (λ r. r.now) first.entry.items) (map (λ r. r.now) second.entry.items) }
{
    if first.len() < second.len() {
        second
    } else {
        first
    }
}

/// The longest list of changes that a node told to have acted on, of the least such node.
pub fn longest<'a>(
    alloc: Global,
    setup: &Setup,
    entries: &'a [Entry],
) -> Result<Vec<&'a (Change, Applied)>, OutOfMemory>
    ensures { IfOk result (λ viewed. map (λ r. r.now) viewed.items ≡ longest setup.now (reverse entries.now)) }
{
    let mut longest = Vec::new(alloc);
    for node in 0..setup.nodes() {
        longest = longer(longest, viewed_by(alloc, node, entries)?);
    }
    Ok(longest)
}

/// One change more; one that does not fit the table is passed over.
fn take_change(
    alloc: Global,
    table: &mut TableState,
    hashes: u8,
    index: u64,
    change: &Change,
) -> Result<(), OutOfMemory>
    requires { table.old.config.hashes ≡ hashes }
    ensures step { OnOk result (table.new ≡ told_step hashes table.old index change.now) }
    ensures hashes { OnOk result (table.new.config.hashes ≡ hashes) }
{
    if !fits(hashes, change) {
        return Ok(());
    }
    apply(alloc, table, index, change)?;
    Ok(())
}

/// The table that follows from changes, of which the first has index 1.
pub fn told_table(
    alloc: Global,
    setup: &Setup,
    viewed: &[&(Change, Applied)],
) -> Result<TableState, OutOfMemory>
    ensures value { IfOk result (λ table. table
        ≡ told_from setup.now.hashes (table_of setup.now) 1 (map (λ r. r.now) viewed.now)) }
    ensures hashes { IfOk result (λ table. table.config.hashes ≡ setup.now.hashes) }
{
    let config = setup.config().copy(alloc)?;
    let mut table = TableState::begin(alloc, config)?;
    for place in 0..viewed.len() {
        let change = &viewed[place].0;
        take_change(alloc, &mut table, setup.hashes(), place as u64 + 1, change)?;
    }
    Ok(table)
}
