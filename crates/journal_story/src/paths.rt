//! The current branch of a key in a table, and what lies on its path.
ghost use Rattle.std.specs.Prelude.{◌≡◌, Some};
ghost use Rattle.step_runs.specs.runs.Story.{branch_in, is_on_branch};

use branch_history::Version;
use contract_types::TableState;
use region_map::{Id, Key};

/// The current branch of a key.
fn branch_of(table: &TableState, key: &Key) -> Option<Id>
    ensures { result ≡ branch_in table.now.config table.now key.now }
{
    let _hashes = table.config().hashes();
    table.current().get(key).copied()
}

/// Whether a version lies on the path of the whole of a key's current branch.
fn is_on_whole(table: &TableState, key: &Key, branch: Id, version: &Version) -> bool
    requires { branch_in table.now.config table.now key.now ≡ Some branch }
    ensures { result ≡ is_on_branch table.now.config table.now key.now (Some branch) version.now }
{
    let whole = Version {
        branch: Some(branch),
        timestamp: u64::MAX,
    };
    table.history().path_has(&whole, key, version)
}

/// Whether a version lies on the path of a key's current branch.
pub fn is_on_current(table: &TableState, key: &Key, version: &Version) -> bool
    ensures { result ≡ is_on_branch table.now.config table.now key.now (branch_in table.now.config table.now key.now) version.now }
{
    match branch_of(table, key) {
        Some(branch) => is_on_whole(table, key, branch, version),
        None => false,
    }
}
