//! What a chunk brings a store, in terms of the branches that its versions are of: no step, no session and no store's code.
//!
//! Above: the laws of runs with sessions. Below: `region_map`, `branch_history`, `store_api`, `backfill_items`.
//! Promise: where a row is no newer than an ancestor of its version, it is the ancestor's row; so after a chunk of the changed
//! keys the receiver has the rows of the sender's version on the whole range of the chunk.
#![tactic(auto)]

ghost use Rattle.std.specs.Prelude.{◌≡◌, ℕ, ◌<◌, true, false, List, filter, Option, Some};
ghost use Rattle.region_map.specs.declared.id.Id.{Id};
ghost use Rattle.region_map.specs.Keys.{hash_of};
ghost use Rattle.region_map.specs.Maps.{Pieced};
ghost use Rattle.branch_history.specs.declared.version.Version.{Version};
ghost use Rattle.branch_history.specs.Paths.{Branches, is_on, ancestor};
ghost use Rattle.store_api.specs.Rows.{Rows, AreOrdered, row_of, row_is_above, has_key, with_items};
ghost use Rattle.store_api.specs.Versions.{point, version_of, replaced_map};
ghost use Rattle.chunk_laws.specs.Written.{Writes, IsWritten, HasPathRows, row_after, is_beyond, path_row};
ghost use Rattle.chunk_laws.specs.Chunks.{Exchange, MeetsAt, items, range, brought_row};
ghost use Rattle.chunk_laws.specs.Example.{example, deletions, branches, second, key_a, key_b};

/// The row of a version goes on from that of each point of its path, by what lies on the path beyond the point.
pub fn rows_go_on_along_a_path<P>()
    ensures { (w : Writes P) (bs : Branches) (hashes : ℕ) (key : List ℕ) (version point : Version) → IsWritten w bs hashes key
        → is_on bs (hash_of key hashes) key version point ≡ true
        → path_row w bs hashes key version ≡ row_after w.step (path_row w bs hashes key point) (filter (is_beyond w bs hashes key point version) w.taken) }
{}

/// A row whose recency is no later than the timestamp of a point on the path of its version is the row of that point. So a
/// key whose rows at two versions are no newer than the common ancestor has one row at both.
pub fn old_rows_are_those_of_an_ancestor<P>()
    ensures point { (w : Writes P) (bs : Branches) (hashes : ℕ) (key : List ℕ) (version point : Version) → IsWritten w bs hashes key
        → is_on bs (hash_of key hashes) key version point ≡ true
        → row_is_above (Some point.timestamp) (path_row w bs hashes key version) ≡ false
        → path_row w bs hashes key version ≡ path_row w bs hashes key point }
    ensures both { (w : Writes P) (bs : Branches) (hashes : ℕ) (key : List ℕ) (a b : Version) → IsWritten w bs hashes key
        → row_is_above (Some (ancestor bs (hash_of key hashes) key a b).timestamp) (path_row w bs hashes key a) ≡ false
        → row_is_above (Some (ancestor bs (hash_of key hashes) key a b).timestamp) (path_row w bs hashes key b) ≡ false
        → path_row w bs hashes key a ≡ path_row w bs hashes key b }
{}

/// Once a receiver has a chunk, each key of the chunk's range whose row is newer than the ancestor's timestamp at either end
/// has the sender's row, as deleted or as missing as it is there, and each other key of the range keeps its own. Outside of
/// the range nothing changes. The receiver's rows outside of the range may be others than those of which it named keys.
pub fn chunks_bring_the_changed_keys()
    ensures inside { (e : Exchange) (now : Rows) (key : List ℕ) → AreOrdered e.receiver → AreOrdered e.sender → AreOrdered now
        → has_key (range e) e.above.hashes key ≡ true → row_of now key ≡ row_of e.receiver key
        → row_of (with_items now (items e)) key ≡ brought_row e key }
    ensures outside { (e : Exchange) (now : Rows) (key : List ℕ) → AreOrdered e.receiver → AreOrdered e.sender → AreOrdered now
        → has_key (range e) e.above.hashes key ≡ false
        → row_of (with_items now (items e)) key ≡ row_of now key }
{}

/// A chunk brings the rows of the sender's version, at each key of its range where both ends had the rows of their own
/// versions and the bound is the timestamp of a point on both paths.
pub fn chunks_bring_path_rows<P>()
    ensures at { (w : Writes P) (bs : Branches) (e : Exchange) (branch : Id) (at : ℕ) (now : Rows) (key : List ℕ)
        → AreOrdered e.receiver → AreOrdered e.sender → AreOrdered now
        → has_key (range e) e.above.hashes key ≡ true → row_of now key ≡ row_of e.receiver key → MeetsAt w bs e branch at key
        → row_of (with_items now (items e)) key ≡ path_row w bs e.above.hashes key (point branch at) }
    ensures everywhere { (w : Writes P) (bs : Branches) (e : Exchange) (branch : Id) (at : ℕ) (now : Rows) (versions : Pieced Version)
        → 0 < versions.hashes → e.above.hashes ≡ versions.hashes
        → AreOrdered e.receiver → AreOrdered e.sender → AreOrdered now
        → ((key : List ℕ) → has_key (range e) versions.hashes key ≡ true → row_of now key ≡ row_of e.receiver key)
        → ((key : List ℕ) → has_key (range e) versions.hashes key ≡ true → MeetsAt w bs e branch at key)
        → HasPathRows w bs now versions
        → HasPathRows w bs (with_items now (items e)) (replaced_map (range e) (point branch at) versions) }
{}

/// The facts can be met: in a small exchange the receiver has a row of a dead branch at one key, and both ends have the
/// ancestor's row at another.
pub fn facts_can_be_met()
    ensures range { (has_key (range example) 1 key_a ≡ true) × (has_key (range example) 1 key_b ≡ true) }
    ensures changed { MeetsAt deletions branches example second 3 key_a }
    ensures kept { MeetsAt deletions branches example second 3 key_b }
{}
