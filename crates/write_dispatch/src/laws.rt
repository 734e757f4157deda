//! Laws of counting: each holds by its contract, and its body is empty.
ghost use Rattle.std.specs.Prelude.{◌≡◌, ◌≤◌, ◌<◌, ℕ, List, None, length, IsTrue};
ghost use Rattle.contract_types.specs.declared.contract.Contract.{Contract};
ghost use Rattle.write_dispatch.specs.Dispatch.{Acks, no_acks, ack_of, with_ack, is_counted, counted_of, is_decided};
ghost use Rattle.write_dispatch.specs.Later.{keeps_pace};

/// At first no server's ack is kept.
pub fn no_ack_is_kept_at_first()
    ensures none { (server : ℕ) → ack_of no_acks server ≡ None }
    ensures all { length no_acks ≡ 64 }
{}

/// An ack that comes again changes nothing.
pub fn repeated_ack_changes_nothing()
    ensures { (acks : Acks) (server view at : ℕ) → server < length acks
        → with_ack (with_ack acks server view at) server view at ≡ with_ack acks server view at }
{}

/// An ack of a server changes the kept ack of no other.
pub fn ack_is_kept_for_its_server_alone()
    ensures { (acks : Acks) (server view at other : ℕ) → ¬ (other ≡ server)
        → ack_of (with_ack acks server view at) other ≡ ack_of acks other }
{}

/// A server that is counted stays so under a later ack, whose timestamp falls behind the kept one's only with a
/// view that is not greater.
pub fn later_ack_takes_no_server_back()
    ensures { (acks : Acks) (server view at since me moment counted : ℕ)
        → IsTrue (keeps_pace view at (ack_of acks server))
        → IsTrue (is_counted acks since me moment counted)
        → IsTrue (is_counted (with_ack acks server view at) since me moment counted) }
{}

/// No count falls under a later ack.
pub fn later_ack_lowers_no_count()
    ensures { (acks : Acks) (server view at since me moment : ℕ) (set : List ℕ)
        → IsTrue (keeps_pace view at (ack_of acks server))
        → counted_of acks since me moment set ≤ counted_of (with_ack acks server view at) since me moment set }
{}

/// What is decided stays decided under a later ack.
pub fn decided_stays_decided()
    ensures { (acks : Acks) (server view at me moment : ℕ) (contract : Contract)
        → IsTrue (keeps_pace view at (ack_of acks server))
        → IsTrue (is_decided acks contract me moment)
        → IsTrue (is_decided (with_ack acks server view at) contract me moment) }
{}

/// Where a timestamp is decided, so is each earlier one: the least pending operation is decided first.
pub fn earlier_timestamps_are_decided_too()
    ensures { (acks : Acks) (me earlier later : ℕ) (contract : Contract) → earlier ≤ later
        → IsTrue (is_decided acks contract me later) → IsTrue (is_decided acks contract me earlier) }
{}
