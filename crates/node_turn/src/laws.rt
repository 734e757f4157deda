//! What a turn gives may be given, and what is kept as a node sees more.
ghost use Rattle.std.specs.Prelude.{◌≡◌, ℕ, ◌+◌, Bool, true, false, List, length, take, Some};
ghost use Rattle.region_map.specs.declared.id.NodeId.{NodeId};
ghost use Rattle.register_laws.specs.declared.operation.OpId.{OpId};
ghost use Rattle.exec_types.specs.declared.input.Input.{Input};
ghost use Rattle.node_core.specs.declared.journal.Entry.{Entry};
ghost use Rattle.runs.specs.Run.{suits, is_to, message_at};
ghost use Rattle.node_turn.specs.declared.chance.Chance.{Chance};
ghost use Rattle.node_turn.specs.declared.position.Act.TheVariants.{Deliver};
ghost use Rattle.node_turn.specs.declared.position.MessageCopy.{MessageCopy};
ghost use Rattle.node_turn.specs.declared.position.Position.{Position};
ghost use Rattle.node_turn.specs.declared.position.TurnItem.{TurnItem};
ghost use Rattle.node_turn.specs.Outcomes.{has_outcome, IsAsked};
ghost use Rattle.node_turn.specs.Search.{IsPlaced};
ghost use Rattle.node_turn.specs.Turn.{turn_of, waits_of, tries_of, input_of};

/// A node that is up is given no restart, and one that is down nothing else. A message that it takes was sent to it in what
/// it has seen. It waits for an operation only where what it has seen has no outcome of that.
#[tactic(auto, using(crate::proofs::Allowed::due_is_sent))]
pub fn turns_are_allowed()
    ensures suits { (chance : Chance) → (items : List TurnItem) → (node : NodeId) → (number : ℕ) → (up : Bool) → (past : List Entry) → (p : Position)
        → (input : Input) → input_of items p (turn_of chance items node number up past p).act ≡ Some input → suits up input ≡ true }
    ensures sent { (chance : Chance) → (items : List TurnItem) → (node : NodeId) → (number : ℕ) → (up : Bool) → (past : List Entry) → (p : Position)
        → (message : ℕ) → (turn_of chance items node number up past p).act ≡ Deliver message → is_to (message_at past message) node ≡ true }
    ensures waits { (chance : Chance) → (items : List TurnItem) → (node : NodeId) → (number : ℕ) → (up : Bool) → (past : List Entry) → (p : Position)
        → (op : OpId) → (turn_of chance items node number up past p).waited ≡ Some op → has_outcome past op ≡ false }
{}

/// In an odd turn in which an item is left, either an item more is gone by or the turn waits for an operation; no other turn
/// does either. So the items that are gone by and the turns that waited count the odd turns, while items are left.
pub fn turns_count()
    ensures { (chance : Chance) → (items : List TurnItem) → (node : NodeId) → (number : ℕ) → (up : Bool) → (past : List Entry) → (p : Position)
        → (turn_of chance items node number up past p).position.gone + waits_of (turn_of chance items node number up past p)
        ≡ p.gone + tries_of items number p }
{}

/// How far the searches have come stays true as the node sees more.
pub fn looks_keep_places()
    ensures messages { (chance : Chance) → (node : NodeId) → (taken : MessageCopy) → (seen list : List Entry) → (entries number : ℕ)
        → IsPlaced chance node taken seen entries number → take (length seen) list ≡ seen → IsPlaced chance node taken list entries number }
    ensures outcomes { (items : List TurnItem) → (gone : ℕ) → (seen list : List Entry) → (asked : ℕ) → IsAsked items gone seen asked
        → take (length seen) list ≡ seen → IsAsked items gone list asked }
{}
