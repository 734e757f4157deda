//! A law of a secondary's step.
ghost use Rattle.std.specs.Prelude.{◌≡◌, ◌<◌, ◌+◌, ℕ, Some};
ghost use Rattle.list_laws.specs.Members.{IsIn};
ghost use Rattle.runs.specs.exec_types.Parts.{timestamp_of};
ghost use Rattle.runs.specs.exec_types.declared.input.Input.TheVariants.{Deliver};
ghost use Rattle.runs.specs.exec_types.declared.message.Message.TheVariants as message;
ghost use Rattle.runs.specs.exec_types.declared.message.Stream.{Stream};
ghost use Rattle.runs.specs.secondary_exec.declared.following.Following.{Following};
ghost use Rattle.runs.specs.node_core.Step.{NodeState, node_step};
ghost use Rattle.step_laws.specs.Follows.{IsApplied, StandsThere};

/// A secondary that is given the next part of its session applies it and tells its primary so, in the step that brings it.
/// What is asked of the node is that it acts on all that its log has for it, and follows once in each session; that each
/// key of the region stands where the following says; and that the part lies above.
pub fn next_parts_are_applied()
    ensures { (s : NodeState) (number : ℕ) (f : Following) (stream : Stream)
        → IsIn s.followings f → ((g : Following) → IsIn s.followings g → g.session ≡ f.session → g ≡ f) → 0 < s.versions.hashes → StandsThere s.versions f
        → s.log.acted ≡ s.log.raft.view → f.primary.0 < s.setup.nodes → stream.session ≡ f.session → stream.number ≡ f.got + 1 → f.position < timestamp_of stream.part
        → IsApplied s (node_step s (Deliver number) (Some (record { from = f.primary; message = message.Stream stream }))) f stream }
{}
