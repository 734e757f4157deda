//! Why an event was not taken.
use contract_types::Which;
use memory::OutOfMemory;
use region_map::StepRefused;
use std::alloc::{AllocError, AllocFailed};
use thiserror::Error;

/// Why an event was not taken. The refusals are tried in this order.
#[derive(Clone, Copy, Debug, PartialEq, Eq, Error)]
pub enum PushRefused {
    #[error("no such node")]
    NoSuchNode,
    /// No message of that number was sent.
    #[error("no such message")]
    NoSuchMessage,
    /// The message is for another node.
    #[error("the message is for another node")]
    NotYours,
    /// The node is down, and takes a restart alone.
    #[error("the node is down")]
    Down,
    /// The node is up, and takes no restart.
    #[error("the node is up")]
    Up,
    /// An operation of that number was requested before.
    #[error("the operation is known")]
    OpKnown,
    /// A limit would be passed; the world answers this to every later event.
    #[error("a limit of the journal would be passed")]
    JournalFull(Which),
    /// The world answers this to every later event.
    #[error("out of memory")]
    OutOfMemory,
}

impl From<OutOfMemory> for PushRefused {
    ghost use Rattle.std.specs.Prelude.{◌≡◌};
    ghost use Rattle.world_steps.specs.declared.push_refused.PushRefused.TheVariants.{OutOfMemory};

    ghost from_gives = { λ _ e. e ≡ OutOfMemory };

    fn from(_error: OutOfMemory) -> PushRefused {
        PushRefused::OutOfMemory
    }
}

impl From<AllocError> for PushRefused {
    ghost use Rattle.std.specs.Prelude.{◌≡◌};
    ghost use Rattle.world_steps.specs.declared.push_refused.PushRefused.TheVariants.{OutOfMemory};

    ghost from_gives = { λ _ e. e ≡ OutOfMemory };

    fn from(_error: AllocError) -> PushRefused {
        PushRefused::OutOfMemory
    }
}

impl<T: Drop> From<AllocFailed<T>> for PushRefused {
    ghost use Rattle.std.specs.Prelude.{◌≡◌};
    ghost use Rattle.world_steps.specs.declared.push_refused.PushRefused.TheVariants.{OutOfMemory};

    ghost from_gives = { λ _ e. e ≡ OutOfMemory };

    fn from(_error: AllocFailed<T>) -> PushRefused {
        PushRefused::OutOfMemory
    }
}

impl From<StepRefused> for PushRefused {
    ghost use Rattle.std.specs.Prelude.{◌≡◌};
    ghost use Rattle.world_steps.specs.World.{step_refusal};

    ghost from_gives = { λ why e. e ≡ step_refusal why };

    fn from(error: StepRefused) -> PushRefused {
        match error {
            StepRefused::NumbersEnd => PushRefused::JournalFull(Which::Numbers),
            StepRefused::OutOfMemory => PushRefused::OutOfMemory,
        }
    }
}
