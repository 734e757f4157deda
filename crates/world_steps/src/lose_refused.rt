//! Why a message was not marked lost.
use memory::OutOfMemory;
use std::alloc::AllocFailed;
use thiserror::Error;

/// Why a message was not marked lost. The world is as it was.
#[derive(Clone, Copy, Debug, PartialEq, Eq, Error)]
pub enum LoseRefused {
    /// No message of that number was sent.
    #[error("no such message")]
    NoSuchMessage,
    #[error("out of memory")]
    OutOfMemory,
}

impl<T: Drop> From<AllocFailed<T>> for LoseRefused {
    ghost use Rattle.std.specs.Prelude.{◌≡◌};
    ghost use Rattle.world_steps.specs.declared.lose_refused.LoseRefused.TheVariants.{OutOfMemory};

    ghost from_gives = { λ _ e. e ≡ OutOfMemory };

    fn from(_error: AllocFailed<T>) -> LoseRefused {
        LoseRefused::OutOfMemory
    }
}
