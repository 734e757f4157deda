//! Why a step of a machine was not taken.
use memory::OutOfMemory;
use std::alloc::{AllocError, AllocFailed};
use thiserror::Error;

/// Why a step was not taken.
#[derive(Clone, Copy, Debug, PartialEq, Eq, Error)]
pub enum StepRefused {
    /// A life, term, timestamp, id counter, log index or part number would reach `NUMBERS_END`.
    #[error("the numbers end")]
    NumbersEnd,
    #[error("out of memory")]
    OutOfMemory,
}

impl From<AllocError> for StepRefused {
    ghost use Rattle.std.specs.Prelude.{◌≡◌};
    ghost use Rattle.region_map.specs.declared.step_refused.StepRefused.TheVariants.{OutOfMemory};

    ghost from_gives = { λ _ e. e ≡ OutOfMemory };

    fn from(_error: AllocError) -> StepRefused {
        StepRefused::OutOfMemory
    }
}

impl<T: Drop> From<AllocFailed<T>> for StepRefused {
    ghost use Rattle.std.specs.Prelude.{◌≡◌};
    ghost use Rattle.region_map.specs.declared.step_refused.StepRefused.TheVariants.{OutOfMemory};

    ghost from_gives = { λ _ e. e ≡ OutOfMemory };

    fn from(_error: AllocFailed<T>) -> StepRefused {
        StepRefused::OutOfMemory
    }
}

impl From<OutOfMemory> for StepRefused {
    ghost use Rattle.std.specs.Prelude.{◌≡◌};
    ghost use Rattle.region_map.specs.declared.step_refused.StepRefused.TheVariants.{OutOfMemory};

    ghost from_gives = { λ _ e. e ≡ OutOfMemory };

    fn from(_error: OutOfMemory) -> StepRefused {
        StepRefused::OutOfMemory
    }
}
