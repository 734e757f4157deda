//! Why one line was not read.
use crate::Reason;
use contract_types::ConfigRefused;
use memory::OutOfMemory;
use std::alloc::{AllocError, AllocFailed};

/// Why one line was not read.
#[derive(Clone, Copy, Debug, PartialEq, Eq)]
pub(crate) enum LineRefused {
    /// The line is refused for this reason.
    Because(Reason),
    OutOfMemory,
}

impl From<Reason> for LineRefused {
    ghost use Rattle.std.specs.Prelude.{◌≡◌};
    ghost use Rattle.script_text.specs.declared.line_refused.LineRefused.TheVariants.{Because};

    ghost from_gives = { λ r e. e ≡ Because r };

    fn from(reason: Reason) -> LineRefused {
        LineRefused::Because(reason)
    }
}

impl From<ConfigRefused> for LineRefused {
    ghost use Rattle.std.specs.Prelude.{◌≡◌};
    ghost use Rattle.script_text.specs.LineReads.{refusal};

    ghost from_gives = { λ c e. e ≡ refusal c };

    fn from(refused: ConfigRefused) -> LineRefused {
        match refused {
            ConfigRefused::NoShards => LineRefused::Because(Reason::NoShards),
            ConfigRefused::Region => LineRefused::Because(Reason::Region),
            ConfigRefused::Replicas => LineRefused::Because(Reason::Replicas),
            ConfigRefused::Roles => LineRefused::Because(Reason::Roles),
            ConfigRefused::Overlap => LineRefused::Because(Reason::Overlap),
            ConfigRefused::Gap => LineRefused::Because(Reason::Gap),
            ConfigRefused::OutOfMemory => LineRefused::OutOfMemory,
        }
    }
}

impl From<OutOfMemory> for LineRefused {
    ghost use Rattle.std.specs.Prelude.{◌≡◌};
    ghost use Rattle.script_text.specs.declared.line_refused.LineRefused.TheVariants.{OutOfMemory};

    ghost from_gives = { λ _ e. e ≡ OutOfMemory };

    fn from(_error: OutOfMemory) -> LineRefused {
        LineRefused::OutOfMemory
    }
}

impl From<AllocError> for LineRefused {
    ghost use Rattle.std.specs.Prelude.{◌≡◌};
    ghost use Rattle.script_text.specs.declared.line_refused.LineRefused.TheVariants.{OutOfMemory};

    ghost from_gives = { λ _ e. e ≡ OutOfMemory };

    fn from(_error: AllocError) -> LineRefused {
        LineRefused::OutOfMemory
    }
}

impl<T: Drop> From<AllocFailed<T>> for LineRefused {
    ghost use Rattle.std.specs.Prelude.{◌≡◌};
    ghost use Rattle.script_text.specs.declared.line_refused.LineRefused.TheVariants.{OutOfMemory};

    ghost from_gives = { λ _ e. e ≡ OutOfMemory };

    fn from(_error: AllocFailed<T>) -> LineRefused {
        LineRefused::OutOfMemory
    }
}
