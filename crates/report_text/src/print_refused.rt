//! Why a report was not printed whole.
use line_io::WriteFault;
use memory::OutOfMemory;
use std::alloc::{AllocError, AllocFailed};
use thiserror::Error;

/// Why a report was not printed whole.
#[derive(Clone, Copy, Debug, PartialEq, Eq, Error)]
pub enum PrintRefused {
    /// A write failed.
    #[error("a write failed")]
    WriteFault,
    #[error("out of memory")]
    OutOfMemory,
}

impl From<WriteFault> for PrintRefused {
    ghost use Rattle.std.specs.Prelude.{◌≡◌};
    ghost use Rattle.report_text.specs.declared.print_refused.PrintRefused.TheVariants.{WriteFault};

    ghost from_gives = { λ _ e. e ≡ WriteFault };

    fn from(_fault: WriteFault) -> PrintRefused {
        PrintRefused::WriteFault
    }
}

impl From<AllocError> for PrintRefused {
    ghost use Rattle.std.specs.Prelude.{◌≡◌};
    ghost use Rattle.report_text.specs.declared.print_refused.PrintRefused.TheVariants.{OutOfMemory};

    ghost from_gives = { λ _ e. e ≡ OutOfMemory };

    fn from(_error: AllocError) -> PrintRefused {
        PrintRefused::OutOfMemory
    }
}

impl<T: Drop> From<AllocFailed<T>> for PrintRefused {
    ghost use Rattle.std.specs.Prelude.{◌≡◌};
    ghost use Rattle.report_text.specs.declared.print_refused.PrintRefused.TheVariants.{OutOfMemory};

    ghost from_gives = { λ _ e. e ≡ OutOfMemory };

    fn from(_error: AllocFailed<T>) -> PrintRefused {
        PrintRefused::OutOfMemory
    }
}

impl From<OutOfMemory> for PrintRefused {
    ghost use Rattle.std.specs.Prelude.{◌≡◌};
    ghost use Rattle.report_text.specs.declared.print_refused.PrintRefused.TheVariants.{OutOfMemory};

    ghost from_gives = { λ _ e. e ≡ OutOfMemory };

    fn from(_error: OutOfMemory) -> PrintRefused {
        PrintRefused::OutOfMemory
    }
}
