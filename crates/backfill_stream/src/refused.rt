//! Why a part was not sent.
use std::alloc::AllocFailed;
use thiserror::Error;

/// Why a part was not sent. The stream is as it was.
#[derive(Debug, Drop, Error)]
pub enum SendRefused<P> {
    /// `UNACKED_LIMIT` parts are not acknowledged. The part is given back.
    #[error("too many parts are not acknowledged")]
    TooMany(P),
    /// The number of the part would be `NUMBERS_END`. The part is given back.
    #[error("the numbers end")]
    NumbersEnd(P),
    #[error("out of memory")]
    OutOfMemory,
}

impl<P, T: Drop> From<AllocFailed<T>> for SendRefused<P> {
    ghost use Rattle.std.specs.Prelude.{◌≡◌};
    ghost use Rattle.backfill_stream.specs.declared.refused.SendRefused.TheVariants.{OutOfMemory};

    ghost from_gives = { λ _ e. e ≡ OutOfMemory };

    fn from(_error: AllocFailed<T>) -> SendRefused<P> {
        SendRefused::OutOfMemory
    }
}
