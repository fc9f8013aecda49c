//! Why no request was read.
use std::alloc::AllocError;

/// Why no request was read of bytes that were taken.
#[derive(Clone, Copy, Debug, PartialEq, Eq)]
pub(crate) enum NoRequest {
    /// They aren't a request.
    Syntax,
    /// An allocation for the lines after a head line failed.
    NoMemory,
}

impl From<AllocError> for NoRequest {
    ghost use Rattle.desk_session.specs.declared.no_request.NoRequest.TheVariants.{NoMemory};
    ghost use Rattle.std.specs.Prelude.{◌≡◌};

    ghost from_gives = { λ _ fault. fault ≡ NoMemory };

    fn from(_: AllocError) -> Self {
        NoRequest::NoMemory
    }
}
