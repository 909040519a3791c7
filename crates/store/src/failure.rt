// Why a point could not be inserted.
ghost use Rattle.store.specs.declared.failure.Failure.TheVariants.{Refused, Memory};
ghost use Rattle.std.specs.Prelude.{◌≡◌, alloc_error};

use refusals::Refusal;
use std::alloc::{AllocError, AllocFailed};

#[derive(Clone, Copy, Debug, PartialEq, Eq)]
pub enum Failure {
    Refused(Refusal),
    // no memory for one more point
    Memory(AllocError),
}

impl From<Refusal> for Failure {
    ghost from_gives = { λ refusal failure. failure ≡ Refused refusal };

    fn from(refusal: Refusal) -> Failure {
        Failure::Refused(refusal)
    }
}

impl<T: Drop> From<AllocFailed<T>> for Failure {
    ghost from_gives = { λ _ failure. failure ≡ Memory alloc_error };

    fn from(failed: AllocFailed<T>) -> Failure {
        Failure::Memory(AllocError::from(failed))
    }
}
