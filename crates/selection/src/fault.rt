// Why nothing was chosen.
ghost use Rattle.std.specs.Prelude.{◌≡◌};
ghost use Rattle.selection.specs.declared.fault.Fault.TheVariants.{Refused, NoMemory};

use replies::Refusal;
use std::alloc::AllocError;

// What was given is refused, or memory is short.
#[derive(Clone, Copy, PartialEq, Eq, Debug)]
pub enum Fault {
    Refused(Refusal),
    NoMemory,
}

impl From<Refusal> for Fault {
    ghost from_gives = { λ e r. r ≡ Refused e };

    fn from(reason: Refusal) -> Fault {
        Fault::Refused(reason)
    }
}

impl From<AllocError> for Fault {
    ghost from_gives = { λ _ r. r ≡ NoMemory };

    fn from(_e: AllocError) -> Fault {
        Fault::NoMemory
    }
}
