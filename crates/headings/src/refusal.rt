ghost use Rattle.std.specs.Prelude.{◌≡◌};
ghost use Rattle.headings.specs.declared.refusal.Refusal.TheVariants.{Input, State};
ghost use Rattle.headings.specs.Refusals.{refusal_cause};

use lines::Fault;
use terms::{Cause, StateCause};
use thiserror::Error;

/// Why a call is refused: a fault of what was handed in, with its place, or the state that the call found.
// Not one generic type with `Cause`: a fault carries its line and position, which an input cause has not, and a generic type
// over what is wrong with the input would be written out with it at each use.
#[derive(Clone, Copy, PartialEq, Eq, Debug, Error)]
pub enum Refusal {
    #[error(transparent)]
    Input(Fault),
    #[error("{number}: {cause}", number = .0.number(), cause = .0)]
    State(StateCause),
}

impl Refusal {
    /// The cause, by which people know the refusal.
    pub fn cause(self) -> Cause
        ensures { result ≡ refusal_cause self }
    {
        match self {
            Refusal::Input(fault) => Cause::Input(fault.fault.cause()),
            Refusal::State(cause) => Cause::State(cause),
        }
    }
}

impl From<Fault> for Refusal {
    ghost from_gives = { λ e r. r ≡ Input e };

    fn from(e: Fault) -> Refusal {
        Refusal::Input(e)
    }
}

impl From<StateCause> for Refusal {
    ghost from_gives = { λ e r. r ≡ State e };

    fn from(e: StateCause) -> Refusal {
        Refusal::State(e)
    }
}
