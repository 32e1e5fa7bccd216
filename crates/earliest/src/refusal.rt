use terms::InputCause;
use thiserror::Error;

/// Which part of a question is refused, and why.
#[derive(Clone, Copy, Debug, Error)]
pub enum Refusal {
    #[error("refused with {number}: {cause} (the service letter is C, D or F)", number = .0.number(), cause = .0)]
    Letter(InputCause),
    #[error("refused with {number}: {cause} (the opening date is YYDDD, as 16003)", number = .0.number(), cause = .0)]
    Date(InputCause),
    #[error("refused with {number}: {cause} (the opening day)", number = .0.number(), cause = .0)]
    Opening(InputCause),
}
