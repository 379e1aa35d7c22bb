// Why an expression has no value.
ghost use Rattle.std.specs.Prelude.{◌≡◌};
ghost use Rattle.vector_eval.specs.Outcomes.{number_of};

use std::alloc::AllocError;
use thiserror::Error;

/// Why an expression has no value on a row.
#[derive(Clone, Copy, Debug, PartialEq, Eq)]
pub enum ErrorKind {
    /// A number is out of the range of its type.
    Overflow,
    /// A division by 0.
    DivideByZero,
    /// A text, or bytes, that don't read as a value of the type.
    BadCast,
}

impl ErrorKind {
    /// The number of the kind: 1, 2 or 3. Of several the least one is told.
    pub fn number(self) -> u8
        ensures { result ≡ number_of self }
    {
        match self {
            ErrorKind::Overflow => 1,
            ErrorKind::DivideByZero => 2,
            ErrorKind::BadCast => 3,
        }
    }
}

/// Why a row's value isn't given.
#[derive(Clone, Copy, Debug, PartialEq, Eq, Error)]
pub enum EvalFault {
    /// The expression has no value on the row.
    #[error("the expression has no value on the row")]
    Kind(ErrorKind),
    /// There was no memory.
    #[error("no memory for the value")]
    Memory,
}

impl From<AllocError> for EvalFault {
    ghost use Rattle.std.specs.Prelude.{◌≡◌};
    ghost use Rattle.vector_eval.specs.declared.fault.EvalFault.TheVariants.{Memory};

    ghost from_gives = { λ _ e. e ≡ Memory };

    fn from(_: AllocError) -> EvalFault {
        EvalFault::Memory
    }
}

impl From<ErrorKind> for EvalFault {
    ghost use Rattle.std.specs.Prelude.{◌≡◌};
    ghost use Rattle.vector_eval.specs.declared.fault.EvalFault.TheVariants.{Kind};

    ghost from_gives = { λ kind e. e ≡ Kind kind };

    fn from(kind: ErrorKind) -> EvalFault {
        EvalFault::Kind(kind)
    }
}
