// Why a text isn't read.
use std::alloc::AllocError;
use thiserror::Error;

/// Why a text isn't read as a value.
#[derive(Clone, Copy, Debug, PartialEq, Eq, Error)]
pub enum TextFault {
    /// The text isn't of the type's form.
    #[error("the text is no value of the type")]
    BadText,
    /// There was no memory.
    #[error("no memory for the value")]
    Memory,
}

impl From<AllocError> for TextFault {
    ghost use Rattle.std.specs.Prelude.{◌≡◌};
    ghost use Rattle.dm_text.specs.declared.fault.TextFault.TheVariants.{Memory};

    ghost from_gives = { λ _ e. e ≡ Memory };

    fn from(_: AllocError) -> TextFault {
        TextFault::Memory
    }
}
