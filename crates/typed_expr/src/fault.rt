// Why an expression has no type.
ghost use Rattle.std.specs.Prelude.{◌≡◌};

use std::alloc::AllocError;
use thiserror::Error;

/// Why an expression has no type.
#[derive(Debug, Drop, Error)]
pub enum TypeFault {
    /// A rule is broken: of all that are broken, the one at the least place, and there the least.
    ///
    /// 1 unknown name, 2 a name of two qualifiers without one, 3 types of operands, 4 a precision
    /// above 38, 5 a condition that isn't BOOLEAN, 6 an assignment that isn't allowed, 11 a cast that
    /// isn't allowed or a bad DECIMAL, 13 an unknown function or a wrong number of arguments, 14 a bad
    /// text of a DATE or TIMESTAMP. `at` is a byte of the script.
    #[error("rule {rule} at byte {at}")]
    Rule { rule: u8, at: u64 },
    /// There was no memory for the tree.
    #[error("out of memory")]
    Memory,
}

impl From<AllocError> for TypeFault {
    ghost use Rattle.typed_expr.specs.declared.fault.TypeFault.TheVariants.{Memory};

    ghost from_gives = { λ _ e. e ≡ Memory };

    fn from(_: AllocError) -> TypeFault {
        TypeFault::Memory
    }
}
