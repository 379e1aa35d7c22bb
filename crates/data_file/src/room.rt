// What is left of the limits of a table version.
ghost use Rattle.std.specs.Prelude.{◌≡◌, ◌*◌};
ghost use Rattle.data_file.specs.Answers.{Gives};
ghost use Rattle.data_file.specs.Room.{less as less_of};

use crate::fault::PartFault;
use dm_types::Counted;

/// The greatest number of cells of a table version: rows times columns.
pub const MAX_CELLS: u64 = 20_000_000;

/// The greatest number of bytes that the texts and binary values of a table version have together,
/// with the printed values of its partition columns.
pub const MAX_TEXT: u64 = 536_870_912;

/// What is left of the two limits of a table version.
#[derive(Clone, Copy, Debug)]
pub struct Room {
    /// How many cells more there may be.
    pub cells: u64,
    /// How many bytes of text more there may be.
    pub text: u64,
}

impl Room {
    /// The room of a table version of which nothing is read yet.
    pub fn whole() -> Room
        ensures { result ≡ record { cells = MAX_CELLS; text = MAX_TEXT } }
    {
        Room {
            cells: MAX_CELLS,
            text: MAX_TEXT,
        }
    }
}

/// What is left where so many times so much is taken, or TooLarge. It takes no memory.
pub(crate) fn less(counted: Counted, size: u64, times: u64, left: u64) -> Result<u64, PartFault>
    ensures { Gives (λ left. left) (less_of counted (size * times) left) result }
{
    match size.checked_mul(times) {
        Some(taken) if taken <= left => Ok(left - taken),
        _ => Err(PartFault::TooLarge { counted }),
    }
}
