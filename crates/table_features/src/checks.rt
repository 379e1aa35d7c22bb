// Which protocols may be read, and which written.
ghost use Rattle.std.specs.Prelude.{◌≡◌};
ghost use Rattle.table_features.specs.Features.{CanRead, CanWrite, named_fault, read_fault, write_fault};

use crate::known::{ReaderFeatures, WriterFeatures, least_unknown};
use delta_actions::ProtocolAction;
use thiserror::Error;

/// Why a protocol can't be read or written.
#[derive(Clone, Copy, Debug, PartialEq, Eq, Error)]
pub enum FeatureFault {
    /// Its version is none that is known.
    #[error("the protocol's version isn't known")]
    Numbers,
    /// A reader must know a feature that isn't known.
    #[error("reader feature {index} isn't known")]
    Reader {
        /// The place of the least such name by bytes among the reader features, counted from 0.
        index: usize,
    },
    /// A writer must know a feature that isn't known.
    #[error("writer feature {index} isn't known")]
    Writer {
        /// The place of the least such name by bytes among the writer features, counted from 0.
        index: usize,
    },
}

/// Whether a table of this protocol may be read: its reader version is 1, 2 or 3, and at 3 each of
/// its reader features is known. It takes no memory.
pub fn check_read(protocol: &ProtocolAction) -> Result<(), FeatureFault>
    ensures answer { CanRead protocol.now result }
    ensures named { named_fault protocol.now result ≡ read_fault protocol.now }
{
    match protocol.min_reader_version {
        1 | 2 => Ok(()),
        3 => match least_unknown::<ReaderFeatures>(&protocol.reader_features) {
            Some(index) => Err(FeatureFault::Reader { index }),
            None => Ok(()),
        },
        _ => Err(FeatureFault::Numbers),
    }
}

/// Whether a table of this protocol may be written: its writer version is 1 to 7, and at 7 each of
/// its writer features is known. It takes no memory.
pub fn check_write(protocol: &ProtocolAction) -> Result<(), FeatureFault>
    ensures answer { CanWrite protocol.now result }
    ensures named { named_fault protocol.now result ≡ write_fault protocol.now }
{
    match protocol.min_writer_version {
        1..=6 => Ok(()),
        7 => match least_unknown::<WriterFeatures>(&protocol.writer_features) {
            Some(index) => Err(FeatureFault::Writer { index }),
            None => Ok(()),
        },
        _ => Err(FeatureFault::Numbers),
    }
}
