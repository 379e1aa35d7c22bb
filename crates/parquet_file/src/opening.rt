// Opening a file.
ghost use Rattle.std.specs.Prelude.{◌≡◌, option_map, IfOk};
ghost use Rattle.parquet_pages.specs.Answers.{GivesBody};
ghost use Rattle.parquet_file.specs.File as spec;
ghost use Rattle.parquet_meta.specs.Meaning.{IsSound};

use crate::file::ParquetFile;
use byteorder::{ByteOrder, LittleEndian};
use parquet_meta::read_footer;
use parquet_pages::FileFault;
use std::alloc::Global;

/// What stands at the beginning and at the end of a file.
pub(crate) const MAGIC: &[u8] = b"PAR1";

// What stands before a footer of so many bytes, and the footer.
fn cut_footer(size: u32, front: &[u8]) -> Option<(&[u8], &[u8])>
    ensures { option_map (λ parts. (parts.0.now, parts.1.now)) result ≡ spec.cut_footer size front.now }
{
    let size = size as usize;
    if front.len() < 4 + size {
        return None;
    }
    Some(front.split_at(front.len() - size))
}

// What stands before the footer, and the footer.
fn file_parts(bytes: &[u8]) -> Option<(&[u8], &[u8])>
    ensures { option_map (λ parts. (parts.0.now, parts.1.now)) result ≡ spec.file_parts bytes.now }
{
    if bytes.len() < 12 || &bytes[..4] != MAGIC || &bytes[bytes.len() - 4..] != MAGIC {
        return None;
    }
    let (front, tail) = bytes.split_at(bytes.len() - 8);
    cut_footer(LittleEndian::read_u32(tail), front)
}

/// Opens a file: `PAR1`, pages, the footer, its length in four bytes (little endian), `PAR1` (the
/// Parquet format, "File format"). The bytes are lent. BadParquet comes exactly where the bytes have
/// another form or the footer is bad, by `parquet_meta::read_footer`.
#[tactic(auto, unfolding(crate::specs::File::opened))]
pub fn open_file(alloc: Global, bytes: &[u8]) -> Result<ParquetFile<'_>, FileFault>
    ensures file { GivesBody (λ file. file) (spec.opened bytes.now) result }
    ensures sound { IfOk result (λ file. IsSound file.footer) }
{
    let Some((pages, footer)) = file_parts(bytes) else {
        return Err(FileFault::BadParquet);
    };
    let footer = read_footer(alloc, footer)?;
    Ok(ParquetFile { pages, footer })
}
