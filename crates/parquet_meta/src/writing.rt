// Writing a footer and a page header.
ghost use Rattle.std.specs.Prelude.{◌≡◌, ℕ, List, ◌++◌, length, OnOk, OnErr};
ghost use Rattle.thrift_compact.specs.Written.{struct as struct_bytes};
ghost use Rattle.parquet_meta.specs.Meaning.{footer_in, page_header_in};
ghost use Rattle.parquet_meta.specs.Writable.{IsWritableFooter};
ghost use Rattle.parquet_meta.specs.Written.{header_fields, footer_fields};

use crate::footer_trees::footer_tree;
use crate::headers::PageHeader;
use crate::metadata::Footer;
use crate::page_trees::header_tree;
use dm_types::Bytes;
use std::alloc::{AllocError, Global};
use thrift_compact::{laws, write_struct};

/// Appends a footer. After a fault `out` is as before.
///
/// The footer must be one that is written: at most 2^31 - 1 leaves, all of them at the top and none
/// both optional and repeated; physical types, lengths and units in their range; no logical type
/// that this project doesn't know; one chunk for each leaf and row group, of the leaf's type, in this
/// file and with encodings of 32 bits; row counts that aren't negative and add up.
pub fn write_footer(alloc: Global, footer: &Footer, out: &mut Bytes) -> Result<(), AllocError>
    requires { IsWritableFooter footer.now }
    // The bytes, those of the footer's fields by the Thrift compact protocol.
    ensures written { OnOk result (out.new ≡ out.old ++ struct_bytes (footer_fields footer.now)) }
    // They are read as this footer.
    ensures again { OnOk result (footer_in (struct_bytes (footer_fields footer.now))
        ≡ Some footer.now) }
    ensures memory { OnErr result (out.new ≡ out.old) }
{
    let tree = footer_tree(alloc, footer)?;
    laws::writable_values();
    let mut bytes = Vec::new(alloc);
    match write_struct(&tree, &mut bytes) {
        Ok(()) => Ok(out.extend_from_slice(&bytes)?),
        Err(none) => Err(none),
    }
}

/// Appends a page header. After a fault `out` is as before.
pub fn write_page_header(
    alloc: Global,
    header: &PageHeader,
    out: &mut Bytes,
) -> Result<(), AllocError>
    // The bytes, those of the header's fields by the Thrift compact protocol.
    ensures written { OnOk result (out.new
        ≡ out.old ++ struct_bytes (header_fields header.now)) }
    // They are read as this header, whatever follows.
    ensures again { OnOk result ((more : List ℕ)
        → page_header_in (struct_bytes (header_fields header.now) ++ more)
        ≡ Some (header.now, length (struct_bytes (header_fields header.now)))) }
    ensures memory { OnErr result (out.new ≡ out.old) }
{
    let tree = header_tree(alloc, header)?;
    laws::writable_values();
    let mut bytes = Vec::new(alloc);
    match write_struct(&tree, &mut bytes) {
        Ok(()) => Ok(out.extend_from_slice(&bytes)?),
        Err(none) => Err(none),
    }
}
