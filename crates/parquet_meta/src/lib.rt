//! The footer and the page headers of a Parquet file, both ways (parquet.thrift).
#![tactic(auto)]

mod building;
mod chunks;
mod elements;
mod fault;
mod footer_trees;
mod forms;
mod headers;
pub mod laws;
mod leaf_trees;
mod leaves;
mod logical_types;
mod metadata;
pub mod numbers;
mod page_trees;
mod pages;
mod reading;
mod shared;
mod writing;

pub use fault::MetaFault;
pub use headers::{DictionaryPage, PageHeader, PageV1, PageV2};
pub use metadata::{
    Annotation, ChunkList, ChunkMeta, Footer, GroupList, LeafList, LeafSchema, Logical, Names,
    RowGroup,
};
pub use reading::{read_footer, read_page_header};
pub use shared::SharedBytes;
pub use writing::{write_footer, write_page_header};
