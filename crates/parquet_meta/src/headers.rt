// What is kept of a page header.

/// A page header (parquet.thrift, `PageHeader`).
#[derive(Debug, Drop)]
pub struct PageHeader {
    /// `numbers::DATA_PAGE`, and the numbers of other types of pages.
    pub kind: i32,
    /// The uncompressed size of the page in bytes, its header not counted.
    pub unpacked: i32,
    /// The compressed size of the page in bytes, its header not counted.
    pub packed: i32,
    /// What is told of a data page.
    pub page: Option<PageV1>,
    /// What is told of a dictionary page.
    pub dictionary: Option<DictionaryPage>,
    /// What is told of a data page of the second version.
    pub page_v2: Option<PageV2>,
}

/// What is told of a data page (parquet.thrift, `DataPageHeader`).
#[derive(Clone, Copy, Debug)]
pub struct PageV1 {
    /// How many values it has, nulls counted.
    pub values: i32,
    /// The encoding of the values.
    pub encoding: i32,
    /// The encoding of the definition levels.
    pub definition: i32,
    /// The encoding of the repetition levels.
    pub repetition: i32,
}

/// What is told of a dictionary page (parquet.thrift, `DictionaryPageHeader`).
#[derive(Clone, Copy, Debug)]
pub struct DictionaryPage {
    /// How many values it has.
    pub values: i32,
    /// The encoding of the values.
    pub encoding: i32,
}

/// What is told of a data page of the second version (parquet.thrift, `DataPageHeaderV2`).
#[derive(Clone, Copy, Debug)]
pub struct PageV2 {
    /// How many values it has, nulls counted.
    pub values: i32,
    /// How many of them are null.
    pub nulls: i32,
    /// How many rows it has.
    pub rows: i32,
    /// The encoding of the values.
    pub encoding: i32,
    /// How many bytes the definition levels take.
    pub definition_bytes: i32,
    /// How many bytes the repetition levels take.
    pub repetition_bytes: i32,
}
