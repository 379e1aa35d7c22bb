// Laws of footers, page headers and schemas.
ghost use Rattle.std.specs.Prelude.{◌≡◌, ℕ, List, ◌++◌, length, Some, option_map};
ghost use Rattle.thrift_compact.specs.Grammar.{IsStruct};
ghost use Rattle.thrift_compact.specs.Places.{IsFront};
ghost use Rattle.thrift_compact.specs.declared.tree.Field.{Field as AField};
ghost use Rattle.parquet_meta.specs.declared.headers.PageHeader.{PageHeader as AHeader};
ghost use Rattle.parquet_meta.specs.declared.metadata.Footer.{Footer as AFooter};
ghost use Rattle.parquet_meta.specs.declared.metadata.LeafSchema.{LeafSchema as ALeaf};
ghost use Rattle.parquet_meta.specs.declared.elements.Element.{Element as AnElement};
ghost use Rattle.parquet_meta.specs.Headers.{header_of};
ghost use Rattle.parquet_meta.specs.Meaning.{footer_of, footer_in, page_header_in};
ghost use Rattle.parquet_meta.specs.Leaves.{schema_leaves};
ghost use Rattle.parquet_meta.specs.Trees.{IsSchema};

use thrift_compact::laws;

/// A law: bytes are a footer exactly where they are a struct of the Thrift compact protocol that says one.
pub fn footers_are_read()
    ensures found { (bytes : List ℕ) (footer : AFooter) → footer_in bytes ≡ Some footer
        → (tree : List AField) × IsStruct bytes tree × (footer_of tree ≡ Some footer) }
    ensures only { (bytes : List ℕ) (tree : List AField) → IsStruct bytes tree
        → footer_in bytes ≡ footer_of tree }
{
    laws::structs_are_read();
}

/// A law: a page header stands at the front of bytes exactly where a struct of the Thrift compact
/// protocol stands there that says one.
pub fn page_headers_are_read()
    ensures found { (bytes : List ℕ) (header : AHeader) (size : ℕ)
        → page_header_in bytes ≡ Some (header, size)
        → (tree : List AField) × IsFront bytes tree size × (header_of tree ≡ Some header) }
    ensures only { (front more : List ℕ) (tree : List AField) → IsStruct front tree
        → page_header_in (front ++ more) ≡ option_map (λ header. (header, length front)) (header_of tree) }
{
    laws::structs_are_read();
}

/// A law: the elements of a schema are a tree in preorder, and its leaves are those that are found.
pub fn schemas_are_trees()
    ensures only { (elements : List AnElement) (leaves : List ALeaf) → IsSchema elements leaves
        → schema_leaves elements ≡ Some leaves }
    ensures found { (elements : List AnElement) (leaves : List ALeaf)
        → schema_leaves elements ≡ Some leaves → IsSchema elements leaves }
{}
