// Laws of the grammar and of reading.
ghost use Rattle.std.specs.Prelude.{◌≡◌, ℕ, ℤ, ◌+◌, ◌^◌, ◌<◌, List, ◌++◌, length, Bool, Ok, Err};
ghost use Rattle.thrift_compact.specs.Grammar.{IsStruct};
ghost use Rattle.thrift_compact.specs.Reading.{read};
ghost use Rattle.thrift_compact.specs.Places.{IsFront, IsPlace};
ghost use Rattle.std.specs.List.{AllByRecursion};
ghost use Rattle.thrift_compact.specs.Writable.{IsWholeOf, IsElement, AreElements, IsField, IsWritableValue, IsWritable};
ghost use Rattle.thrift_compact.specs.Written.{whole_kind, struct as struct_bytes};
ghost use Rattle.thrift_compact.specs.declared.kind.Kind.TheVariants as kind;
ghost use Rattle.thrift_compact.specs.declared.tree.Field.{Field as AField};
ghost use Rattle.thrift_compact.specs.declared.tree.Node.{Node as ANode};
ghost use Rattle.thrift_compact.specs.declared.tree.Node.TheVariants as node;

/// A law: reading as a function finds exactly the structs, and its fault is the first one.
pub fn structs_are_read()
    ensures found { (bytes : List ℕ) (tree : List AField) (size : ℕ)
        → read bytes ≡ Ok (tree, size) → IsFront bytes tree size }
    ensures only { (front more : List ℕ) (tree : List AField)
        → IsStruct front tree → read (front ++ more) ≡ Ok (tree, length front) }
    ensures place { (bytes : List ℕ) (at : ℕ) → read bytes ≡ Err at → IsPlace bytes at }
{}

/// A law: the bytes of a struct begin no other, and are those of one struct alone.
pub fn one_struct()
    ensures { (front other more rest : List ℕ) (tree also : List AField)
        → IsStruct front tree → IsStruct other also → front ++ more ≡ other ++ rest
        → (front ≡ other) × (tree ≡ also) }
{}

/// A law: bytes have one place at which no struct goes on.
pub fn one_place()
    ensures { (bytes : List ℕ) (at also : ℕ) → IsPlace bytes at → IsPlace bytes also → at ≡ also }
{}

/// A law: what is written for a writable tree is a struct of the protocol, and is read as that tree,
/// whatever follows. A struct of 2^64 bytes or more has no length, and no vector holds it.
pub fn written_is_read()
    ensures spelled { (tree : List AField) → IsWritable tree → length (struct_bytes tree) < 2 ^ 64
        → IsStruct (struct_bytes tree) tree }
    ensures again { (tree : List AField) (more : List ℕ) → IsWritable tree
        → length (struct_bytes tree) < 2 ^ 64
        → read (struct_bytes tree ++ more) ≡ Ok (tree, length (struct_bytes tree)) }
{}

/// A law: which values are writable, and which are elements of a list, one by one.
pub fn writable_values()
    ensures truth { (left : ℕ) (b : Bool) → IsWritableValue left 0 (node.Bool b) }
    ensures whole { (left width : ℕ) (z : ℤ) → IsWholeOf width z
        → IsWritableValue left width (node.Whole z) }
    ensures binary { (left : ℕ) (bytes : List ℕ) → IsWritableValue left 0 (node.Binary bytes) }
    ensures lists { (left width : ℕ) (nodes : List ANode)
        → AreElements (IsWritableValue left) width nodes
        → IsWritableValue (left + 1) width (node.List nodes) }
    ensures structs { (left : ℕ) (fields : List AField)
        → AllByRecursion (IsField (IsWritableValue left)) fields
        → IsWritableValue (left + 1) 0 (node.Struct fields) }
    ensures whole_element { (left width : ℕ) (z : ℤ) → IsWholeOf width z
        → IsElement (IsWritableValue left) width (whole_kind width) (node.Whole z) }
    ensures binary_element { (left : ℕ) (bytes : List ℕ)
        → IsElement (IsWritableValue left) 0 kind.Binary (node.Binary bytes) }
    ensures struct_element { (left : ℕ) (fields : List AField)
        → AllByRecursion (IsField (IsWritableValue left)) fields
        → IsElement (IsWritableValue (left + 1)) 0 kind.Struct (node.Struct fields) }
{}
