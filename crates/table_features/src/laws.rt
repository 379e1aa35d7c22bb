// Tables of the features that a new table needs may be read and written.
ghost use Rattle.std.specs.Prelude.{◌≡◌, List, ℕ, [], ◌∷◌, ◌⊎◌, None, true, All, codes};
ghost use Rattle.std.specs.Cmp.Lexicographic.{slice_cmp};
ghost use Rattle.std.specs.List.Sorted.{IsStrictlySortedBy};
ghost use Rattle.std.specs.Ordering.{nat_cmp};
ghost use Rattle.delta_actions.specs.declared.action.ProtocolAction.{ProtocolAction as AProtocol};
ghost use Rattle.delta_schema.specs.declared.schema.ColumnDef.{ColumnDef as AColumn};
ghost use Rattle.table_features.specs.Features.{is_writer_feature, read_fault, write_fault};
ghost use Rattle.table_features.specs.Needed.{needed};

/// A law: each needed feature is one that a writer may be asked for.
pub fn needed_are_known()
    ensures { (schema : List AColumn) (configuration : List (List ℕ × List ℕ))
        → All (λ name. is_writer_feature name ≡ true) (needed schema configuration) }
{}

/// A law: needed features stand in byte order, each once.
pub fn needed_in_byte_order()
    ensures { (schema : List AColumn) (configuration : List (List ℕ × List ℕ))
        → IsStrictlySortedBy (slice_cmp nat_cmp) (needed schema configuration) }
{}

/// A law: a table of writer version 7 and the needed features may be written.
pub fn needed_may_be_written()
    ensures { (schema : List AColumn) (configuration : List (List ℕ × List ℕ)) (protocol : AProtocol)
        → protocol.min_writer_version ≡ 7 → protocol.writer_features ≡ needed schema configuration
        → write_fault protocol ≡ None }
{}

/// A law: a table of reader version 1, or of reader version 3 and the reader feature `columnMapping`, may
/// be read.
pub fn mapped_may_be_read()
    ensures { (protocol : AProtocol)
        → (protocol.min_reader_version ≡ 1) ⊎ ((protocol.min_reader_version ≡ 3)
        × (protocol.reader_features ≡ codes "columnMapping" ∷ []))
        → read_fault protocol ≡ None }
{}
