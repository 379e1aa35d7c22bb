// What is known of the first commit of a new table by its definition alone: the program that writes the
// table can read it and write to it.
ghost use Rattle.std.specs.Prelude.{◌≡◌, ◌≤◌, ℕ, ℤ, List, None, Ok, true, length};
ghost use Rattle.std.specs.List.{IsDistinct};
ghost use Rattle.std.specs.Map.{keys_of};
ghost use Rattle.std.specs.Str.{bytes_eq};
ghost use Rattle.column_mapping.specs.Mapping.{first_broken};
ghost use Rattle.column_mapping.specs.declared.mode.Mode.{Mode as AMode};
ghost use Rattle.delta_actions.specs.Writable.{AreWritable};
ghost use Rattle.delta_schema.specs.Columns.{schema_of};
ghost use Rattle.delta_schema.specs.declared.columns.TheConstants.{MAX_COLUMNS};
ghost use Rattle.sql_statements.specs.declared.CreateStmt.{CreateStmt as AStatement};
ghost use Rattle.table_features.specs.Features.{read_fault, write_fault};
ghost use Rattle.table_features.specs.Properties.{text_under};
ghost use Rattle.table_make.specs.Created.{actions_of, maps_columns, new_columns, new_configuration, new_metadata, new_protocol};
ghost use Rattle.table_make.specs.Good.{GoesWith, HasGoodColumns, HasGoodProperties, IsWritten, is_property};
ghost use Rattle.table_make.specs.NewProperties.{given};
ghost use Rattle.table_make.specs.Making.{sound};
ghost use Rattle.table_make.specs.NewColumns.{column_elements, partitions_of};

use delta_schema::laws::written_is_read;
use table_features::laws::{mapped_may_be_read, needed_may_be_written};

/// A law: the commit of each new table is read back as it was written.
pub fn created_reads_back()
    ensures { (stmt : AStatement) (id : List ℕ) (time : ℤ) → AreWritable (actions_of stmt id time) }
{}

/// A law: each new table may be read and written.
pub fn created_may_be_used()
    ensures read { (stmt : AStatement) (id : List ℕ) → read_fault (new_protocol stmt id) ≡ None }
    ensures write { (stmt : AStatement) (id : List ℕ) → write_fault (new_protocol stmt id) ≡ None }
{
    mapped_may_be_read();
    needed_may_be_written();
}

/// A law: the columns of a new table, of which there aren't too many, are told apart by their ids and by
/// their physical names where they are mapped.
pub fn created_mapping_is_good()
    ensures { (stmt : AStatement) (id : List ℕ) (mode : AMode)
        → length (column_elements stmt.elements) ≤ MAX_COLUMNS → GoesWith (maps_columns stmt) mode
        → first_broken mode (new_columns stmt id) ≡ None }
{}

/// A law: a table has the properties that its statement gives, where they differ in their names.
pub fn created_has_properties()
    ensures { (stmt : AStatement) (id name : List ℕ) → IsDistinct bytes_eq (keys_of (given stmt.properties))
        → is_property name ≡ true
        → text_under (new_configuration stmt id) name ≡ text_under (given stmt.properties) name }
{}

/// A law: the schema of a new table whose columns are good is read as its columns.
pub fn created_schema_is_read()
    ensures { (stmt : AStatement) (id : List ℕ) (time : ℤ) → HasGoodColumns stmt
        → schema_of (new_metadata stmt id time).schema_string
        (partitions_of (new_columns stmt id) stmt.partitions) ≡ Ok (new_columns stmt id) }
{
    written_is_read();
}

/// A law: a definition without faults has columns and properties that a table may have.
pub fn sound_definitions_are_good()
    ensures columns { (stmt : AStatement) → sound stmt ≡ Ok tt → IsWritten stmt → HasGoodColumns stmt }
    ensures properties { (stmt : AStatement) → sound stmt ≡ Ok tt → HasGoodProperties stmt }
{}
