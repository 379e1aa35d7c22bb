// What write statements leave.
ghost use Rattle.table_write.specs.Emptied.{DeleteEmpties, DeleteStands};
ghost use Rattle.table_write.specs.NewTable.{CreateMakes, CreateStands};

use delta_actions::good_forms;
use log_replay::laws::{forms_of_live, live_after_commit, removal_of_all};
use table_load::{first_version_keeps_states, next_version_keeps_states, opened_files_are_plain};
use table_log::{
    first_is_absent, next_is_absent, next_version_stands_alone, says_first, says_next,
};
use table_make::laws::{
    created_has_properties, created_mapping_is_good, created_may_be_used, created_reads_back,
    created_schema_is_read, sound_definitions_are_good,
};

/// A law: an accepted DELETE leaves one more version of its table, which holds the state of the one
/// before it without rows, and changes no other version of any table, where the files are told.
pub fn delete_empties()
    ensures { DeleteEmpties }
{
    next_version_stands_alone();
    says_next();
    live_after_commit();
    removal_of_all();
    forms_of_live();
    good_forms();
    opened_files_are_plain();
    next_version_keeps_states();
}

/// A law: a DELETE that isn't accepted leaves told files as they were, unless a put failed: then
/// they may hold its version whole. It never finds a name or its version taken.
pub fn delete_stands()
    ensures { DeleteStands }
{
    next_version_stands_alone();
    says_next();
    next_is_absent();
    live_after_commit();
    removal_of_all();
    forms_of_live();
    good_forms();
    opened_files_are_plain();
    next_version_keeps_states();
}

/// A law: an accepted CREATE TABLE leaves version 0 of its table, which holds the state of its definition
/// without rows, and changes no version of another table, where the files are told.
pub fn create_makes()
    ensures { CreateMakes }
{
    created_reads_back();
    created_may_be_used();
    created_schema_is_read();
    created_has_properties();
    created_mapping_is_good();
    sound_definitions_are_good();
    says_first();
    first_version_keeps_states();
}

/// A law: a CREATE TABLE that isn't accepted leaves told files as they were, unless a put failed: then
/// they may hold the new table whole. It never finds a name or its version taken.
pub fn create_stands()
    ensures { CreateStands }
{
    created_reads_back();
    created_may_be_used();
    created_schema_is_read();
    created_has_properties();
    created_mapping_is_good();
    sound_definitions_are_good();
    says_first();
    first_is_absent();
    first_version_keeps_states();
}
