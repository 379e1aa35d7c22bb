// Tests of dm_types, dm_text, dm_store, dm_system and file_names.
mod folder;
mod names;
mod outside;
mod paths;
mod printing;
mod streams;
mod texts;
mod values;
