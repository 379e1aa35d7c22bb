// Tests of public calls, a module for each crate.
mod columns;
mod meta;
mod plain;
mod runs;
mod thrift;
