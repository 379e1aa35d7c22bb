// Chunks and files that are read, and those that are written.
mod chunks;
mod chunks_written;
mod columns;
mod faults;
mod files;
mod files_written;
mod large;
mod pages;
mod types;
mod wanted;
