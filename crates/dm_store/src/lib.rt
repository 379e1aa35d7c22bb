//! The outside as traits: a store of files, a source, a sink, a clock and a source of names; and
//! objects in memory that stand for it.
#![tactic(auto)]

mod claim_store;
mod faults;
mod finds;
mod laws;
mod logged_path;
mod memory_clock;
mod memory_names;
mod memory_sink;
mod memory_source;
mod memory_store;
mod paths;
mod plan;
mod sure_names;
mod sure_sink;
mod sure_source;
mod sure_store;
mod taking;
mod texts;
mod traits;

pub use claim_store::ClaimStore;
pub use faults::{Failed, ListFault, PutFault, ReadFault, SinkFault};
pub use laws::lists_once;
pub use logged_path::{PathFault, decode_path};
pub use memory_clock::MemoryClock;
pub use memory_names::MemoryNames;
pub use memory_sink::MemorySink;
pub use memory_source::MemorySource;
pub use memory_store::MemoryStore;
pub use sure_names::SureNames;
pub use sure_sink::SureSink;
pub use sure_source::SureSource;
pub use sure_store::SureStore;
pub use taking::{TakeFault, take_all};
pub use traits::{Clock, NameSource, Sink, Source, Store};
