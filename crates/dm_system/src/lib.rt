//! The outside of the program: the files below the working folder, standard input and output, the
//! clock and the random bytes of a runtime, as the objects that a run is lent.
#![tactic(auto)]

mod clock;
mod folder;
mod input;
mod names;
mod output;

pub use clock::SystemClock;
pub use folder::Folder;
pub use input::ReaderSource;
pub use names::RandomNames;
pub use output::WriterSink;
