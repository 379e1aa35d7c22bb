//! A counter of steps, which takes no bytes and no time.
#![tactic(auto)]

mod steps;

pub use steps::Steps;
