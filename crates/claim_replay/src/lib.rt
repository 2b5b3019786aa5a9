//! The world after a log of claims, computed straight by the definitions: components, keys and how components stand are made anew
//! for each event.
#![tactic(auto)]

pub mod known;
pub mod present;
pub mod replaying;
pub mod standing;
pub mod world;

pub use present::Present;
pub use replaying::{apply, first, replay};
pub use world::{Out, Slot, World};
