// The table of a frame: its rows, the check of its bytes, and the waits between its tasks.
#![tactic(auto)]

mod bits;
pub mod faults;
mod form;
pub mod lawful;
mod layout;
pub mod loading;
pub mod lookup;
mod questions;
pub mod rows;
