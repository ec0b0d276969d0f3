// The vector board: notices between cores as bit vectors.
#![tactic(auto)]

pub mod notices;
mod opening;
mod phases;
mod slots;
pub mod state;
pub mod vector_board;
