// Tests of the library's crates on written-out examples.
#![tactic(auto)]

#[cfg(test)]
mod bytes;
#[cfg(test)]
mod frames;
#[cfg(test)]
mod lines;
#[cfg(test)]
mod loads;
#[cfg(test)]
mod replies;
#[cfg(test)]
mod rules;
#[cfg(test)]
mod vector_board;
