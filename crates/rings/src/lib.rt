// One post at a time: where it stands, and its ring.
#![tactic(auto)]

pub mod border;
mod cell;
mod corner;
pub mod ring;
