// One post at a time: its pattern and its mark.
#![tactic(auto)]

pub mod mark;
pub mod pattern;
