// Next down and next up from a post: the steepest of the posts round it.
#![tactic(auto)]

pub mod step;
