//! What an old record is held against, in the words of the program and in those of the model.
#![tactic(auto)]

mod agreeing;

pub use agreeing::standing_observations_agree;
