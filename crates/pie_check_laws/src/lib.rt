//! The last checks and the model of building: what the checks answer is the verdict of the model.
#![tactic(auto)]

mod laws;

pub use laws::{
    last_checks_are_the_models, paths_agree, records_tell_what_is_checked,
    the_first_refusal_is_the_verdict, the_least_is_found, values_meet_no_clash,
};
