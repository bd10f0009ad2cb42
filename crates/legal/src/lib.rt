// What a slice's words and settings may be: each rule by itself, and a quick test that tells whether any is broken. Every function
// takes every number.
#![tactic(auto)]

mod quick;
mod rules;

pub use quick::breaks_nothing;
pub use rules::{Rule, breaks, off_list};
