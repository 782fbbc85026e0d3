//! Access policies: rules that say which client may read or write which registers, and what they decide.
#![tactic(auto)]

mod candidates;
mod deciding;
pub mod examples;
mod judging;
pub mod laws;
mod limits;
mod matching;
mod names;
mod patterns;
mod permitting;
mod policy;
mod reading;
mod refusal;
mod rule_keys;
mod rules_by_id;
mod spelling;

pub use deciding::decide;
pub use ipb_base::{NoMemory, Text};
pub use limits::{MAX_INDEX, MAX_RULES};
pub use permitting::{permit, rule_scripts};
pub use policy::{Access, BoardPattern, Effect, ItemPattern, ItemPatterns, Pattern, Policy, Rule};
pub use reading::read_policy;
pub use refusal::PolicyRefusal;
pub use script_steps::Decision;
pub use spelling::rule_text;
