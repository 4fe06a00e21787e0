// Words, integers and units of time: what a run of letters, digits and underscores says.
#![tactic(auto)]

pub mod integer;
pub mod unit;
pub mod vocabulary;
