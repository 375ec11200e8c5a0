// The clauses (01, section 2, kinds 80 to 120): a function a kind, with fmt.rs's names, each proved to write its entry.
#![tactic(auto)]

pub mod column;
pub mod constraint;
pub mod create_table;
pub mod custom;
pub mod join;
pub mod select;
pub mod table;
pub mod types;
pub mod upsert;
