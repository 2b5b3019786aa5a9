//! Statements as code of the flow form: simple ones and declarations of locals, branches, loops, scopes and lists of statements, each
//! emitted as the piece that the definitions of `c_lower_rules` say.
#![tactic(auto)]

mod declaring;
mod heads;
pub mod laid;
mod loops;
mod simples;
mod stmt_parts;
pub mod stmts;
mod storing;
mod targets;
mod updating;
mod wanted_values;
