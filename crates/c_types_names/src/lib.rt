//! The names of a C program: what is declared, by its name and in the order of the text, which variables stand at a place, the
//! types of objects (variables, parameters, fields, results), and the codes of refusals, by the typing rules of `c_types_rules`.
#![tactic(auto)]

pub mod codes;
pub mod declared;
pub mod env;
pub mod first_refusal;
pub mod hiding;
pub mod kinds;
pub mod name_map;
pub mod name_set;
pub mod name_tables;
pub mod objects;
pub mod params;
pub mod struct_fields;
pub mod tables;
pub mod variables;
