//! What lowered C computes on the machine. Tests alone, which stand on the whole front end and on the machine.
#![tactic(auto)]

#[cfg(test)]
mod tests;
