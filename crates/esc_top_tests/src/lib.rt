//! Whole runs over memory.
#![tactic(auto)]

#[cfg(test)]
mod tests;
