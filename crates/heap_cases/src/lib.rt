//! The calls of the heap and of its world on small cases: each public call once, and a second writer. They stand apart
//! from the crates that they test, which are so proved once.
#![tactic(auto)]

#[cfg(test)]
mod tests;
