//! Tests of whole commands, from the arguments to the bytes of the output.
//!
//! They stand in a crate of their own above [`audit_top`], since a crate with tests is proved twice.
#![tactic(auto)]

#[cfg(test)]
mod tests;
