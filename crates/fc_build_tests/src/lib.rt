//! Tests of `fc_build`, which is proved once without them.
#![tactic(auto)]

#[cfg(test)]
mod tests;
