//! Tests of `fc_type_names` and of `fc_type_trees`, which are proved once without them.
#![tactic(auto)]

#[cfg(test)]
mod tests;
