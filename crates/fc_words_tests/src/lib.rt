//! Tests of `fc_words`, which is proved once without them.
#![tactic(auto)]

#[cfg(test)]
mod tests;
