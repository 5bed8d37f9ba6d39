//! Tests of `fc_files`, which is proved once without them.
#![tactic(auto)]

#[cfg(test)]
mod fakes;
#[cfg(test)]
mod host;
#[cfg(test)]
mod tests;
