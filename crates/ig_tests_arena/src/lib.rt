//! The tests of values under ids and of lists that grow side by side.
#![tactic(auto)]

#[cfg(test)]
mod dropped;
#[cfg(test)]
mod lists;
#[cfg(test)]
mod values;
