//! The tests of the top call, over a shelf and sinks in memory.
//!
//! `top_call` tries the commands, with a shelf and sinks that may fail, `worked` has worked rows of
//! each, `checks` tries those that tell facts of a grammar and check a forest, `notations` those on
//! texts of either notation, `batches` lists of jobs, and `hostile` what a hostile world brings.
//! Tests of parsers as a library stand in `ig_tests_parse`.
#![tactic(auto)]

#[cfg(test)]
mod batches;
#[cfg(test)]
mod checks;
#[cfg(test)]
mod hostile;
#[cfg(test)]
mod notations;
#[cfg(test)]
mod top_call;
#[cfg(test)]
mod worked;
