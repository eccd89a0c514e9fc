//! The tests of what goes from the text of a grammar to a forest, as a program would embed it.
//!
//! `parsing` parses, and tries parsers; its forests are walked and asked in `listings` and
//! `queries`. The passes, the crates of their parts included, run there inside a parser, once over
//! each form of symbol. `runs` goes by schedules of its own, and in `turns` two parses take turns.
//! Tests of libraries by themselves stand in `ig_tests`, those of commands in `ig_tests_command`.
#![tactic(auto)]

#[cfg(test)]
mod listings;
#[cfg(test)]
mod parsing;
#[cfg(test)]
mod queries;
#[cfg(test)]
mod runs;
#[cfg(test)]
mod turns;
