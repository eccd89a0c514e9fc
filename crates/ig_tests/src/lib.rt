//! The tests of the libraries by themselves: calls that take memory, once each, with ample
//! memory.
//!
//! `letters` makes a core grammar by hand, whose items, forest and report are known. Each function
//! owns few values, since at each `?` all that is owned is dropped, and that is proved. What goes
//! from the text of a grammar to a forest is tried in `ig_tests_parse`.
//!
//! They stand in a crate of their own, since the program of a crate's tests is proved whole, with
//! all of that crate; over libraries, which are proved already, only the tests are. Worked rows on
//! the top call are no tests of a crate: they are texts in `rows/`, which `tools/rows` runs.
#![tactic(auto)]

#[cfg(test)]
mod entries;
#[cfg(test)]
mod expr;
#[cfg(test)]
mod forests;
#[cfg(test)]
mod grammar;
#[cfg(test)]
mod item;
#[cfg(test)]
mod letters;
#[cfg(test)]
mod loads;
#[cfg(test)]
mod notation;
#[cfg(test)]
mod outside;
#[cfg(test)]
mod refusals;
#[cfg(test)]
mod reports;
#[cfg(test)]
mod rewrite;
#[cfg(test)]
mod show;
#[cfg(test)]
mod text;
#[cfg(test)]
mod tokens;
#[cfg(test)]
mod w3c;
