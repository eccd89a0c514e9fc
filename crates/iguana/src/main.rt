//! The program Iguana: it checks a grammar, shows it, its core grammar or facts of its
//! declarations, prints the forest of a grammar and an input, lists the trees of that forest,
//! answers a question on it, checks a forest that somebody wrote down, says how large the forest of
//! a load is, or does the jobs of a list.
//!
//! `iguana forest GRAMMAR INPUT` reads the two files that it names. The forest goes to standard
//! output, a note on why there is none to standard error, and the exit status says which it was.
//! `--budget N` says how many items may be reachable. `iguana trees GRAMMAR INPUT` prints a line
//! for each tree: its cursor, a space and the tree. `iguana check GRAMMAR` prints `ok`, `iguana
//! show GRAMMAR` the canonical text, `iguana core GRAMMAR` the text of its core grammar, and
//! `iguana analyse GRAMMAR` a line of facts for each declaration. `iguana query GRAMMAR INPUT`
//! answers what `--what` asks: whether the trees are ambiguous or cyclic, the spans of a
//! declaration, or how far the input was read. `iguana load SIZE NUMBER` parses an input that it
//! makes itself, and prints how many items are reachable, how many nodes the forest has, and
//! whether it is ambiguous or cyclic. `iguana batch LIST` prints what `forest` gives for each line
//! of the list, which names a grammar and an input. `iguana verify GRAMMAR INPUT FOREST` prints
//! `verified` where the third file is the text of a forest that keeps to the rules of one of the
//! first two, so that each of its trees is permitted.
//!
//! What the program does with its words is the top call of `ig_tool`, over the files and streams of
//! the system as `ig_system` has them.
#![tactic(auto)]

use ig_system::{FileShelf, StreamSink, SystemFolder, exit_code, words};
use ig_tool::iguana;
use std::env;
use std::process::ExitCode;

fn main(rt: HostRuntime) -> ExitCode {
    let status = match words(rt.alloc(), env::args(&rt)) {
        Ok(words) => {
            let folder = SystemFolder { files: &rt };
            let mut shelf = FileShelf::new(&folder);
            let mut out = StreamSink::new(rt.stdout());
            let mut notes = StreamSink::new(rt.stderr());
            let words = words.as_slice();
            iguana(rt.alloc(), words, &mut shelf, &mut out, &mut notes)
        }
        Err(status) => status,
    };
    exit_code(status)
}
