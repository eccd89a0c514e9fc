//! The grammar of a load, and its parser.
ghost use Rattle.std.specs.Prelude.{◌≡◌, IfOk};
ghost use Rattle.ig_core.specs.Notation.{unchanged};
ghost use Rattle.ig_load.specs.Grammar.{LoadGrammar};

use crate::laws::load_text_reads;
use ig_core::{CoreFault, notation_is_buildable};
use ig_grammar::{Checked, Grammar};
use ig_notation::{
    ReadFault, one_reading, read, read_grammars_are_regular, texts_are_read_or_refused,
};
use ig_parse::Parser;
use ig_scope::{ScopeFault, check};
use std::alloc::{AllocError, Global};

/// The text of the grammar.
const TEXT: &str =
    "start E;\nsyntax E = [a-z] > E \"^\" E > left E \"*\" E > left E \"+\" E | E \"-\" E;\n";

/// The grammar of a load, checked. Its nonterminal is a letter from `a` to `z`, or two of it with
/// one of the operators `^`, `*`, `+` and `-` between them: `^` binds tightest, then `*`, then `+`
/// and `-`, and all but `^` group to the left. Refuses only for want of memory.
pub fn load_grammar(alloc: Global) -> Result<Checked, AllocError>
    ensures { IfOk result (λ grammar. grammar ≡ unchanged LoadGrammar) }
{
    load_text_reads();
    read_grammars_are_regular();
    let grammar = read_text(alloc)?;
    match check(alloc, grammar) {
        Ok(checked) => Ok(checked),
        Err(ScopeFault::Broken { .. }) => unreachable!(),
        Err(ScopeFault::Memory) => Err(AllocError),
    }
}

/// What the text reads as.
fn read_text(alloc: Global) -> Result<Grammar, AllocError>
    ensures { IfOk result (λ grammar. grammar ≡ LoadGrammar) }
{
    load_text_reads();
    one_reading();
    texts_are_read_or_refused();
    match read(alloc, TEXT) {
        Ok(grammar) => Ok(grammar),
        Err(ReadFault::Syntax { .. }) => unreachable!(),
        Err(ReadFault::TooLarge { .. }) => unreachable!(),
        Err(ReadFault::Memory) => Err(AllocError),
    }
}

/// The parser of the load's grammar. Refuses only for want of memory.
pub fn load_parser(alloc: Global, grammar: &Checked) -> Result<Parser<'_>, AllocError>
    requires { grammar.now ≡ unchanged LoadGrammar }
    ensures { IfOk result (λ parser. parser ≡ unchanged LoadGrammar) }
{
    load_text_reads();
    read_grammars_are_regular();
    notation_is_buildable();
    match Parser::of(alloc, grammar) {
        Ok(parser) => Ok(parser),
        Err(CoreFault::Memory) => Err(AllocError),
        Err(CoreFault::TooManyDots) => unreachable!(),
    }
}
