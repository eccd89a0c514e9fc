//! The text of a grammar's facts.
ghost use Rattle.std.specs.Prelude.{◌≡◌, ◌++◌, OnOk, IfOk, string_bytes, slice_get};
ghost use Rattle.ig_show_texts.specs.FactsText.{declaration_text, facts_text};
ghost use Rattle.ig_show_texts.specs.FactsText.{found_text, word_text, words_text};

use crate::values::push_word;
use ig_analyse::{Fact, Facts};
use ig_grammar::{Decl, Decls};
use std::alloc::{AllocError, Global};

/// Adds the word, where it holds.
fn push_where(out: &mut String, holds: bool, word: &str) -> Result<(), AllocError>
    ensures { OnOk result (string_bytes out.new ≡ string_bytes out.old ++
        word_text holds word.now) }
{
    if !holds {
        return Ok(());
    }
    out.push_str(word)
}

/// Adds the words of what holds, each behind a space.
fn push_words(out: &mut String, fact: Fact) -> Result<(), AllocError>
    ensures { OnOk result (string_bytes out.new ≡ string_bytes out.old ++ words_text fact) }
{
    push_where(out, fact.nullable, " nullable")?;
    push_where(out, !fact.productive, " unproductive")?;
    push_where(out, !fact.reachable, " unreachable")?;
    push_where(out, fact.left_recursive, " left-recursive")?;
    push_where(out, fact.cyclic, " cyclic")
}

/// Adds the words of the fact of that number, and nothing where there is none.
fn push_found(out: &mut String, facts: &[Fact], number: usize) -> Result<(), AllocError>
    ensures { OnOk result (string_bytes out.new ≡ string_bytes out.old ++
        found_text (slice_get facts.now number)) }
{
    let Some(fact) = facts.get(number) else {
        return Ok(());
    };
    push_words(out, *fact)
}

/// Adds the line of the declaration of that number.
fn push_declaration(
    out: &mut String,
    number: usize,
    decl: &Decl,
    facts: &[Fact],
) -> Result<(), AllocError>
    ensures { OnOk result (string_bytes out.new ≡ string_bytes out.old ++
        declaration_text facts.now number decl.now) }
{
    push_word(out, &decl.name)?;
    push_found(out, facts, number)?;
    out.push_str("\n")
}

/// Adds the lines of the declarations, which are numbered from 1.
fn push_declarations(out: &mut String, decls: &[Decl], facts: &[Fact]) -> Result<(), AllocError>
    ensures { OnOk result (string_bytes out.new ≡ string_bytes out.old ++
        facts_text decls.now facts.now) }
{
    for (before, decl) in decls.iter().enumerate() {
        push_declaration(out, before + 1, decl, facts)?;
    }
    Ok(())
}

/// The text of the facts of a grammar's declarations, as UTF-8: a line for each one, with its name
/// and, each behind a space, those of `nullable`, `unproductive`, `unreachable`, `left-recursive`
/// and `cyclic` that hold of it. The facts are those of the nonterminals of its core grammar.
/// Refused for want of memory alone.
pub fn show_facts(alloc: Global, decls: &Decls, facts: &Facts) -> Result<Vec<u8>, AllocError>
    ensures { IfOk result (λ bytes. bytes.items ≡ facts_text decls.now facts.now) }
{
    let mut out = String::new(alloc);
    push_declarations(&mut out, decls.as_slice(), facts.as_slice())?;
    Ok(out.into_bytes())
}
