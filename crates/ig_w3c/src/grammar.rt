//! Grammars and their rules.

ghost use Rattle.std.specs.Prelude.{OnOk, IfOk, string_bytes, flat_map};
ghost use Rattle.ig_show.specs.Appending.{Appends};
ghost use Rattle.ig_show.specs.Writing.{IsText};
ghost use Rattle.ig_w3c_syntax.specs.Notation.{HasReading};
ghost use Rattle.ig_w3c.specs.Text.{level_text, rule_text, grammar_text};

use crate::symbols::push_alternatives;
use ig_grammar::{Decl, Grammar, Level};
use ig_show::push_text;
use std::alloc::{AllocError, Global};

/// The text of a grammar in the notation of the XML recommendation, as UTF-8: a line for each rule.
/// Reading it gives the grammar again. Refuses only for want of memory.
pub fn show_w3c(alloc: Global, grammar: &Grammar) -> Result<Vec<u8>, AllocError>
    requires { HasReading grammar.now }
    ensures { IfOk result (λ bytes. IsText bytes.items (grammar_text grammar.now)) }
{
    let mut out = String::new(alloc);
    push_rules(&mut out, grammar.decls.as_slice())?;
    Ok(out.into_bytes())
}

/// Adds a line for each rule.
fn push_rules(out: &mut String, rules: &[Decl]) -> Result<(), AllocError>
    ensures { OnOk result (Appends (string_bytes out.old) (string_bytes out.new) (flat_map rule_text
        rules.now)) }
{
    for rule in rules {
        push_rule(out, rule)?;
    }
    Ok(())
}

/// Adds a rule as a line.
fn push_rule(out: &mut String, rule: &Decl) -> Result<(), AllocError>
    ensures { OnOk result (Appends (string_bytes out.old) (string_bytes out.new) (rule_text
        rule.now)) }
{
    push_text(out, rule.name.as_str())?;
    push_text(out, " ::= ")?;
    push_levels(out, rule.levels.as_slice())?;
    push_text(out, "\n")
}

/// Adds the alternatives of levels; a rule has one.
fn push_levels(out: &mut String, levels: &[Level]) -> Result<(), AllocError>
    ensures { OnOk result (Appends (string_bytes out.old) (string_bytes out.new) (flat_map
        level_text levels.now)) }
{
    for level in levels {
        push_alternatives(out, &level.alts)?;
    }
    Ok(())
}
