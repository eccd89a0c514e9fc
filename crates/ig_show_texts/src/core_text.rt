//! The text of a core grammar.

ghost use Rattle.std.specs.Prelude.{◌≡◌, ◌++◌, OnOk, IfOk, Some, string_bytes, encode_utf8_all};
ghost use Rattle.std.specs.Prelude.{flat_map, map};
ghost use Rattle.std.specs.Fmt.{decimal};
ghost use Rattle.ig_expr.specs.View.{expression_of};
ghost use Rattle.ig_item.specs.View.{step_of};
ghost use Rattle.ig_show.specs.CanonicalText.{expression_bytes};
ghost use Rattle.ig_show_texts.specs.Listed.{comma_separated, numbered_texts};
ghost use Rattle.ig_show_texts.specs.CoreText.{label_text};
ghost use Rattle.ig_show_texts.specs.CoreText.{excluded_text, arguments_text, step_text};
ghost use Rattle.ig_show_texts.specs.CoreText.{steps_text};
ghost use Rattle.ig_show_texts.specs.CoreText.{alternative_text, nonterminal_line};
ghost use Rattle.ig_show_texts.specs.CoreText.{nonterminal_text};
ghost use Rattle.ig_show_texts.specs.CoreText.{core_text};

use crate::tags::push_tag;
use crate::values::{push_number, push_word};
use ig_expr::{Expr, Exprs};
use ig_item::{Core, CoreAlt, Nonterminal, Step};
use ig_show::{push_expression_text, push_pattern_text};
use ig_text::{Pattern, Word};
use itoa::Buffer;
use std::alloc::{AllocError, Global};

/// Adds a label and `: `, and nothing where there is none.
fn push_label(out: &mut String, label: &Option<Word>) -> Result<(), AllocError>
    ensures { OnOk result (string_bytes out.new ≡ string_bytes out.old ++ label_text label.now) }
{
    let Some(name) = label else {
        return Ok(());
    };
    push_word(out, name)?;
    out.push_str(": ")
}

/// Adds excluded patterns, each behind ` \ `.
fn push_excluded(out: &mut String, excluded: &[Pattern]) -> Result<(), AllocError>
    ensures { OnOk result (string_bytes out.new ≡ string_bytes out.old ++
        excluded_text excluded.now) }
{
    for pattern in excluded {
        out.push_str(" \\ ")?;
        push_pattern_text(out, pattern)?;
    }
    Ok(())
}

/// Adds expressions, with a comma between two.
fn push_formulas(out: &mut String, expressions: &[Expr]) -> Result<(), AllocError>
    ensures { OnOk result (string_bytes out.new ≡ string_bytes out.old ++
        comma_separated expression_bytes (map expression_of expressions.now)) }
{
    let Some((first, others)) = expressions.split_first() else {
        return Ok(());
    };
    push_expression_text(out, first)?;
    for other in others {
        out.push_str(",")?;
        push_expression_text(out, other)?;
    }
    Ok(())
}

/// Adds the arguments of a call, in parentheses.
fn push_arguments(out: &mut String, arguments: &Exprs) -> Result<(), AllocError>
    ensures { OnOk result (string_bytes out.new ≡ string_bytes out.old ++
        arguments_text arguments.now) }
{
    out.push_str("(")?;
    push_formulas(out, arguments.as_slice())?;
    out.push_str(")")
}

/// Adds a step.
fn push_step(out: &mut String, step: &Step) -> Result<(), AllocError>
    ensures { OnOk result (string_bytes out.new ≡ string_bytes out.old ++
        step_text (step_of step.now)) }
{
    match step {
        Step::Test(condition) => {
            out.push_str("test ")?;
            push_expression_text(out, condition)
        }
        Step::Bind(name, value) => {
            out.push_str("let ")?;
            push_word(out, name)?;
            out.push_str(" = ")?;
            push_expression_text(out, value)
        }
        Step::Term { what, label, not } => {
            push_label(out, label)?;
            push_pattern_text(out, what)?;
            push_excluded(out, not.as_slice())
        }
        Step::Call {
            nonterminal,
            args,
            label,
            not,
        } => {
            push_label(out, label)?;
            out.push_str("call ")?;
            push_number(out, *nonterminal)?;
            out.push_str(" ")?;
            push_arguments(out, args)?;
            push_excluded(out, not.as_slice())
        }
    }
}

/// Adds steps, each behind ` . `.
fn push_steps(out: &mut String, steps: &[Step]) -> Result<(), AllocError>
    ensures { OnOk result (string_bytes out.new ≡ string_bytes out.old ++
        steps_text (map step_of steps.now)) }
{
    for step in steps {
        out.push_str(" . ")?;
        push_step(out, step)?;
    }
    Ok(())
}

/// Adds the line of an alternative of a nonterminal of that name.
fn push_alternative(out: &mut String, name: &Word, alternative: &CoreAlt) -> Result<(), AllocError>
    ensures { OnOk result (string_bytes out.new ≡ string_bytes out.old ++
        alternative_text name.now alternative.now) }
{
    out.push_str("alt ")?;
    push_tag(out, name, alternative.tag)?;
    push_steps(out, alternative.steps.as_slice())?;
    out.push_str("\n")
}

/// Adds the lines of alternatives of a nonterminal of that name.
fn push_alternatives(
    out: &mut String,
    name: &Word,
    alternatives: &[CoreAlt],
) -> Result<(), AllocError>
    ensures { OnOk result (string_bytes out.new ≡ string_bytes out.old ++
        flat_map (alternative_text name.now) alternatives.now) }
{
    for alternative in alternatives {
        push_alternative(out, name, alternative)?;
    }
    Ok(())
}

/// Adds words, with a comma between two.
fn push_words(out: &mut String, words: &[Word]) -> Result<(), AllocError>
    ensures { OnOk result (string_bytes out.new ≡ string_bytes out.old ++
        comma_separated encode_utf8_all words.now) }
{
    let Some((first, others)) = words.split_first() else {
        return Ok(());
    };
    push_word(out, first)?;
    for other in others {
        out.push_str(",")?;
        push_word(out, other)?;
    }
    Ok(())
}

/// Adds the number of a nonterminal, in decimal.
#[inline(always)]
fn push_count(out: &mut String, count: usize) -> Result<(), AllocError>
    ensures { OnOk result (string_bytes out.new ≡ string_bytes out.old ++ decimal count) }
{
    let mut buffer = Buffer::new();
    out.push_str(buffer.format(count))
}

/// Adds the line of the nonterminal of that number.
fn push_nonterminal_line(
    out: &mut String,
    number: usize,
    nonterminal: &Nonterminal,
) -> Result<(), AllocError>
    ensures { OnOk result (string_bytes out.new ≡ string_bytes out.old ++
        nonterminal_line number nonterminal.now) }
{
    out.push_str("nt ")?;
    push_count(out, number)?;
    out.push_str(" ")?;
    push_word(out, &nonterminal.name)?;
    out.push_str(" (")?;
    push_words(out, nonterminal.params.as_slice())?;
    out.push_str(")\n")
}

/// Adds the nonterminal of that number, with its alternatives.
fn push_nonterminal(
    out: &mut String,
    number: usize,
    nonterminal: &Nonterminal,
) -> Result<(), AllocError>
    ensures { OnOk result (string_bytes out.new ≡ string_bytes out.old ++
        nonterminal_text number nonterminal.now) }
{
    push_nonterminal_line(out, number, nonterminal)?;
    push_alternatives(out, &nonterminal.name, nonterminal.alternatives.as_slice())
}

/// Adds nonterminals, which are numbered from 0.
fn push_nonterminals(out: &mut String, nonterminals: &[Nonterminal]) -> Result<(), AllocError>
    ensures { OnOk result (string_bytes out.new ≡ string_bytes out.old ++
        numbered_texts nonterminal_text 0 nonterminals.now) }
{
    for (number, nonterminal) in nonterminals.iter().enumerate() {
        push_nonterminal(out, number, nonterminal)?;
    }
    Ok(())
}

/// The text of a core grammar, as UTF-8: a line for each nonterminal, with its number, its name
/// and its parameters, and behind it a line for each of its alternatives, with its tag and its
/// steps. Refuses only for want of memory.
pub fn show_core(alloc: Global, core: &Core) -> Result<Vec<u8>, AllocError>
    ensures { IfOk result (λ bytes. bytes.items ≡ core_text core.now) }
{
    let mut out = String::new(alloc);
    push_nonterminals(&mut out, core.as_slice())?;
    Ok(out.into_bytes())
}
