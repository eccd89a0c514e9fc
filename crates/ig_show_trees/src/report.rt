//! How far a text was read, and how that prints.

ghost use Rattle.std.specs.Prelude.{◌≡◌, ◌++◌, IfOk, OnOk, codes, flat_map, map, string_bytes};
ghost use Rattle.ig_show.specs.CanonicalText.{pattern_bytes};
ghost use Rattle.ig_show_trees.specs.ReportText.{AddsPlace, AreTextsOf, IsPlace, end_texts};
ghost use Rattle.ig_show_trees.specs.ReportText.{list_text, place_text};

use ig_show::push_pattern_text;
use ig_show_texts::push_number;
use ig_text::{Pattern, Patterns};
use std::alloc::{AllocError, Global};
use std::fmt;

/// How far items came in a text. Expected patterns may stand more than once, in any order.
#[derive(Drop)]
pub struct Report {
    /// The position, in characters from 0.
    pub position: u32,
    /// Its line, from 1.
    pub line: u32,
    /// Its column, from 1.
    pub column: u32,
    /// What is expected there.
    pub expected: Patterns,
    /// Whether the end of the text is expected there.
    pub end: bool,
}

impl fmt::Debug for Report {
    fn fmt<W: fmt::Write>(&self, f: &mut fmt::Formatter<W>) -> fmt::Result {
        write!(f, "line {}, column {}", self.line, self.column)
    }
}

/// The text of a report, as UTF-8: `line L, column C, expected LIST`. The list has the canonical
/// text of each expected pattern, sorted by bytes, each once, then `end of input` where the end is
/// expected, joined by `, `; an empty list is `nothing`. Refuses only for want of memory.
pub fn show_report(alloc: Global, report: &Report) -> Result<Vec<u8>, AllocError>
    ensures { IfOk result (λ bytes. IsPlace report.now bytes.items) }
{
    let mut out = String::new(alloc);
    push_place(alloc, &mut out, report)?;
    Ok(out.into_bytes())
}

/// Adds the text of a report.
pub(crate) fn push_place(alloc: Global, out: &mut String, report: &Report) -> Result<(), AllocError>
    ensures { OnOk result (AddsPlace report.now (string_bytes out.old) (string_bytes out.new)) }
{
    let texts = sorted_texts(alloc, report.expected.as_slice())?;
    push_texts(out, report, texts.as_slice())
}

/// Adds the text of a report whose patterns have these texts.
fn push_texts(out: &mut String, report: &Report, texts: &[String]) -> Result<(), AllocError>
    ensures { OnOk result (string_bytes out.new ≡ string_bytes out.old ++
        place_text report.now (map string_bytes texts.now)) }
{
    out.push_str("line ")?;
    push_number(out, report.line)?;
    out.push_str(", column ")?;
    push_number(out, report.column)?;
    out.push_str(", expected ")?;
    push_expected(out, texts, report.end)
}

/// The texts of the patterns, sorted by bytes, each once.
fn sorted_texts(alloc: Global, patterns: &[Pattern]) -> Result<Vec<String>, AllocError>
    ensures { IfOk result (λ texts. AreTextsOf patterns.now (map string_bytes texts.items)) }
{
    let mut texts = texts_of(alloc, patterns)?;
    texts.sort_unstable();
    texts.dedup();
    Ok(texts)
}

/// The texts of the patterns, in order.
fn texts_of(alloc: Global, patterns: &[Pattern]) -> Result<Vec<String>, AllocError>
    ensures { IfOk result (λ texts. map string_bytes texts.items ≡ map pattern_bytes patterns.now) }
{
    let mut texts = Vec::new(alloc);
    for pattern in patterns {
        texts.push(text_of(alloc, pattern)?)?;
    }
    Ok(texts)
}

/// The text of a pattern.
fn text_of(alloc: Global, pattern: &Pattern) -> Result<String, AllocError>
    ensures { IfOk result (λ text. string_bytes text ≡ pattern_bytes pattern.now) }
{
    let mut text = String::new(alloc);
    push_pattern_text(&mut text, pattern)?;
    Ok(text)
}

/// Adds the list of what is expected: these texts, and the end of the text where it is.
fn push_expected(out: &mut String, texts: &[String], end: bool) -> Result<(), AllocError>
    ensures { OnOk result (string_bytes out.new ≡ string_bytes out.old ++
        list_text (map string_bytes texts.now ++ end_texts end)) }
{
    let Some((first, others)) = texts.split_first() else {
        return push_end_alone(out, end);
    };
    out.push_str(first.as_str())?;
    push_behind(out, others)?;
    push_end_behind(out, end)
}

/// Adds the list of what is expected where no pattern is.
fn push_end_alone(out: &mut String, end: bool) -> Result<(), AllocError>
    ensures { OnOk result (string_bytes out.new ≡ string_bytes out.old ++
        list_text (end_texts end)) }
{
    if end {
        return out.push_str("end of input");
    }
    out.push_str("nothing")
}

/// Adds the end of the text behind `, `, where it is expected.
fn push_end_behind(out: &mut String, end: bool) -> Result<(), AllocError>
    ensures { OnOk result (string_bytes out.new ≡ string_bytes out.old ++
        flat_map (λ text. codes ", " ++ text) (end_texts end)) }
{
    if end {
        return out.push_str(", end of input");
    }
    Ok(())
}

/// Adds texts, each behind `, `.
fn push_behind(out: &mut String, texts: &[String]) -> Result<(), AllocError>
    ensures { OnOk result (string_bytes out.new ≡ string_bytes out.old ++
        flat_map (λ text. codes ", " ++ text) (map string_bytes texts.now)) }
{
    for text in texts {
        out.push_str(", ")?;
        out.push_str(text.as_str())?;
    }
    Ok(())
}
