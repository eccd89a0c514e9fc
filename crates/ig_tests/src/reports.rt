//! What a report tells of the items of a core grammar that is made by hand.
use crate::letters::letter_core;
use ig_item::Core;
use ig_plain::saturate;
use ig_query::report;
use ig_show_trees::Report;
use ig_text::Text;
use std::alloc::Global;
use std::test::Fail;

/// The report of the items of the core grammar and the text.
fn report_of(alloc: Global, core: &Core, text: &Text) -> Result<Report, Fail> {
    let items = saturate(alloc, core, text, 10)?;
    let report = report(alloc, &items, core, text)?;
    Ok(report)
}

/// The report of the letter's core grammar and the text.
fn letter_report(alloc: Global, text: &[u8]) -> Result<Report, Fail> {
    let text = Text::decode(alloc, text)?;
    let core = letter_core(alloc)?;
    report_of(alloc, &core, &text)
}

#[test]
fn reports_what_is_expected(rt: HostRuntime) -> Result<(), Fail> {
    let report = letter_report(rt.alloc(), b"b")?;
    assert_eq!(rt; (report.position, report.line, report.column), (0, 1, 1));
    assert_eq!(rt; report.expected.len(), 1);
    assert!(rt; !report.end);
    Ok(())
}

#[test]
fn reports_the_end(rt: HostRuntime) -> Result<(), Fail> {
    let report = letter_report(rt.alloc(), b"a")?;
    assert_eq!(rt; (report.position, report.line, report.column), (1, 1, 2));
    assert!(rt; report.expected.is_empty() && report.end);
    Ok(())
}
