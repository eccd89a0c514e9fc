//! Parsing from the text of a grammar, as a program would embed it: the forest of a text, and the
//! parts of a parser.
ghost use Rattle.std.specs.Prelude.{◌≡◌, IfOk};
ghost use Rattle.ig_core.specs.Lowered.{IsBuildable};
ghost use Rattle.ig_core.specs.Notation.{unchanged};

use ig_analyse::analyse;
use ig_command_sources::read_grammars_are_buildable;
use ig_forest::Forest;
use ig_grammar::Checked;
use ig_notation::{read, read_grammars_are_regular};
use ig_parse::{ParseFault, Parser, parse};
use ig_query::is_ambiguous;
use ig_queue::Order;
use ig_scope::check;
use ig_show_texts::{show_core, show_facts, show_forest};
use ig_text::Text;
use std::alloc::Global;
use std::test::Fail;

/// The grammar of one letter.
pub(crate) const LETTER: &str = "start S; syntax S = \"a\";";

/// More items than any text of these tests has.
const BUDGET: u32 = 1_000_000;

/// The grammar of the text, which can be built since it was read, and which no pass has changed.
pub(crate) fn checked(alloc: Global, source: &str) -> Result<Checked, Fail>
    ensures buildable { IfOk result (λ checked. IsBuildable checked) }
    ensures as_it_is { IfOk result (λ checked. checked ≡ unchanged checked.grammar) }
{
    read_grammars_are_regular();
    read_grammars_are_buildable();
    let grammar = read(alloc, source)?;
    let checked = check(alloc, grammar)?;
    Ok(checked)
}

/// What the text parses as, under the grammar of that text.
fn parsed(
    alloc: Global,
    grammar: &str,
    text: &[u8],
    budget: u32,
) -> Result<Result<Forest, ParseFault>, Fail> {
    let text = Text::decode(alloc, text)?;
    let grammar = checked(alloc, grammar)?;
    let text = text.with_tabs(grammar.tab_width());
    Ok(parse(alloc, &grammar, &text, budget))
}

/// The forest of the text, under the grammar of that text.
pub(crate) fn forest_under(alloc: Global, grammar: &str, text: &[u8]) -> Result<Forest, Fail> {
    let forest = parsed(alloc, grammar, text, BUDGET)??;
    Ok(forest)
}

/// A grammar with each form of declarations and symbols, and with levels, so that each part of each
/// pass has something to do.
const FORMS: &str = "start P; layout W = [ ]* !>> [ ]; lexical Id = [a-z]+ !<< [a-z] !>> [a-z]; \
        syntax P = align (offside D)* ignore (\";\"?); syntax D = n: Id \"=\" E L? \
        when (size(n) > 0) let k = (size(n)) R(k); syntax E = V > left E \"+\" E > \"-\" E; \
        syntax V = Id \\ \"if\"; syntax L = \"[\" {V \",\"}* \"]\" | \
        (\"<\" {V \",\"}+ \">\" | \"(\" V+ \")\"); \
        syntax R(k: int) = when (k > 1) \"!\" | when (k <= 1) \".\";";

pub(crate) const LETTER_FOREST: &str =
    "forest 2 4\nnode 0 $root () 0..1\nalt $root 2\nnode 1 S () 0..1\nalt S.1 3\nitem 0 $root () \
        1 0 [] 0..0\nbegin\nitem 1 S () 1 0 [] 0..0\nbegin\nitem 2 $root () 1 1 [] 0..1\ntake 0 \
        node 1\nitem 3 S () 1 1 [] 0..1\ntake 1 leaf 0..1\n";

#[test]
fn parses(rt: HostRuntime) -> Result<(), Fail> {
    let alloc = rt.alloc();
    let forest = forest_under(alloc, LETTER, b"a")?;
    assert_eq!(rt; forest.nodes(), 2);
    assert_eq!(rt; forest.items(), 4);
    let shown = show_forest(alloc, forest.tables());
    drop(forest);
    assert_eq!(rt; shown?.as_slice(), LETTER_FOREST.as_bytes());
    Ok(())
}

#[test]
fn parses_with_each_form(rt: HostRuntime) -> Result<(), Fail> {
    let forest = forest_under(rt.alloc(), FORMS, b"a = b + - c [d, e] .;")?;
    assert!(rt; !is_ambiguous(&forest));
    Ok(())
}

#[test]
fn parses_with_the_width_of_tabs(rt: HostRuntime) -> Result<(), Fail> {
    let grammar = "start S; tabs 4; syntax S = \"\\t\" \"a\" when (column(here) == 6);";
    let forest = forest_under(rt.alloc(), grammar, b"\ta")?;
    assert_eq!(rt; forest.nodes(), 2);
    Ok(())
}

#[test]
fn parses_no_other_letter(rt: HostRuntime) -> Result<(), Fail> {
    match parsed(rt.alloc(), LETTER, b"b", BUDGET)? {
        Err(ParseFault::NoParse(report)) => {
            assert_eq!(rt; report.position, 0);
            assert!(rt; !report.end);
        }
        Err(_) => return Err(Fail::new("another fault")),
        Ok(_) => return Err(Fail::new("a forest")),
    }
    Ok(())
}

#[test]
fn parses_within_a_budget(rt: HostRuntime) -> Result<(), Fail> {
    let alloc = rt.alloc();
    assert!(rt; matches!(parsed(alloc, LETTER, b"a", 4)?, Ok(_)));
    assert!(rt; matches!(parsed(alloc, LETTER, b"a", 3)?, Err(ParseFault::Budget)));
    Ok(())
}

/// The text of the grammar's core grammar.
fn core_text(alloc: Global, grammar: &Checked) -> Result<Vec<u8>, Fail>
    requires { IsBuildable grammar.now }
{
    let parser = Parser::of(alloc, grammar)?;
    let shown = show_core(alloc, parser.core())?;
    Ok(shown)
}

/// The text of the core grammar of the grammar of that text.
fn core_text_under(alloc: Global, grammar: &str) -> Result<Vec<u8>, Fail> {
    let grammar = checked(alloc, grammar)?;
    core_text(alloc, &grammar)
}

const LIST_CORE: &str =
    "nt 0 $root ()\nalt $root . call 1 ()\nnt 1 S ()\nalt S.1 . call 2 ()\nnt 2 S#1 ()\nalt \
        $nil\nalt $snoc . call 2 () . \"a\"\n";

#[test]
fn lowers_a_list(rt: HostRuntime) -> Result<(), Fail> {
    let shown = core_text_under(rt.alloc(), "start S; syntax S = \"a\"*;")?;
    assert_eq!(rt; shown.as_slice(), LIST_CORE.as_bytes());
    Ok(())
}

/// The text of the grammar's facts.
fn facts_text(alloc: Global, grammar: &Checked) -> Result<Vec<u8>, Fail>
    requires { IsBuildable grammar.now }
{
    let parser = Parser::of(alloc, grammar)?;
    let facts = analyse(alloc, parser.core())?;
    let shown = show_facts(alloc, &grammar.grammar().decls, &facts)?;
    Ok(shown)
}

/// The text of the facts of the grammar of that text.
fn facts_text_under(alloc: Global, grammar: &str) -> Result<Vec<u8>, Fail> {
    let grammar = checked(alloc, grammar)?;
    facts_text(alloc, &grammar)
}

const SOME_FACTS: &str = "start S; syntax S = B S \"x\" | \"y\" A*; syntax B = ; \
        syntax A = A B | \"a\"; syntax T = T \"b\";";

const SOME_FACTS_TEXT: &str =
    "S left-recursive\nB nullable\nA left-recursive cyclic\nT unproductive unreachable \
        left-recursive\n";

#[test]
fn tells_facts(rt: HostRuntime) -> Result<(), Fail> {
    let shown = facts_text_under(rt.alloc(), SOME_FACTS)?;
    assert_eq!(rt; shown.as_slice(), SOME_FACTS_TEXT.as_bytes());
    Ok(())
}

/// The numbers of items and of nodes, which the parser finds of the text one by one.
fn counts_of(alloc: Global, parser: &Parser<'_>, text: &Text) -> Result<(u32, u32), Fail> {
    let recorded = parser.run(alloc, text, BUDGET, Order::Fifo)?;
    let nodes = match parser.forest(alloc, &recorded)? {
        Some(forest) => forest.nodes(),
        None => 0,
    };
    Ok((recorded.items().len(), nodes))
}

/// How far the parser's items come in the text.
fn position_of(alloc: Global, parser: &Parser<'_>, text: &Text) -> Result<u32, Fail> {
    let recorded = parser.run(alloc, text, BUDGET, Order::Fifo)?;
    let report = parser.report(alloc, recorded.items(), text)?;
    Ok(report.position)
}

/// These numbers, of a grammar and a text.
fn numbers_under(alloc: Global, grammar: &Checked, text: &Text) -> Result<(u32, u32, u32), Fail>
    requires { IsBuildable grammar.now }
{
    let parser = Parser::of(alloc, grammar)?;
    let (items, nodes) = counts_of(alloc, &parser, text)?;
    Ok((items, nodes, position_of(alloc, &parser, text)?))
}

/// The numbers of items and of nodes and the furthest position, of the letter's grammar.
fn numbers_of(alloc: Global, text: &[u8]) -> Result<(u32, u32, u32), Fail> {
    let text = Text::decode(alloc, text)?;
    let grammar = checked(alloc, LETTER)?;
    numbers_under(alloc, &grammar, &text)
}

#[test]
fn keeps_a_parser(rt: HostRuntime) -> Result<(), Fail> {
    let alloc = rt.alloc();
    assert_eq!(rt; numbers_of(alloc, b"a")?, (4, 2, 1));
    assert_eq!(rt; numbers_of(alloc, b"b")?, (2, 0, 0));
    Ok(())
}
