//! Reading expressions. Each function reads from the token of number `at`, and returns what it read
//! with the number of the first token behind it.

ghost use Rattle.std.specs.Prelude.{◌≡◌, ◌≤◌, [], ◌∷◌, ◌++◌, List, length, None, chars, IfOk};
ghost use Rattle.std.specs.Prelude.{IfErr, OnOk, MatchOption};
ghost use Rattle.ig_expr.specs.View.{expression_of};
ghost use Rattle.ig_expr.specs.Expression.{Expression};
ghost use Rattle.ig_notation_syntax.specs.Token as spec;
ghost use Rattle.ig_notation_syntax.specs.Spelling.{entry};
ghost use Rattle.ig_notation_syntax.specs.Rules.{IsOperator, ReadsExpression, ReadsTerm};
ghost use Rattle.ig_notation_syntax.specs.Rules.{ReadsArguments};
ghost use Rattle.ig_notation_syntax.specs.Machine as want;
ghost use Rattle.ig_notation_syntax.specs.Machine.{after_function, arguments_wants, close_bracket};
ghost use Rattle.ig_notation_syntax.specs.Reading.{Goes};
ghost use Rattle.ig_notation_terms.specs.Readers.{Stands, Misses, Finds, StopsAt, Closed};
ghost use Rattle.ig_notation_terms.specs.Readers.{IsNamed, named_wants, ReadsNamed, rows_of};
ghost use Rattle.ig_notation_terms.specs.declared.expressions.Named.TheVariants as named;

use crate::fault::RuleFault;
use crate::signs::{Sign, read_sign, stands_at};
use crate::tokens::Tokens;
use ig_expr::{Expr, Exprs, Function, Op, Operand};
use ig_notation_syntax::{Token, character_text, literal_text, number_of};
use ig_text::Word;
use std::alloc::Global;

/// What the name of a head says of an expression.
#[derive(Clone, Copy)]
pub(crate) enum Named {
    /// A function of one expression.
    One(Function),
    /// `same`, of two expressions.
    Same,
    /// `spells`, of an expression and a literal.
    Spells,
}

// The names of functions.
static FUNCTIONS: [(&str, Named); 8] = [
    ("begin", Named::One(Function::Begin)),
    ("end", Named::One(Function::End)),
    ("size", Named::One(Function::Size)),
    ("column", Named::One(Function::Column)),
    ("line", Named::One(Function::Line)),
    ("number", Named::One(Function::Number)),
    ("same", Named::Same),
    ("spells", Named::Spells),
];

/// Reads an expression.
#[cycle(expressions)]
fn read_expression(alloc: Global, tokens: &Tokens, at: usize) -> Result<(Expr, usize), RuleFault>
    ensures ok { IfOk result (λ r. Goes Expression ReadsExpression (want.expression ∷ []) []
        tokens.now at r.1 (expression_of r.0)) }
    ensures err { IfErr result (StopsAt (want.expression ∷ []) tokens.now at) }
{
    match tokens.ahead(at)? {
        Token::Not => {
            let (operand, end) = read_term(alloc, tokens, at + 1)?;
            Ok((Expr::Not(Operand::new(alloc, operand)?), end))
        }
        Token::Minus => {
            let (operand, end) = read_term(alloc, tokens, at + 1)?;
            Ok((Expr::Neg(Operand::new(alloc, operand)?), end))
        }
        _ => read_operation(alloc, tokens, at),
    }
}

/// Reads a term, and an operator and a term behind it where there is an operator.
#[cycle(expressions)]
fn read_operation(alloc: Global, tokens: &Tokens, at: usize) -> Result<(Expr, usize), RuleFault>
    ensures ok { IfOk result (λ r. Goes Expression ReadsExpression (want.term ∷ want.operator_rest ∷
        []) [] tokens.now at r.1 (expression_of r.0)) }
    ensures err { IfErr result (StopsAt (want.term ∷ want.operator_rest ∷ []) tokens.now at) }
{
    let (left, end) = read_term(alloc, tokens, at)?;
    let Some(operator) = operator_at(tokens, end) else {
        return Ok((left, end));
    };
    let left = Operand::new(alloc, left)?;
    let (right, end) = read_term(alloc, tokens, end + 1)?;
    let right = Operand::new(alloc, right)?;
    Ok((Expr::Binary(operator, left, right), end))
}

/// Reads a term.
#[cycle(expressions)]
fn read_term(alloc: Global, tokens: &Tokens, at: usize) -> Result<(Expr, usize), RuleFault>
    ensures ok { IfOk result (λ r. Goes Expression ReadsTerm (want.term ∷ []) [] tokens.now at r.1
        (expression_of r.0)) }
    ensures err { IfErr result (StopsAt (want.term ∷ []) tokens.now at) }
{
    match tokens.ahead(at)? {
        Token::Number(digits) => {
            tokens.numbers_fit();
            match number_of(digits) {
                Some(number) => Ok((Expr::Int(number), at + 1)),
                None => unreachable!(),
            }
        }
        Token::True => Ok((Expr::Bool(true), at + 1)),
        Token::False => Ok((Expr::Bool(false), at + 1)),
        Token::Here => Ok((Expr::Here, at + 1)),
        Token::Name(name) => Ok((Expr::Var(Word::new(alloc, name)?), at + 1)),
        Token::Open => read_closed(alloc, tokens, at + 1),
        Token::Head(name) => match function_named(name) {
            Some(function) => read_function(alloc, tokens, at + 1, function),
            None => Err(RuleFault::Unexpected { token: at }),
        },
        _ => Err(RuleFault::Unexpected { token: at }),
    }
}

/// Reads an expression and the `)` behind it, and gives it with the number of the token behind.
/// Refused as unexpected only where the machine of the rules stops whatever is wanted behind them,
/// at the token where it stops; for want of memory at any.
#[cycle(expressions)]
pub fn read_closed(alloc: Global, tokens: &Tokens, at: usize) -> Result<(Expr, usize), RuleFault>
    ensures ok { IfOk result (λ r. Goes Expression (Closed ReadsExpression) (want.expression ∷
        close_bracket ∷ []) [] tokens.now at r.1 (expression_of r.0)) }
    ensures err { IfErr result (StopsAt (want.expression ∷ close_bracket ∷ []) tokens.now at) }
{
    let (expression, end) = read_expression(alloc, tokens, at)?;
    match read_sign(tokens, end, Sign::Close) {
        Ok(end) => Ok((expression, end)),
        Err(fault) => {
            drop(expression);
            Err(fault)
        }
    }
}

/// Reads what stands in the brackets of a function.
#[cycle(expressions)]
fn read_function(
    alloc: Global,
    tokens: &Tokens,
    at: usize,
    function: Named,
) -> Result<(Expr, usize), RuleFault>
    ensures ok { IfOk result (λ r. Goes Expression (ReadsNamed function) (named_wants function) []
        tokens.now at r.1 (expression_of r.0)) }
    ensures err { IfErr result (StopsAt (named_wants function) tokens.now at) }
{
    match function {
        Named::One(function) => {
            let (operand, end) = read_closed(alloc, tokens, at)?;
            Ok((Expr::Of(function, Operand::new(alloc, operand)?), end))
        }
        Named::Same => read_same(alloc, tokens, at),
        Named::Spells => read_spells(alloc, tokens, at),
    }
}

/// Reads what stands in the brackets of `same`: two expressions.
#[cycle(expressions)]
fn read_same(alloc: Global, tokens: &Tokens, at: usize) -> Result<(Expr, usize), RuleFault>
    ensures ok { IfOk result (λ r. Goes Expression (ReadsNamed named.Same) (named_wants named.Same)
        [] tokens.now at r.1 (expression_of r.0)) }
    ensures err { IfErr result (StopsAt (named_wants named.Same) tokens.now at) }
{
    let (first, end) = read_expression(alloc, tokens, at)?;
    let first = Operand::new(alloc, first)?;
    let end = read_sign(tokens, end, Sign::Comma)?;
    let (second, end) = read_closed(alloc, tokens, end)?;
    let second = Operand::new(alloc, second)?;
    Ok((Expr::Same(first, second), end))
}

/// Reads what stands in the brackets of `spells`: an expression and a literal.
#[cycle(expressions)]
fn read_spells(alloc: Global, tokens: &Tokens, at: usize) -> Result<(Expr, usize), RuleFault>
    ensures ok { IfOk result (λ r. Goes Expression (ReadsNamed named.Spells) (named_wants
        named.Spells) [] tokens.now at r.1 (expression_of r.0)) }
    ensures err { IfErr result (StopsAt (named_wants named.Spells) tokens.now at) }
{
    let (operand, end) = read_expression(alloc, tokens, at)?;
    let operand = Operand::new(alloc, operand)?;
    let end = read_sign(tokens, end, Sign::Comma)?;
    let text = read_literal(alloc, tokens, end)?;
    let end = read_sign(tokens, end + 1, Sign::Close)?;
    Ok((Expr::Spells(operand, text), end))
}

/// The text of the literal that stands there, in front of the token of the next number.
fn read_literal(alloc: Global, tokens: &Tokens, at: usize) -> Result<Word, RuleFault>
    ensures ok { IfOk result (λ w. Stands tokens.now at (spec.Literal w)) }
    ensures err { IfErr result (StopsAt (want.literal ∷ []) tokens.now at) }
{
    match tokens.ahead(at)? {
        Token::Literal(inside) => Ok(literal_text(alloc, inside)?),
        Token::Exact(text) => Ok(Word::new(alloc, text)?),
        Token::Character(c) => Ok(character_text(alloc, c)?),
        _ => Err(RuleFault::Unexpected { token: at }),
    }
}

/// Reads arguments and the `)` behind them, and gives them with the number of the token behind.
/// Refused as unexpected only where the machine of the rules stops whatever is wanted behind them,
/// at the token where it stops; for want of memory at any.
pub fn read_arguments(
    alloc: Global,
    tokens: &Tokens,
    at: usize,
) -> Result<(Exprs, usize), RuleFault>
    requires { at ≤ length tokens.now }
    ensures ok { IfOk result (λ r. Goes (List Expression) (Closed ReadsArguments) (arguments_wants
        ++ close_bracket ∷ []) [] tokens.now at r.1 r.0) }
    ensures err { IfErr result (StopsAt (arguments_wants ++ close_bracket ∷ []) tokens.now at) }
{
    let mut arguments = Exprs::new(alloc);
    let mut end = at;
    loop {
        let (argument, next) = read_expression(alloc, tokens, end)?;
        add_argument(&mut arguments, argument)?;
        if !stands_at(tokens, next, Sign::Comma) {
            let end = read_sign(tokens, next, Sign::Close)?;
            return Ok((arguments, end));
        }
        end = next + 1;
    }
}

/// Adds an argument at the end.
fn add_argument(arguments: &mut Exprs, argument: Expr) -> Result<(), RuleFault>
    ensures ok { OnOk result (arguments.new ≡ arguments.old ++ expression_of argument ∷ []) }
    ensures err { IfErr result (λ e. e ≡ RuleFault.Memory) }
{
    arguments.push(argument)?;
    Ok(())
}

/// The operator that stands there; `None` exactly where none does.
fn operator_at(tokens: &Tokens, at: usize) -> Option<Op>
    ensures { MatchOption result (Misses want.operator_rest tokens.now at) (λ o. Finds (λ t.
        IsOperator t o) tokens.now at) }
{
    match tokens.get(at)? {
        Token::Plus => Some(Op::Add),
        Token::Minus => Some(Op::Sub),
        Token::Star => Some(Op::Mul),
        Token::Div => Some(Op::Div),
        Token::Mod => Some(Op::Mod),
        Token::Less => Some(Op::Less),
        Token::AtMost => Some(Op::LessEqual),
        Token::Greater => Some(Op::Greater),
        Token::AtLeast => Some(Op::GreaterEqual),
        Token::EqualTo => Some(Op::Equal),
        Token::NotEqualTo => Some(Op::NotEqual),
        Token::And => Some(Op::And),
        Token::Or => Some(Op::Or),
        _ => None,
    }
}

/// What a head of that name says of an expression; `None` exactly where it is no function.
fn function_named(name: &str) -> Option<Named>
    ensures { MatchOption result (after_function (chars name.now) ≡ None)
        (IsNamed (chars name.now)) }
{
    entry(&FUNCTIONS, name)
}

/// What the table has beside the word; `None` exactly where it hasn't the word.
fn entry(table: &[(&str, Named)], word: &str) -> Option<Named>
    ensures { result ≡ entry (rows_of table.now) word.now }
{
    for (key, named) in table {
        if *key == word {
            return Some(*named);
        }
    }
    None
}
