//! How the names and the values of nodes and items print.

ghost use Rattle.std.specs.Prelude.{◌≡◌, ◌++◌, OnOk, encode_utf8_all, codes};
ghost use Rattle.std.specs.Prelude.{drop, length};
ghost use Rattle.std.specs.Fmt.{signed_decimal};
ghost use Rattle.ig_show_texts.specs.Listed.{comma_separated};
ghost use Rattle.ig_show_texts.specs.ValueText.{places_text, value_text, values_text};
ghost use Rattle.ig_show_texts.specs.ValueText.{environment_text};

use crate::piece::Piece;
use ig_expr::Value;
use ig_text::{Span, Word};
use itoa::Buffer;
use std::alloc::AllocError;

/// Adds the characters of a name, as UTF-8. Refuses only for want of memory.
pub fn push_name(out: &mut Vec<u8>, name: &Word) -> Result<(), AllocError>
    ensures { OnOk result (out.new.items ≡ out.old.items ++ encode_utf8_all name.now) }
{
    out.extend_from_slice(name.as_str().as_bytes())
}

/// Adds two positions, as those where a span begins and ends, in decimal with `..` between them.
/// Refuses only for want of memory.
pub fn push_places(out: &mut Vec<u8>, begin: u32, end: u32) -> Result<(), AllocError>
    ensures { OnOk result (out.new.items ≡ out.old.items ++ places_text begin end) }
{
    let mut piece = Piece::new();
    piece.put_places(begin, end);
    piece.push_to(out)
}

/// Adds an integer in decimal, with `-` where it is negative.
fn push_signed(out: &mut Vec<u8>, number: i64) -> Result<(), AllocError>
    ensures { OnOk result (out.new.items ≡ out.old.items ++ signed_decimal number) }
{
    let mut buffer = Buffer::new();
    out.extend_from_slice(buffer.format(number).as_bytes())
}

/// Adds a value.
fn push_value(out: &mut Vec<u8>, value: Value) -> Result<(), AllocError>
    ensures { OnOk result (out.new.items ≡ out.old.items ++ value_text value) }
{
    match value {
        Value::Int(number) => push_signed(out, number),
        Value::Bool(true) => out.extend_from_slice(b"true"),
        Value::Bool(false) => out.extend_from_slice(b"false"),
        Value::Span(Span { begin, end }) => push_places(out, begin, end),
    }
}

/// Adds values, with a comma between two.
fn push_listed(out: &mut Vec<u8>, values: &[Value]) -> Result<(), AllocError>
    ensures { OnOk result (out.new.items ≡ out.old.items ++
        comma_separated value_text values.now) }
{
    let Some((first, others)) = values.split_first() else {
        return Ok(());
    };
    push_value(out, *first)?;
    for other in others {
        out.push(b',')?;
        push_value(out, *other)?;
    }
    Ok(())
}

/// Adds the values of a node or an item, as UTF-8: in parentheses, with a comma between two, and
/// with a space on each side. Refuses only for want of memory.
pub fn push_values(out: &mut Vec<u8>, values: &[Value]) -> Result<(), AllocError>
    ensures { OnOk result (out.new.items ≡ out.old.items ++
        (codes " " ++ (values_text values.now ++ codes " "))) }
{
    if values.is_empty() {
        return out.extend_from_slice(b" () ");
    }
    out.extend_from_slice(b" (")?;
    push_listed(out, values)?;
    out.extend_from_slice(b") ")
}

/// What an environment holds behind the values of its instance.
fn behind<'e>(values: &[Value], environment: &'e [Value]) -> &'e [Value]
    ensures { result.now ≡ drop (length values.now) environment.now }
{
    if environment.len() < values.len() {
        return &[];
    }
    environment.split_at(values.len()).1
}

/// Adds values in brackets, with a space on each side.
fn push_bracketed(out: &mut Vec<u8>, values: &[Value]) -> Result<(), AllocError>
    ensures { OnOk result (out.new.items ≡ out.old.items ++
        (codes " [" ++ (comma_separated value_text values.now ++ codes "] "))) }
{
    if values.is_empty() {
        return out.extend_from_slice(b" [] ");
    }
    out.extend_from_slice(b" [")?;
    push_listed(out, values)?;
    out.extend_from_slice(b"] ")
}

/// Adds what an environment holds behind the values of its instance, with which it begins, as
/// UTF-8: in brackets, with a comma between two, and with a space on each side. Refuses only for
/// want of memory.
pub fn push_environment(
    out: &mut Vec<u8>,
    values: &[Value],
    environment: &[Value],
) -> Result<(), AllocError>
    ensures { OnOk result (out.new.items ≡ out.old.items ++
        (codes " " ++ (environment_text values.now environment.now ++ codes " "))) }
{
    push_bracketed(out, behind(values, environment))
}
