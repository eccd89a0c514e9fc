//! The input of a load.
ghost use Rattle.std.specs.Prelude.{◌≡◌, ◌≤◌, IfOk};
ghost use Rattle.ig_text.specs.Input.{untabbed};
ghost use Rattle.ig_load.specs.Operators.{letter, sign};
ghost use Rattle.ig_load.specs.Input.{LoadInput, drawn, next_state};
ghost use Rattle.ig_load.specs.Input.{operand_at, operator_at};

use ig_text::{Text, TextFault};
use std::alloc::{AllocError, Global};

/// The most operands that an input may have: more, with an operator between each two, are more
/// characters than a text may have.
pub const MOST_OPERANDS: u32 = 524_288;

/// A draw multiplies the state by this number, and adds the next one.
const MULTIPLIER: u64 = 6_364_136_223_846_793_005;

const INCREMENT: u64 = 1_442_695_040_888_963_407;

/// How many letters there are, and how many operators.
const LETTERS: u64 = 26;

const OPERATORS: u64 = 4;

/// The input of that many operands, from 1 to [`MOST_OPERANDS`]: letters from `a` to `z` with an
/// operator between each two. All are drawn one by one, from the number on. Refuses only for want
/// of memory.
pub fn load_input(alloc: Global, size: u32, number: u64) -> Result<Text, AllocError>
    requires { size ≤ MOST_OPERANDS }
    ensures { IfOk result (λ text. text ≡ untabbed (LoadInput size number)) }
{
    let bytes = bytes_of(alloc, size, number)?;
    match Text::decode(alloc, bytes.as_slice()) {
        Ok(text) => Ok(text),
        Err(TextFault::NotUtf8 { .. }) => unreachable!(),
        Err(TextFault::TooLong) => unreachable!(),
        Err(TextFault::Memory) => Err(AllocError),
    }
}

/// The characters of the input, which are bytes.
fn bytes_of(alloc: Global, size: u32, number: u64) -> Result<Vec<u8>, AllocError>
    ensures { IfOk result (λ bytes. bytes.items ≡ LoadInput size number) }
{
    let mut state = next_state(number);
    let mut bytes = Vec::new(alloc);
    bytes.push(operand(state))?;
    for _ in 1..size {
        state = next_state(state);
        bytes.push(operator(state))?;
        state = next_state(state);
        bytes.push(operand(state))?;
    }
    Ok(bytes)
}

/// The state behind a draw.
fn next_state(state: u64) -> u64
    ensures { result ≡ next_state state }
{
    state.wrapping_mul(MULTIPLIER).wrapping_add(INCREMENT)
}

/// The number that a draw gives, by the state behind it.
fn drawn(state: u64) -> u64
    ensures { result ≡ drawn state }
{
    state / (1 << 33)
}

/// The operand that a draw gives.
fn operand(state: u64) -> u8
    ensures { result ≡ letter (operand_at state) }
{
    b'a' + (drawn(state) % LETTERS) as u8
}

/// The operator that a draw gives.
fn operator(state: u64) -> u8
    ensures { result ≡ sign (operator_at state) }
{
    match drawn(state) % OPERATORS {
        0 => b'^',
        1 => b'*',
        2 => b'+',
        _ => b'-',
    }
}
