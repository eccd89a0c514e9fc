ghost use Rattle.std.specs.Prelude.{◌≡◌, ◌+◌, ◌<◌, ◌↔◌, IfOk, IsTrue};
ghost use Rattle.ig_text.specs.Ranges.{NoneFalls, Ascends, IsNormalFormOf};
ghost use Rattle.ig_text.specs.Ranges.{HasOneNormalForm, normal_form, NormalFormIsNormal};
ghost use Rattle.ig_text.specs.Ranges.{NormalRangesStay};
ghost use Rattle.ig_text.specs.declared.class.Class.TheVariants as class;
ghost use Rattle.ig_text.specs.Class.{is_in_class, IsClassOf};

use crate::copied::Copied;
use crate::ranges::Ranges;
use std::alloc::{AllocError, Global};

/// A set of characters.
#[derive(Drop)]
pub enum Class {
    /// The characters in some range, or with `negated` all others.
    Ranges { negated: bool, ranges: Ranges },
    /// The characters with which a Unicode identifier may begin.
    XidStart,
    /// The characters with which a Unicode identifier may go on.
    XidContinue,
    /// Every character.
    Any,
}

impl Class {
    /// The class of the characters in some pair, or with `negated` of all others. Its ranges are
    /// in normal form: sorted, and those joined that overlap or of which one begins at the number
    /// after the other's end. In no pair may the first character be greater than the last.
    pub fn ranges(alloc: Global, negated: bool, pairs: &[(char, char)]) -> Result<Class, AllocError>
        requires { NoneFalls pairs.now }
        ensures members { IfOk result (IsClassOf negated pairs.now) }
        ensures value { IfOk result (λ c. c ≡ class.Ranges negated (normal_form pairs.now)) }
    {
        let mut sorted = Vec::from_slice(alloc, pairs)?;
        sorted.sort_unstable();
        let pairs = joined(alloc, sorted.as_slice())?;
        let ranges = Ranges::from_vec(alloc, pairs)?;
        Ok(Class::Ranges { negated, ranges })
    }

    /// Whether the character is in the class. Takes no memory.
    pub fn has(&self, c: char) -> bool
        ensures { result ≡ is_in_class self.now c }
    {
        match self {
            Class::Ranges { negated, ranges } => ranges.has(c) != *negated,
            Class::XidStart => unicode_ident::is_xid_start(c),
            Class::XidContinue => unicode_ident::is_xid_continue(c),
            Class::Any => true,
        }
    }
}

/// The normal form of pairs whose first characters ascend.
fn joined(alloc: Global, pairs: &[(char, char)]) -> Result<Vec<(char, char)>, AllocError>
    requires { Ascends 0 pairs.now }
    ensures { IfOk result (λ ranges. IsNormalFormOf pairs.now ranges.items) }
{
    let mut ranges = Vec::new(alloc);
    let Some((first, rest)) = pairs.split_first() else {
        return Ok(ranges);
    };
    let mut open = *first;
    for pair in rest {
        if is_apart(open.1, pair.0) {
            ranges.push(open)?;
            open = *pair;
        } else if pair.1 > open.1 {
            open.1 = pair.1;
        }
    }
    ranges.push(open)?;
    Ok(ranges)
}

/// Whether some number lies between the end of one range and the begin of another one.
fn is_apart(end: char, begin: char) -> bool
    ensures { IsTrue result ↔ (end + 1 < begin) }
{
    end as u32 + 1 < begin as u32
}

impl Copied for Class {
    fn copy(&self, alloc: Global) -> Result<Class, AllocError> {
        match self {
            Class::Ranges { negated, ranges } => {
                let ranges = ranges.copy(alloc)?;
                Ok(Class::Ranges {
                    negated: *negated,
                    ranges,
                })
            }
            Class::XidStart => Ok(Class::XidStart),
            Class::XidContinue => Ok(Class::XidContinue),
            Class::Any => Ok(Class::Any),
        }
    }
}

/// Pairs have one normal form at most: this law, proved for all pairs, computes nothing.
pub fn normal_form_is_single()
    ensures { HasOneNormalForm }
{}

/// The normal form of pairs of which none falls is in normal form and has their characters: this
/// law, proved for all such pairs, computes nothing.
pub fn normal_form_is_normal()
    ensures { NormalFormIsNormal }
{}

/// Ranges in normal form are their own normal form: this law, proved for all of them, computes
/// nothing.
pub fn normal_ranges_stay()
    ensures { NormalRangesStay }
{}
