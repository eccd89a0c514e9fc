//! Core grammars: what a grammar becomes before it is run.
ghost use Rattle.std.specs.Prelude.{◌≡◌, ◌≤◌, length, slice_get, option_map, IfOk};
ghost use Rattle.std.specs.Option.{option_copied};
ghost use Rattle.ig_item.specs.Behind.{behind_of, behind_at};
ghost use Rattle.ig_item.specs.Core.{alternative_at, steps_at, numbered};
ghost use Rattle.ig_item.specs.Core.{dots, dots_of_alternative, dots_of_nonterminal};
ghost use Rattle.ig_item.specs.Limits.{most_dots};
ghost use Rattle.ig_item.specs.Visible.{names_in};
ghost use Rattle.ig_item.specs.WellKinded.{IsWellKinded};

use crate::dot::{Behind, behind_dot};
use crate::step::Steps;
use crate::visible::VisibleNames;
use ig_expr::Kinds;
use ig_text::{Sequence, Tag, Word, Words};
use std::alloc::{AllocError, Global};
use std::marker::Model;

/// The most dots that a core grammar has.
pub const MOST_DOTS: u32 = 65_536;

/// A nonterminal of a core grammar: its parameters with their kinds, and its alternatives.
#[derive(Drop)]
pub struct Nonterminal {
    pub name: Word,
    pub params: Words,
    pub kinds: Kinds,
    pub alternatives: CoreAlts,
}

/// A list of nonterminals.
pub type Nonterminals = Sequence<Nonterminal>;

/// An alternative of a nonterminal: the tag of the trees that it gives, and its steps.
#[derive(Drop)]
pub struct CoreAlt {
    pub tag: Tag,
    pub steps: Steps,
}

/// A list of alternatives.
pub type CoreAlts = Sequence<CoreAlt>;

/// A core grammar, which is well kinded. Its nonterminals are numbered from 0, and nonterminal 0 is
/// the root; the alternatives of a nonterminal are numbered from 1.
#[derive(Drop)]
pub struct Core {
    nonterminals: Nonterminals,
}

impl Model for Core {
    ghost use Rattle.std.specs.Prelude.{List};
    ghost use Rattle.ig_item.specs.declared.core_grammar.Nonterminal.{Nonterminal};

    ghost Value = { List Nonterminal };

    ghost use Rattle.std.specs.Coded.{coded_list};
    ghost use Rattle.ig_item.specs.contracts.core_grammar.Nonterminal as nonterminal;

    ghost coded = { coded_list nonterminal.the_row.coded };

    ghost use Rattle.ig_item.specs.WellKinded.{IsWellKinded};

    ghost view = { λ c. c.nonterminals };

    ghost invariant = { λ c. IsWellKinded c.nonterminals };
}

impl Core {
    /// The core grammar of these nonterminals, which have to be well kinded: nonterminal 0 has no
    /// parameters and one alternative, without a `Bind` or a label; each nonterminal has as many
    /// kinds as parameters; the names that are visible at one dot differ, and so do the tags of one
    /// nonterminal; a tag `Rule` has the number of its nonterminal; each call is of a nonterminal
    /// that is there, with arguments of the number and kinds of its parameters; each expression has
    /// a kind, and a `Test` is a truth value; there are at most `MOST_DOTS` dots, and fewer than
    /// 4,294,967,296 nonterminals. Takes no memory.
    pub fn of(nonterminals: Nonterminals) -> Core
        requires { IsWellKinded nonterminals }
        ensures { result ≡ nonterminals }
    {
        Core { nonterminals }
    }

    /// The nonterminals, in the order of their numbers. Takes no memory.
    pub fn as_slice(&self) -> &[Nonterminal]
        ensures { result.now ≡ self.now }
    {
        self.nonterminals.as_slice()
    }

    /// The number of nonterminals. Takes no memory.
    pub fn nonterminals(&self) -> u32
        ensures number { result ≡ length self.now }
        ensures well_kinded { IsWellKinded self.now }
    {
        self.nonterminals.as_slice().len() as u32
    }

    /// A nonterminal by its number.
    fn nonterminal(&self, nt: u32) -> Option<&Nonterminal>
        ensures there { option_copied result ≡ slice_get self.now nt }
        ensures few { dots self.now ≤ most_dots }
    {
        self.nonterminals.as_slice().get(nt as usize)
    }

    /// The name of a nonterminal; `None` exactly where the number isn't there. Takes no memory.
    pub fn name(&self, nt: u32) -> Option<&Word>
        ensures { option_copied result ≡ option_map (λ n. n.name) (slice_get self.now nt) }
    {
        let nonterminal = self.nonterminal(nt)?;
        Some(&nonterminal.name)
    }

    /// The names of a nonterminal's parameters; `None` exactly where the number isn't there. Takes
    /// no memory.
    pub fn params(&self, nt: u32) -> Option<&Words>
        ensures { option_copied result ≡ option_map (λ n. n.params) (slice_get self.now nt) }
    {
        let nonterminal = self.nonterminal(nt)?;
        Some(&nonterminal.params)
    }

    /// The kinds of a nonterminal's parameters, in their order; `None` exactly where the number
    /// isn't there. Takes no memory.
    pub fn kinds(&self, nt: u32) -> Option<&Kinds>
        ensures { option_copied result ≡ option_map (λ n. n.kinds) (slice_get self.now nt) }
    {
        let nonterminal = self.nonterminal(nt)?;
        Some(&nonterminal.kinds)
    }

    /// The number of alternatives of a nonterminal; `None` exactly where its number isn't there.
    /// Takes no memory.
    pub fn alternatives(&self, nt: u32) -> Option<u32>
        ensures { result ≡ option_map (λ n. length n.alternatives) (slice_get self.now nt) }
    {
        let nonterminal = self.nonterminal(nt)?;
        Some(nonterminal.alternatives.as_slice().len() as u32)
    }

    /// The tag of an alternative; `None` exactly where the nonterminal's number, from 0, or the
    /// alternative's, from 1, isn't there. Takes no memory.
    pub fn tag(&self, nt: u32, alt: u32) -> Option<Tag>
        ensures { result ≡ option_map (λ a. a.tag) (alternative_at self.now nt alt) }
    {
        let nonterminal = self.nonterminal(nt)?;
        Some(alternative_of(nonterminal, alt)?.tag)
    }

    /// The steps of an alternative; `None` exactly where the nonterminal's number, from 0, or the
    /// alternative's, from 1, isn't there. Takes no memory.
    pub fn steps(&self, nt: u32, alt: u32) -> Option<&Steps>
        ensures { option_copied result ≡ steps_at self.now nt alt }
    {
        let nonterminal = self.nonterminal(nt)?;
        Some(&alternative_of(nonterminal, alt)?.steps)
    }

    /// What stands behind a dot, numbered from 0, of an alternative; `None` exactly where the
    /// nonterminal's number, from 0, the alternative's, from 1, or the dot isn't there. Takes no
    /// memory.
    pub fn behind(&self, nt: u32, alt: u32, dot: u32) -> Option<Behind<'_>>
        ensures { option_map behind_of result ≡ behind_at self.now nt alt dot }
    {
        let steps = self.steps(nt, alt)?;
        behind_dot(steps.as_slice(), dot)
    }

    /// The names that are visible at each dot of an alternative; `None` exactly where the
    /// nonterminal's number, from 0, or the alternative's, from 1, isn't there. It is refused for
    /// want of memory alone.
    pub fn names(
        &self,
        alloc: Global,
        nt: u32,
        alt: u32,
    ) -> Result<Option<VisibleNames>, AllocError>
        ensures { IfOk result (λ names. names ≡ names_in self.now nt alt) }
    {
        let Some(nonterminal) = self.nonterminal(nt) else {
            return Ok(None);
        };
        let Some(alternative) = alternative_of(nonterminal, alt) else {
            return Ok(None);
        };
        let names = VisibleNames::of(alloc, &nonterminal.params, &alternative.steps)?;
        Ok(Some(names))
    }

    /// The number of dots: an alternative of k steps has k + 1. It is at most `MOST_DOTS`. Takes no
    /// memory.
    pub fn dots(&self) -> u32
        ensures { result ≡ dots self.now }
    {
        let mut sum = 0;
        for nonterminal in self.nonterminals.as_slice() {
            sum += dots_of_nonterminal(nonterminal);
        }
        sum
    }
}

/// The alternative of that number, from 1.
fn alternative_of(nonterminal: &Nonterminal, alt: u32) -> Option<&CoreAlt>
    ensures { option_copied result ≡ numbered nonterminal.now.alternatives alt }
{
    let place = alt.checked_sub(1)?;
    nonterminal.alternatives.as_slice().get(place as usize)
}

/// The number of dots of a nonterminal's alternatives.
fn dots_of_nonterminal(nonterminal: &Nonterminal) -> u32
    requires { dots_of_nonterminal nonterminal.now ≤ most_dots }
    ensures { result ≡ dots_of_nonterminal nonterminal.now }
{
    let mut sum = 0;
    for alternative in nonterminal.alternatives.as_slice() {
        sum += dots_of_alternative(alternative);
    }
    sum
}

/// The number of an alternative's dots: one before each step, and one behind the last.
fn dots_of_alternative(alternative: &CoreAlt) -> u32
    requires { dots_of_alternative alternative.now ≤ most_dots }
    ensures { result ≡ dots_of_alternative alternative.now }
{
    alternative.steps.as_slice().len() as u32 + 1
}
