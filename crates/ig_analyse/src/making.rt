//! Which numbers are made by rules, by a work list: each rule has a count of its callees that are
//! left, and each number a chain of the rules that call it. Each callee of each rule is counted down
//! once. This is the linear closure of Horn rules of Dowling and Gallier.
ghost use Rattle.std.specs.Prelude.{◌≡◌, ◌<◌, ◌+◌, [], ℕ, Some, length};
ghost use Rattle.std.specs.Prelude.{replicate, slice_get, take, Contains, IfOk, OnOk};
ghost use Rattle.ig_analyse.specs.Facts.{IsMade};
ghost use Rattle.ig_analyse.specs.Marks.{MarkExactly};
ghost use Rattle.ig_analyse.specs.Rules.{AreInside, AreUsers, Begins, IsWork, MarkDerived};
ghost use Rattle.ig_analyse.specs.Rules.{Marking, Uses, added_users, used_by};
ghost use Rattle.ig_analyse.specs.declared.rules.Rule.{Rule};

use crate::rules::{Rule, rules_of};
use ig_arena::{Chains, Id};
use ig_item::Core;
use std::alloc::{AllocError, Global};

/// The kind of the numbers that rules call.
struct Callees;

/// For each number the rules that call it, by their numbers, each as often as it does.
type Users = Chains<Callees, usize>;

/// How many callees of each rule are left; the marks of what is made, and what is made in the order
/// in which it was found.
#[derive(Drop)]
pub struct Work {
    left: Vec<usize>,
    marks: Vec<bool>,
    found: Vec<usize>,
}

/// Marks the nonterminals with an alternative that calls marked ones alone, and nothing besides.
/// Where it is bare, the alternative has no terminal. Refused for want of memory.
pub fn made(alloc: Global, core: &Core, bare: bool) -> Result<Vec<bool>, AllocError>
    ensures { IfOk result (λ marks. MarkExactly core.now (IsMade core.now bare) marks.items) }
{
    let count = core.nonterminals();
    let rules = rules_of(alloc, core, bare)?;
    let marks = derived(alloc, rules.as_slice(), count)?;
    Ok(marks)
}

/// Marks the numbers below the count that are made by the rules. Refused for want of memory.
fn derived(alloc: Global, rules: &[Rule], count: u32) -> Result<Vec<bool>, AllocError>
    requires { AreInside count rules.now }
    ensures { IfOk result (λ marks. MarkDerived count rules.now marks.items) }
{
    let callers = users_of(alloc, rules, count)?;
    let users = &callers;
    let mut work = Work::begin(alloc, rules, count as usize)?;
    for turn in 0..count as usize {
        let Some(number) = work.at(turn) else {
            return Ok(work.marks);
        };
        let number = number as u32;
        work.take(rules, users, turn, number)?;
    }
    Ok(work.marks)
}

/// The rules that call each number below the count. Refused for want of memory.
fn users_of(alloc: Global, rules: &[Rule], count: u32) -> Result<Users, AllocError>
    requires { AreInside count rules.now }
    ensures { IfOk result (λ users. AreUsers count rules.now users.lists) }
{
    let mut users = no_users(alloc, count)?;
    for (number, rule) in rules.iter().enumerate() {
        add_users(&mut users, rule.callees.as_slice(), number)?;
    }
    Ok(users)
}

/// No rule calls any number.
fn no_users(alloc: Global, count: u32) -> Result<Users, AllocError>
    ensures { IfOk result (λ users. users.lists ≡ replicate count []) }
{
    let mut users = Chains::new(alloc);
    for number in 0..count {
        users.add_head()?;
    }
    Ok(users)
}

/// The rule of that number calls these.
fn add_users(users: &mut Users, callees: &[u32], number: usize) -> Result<(), AllocError>
    requires { (m : ℕ) → Contains callees.now m → m < length users.old.lists }
    ensures { OnOk result (users.new.lists ≡ added_users number users.old.lists callees.now) }
{
    for callee in callees {
        if let Err((_, refused)) = users.add(Id::of(*callee), number) {
            return Err(refused);
        }
    }
    Ok(())
}

impl Work {
    /// The work of these rules before any is used: what has no callees is made.
    fn begin(alloc: Global, rules: &[Rule], count: usize) -> Result<Work, AllocError>
        requires { AreInside count rules.now }
        ensures { IfOk result (λ work. IsWork rules.now count (length rules.now) work (λ k. 0)) }
    {
        let marks = vec![in alloc; false; count]?;
        let mut work = Work {
            left: Vec::new(alloc),
            marks,
            found: Vec::new(alloc),
        };
        for rule in rules {
            work.begin_rule(rule)?;
        }
        Ok(work)
    }

    /// Counts the callees of one more rule, and makes its head where there are none.
    fn begin_rule(&mut self, rule: &Rule) -> Result<(), AllocError>
        requires { rule.now.head < length self.old.marks.items }
        ensures { OnOk result (Begins rule.now self.old self.new) }
    {
        self.left.push(rule.callees.len())?;
        if !rule.callees.is_empty() {
            return Ok(());
        }
        self.mark(rule.head)
    }

    /// What was found at that turn.
    fn at(&self, turn: usize) -> Option<usize>
        ensures { result ≡ slice_get self.now.found.items turn }
    {
        self.found.get(turn).copied()
    }

    /// Uses all rules that call the number which was found at that turn.
    fn take(
        &mut self,
        rules: &[Rule],
        users: &Users,
        turn: usize,
        number: u32,
    ) -> Result<(), AllocError>
        requires number { number < length users.now.lists }
        requires inside { AreInside (length users.now.lists) rules.now }
        requires users { AreUsers (length users.now.lists) rules.now users.now.lists }
        requires work { IsWork rules.now (length users.now.lists) (length rules.now) self.old
            (used_by users.now.lists (take turn self.old.found.items)) }
        requires here { slice_get self.old.found.items turn ≡ Some number }
        ensures { OnOk result
            (IsWork rules.now (length users.now.lists) (length rules.now) self.new
            (used_by users.now.lists (take (turn + 1) self.new.found.items))) }
    {
        for rule in users.walk(Id::of(number)) {
            self.use_rule(rules, *rule)?;
        }
        Ok(())
    }

    /// One callee of the rule less is left; where it was the last one, the head is made.
    fn use_rule(&mut self, rules: &[Rule], number: usize) -> Result<(), AllocError>
        requires number { number < length rules.now }
        requires left { number < length self.old.left.items }
        requires head { (rule : Rule) → slice_get rules.now number ≡ Some rule →
            rule.head < length self.old.marks.items }
        ensures { OnOk result (Uses rules.now number self.old self.new) }
    {
        let left = self.left[number].saturating_sub(1);
        self.left[number] = left;
        if left > 0 {
            return Ok(());
        }
        self.mark(rules[number].head)
    }

    /// Marks the number, and adds it to what was found, where it has no mark.
    fn mark(&mut self, number: usize) -> Result<(), AllocError>
        requires { number < length self.old.marks.items }
        ensures { OnOk result (Marking number self.old self.new) }
    {
        if self.marks[number] {
            return Ok(());
        }
        self.marks[number] = true;
        self.found.push(number)?;
        Ok(())
    }
}
