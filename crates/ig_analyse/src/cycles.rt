//! Which numbers lead back to themselves along edges, by one walk along all edges.
//!
//! The walk has a path of open numbers, each of which leads to all behind it. Groups part the path,
//! and the numbers of each lead to each other. The walk goes an edge of the last group that is
//! left: one to a new number makes this a group of its own, one to an open number joins all groups
//! behind where that stands. A group without an edge that is left is closed, since it leads to
//! closed numbers alone. This is Gabow's path-based search for strong components, without
//! recursion. Each number and each edge is looked at a few times.
ghost use Rattle.std.specs.Prelude.{◌≡◌, ◌<◌, ◌≤◌, ◌↔◌, ◌++◌, ◌∷◌, [], true, suc, length};
ghost use Rattle.std.specs.Prelude.{ℕ, List, Some, slice_get, Contains, IfOk, OnOk, MatchOption};
ghost use Rattle.ig_analyse.specs.Facts.{Onward};
ghost use Rattle.ig_analyse.specs.Groups.{AreOpen, Closes, Drops, EndsBy, Enters, FromTop, Goes};
ghost use Rattle.ig_analyse.specs.Groups.{IsTop, Rests, Walks, left_to_do, left_to_see};
ghost use Rattle.ig_analyse.specs.declared.cycles.Group.{Group};
ghost use Rattle.ig_analyse.specs.Search.{HasEdge, MarkOnCycle, StayInside};

use crate::walk::Row;
use std::alloc::{AllocError, Global};

/// How far the walk has come with a number.
#[derive(Clone, Copy)]
pub enum Seen {
    /// It has not met it.
    New,
    /// It stands at this place of the path.
    Open(usize),
    /// It has met all to which it leads.
    Closed,
}

/// A group of open numbers: where it begins in the path, and in the edges that are left.
#[derive(Clone, Copy)]
pub struct Group {
    pub first: usize,
    pub edges: usize,
}

/// A walk along edges.
#[derive(Drop)]
pub struct Walk {
    seen: Vec<Seen>,
    path: Vec<usize>,
    edges: Vec<u32>,
    groups: Vec<Group>,
    marks: Vec<bool>,
}

/// Marks the numbers from which edges lead back in one or more steps. Refused for want of memory.
pub fn on_cycles(alloc: Global, rows: &[Row]) -> Result<Vec<bool>, AllocError>
    requires { StayInside rows.now }
    ensures { IfOk result (λ marks. MarkOnCycle rows.now marks.items) }
{
    let mut walk = Walk::new(alloc, rows)?;
    for number in 0..rows.len() {
        walk.visit(rows, number)?;
    }
    Ok(walk.marks)
}

impl Walk {
    /// A walk that has met no number.
    fn new(alloc: Global, rows: &[Row]) -> Result<Walk, AllocError>
        ensures { IfOk result (λ walk. Rests rows.now walk 0) }
    {
        let seen = vec![in alloc; Seen::New; rows.len()]?;
        let marks = vec![in alloc; false; rows.len()]?;
        Ok(Walk {
            seen,
            path: Vec::new(alloc),
            edges: Vec::new(alloc),
            groups: Vec::new(alloc),
            marks,
        })
    }

    /// Meets the number, and all to which it leads.
    fn visit(&mut self, rows: &[Row], number: usize) -> Result<(), AllocError>
        requires inside { StayInside rows.now }
        requires number { number < length rows.now }
        requires rests { Rests rows.now self.old number }
        ensures { OnOk result (Rests rows.now self.new (suc number)) }
    {
        let Seen::New = self.seen[number] else {
            return Ok(());
        };
        self.enter(rows, number)?;
        self.finish(rows)
    }

    /// Goes on until all groups are closed.
    fn finish(&mut self, rows: &[Row]) -> Result<(), AllocError>
        requires inside { StayInside rows.now }
        requires walks { Walks rows.now self.old [] }
        ensures goes { OnOk result
            (Goes rows.now self.old self.new (left_to_do rows.now self.old)) }
        ensures closed { OnOk result (self.new.groups.items ≡ []) }
    {
        while let Some(group) = last_of(&self.groups) {
            self.go_on(rows, group)?;
        }
        Ok(())
    }

    /// Goes an edge of the last group, or closes that where none is left.
    fn go_on(&mut self, rows: &[Row], group: Group) -> Result<(), AllocError>
        requires inside { StayInside rows.now }
        requires walks { Walks rows.now self.old [] }
        requires last { IsTop self.old.groups.items group }
        ensures goes { OnOk result
            (Goes rows.now self.old self.new (left_to_do rows.now self.old)) }
        ensures less { OnOk result (left_to_do rows.now self.new < left_to_do rows.now self.old) }
    {
        let Some(target) = take_edge(&mut self.edges, group.edges) else {
            self.close(rows, group);
            return Ok(());
        };
        self.follow(rows, target as usize)
    }

    /// Goes an edge of the last group to this number.
    fn follow(&mut self, rows: &[Row], target: usize) -> Result<(), AllocError>
        requires inside { StayInside rows.now }
        requires target { target < length rows.now }
        requires walks { Walks rows.now self.old (target ∷ []) }
        requires from { FromTop rows.now self.old.path.items self.old.groups.items target }
        ensures { OnOk result (Goes rows.now self.old self.new (left_to_do rows.now self.old)) }
    {
        match self.seen[target] {
            Seen::New => self.enter(rows, target),
            Seen::Open(place) => {
                join(&mut self.groups, place);
                Ok(())
            }
            Seen::Closed => Ok(()),
        }
    }

    /// Makes the number a group of its own.
    fn enter(&mut self, rows: &[Row], number: usize) -> Result<(), AllocError>
        requires number { number < length rows.now }
        requires seen { number < length self.old.seen.items }
        ensures { OnOk result (Enters rows.now number self.old self.new) }
    {
        let own = Group {
            first: self.path.len(),
            edges: self.edges.len(),
        };
        self.groups.push(own)?;
        self.edges.extend_from_slice(rows[number].as_slice())?;
        self.seen[number] = Seen::Open(own.first);
        self.path.push(number)?;
        Ok(())
    }

    /// Closes the last group, of which no edge is left.
    fn close(&mut self, rows: &[Row], group: Group)
        requires walks { Walks rows.now self.old [] }
        requires last { IsTop self.old.groups.items group }
        requires spent { length self.old.edges.items ≤ group.edges }
        ensures goes { Goes rows.now self.old self.new (left_to_do rows.now self.old) }
        ensures less { left_to_do rows.now self.new < left_to_do rows.now self.old }
    {
        let mark = leads_back(rows, &self.path, group.first);
        shut(
            &self.path,
            group.first,
            mark,
            &mut self.seen,
            &mut self.marks,
        );
        self.path.truncate(group.first);
        drop_last(&mut self.groups);
    }
}

/// Takes the last edge, unless so many are all.
fn take_edge(edges: &mut Vec<u32>, least: usize) -> Option<u32>
    ensures none { MatchOption result (length edges.old.items ≤ least)
        (λ v. least < length edges.old.items) }
    ensures taken { MatchOption result (edges.new.items ≡ edges.old.items)
        (λ v. edges.old.items ≡ edges.new.items ++ v ∷ []) }
{
    if edges.len() <= least {
        return None;
    }
    edges.pop()
}

/// Takes the groups from the end that begin behind the place.
fn join(groups: &mut Vec<Group>, place: usize)
    ensures taken { Drops place groups.old.items groups.new.items }
    ensures rest { EndsBy place groups.new.items }
{
    while let Some(group) = last_of(groups) {
        if group.first <= place {
            return;
        }
        drop_last(groups);
    }
}

/// The last group.
fn last_of(groups: &[Group]) -> Option<Group>
    ensures { MatchOption result (groups.now ≡ []) (IsTop groups.now) }
{
    groups.last().copied()
}

/// Takes the last group.
fn drop_last(groups: &mut Vec<Group>)
    ensures { (before : List Group) (top : Group) → groups.old.items ≡ before ++ top ∷ [] →
        groups.new.items ≡ before }
{
    groups.pop();
}

/// Whether the numbers of the path from that place on, which lead to each other, lead back to
/// themselves: they are two or more, or the one has an edge to itself.
fn leads_back(rows: &[Row], path: &[usize], first: usize) -> bool
    requires first { first < length path.now }
    requires within { (q v : ℕ) → slice_get path.now q ≡ Some v → v < length rows.now }
    ensures one { length path.now ≤ suc first → (v : ℕ) → slice_get path.now first ≡ Some v →
        (result ≡ true) ↔ HasEdge rows.now v v }
    ensures more { suc first < length path.now → result ≡ true }
{
    if path.len() - first > 1 {
        return true;
    }
    let number = path[first];
    is_among(rows[number].as_slice(), number)
}

/// Whether the number is among these.
fn is_among(row: &[u32], number: usize) -> bool
    ensures { (result ≡ true) ↔ Contains row.now number }
{
    for other in row {
        if *other as usize == number {
            return true;
        }
    }
    false
}

/// Closes the numbers of the path from that place on, with this mark.
fn shut(path: &[usize], first: usize, mark: bool, seen: &mut Vec<Seen>, marks: &mut Vec<bool>)
    requires first { first ≤ length path.now }
    requires open { AreOpen path.now seen.old.items }
    requires long { length marks.old.items ≡ length seen.old.items }
    ensures closes { Closes path.now first (length path.now) mark seen.old.items marks.old.items
        seen.new.items marks.new.items }
    ensures left { (rows : List (List ℕ)) → left_to_see rows seen.new.items ≡
        left_to_see rows seen.old.items }
{
    for index in first..path.len() {
        let number = path[index];
        seen[number] = Seen::Closed;
        marks[number] = mark;
    }
}
