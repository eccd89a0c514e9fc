//! Reading a whole text.
ghost use Rattle.std.specs.Prelude.{◌≡◌, ◌∷◌, ◌++◌, ◌<◌, ℕ, List, [], IfOk, IfErr, MatchOption};
ghost use Rattle.std.specs.Prelude.{◌↔◌, IsTrue, OnOk, codes, length, map};
ghost use Rattle.std.specs.Fmt.{decimal};
ghost use Rattle.ig_text.specs.Limits.{numbers_end};
ghost use Rattle.ig_forest_tables.specs.Forest.{Forest as forest_type};
ghost use Rattle.ig_forest_tables.specs.StoredNodes.{rows_in};
ghost use Rattle.ig_show_texts.specs.ForestText.{forest_text};
ghost use Rattle.ig_forest_reader.specs.Shown.{IsFirstRoot, IsRootRow, NoForest, NoRoot, Reads};
ghost use Rattle.ig_forest_reader.specs.Shown.{TablesRead};
ghost use Rattle.ig_forest_reader.specs.Written.{IsDraftOf, TellsNames};
ghost use Rattle.ig_forest_reader.specs.declared.fault.ForestFault.TheVariants.{NotAForest};

use crate::checks::is_forest;
use crate::fault::ForestFault;
use crate::fronts::{is_end, read_behind, read_last_number, read_number};
use crate::items::push_items;
use crate::names::index_names;
use crate::nodes::push_nodes;
use ig_forest_tables::{ForestTables, ItemTable, NodeRows};
use ig_item::{Core, EnvironmentTable, Nonterminal};
use ig_text::{Copied, Word, Words};
use ig_verify::Draft;
use std::alloc::{AllocError, Global};

/// The numbers of nodes and items.
fn read_heading(bytes: &[u8]) -> Option<(u32, u32, &[u8])>
    ensures small { MatchOption result (Unit {0})
        (λ r. (r.0 < numbers_end) × (r.1 < numbers_end)) }
    ensures exact { MatchOption result (Unit {0}) (λ r. bytes.now ≡
        codes "forest " ++ (decimal r.0 ++ (32 ∷ (decimal r.1 ++ (10 ∷ r.2.now))))) }
    ensures told { (m n : ℕ) (us : List ℕ) → m < numbers_end → n < numbers_end →
        bytes.now ≡ codes "forest " ++ (decimal m ++ (32 ∷ (decimal n ++ (10 ∷ us)))) →
        MatchOption result ⊥ (λ r. (r.0 ≡ m) × (r.1 ≡ n) × (r.2.now ≡ us)) }
{
    let Some(begun) = read_behind(bytes, b"forest ") else {
        return None;
    };
    let Some((nodes, behind)) = read_number(begun) else {
        return None;
    };
    let Some(second) = read_behind(behind, b" ") else {
        return None;
    };
    let Some((items, rest)) = read_last_number(second) else {
        return None;
    };
    Some((nodes, items, rest))
}

/// Whether the node of that number is of nonterminal 0.
fn is_root(nodes: &NodeRows, k: u32) -> bool
    ensures { IsTrue result ↔ IsRootRow (rows_in nodes.now) k }
{
    match nodes.row(k) {
        Some(row) => row.nonterminal == 0,
        None => false,
    }
}

/// The first node of nonterminal 0.
fn first_root(nodes: &NodeRows, many: u32) -> Option<u32>
    requires { many ≡ length nodes.now }
    ensures { MatchOption result (NoRoot (rows_in nodes.now)) (IsFirstRoot (rows_in nodes.now)) }
{
    for k in 0..many {
        if is_root(nodes, k) {
            return Some(k);
        }
    }
    None
}

/// The names of nonterminals.
fn copied_names(alloc: Global, nonterminals: &[Nonterminal]) -> Result<Words, AllocError>
    ensures { IfOk result (λ names. names ≡ map (λ n. n.name) nonterminals.now) }
{
    let mut names = Words::new(alloc);
    for nonterminal in nonterminals {
        push_name(&mut names, nonterminal.name.copy(alloc)?)?;
    }
    Ok(names)
}

/// Adds a name.
fn push_name(names: &mut Words, name: Word) -> Result<(), AllocError>
    ensures { OnOk result (names.new ≡ names.old ++ name ∷ []) }
{
    names.push(name).map_err(|(_, error)| error)
}

/// What is read, whether or not its parts fit one another.
fn read_tables(alloc: Global, bytes: &[u8], core: &Core) -> Result<ForestTables, ForestFault>
    requires { TellsNames core.now }
    ensures { Reads (TablesRead core.now bytes.now) (NoForest core.now bytes.now) result }
{
    let Some((many_nodes, many_items, begun)) = read_heading(bytes) else {
        return Err(ForestFault::NotAForest);
    };
    let _many = core.nonterminals();
    let index = index_names(alloc, core.as_slice())?;
    let mut lists = EnvironmentTable::new(alloc);
    let mut nodes = NodeRows::new(alloc);
    let behind = push_nodes(
        alloc, &mut lists, &mut nodes, &index, core, many_nodes, begun,
    )?;
    let mut items = ItemTable::with_capacity(alloc, 0, 0)?;
    let rest = push_items(alloc, &mut lists, &mut items, &index, many_items, behind)?;
    if !is_end(rest) {
        return Err(ForestFault::NotAForest);
    }
    let Some(root) = first_root(&nodes, many_nodes) else {
        return Err(ForestFault::NotAForest);
    };
    let names = copied_names(alloc, core.as_slice())?;
    Ok(ForestTables::of(root, names, lists, nodes, items))
}

/// The draft forest of which the bytes are the text, with the names and the tags of the core
/// grammar. Refused as `NotAForest` exactly where they are the text of none, or for want of memory.
pub fn read_forest(alloc: Global, bytes: &[u8], core: &Core) -> Result<Draft, ForestFault>
    requires { TellsNames core.now }
    ensures read { IfOk result (λ f. IsDraftOf core.now f × (bytes.now ≡ forest_text f)) }
    ensures refused { IfErr result (λ fault. fault ≡ NotAForest →
        (f : forest_type) → IsDraftOf core.now f → bytes.now ≡ forest_text f → ⊥) }
{
    let tables = read_tables(alloc, bytes, core)?;
    if !is_forest(&tables) {
        return Err(ForestFault::NotAForest);
    }
    Ok(Draft::of(tables))
}
