//! Whether a draft is sound.
ghost use Rattle.std.specs.Prelude.{◌≡◌, IfOk, MatchOption, None, ℕ};
ghost use Rattle.ig_text.specs.Tree.{Tree};
ghost use Rattle.ig_item.specs.CoreTrees.{CoreTree};
ghost use Rattle.ig_forest_tables.specs.Unfold.{Unfolds};
ghost use Rattle.ig_verify.specs.Flaws.{IsFirstFlaw};
ghost use Rattle.ig_verify.specs.Sound.{IsSound};

use crate::draft::Draft;
use crate::entries::Setting;
use crate::flaw::Flaw;
use crate::items::item_flaw;
use crate::kind_table::kinds_of_core;
use crate::laws::sound_forests_unfold_to_core_trees;
use crate::nodes::node_flaw;
use ig_item::Core;
use ig_run_tables::dots_of_core;
use ig_text::Text;
use std::alloc::{AllocError, Global};

/// The first rule that the draft breaks; `None` exactly where all five hold, and then each tree to
/// which it unfolds is a tree of the core grammar for the text. Refused for want of memory alone.
pub fn verify(
    alloc: Global,
    draft: &Draft,
    core: &Core,
    text: &Text,
) -> Result<Option<Flaw>, AllocError>
    ensures flaw { IfOk result (λ flaw. MatchOption flaw
        (IsSound core.now text.now draft.now) (IsFirstFlaw core.now text.now draft.now)) }
    ensures trees { IfOk result (λ flaw. flaw ≡ None → (d : ℕ) (t : Tree) →
        Unfolds draft.now d t → CoreTree core.now text.now t) }
{
    sound_forests_unfold_to_core_trees();
    let _root = draft.root();
    first_flaw(alloc, draft, core, text)
}

/// The first rule that the draft breaks, if any.
fn first_flaw(
    alloc: Global,
    draft: &Draft,
    core: &Core,
    text: &Text,
) -> Result<Option<Flaw>, AllocError>
    ensures { IfOk result (λ flaw. MatchOption flaw
        (IsSound core.now text.now draft.now) (IsFirstFlaw core.now text.now draft.now)) }
{
    if let Some(flaw) = node_flaw(draft, core, text) {
        return Ok(Some(flaw));
    }
    let kinds = kinds_of_core(alloc, core)?;
    if let Some(flaw) = item_flaw(draft, core, text, kinds.as_slice()) {
        return Ok(Some(flaw));
    }
    let dots = dots_of_core(alloc, core)?;
    let setting = Setting {
        draft,
        core,
        text,
        dots: dots.as_slice(),
    };
    Ok(setting.entries_flaw())
}
