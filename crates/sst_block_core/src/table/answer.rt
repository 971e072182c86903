//! What steps and seeks of an iterator over a block return, whatever its items.
ghost use Rattle.std.specs.Prelude.{◌≡◌, IfOk, IfSome, IsOkUnless};
ghost use Rattle.std.specs.Option.{option_map};
ghost use Rattle.sst_block_core.specs.Window.{item};
ghost use Rattle.sst_block_core.specs.Answers.{answer_of};

use crate::BlockItem;
use crate::table::block::ParsedItem;
use sst_base::{Error, Result, Slice};
use std::alloc::Global;

/// What a step or a seek of an iterator returns.
#[derive(Debug, Drop)]
pub enum Answer<Item> {
    /// What a seek returns.
    Found(bool),
    /// The item that a step takes, if one is left.
    Item(Option<Item>),
}

// Makes the item that a step takes, if there is one.
pub(crate) fn materialized<Item: BlockItem, Parsed: ParsedItem<Item> + Drop>(
    alloc: Global,
    payload: &Slice,
    parsed: Option<Parsed>,
) -> Result<Answer<Item>>
    requires { IfSome parsed (Parsed.is_found payload.now) }
    ensures ok { IfOk result
        (λ a. answer_of a ≡ item (option_map (Parsed.item_of payload.now) parsed)) }
    ensures memory { IsOkUnless result Error.Memory }
{
    match parsed {
        Some(item) => Ok(Answer::Item(Some(item.materialize(alloc, payload)?))),
        None => Ok(Answer::Item(None)),
    }
}
