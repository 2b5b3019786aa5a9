//! Items: what is too large, and procedures.
ghost use Rattle.std.specs.Prelude.{◌≡◌, ◌≤◌, OnOk, All, length, map};
ghost use Rattle.c_types_rules.specs.Items.{listed};
ghost use Rattle.c_lower_rules.specs.Numbers.{IsIntNumber, StmtsHaveIntNumbers, ItemHasIntNumbers};
ghost use Rattle.c_lower_sizes.specs.Sizes.{stmts_size};
ghost use Rattle.c_tree.specs.Syntax.{head_tree, block_tree, definition_of, item_tree};
ghost use Rattle.c_lower.specs.Building.{Adds, item_part, items_part};

use crate::building::Building;
use crate::fields::fields_refusals;
use crate::lower_body;
use crate::procs::proc;
use crate::sizes::{MOST_NODES, NODES, Sizes};
use c_lower_exprs::context::Context;
use c_lower_exprs::param_count;
use c_lower_sizes::laws::{bodies_are_no_larger, locals_have_nodes, locals_have_types};
use c_lower_sizes::{body_size, local_count};
use c_tree::places::place_of_specifier;
use c_tree::{Block, Head, Item, Name};
use std::alloc::{AllocError, Global};

/// A procedure whose body has few nodes. Behind the last that is kept, it is only measured.
fn small_definition<'a>(
    alloc: Global,
    context: &mut Context<'a>,
    file: &Name,
    head: &'a Head,
    block: &'a Block,
    built: &mut Building,
) -> Result<(), AllocError>
    requires params { IsIntNumber (length (listed (head_tree head.now).params)) }
    requires numbers { StmtsHaveIntNumbers (block_tree block.now).body }
    requires size { stmts_size (block_tree block.now).body ≤ 512 }
    ensures built { OnOk result
        (Adds (item_part context.old.env.tables file.now (definition_of (head_tree head.now) (block_tree block.now))) built.old built.new) }
    ensures tables { OnOk result (context.new.env.tables ≡ context.old.env.tables) }
{
    locals_have_types();
    locals_have_nodes();
    let locals = local_count(block.stmts.as_slice());
    let body = lower_body(alloc, context, head, block, locals)?;
    let sizes = Sizes {
        nodes: body.nodes.len(),
        params: param_count(&head.params),
        locals,
        temps: body.temps.len(),
    };
    sizes.refuse(place_of_specifier(&head.specifier), &mut built.first);
    if !sizes.fit() {
        return Ok(());
    }
    if built.most <= built.procs.len() {
        return Ok(());
    }
    let proc = proc(alloc, context.tables(), file, head, block, body)?;
    built.procs.push(proc)?;
    Ok(())
}

/// A definition. The code of a body that has too many nodes is not made: that is refused before all else at the same place.
fn definition<'a>(
    alloc: Global,
    context: &mut Context<'a>,
    file: &Name,
    head: &'a Head,
    block: &'a Block,
    built: &mut Building,
) -> Result<(), AllocError>
    requires params { IsIntNumber (length (listed (head_tree head.now).params)) }
    requires numbers { StmtsHaveIntNumbers (block_tree block.now).body }
    ensures built { OnOk result
        (Adds (item_part context.old.env.tables file.now (definition_of (head_tree head.now) (block_tree block.now))) built.old built.new) }
    ensures tables { OnOk result (context.new.env.tables ≡ context.old.env.tables) }
{
    bodies_are_no_larger();
    if body_size(block.stmts.as_slice()) <= MOST_NODES {
        return small_definition(alloc, context, file, head, block, built);
    }
    built
        .first
        .unless(false, place_of_specifier(&head.specifier), NODES);
    Ok(())
}

/// An item.
fn item<'a>(
    alloc: Global,
    context: &mut Context<'a>,
    file: &Name,
    one: &'a Item,
    built: &mut Building,
) -> Result<(), AllocError>
    requires { ItemHasIntNumbers (item_tree one.now) }
    ensures built { OnOk result (Adds (item_part context.old.env.tables file.now (item_tree one.now)) built.old built.new) }
    ensures tables { OnOk result (context.new.env.tables ≡ context.old.env.tables) }
{
    match one {
        Item::Struct { place, fields, .. } => {
            fields_refusals(*place, fields.as_slice(), &mut built.first);
            Ok(())
        }
        Item::TypedefStruct { place, fields, .. } => {
            fields_refusals(*place, fields.as_slice(), &mut built.first);
            Ok(())
        }
        Item::TypedefAlias { .. } => Ok(()),
        Item::Prototype(_) => Ok(()),
        Item::Definition(head, block) => definition(alloc, context, file, head, block, built),
    }
}

/// The items of a file.
pub fn items<'a>(
    alloc: Global,
    context: &mut Context<'a>,
    file: &Name,
    ones: &'a [Item],
    built: &mut Building,
) -> Result<(), AllocError>
    requires { All ItemHasIntNumbers (map item_tree ones.now) }
    ensures built { OnOk result (Adds (items_part context.old.env.tables file.now (map item_tree ones.now)) built.old built.new) }
    ensures tables { OnOk result (context.new.env.tables ≡ context.old.env.tables) }
{
    for one in ones {
        item(alloc, context, file, one, built)?;
    }
    Ok(())
}
