//! Procedures in flow form.
ghost use Rattle.std.specs.Prelude.{◌≡◌, ◌≤◌, ◌+◌, IfOk, length};
ghost use Rattle.c_types_rules.specs.Items.{listed};
ghost use Rattle.c_lower_rules.specs.Statements.{stmts_kinds};
ghost use Rattle.c_lower_rules.specs.Programs.{result_type, flow_of, proc_of};
ghost use Rattle.c_tree.specs.Syntax.{head_tree, block_tree};
ghost use Rattle.c_lower.specs.Bodies.{IsBodyOf};

use crate::Body;
use crate::slots::{name_texts, slot_types};
use c_lower_marks::mark;
use c_tree::places::place_of_specifier;
use c_tree::{Block, Head, Name};
use c_types_names::kinds::known_type;
use c_types_names::objects::kind_of_result;
use c_types_names::tables::Tables;
use shape_data::program::{Flow, Proc, Ty};
use shape_data::{Row, copy_of};
use std::alloc::{AllocError, Global};

/// The type of a procedure's result.
fn result_type<'a>(tables: &Tables<'a>, head: &'a Head) -> Result<Ty, AllocError>
    ensures { IfOk result (λ ty. ty ≡ result_type tables.now (head_tree head.now)) }
{
    known_type(kind_of_result(tables, head))
}

/// A procedure without its place, with the code of its body.
fn flow<'a>(
    alloc: Global,
    tables: &Tables<'a>,
    head: &'a Head,
    block: &'a Block,
    body: Body<'a>,
) -> Result<Flow, AllocError>
    requires body { IsBodyOf tables.now (head_tree head.now) (block_tree block.now) body }
    requires slots { length (listed (head_tree head.now).params) + length (stmts_kinds tables.now (block_tree block.now).body) ≤ 32 }
    requires temps { length body.temps.items ≤ 16 }
    ensures { IfOk result (λ flow. flow ≡ flow_of tables.now (head_tree head.now) (block_tree block.now).body (block_tree block.now).end) }
{
    let Body {
        nodes,
        loops,
        temps,
    } = body;
    let slots = slot_types(alloc, tables, head, block, temps.as_slice())?;
    let nodes = mark(alloc, slots.as_slice(), loops.as_slice(), nodes)?;
    Ok(Flow {
        name: copy_of(&head.declarator.name.text)?,
        params: name_texts(alloc, &head.params)?,
        slots,
        ret: result_type(tables, head)?,
        nodes: Row::from_vec(nodes),
    })
}

/// A procedure of the file, with the code of its body.
pub fn proc<'a>(
    alloc: Global,
    tables: &Tables<'a>,
    file: &Name,
    head: &'a Head,
    block: &'a Block,
    body: Body<'a>,
) -> Result<Proc, AllocError>
    requires body { IsBodyOf tables.now (head_tree head.now) (block_tree block.now) body }
    requires slots { length (listed (head_tree head.now).params) + length (stmts_kinds tables.now (block_tree block.now).body) ≤ 32 }
    requires temps { length body.temps.items ≤ 16 }
    ensures { IfOk result (λ proc. proc
        ≡ proc_of tables.now file.now (head_tree head.now) (block_tree block.now).body (block_tree block.now).end) }
{
    Ok(Proc {
        flow: flow(alloc, tables, head, block, body)?,
        file: copy_of(file)?,
        line: place_of_specifier(&head.specifier).line,
    })
}
