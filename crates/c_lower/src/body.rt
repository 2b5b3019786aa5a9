//! The body of a procedure.
ghost use Rattle.std.specs.Prelude.{◌≡◌, ◌≤◌, IfOk, OnOk, length, []};
ghost use Rattle.c_types_rules.specs.Items.{listed};
ghost use Rattle.c_lower_rules.specs.Numbers.{IsIntNumber, StmtsHaveIntNumbers};
ghost use Rattle.c_lower_sizes.specs.Sizes.{stmts_size, stmts_locals};
ghost use Rattle.c_tree.specs.Syntax.{head_tree, block_tree};
ghost use Rattle.c_lower_emit.specs.declared.drafts.Label.TheVariants.{At};
ghost use Rattle.c_lower_emit.specs.Emitting.{EmitsCode};
ghost use Rattle.c_lower.specs.Bodies.{IsBodyOf};
ghost use Rattle.c_lower.specs.Closing.{opening, closed_of, behind_opening, no_out, Closes};

use crate::closing::closed_body;
use crate::emitted_body::body_of;
use c_lower_emit::drafts::Label;
use c_lower_emit::loops::Loop;
use c_lower_emit::output::Output;
use c_lower_exprs::context::Context;
use c_lower_sizes::laws::{code_has_its_size, locals_have_nodes, locals_have_types};
use c_tree::{Block, Head};
use c_types_names::kinds::CType;
use shape_data::program::{Cmd, Node, Operand, TestOp};
use std::alloc::{AllocError, Global};

/// The code of a procedure's body: its nodes, the loops among them, and the types of its temporaries.
#[derive(Drop)]
pub struct Body<'a> {
    pub nodes: Vec<Node>,
    pub loops: Vec<Loop>,
    pub temps: Vec<CType<'a>>,
}

/// A test that always holds.
fn push_opening(out: &mut Output) -> Result<(), AllocError>
    ensures { OnOk result (EmitsCode opening out.old.temps (At (length out.old.nodes)) out.old out.new) }
{
    let branch = Cmd::Branch {
        op: TestOp::Ne,
        pointers: false,
        left: Operand::Num(1),
        right: Operand::Num(0),
        yes: 0,
        no: 0,
    };
    out.push(0, branch, Label::Next, Label::Next)
}

/// The body and what closes it, behind one node at most; where a run of it begins.
fn closed<'a>(
    context: &mut Context<'a>,
    head: &'a Head,
    body: &'a Block,
    locals: u32,
    out: &mut Output<'a>,
) -> Result<Label, AllocError>
    requires params { IsIntNumber (length (listed (head_tree head.now).params)) }
    requires locals { locals ≡ stmts_locals (block_tree body.now).body }
    requires size { stmts_size (block_tree body.now).body ≤ 512 }
    requires numbers { StmtsHaveIntNumbers (block_tree body.now).body }
    requires nodes { length out.old.nodes ≤ 1 }
    requires temps { out.old.temps ≡ [] }
    ensures tables { IfOk result (λ _. context.new.env.tables ≡ context.old.env.tables) }
    ensures code { IfOk result (λ begin. Closes (closed_of context.old.env.tables (head_tree head.now) (block_tree body.now))
        begin out.old out.new) }
{
    code_has_its_size();
    locals_have_nodes();
    locals_have_types();
    context.begin(head, locals)?;
    closed_body(context, body, out)
}

/// The body and what closes it, behind a test that always holds.
fn opened<'a>(
    alloc: Global,
    context: &mut Context<'a>,
    head: &'a Head,
    body: &'a Block,
    locals: u32,
) -> Result<Output<'a>, AllocError>
    requires params { IsIntNumber (length (listed (head_tree head.now).params)) }
    requires locals { locals ≡ stmts_locals (block_tree body.now).body }
    requires size { stmts_size (block_tree body.now).body ≤ 512 }
    requires numbers { StmtsHaveIntNumbers (block_tree body.now).body }
    ensures tables { IfOk result (λ _. context.new.env.tables ≡ context.old.env.tables) }
    ensures code { IfOk result (λ out.
        Closes (behind_opening (closed_of context.old.env.tables (head_tree head.now) (block_tree body.now))) (At 0) no_out out) }
{
    let mut out = Output::new(alloc);
    push_opening(&mut out)?;
    let begin = closed(context, head, body, locals, &mut out)?;
    out.lead_next(0, 1, begin);
    Ok(out)
}

/// The code of a procedure's body (C11 6.9.1), which has so many locals. Where its code begins behind its first node, a test that always
/// holds stands before it.
pub fn lower_body<'a>(
    alloc: Global,
    context: &mut Context<'a>,
    head: &'a Head,
    body: &'a Block,
    locals: u32,
) -> Result<Body<'a>, AllocError>
    requires params { IsIntNumber (length (listed (head_tree head.now).params)) }
    requires locals { locals ≡ stmts_locals (block_tree body.now).body }
    requires size { stmts_size (block_tree body.now).body ≤ 512 }
    requires numbers { StmtsHaveIntNumbers (block_tree body.now).body }
    ensures tables { IfOk result (λ _. context.new.env.tables ≡ context.old.env.tables) }
    ensures body { IfOk result (λ found. IsBodyOf context.old.env.tables (head_tree head.now) (block_tree body.now) found) }
{
    let mut out = Output::new(alloc);
    let begin = closed(context, head, body, locals, &mut out)?;
    if begin.place() == 0 {
        return body_of(alloc, out);
    }
    // (what was emitted is let go first, so that no two bodies stand in memory)
    drop(out);
    let out = opened(alloc, context, head, body, locals)?;
    body_of(alloc, out)
}
