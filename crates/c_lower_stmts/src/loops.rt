//! Loops: what stands before their first node, and what their pieces become when they stand.
ghost use Rattle.std.specs.Prelude.{◌≡◌, ◌<◌, ◌≤◌, length, OnOk, IfOk};
ghost use Rattle.c_lower_rules.specs.Contexts.{visible};
ghost use Rattle.c_lower_emit.specs.Emitting.{with_loop};
ghost use Rattle.c_lower_stmts.specs.Loops.{all_to, round, ClosesLoop, ClosesLoopBehind};

use c_lower_emit::drafts::{AS_THEY_ARE, Label, Ways};
use c_lower_emit::output::Output;
use c_lower_emit::visible_slots::VisibleSlots;
use c_lower_exprs::context::Context;
use std::alloc::AllocError;

/// A loop whose first node comes next: its place, how many loops there were before it, and the slots of the variables in scope.
#[derive(Drop)]
pub struct Opened {
    pub head: usize,
    pub index: usize,
    pub visible: VisibleSlots,
}

/// Where a loop begins.
pub fn open(context: &Context, out: &Output) -> Result<Opened, AllocError>
    ensures head { IfOk result (λ opened. opened.head ≡ length out.now.nodes) }
    ensures index { IfOk result (λ opened. opened.index ≡ length out.now.loops) }
    ensures visible { IfOk result (λ opened. opened.visible ≡ visible context.now) }
{
    let visible = context.visible()?;
    Ok(Opened {
        head: out.len(),
        index: out.loops_len(),
        visible,
    })
}

/// All exits lead to one place.
fn all_to(place: Label) -> Ways
    ensures { result ≡ all_to place }
{
    Ways {
        next: place,
        breaks: place,
        continues: place,
        ..AS_THEY_ARE
    }
}

/// Within a loop, whose next round begins at a place.
fn round(again: Label) -> Ways
    ensures { result ≡ round again }
{
    Ways {
        next: again,
        breaks: Label::Next,
        continues: again,
        ..AS_THEY_ARE
    }
}

/// Puts a loop together: its test, its body and its step, which end where the nodes do.
pub fn close(
    opened: Opened,
    body: usize,
    step: usize,
    body_begin: Label,
    step_begin: Label,
    out: &mut Output,
) -> Result<(), AllocError>
    ensures { OnOk result (ClosesLoop opened body step body_begin step_begin out.old out.new) }
{
    let Opened {
        head,
        index,
        visible,
    } = opened;
    let past = out.len();
    let to_head = all_to(Label::at(head));
    out.redirect(step, past, to_head);
    let ways = round(step_begin.redirect(to_head));
    out.redirect(body, step, ways);
    let test_ways = Ways {
        holds: body_begin.redirect(ways),
        fails: Label::Next,
        ..AS_THEY_ARE
    };
    out.redirect(head, body, test_ways);
    add(index, head, visible, out)?;
    Ok(())
}

/// Adds the loop.
fn add(index: usize, head: usize, visible: VisibleSlots, out: &mut Output) -> Result<(), AllocError>
    ensures { OnOk result (index ≤ length out.old.loops → head < 4294967296 → length out.old.nodes < 4294967296
        → out.new ≡ with_loop index (record { head = head; past = length out.old.nodes; visible = visible }) out.old) }
{
    out.add_loop(index, u32::try_from(head).unwrap_or(u32::MAX), visible)
}

/// Puts together a loop whose test stands behind its body, and gives where a run of it begins.
pub fn close_behind(
    opened: Opened,
    test: usize,
    body_begin: Label,
    out: &mut Output,
) -> Result<Label, AllocError>
    ensures { IfOk result (λ begin. ClosesLoopBehind opened test body_begin begin out.old out.new) }
{
    let Opened {
        head,
        index,
        visible,
    } = opened;
    let past = out.len();
    let ways = round(Label::at(test));
    let begin = body_begin.redirect(ways);
    let test_ways = Ways {
        holds: begin,
        fails: Label::Next,
        ..AS_THEY_ARE
    };
    out.redirect(test, past, test_ways);
    out.redirect(head, test, ways);
    add(index, head, visible, out)?;
    Ok(begin)
}
