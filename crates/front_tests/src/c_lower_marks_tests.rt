//! Marks of one loop.
use c_lower_emit::loops::Loop;
use c_lower_emit::visible_slots::VisibleSlots;
use c_lower_marks::mark;
use shape_data::program::{Cmd, Node, Operand, TestOp, Ty};
use std::rt::HostRuntime;
use std::test::Fail;

/// A node without a mark.
fn node(cmd: Cmd) -> Node {
    Node {
        line: 0,
        cmd,
        head: None,
    }
}

/// `while (a) a = 0;`, where slot 1 is a temporary.
#[test]
fn the_head_of_a_loop_gets_a_mark(rt: HostRuntime) -> Result<(), Fail> {
    let alloc = rt.alloc();
    let mut nodes = Vec::new(alloc);
    nodes.push(node(Cmd::Branch {
        op: TestOp::Ne,
        pointers: false,
        left: Operand::Slot(0),
        right: Operand::Num(0),
        yes: 1,
        no: 2,
    }))?;
    nodes.push(node(Cmd::Copy {
        to: 0,
        from: Operand::Num(0),
        next: 0,
    }))?;
    let mut visible = VisibleSlots::new(alloc);
    visible.push(0)?;
    let one = Loop {
        head: 0,
        past: 2,
        visible,
    };
    let marked = mark(alloc, &[Ty::Int, Ty::Int], &[one], nodes)?;
    assert_eq!(rt; marked.len(), 2);
    match &marked[0].head {
        None => Err("no mark")?,
        Some(mark) => {
            assert_eq!(rt; mark.ints.len(), 1);
            assert_eq!(rt; mark.ints[0], 0);
            assert_eq!(rt; mark.dead.len(), 1);
            assert_eq!(rt; mark.dead[0], 1);
            Ok(())
        }
    }
}
