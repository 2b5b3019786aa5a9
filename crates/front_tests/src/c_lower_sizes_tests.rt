//! Small bodies, built by hand from the types.
use c_lower_sizes::{MOST_COUNTED, body_size, local_count};
use c_tree::{
    BinaryOp, Declarator, Expr, Ident, Initialized, Link, Local, Name, NonEmpty, Place, Stmt,
    TypeSpecifier,
};
use std::alloc::Global;
use std::rt::HostRuntime;
use std::test::Fail;

const HERE: Place = Place { line: 1, column: 1 };

/// `1 OP 2`
fn two(alloc: Global, op: BinaryOp) -> Result<Expr, Fail> {
    let operand = Expr::Number(HERE, 2);
    let mut links = Vec::new(alloc);
    links.push(Link { op, operand })?;
    Ok(Expr::Chain(Box::new(alloc, Expr::Number(HERE, 1))?, links))
}

/// `return 1 OP 2; while (1 OP 2) ;`
fn uses(alloc: Global, op: BinaryOp) -> Result<Vec<Stmt>, Fail> {
    let mut stmts = Vec::new(alloc);
    stmts.push(Stmt::Return(HERE, Some(two(alloc, op)?)))?;
    stmts.push(Stmt::While {
        place: HERE,
        test: two(alloc, op)?,
        body: Box::new(alloc, Stmt::Empty(HERE))?,
    })?;
    Ok(stmts)
}

#[test]
fn uses_are_counted(rt: HostRuntime) -> Result<(), Fail> {
    let alloc = rt.alloc();
    for (op, size) in [
        (BinaryOp::Add, 2 + 2),
        (BinaryOp::Less, 4 + 1),
        (BinaryOp::And, 5 + 2),
    ] {
        let body = uses(alloc, op)?;
        assert_eq!(rt; body_size(&body), size);
    }
    Ok(())
}

fn named(alloc: Global, text: &[u8], value: Option<Expr>) -> Result<Initialized, Fail> {
    if !Name::is_name(text) {
        return Err("no name")?;
    }
    let name = Ident {
        place: HERE,
        text: Name::of(alloc, text)?,
    };
    let declarator = Declarator { stars: 0, name };
    Ok(Initialized { declarator, value })
}

/// `int x, y = 1 < 2;` so many times.
fn declarations(alloc: Global, times: u32) -> Result<Vec<Stmt>, Fail> {
    let mut stmts = Vec::new(alloc);
    for _ in 0..times {
        let mut others = Vec::new(alloc);
        others.push(named(alloc, b"y", Some(two(alloc, BinaryOp::Less)?))?)?;
        stmts.push(Stmt::Local(Local {
            specifier: TypeSpecifier::Int(HERE),
            declarators: NonEmpty {
                first: named(alloc, b"x", None)?,
                others,
            },
        }))?;
    }
    Ok(stmts)
}

#[test]
fn locals_are_counted_up_to_the_most(rt: HostRuntime) -> Result<(), Fail> {
    let alloc = rt.alloc();
    for (times, size, locals) in [
        (0, 0, 0),
        (1, 4, 2),
        (250, 1000, 500),
        (251, MOST_COUNTED, 502),
        (501, MOST_COUNTED, MOST_COUNTED),
    ] {
        let body = declarations(alloc, times)?;
        assert_eq!(rt; body_size(&body), size);
        assert_eq!(rt; local_count(&body), locals);
    }
    Ok(())
}
