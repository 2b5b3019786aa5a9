//! The type checker on two small programs, built by hand from the types.
use c_tree::{
    Block, Declarator, Expr, Head, Ident, Item, Name, Params, Place, Stmt, TypeSpecifier, Unit,
};
use c_types::{TypeFault, check, kinds_of};
use std::alloc::Global;
use std::rt::HostRuntime;
use std::test::Fail;

/// The place in this column of the first line.
fn at(column: u32) -> Place {
    Place { line: 1, column }
}

fn ident(alloc: Global, text: &[u8], column: u32) -> Result<Ident, Fail> {
    if !Name::is_name(text) {
        return Err("no name")?;
    }
    Ok(Ident {
        place: at(column),
        text: Name::of(alloc, text)?,
    })
}

/// `int f() { return E; }`, the expression in column 18.
fn returns(alloc: Global, value: Expr) -> Result<Unit, Fail> {
    let head = Head {
        specifier: TypeSpecifier::Int(at(1)),
        declarator: Declarator {
            stars: 0,
            name: ident(alloc, b"f", 5)?,
        },
        params: Params::Empty,
    };
    let mut stmts = Vec::new(alloc);
    stmts.push(Stmt::Return(at(11), Some(value)))?;
    let body = Block {
        open: at(9),
        stmts,
        close: at(21),
    };
    let mut items = Vec::new(alloc);
    items.push(Item::Definition(head, body))?;
    Ok(Unit { items })
}

#[test]
fn a_number_is_an_int(rt: HostRuntime) -> Result<(), Fail> {
    let alloc = rt.alloc();
    let unit = returns(alloc, Expr::Number(at(18), 1))?;
    match check(alloc, &[unit]) {
        Ok(typed) => {
            assert_eq!(rt; typed.units.len(), 1);
            assert_eq!(rt; typed.structs.len(), 0);
            assert_eq!(rt; kinds_of(alloc, &typed)?.as_slice().len(), 1);
            Ok(())
        }
        Err(_) => Err("refused")?,
    }
}

#[test]
fn an_undeclared_name_is_refused_at_its_place(rt: HostRuntime) -> Result<(), Fail> {
    let alloc = rt.alloc();
    let unit = returns(alloc, Expr::Variable(ident(alloc, b"q", 18)?))?;
    match check(alloc, &[unit]) {
        Err(TypeFault::Refused(refused)) => {
            assert_eq!(rt; refused.unit, 0);
            assert_eq!(rt; refused.refusal.line, 1);
            assert_eq!(rt; refused.refusal.column, 18);
            assert_eq!(rt; refused.refusal.code, 121);
            Ok(())
        }
        _ => Err("not refused")?,
    }
}
