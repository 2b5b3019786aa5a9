//! Parts of expressions that no expression stands in (C11 6.5).
ghost use Rattle.std.specs.Prelude.{◌≡◌, ◌≤◌, length, map, option_map, IfOk};
ghost use Rattle.c_grammar.specs.declared.class.Class.TheVariants as class;
ghost use Rattle.c_grammar.specs.Readers as readers;
ghost use Rattle.c_grammar.specs.Trees.{Expr as ExprTree};
ghost use Rattle.c_tree.specs.Syntax.{ident_tree, specifier_tree, binary_tree, expr_tree, link_tree, links_tree};
ghost use Rattle.c_parse_exprs.specs.Reads.{Reads};
ghost use Rattle.c_parse_exprs.specs.Levels.{level_of, level_tree};

use crate::types::{read_name, read_specifier};
use crate::{Class, SyntaxFault, Words};
use c_tree::{BinaryOp, Expr, Ident, Link, MallocTypes, NonEmpty, Place, TypeSpecifier};
use std::alloc::{AllocError, Global};

/// Whether an expression begins with a word of the class.
pub fn begins_expr(class: Class) -> bool
    ensures { result ≡ readers.begins_expr class }
{
    matches!(
        class,
        Class::Name
            | Class::Number
            | Class::Open
            | Class::Cast
            | Class::Null
            | Class::Malloc
            | Class::Minus
            | Class::Not
    )
}

/// The operator of a class, and its level, counted from `*`.
fn op_level(class: Class) -> Option<(u32, BinaryOp)>
    ensures { option_map level_tree result ≡ level_of class }
{
    match class {
        Class::Star => Some((0, BinaryOp::Multiply)),
        Class::Plus => Some((1, BinaryOp::Add)),
        Class::Minus => Some((1, BinaryOp::Subtract)),
        Class::Less => Some((2, BinaryOp::Less)),
        Class::LessEqual => Some((2, BinaryOp::LessEqual)),
        Class::Greater => Some((2, BinaryOp::Greater)),
        Class::GreaterEqual => Some((2, BinaryOp::GreaterEqual)),
        Class::Equal => Some((3, BinaryOp::Equal)),
        Class::NotEqual => Some((3, BinaryOp::NotEqual)),
        Class::And => Some((4, BinaryOp::And)),
        Class::Or => Some((5, BinaryOp::Or)),
        _ => None,
    }
}

/// The operator of a class, if it is one of the level.
pub(crate) fn op_at(level: u32, class: Class) -> Option<BinaryOp>
    requires { level ≤ 5 }
    ensures { option_map binary_tree result ≡ readers.op_at level class }
{
    let (of, op) = op_level(class)?;
    if of == level { Some(op) } else { None }
}

/// An operator and the operand behind it.
pub(crate) fn link(op: BinaryOp, operand: Expr) -> Link
    ensures { link_tree result ≡ record { op = binary_tree op; operand = expr_tree operand } }
{
    Link { op, operand }
}

/// A chain.
fn chain(alloc: Global, first: Expr, others: Vec<Link>) -> Result<Expr, AllocError>
    ensures { IfOk result (λ all. expr_tree all ≡ ExprTree.Chain (expr_tree first) (links_tree others.items)) }
{
    Ok(Expr::Chain(Box::new(alloc, first)?, others))
}

/// An operand, with the operators and operands behind it, if there are any.
pub(crate) fn chained(alloc: Global, first: Expr, others: Vec<Link>) -> Result<Expr, AllocError>
    ensures { IfOk result (λ all. expr_tree all ≡ readers.chained (expr_tree first) (links_tree others.items)) }
{
    if others.is_empty() {
        Ok(first)
    } else {
        Ok(chain(alloc, first, others)?)
    }
}

/// `-> name`, once or more or not at all (C11 6.5.2.3).
pub fn read_members(alloc: Global, words: &mut Words<'_>) -> Result<Vec<Ident>, SyntaxFault>
    ensures value { Reads (readers.read_members words.old) (λ found. map ident_tree found.items) result words.new }
    ensures stays { length words.new ≤ length words.old }
{
    let mut members = Vec::new(alloc);
    while words.eat(Class::Arrow) {
        members.push(read_name(alloc, words)?)?;
    }
    Ok(members)
}

/// An expression and the members that are taken of it (C11 6.5.2.3).
pub fn with_members(alloc: Global, base: Expr, mut members: Vec<Ident>) -> Result<Expr, AllocError>
    ensures { IfOk result (λ all. expr_tree all ≡ readers.with_members (expr_tree base) (map ident_tree members.items)) }
{
    if members.is_empty() {
        return Ok(base);
    }
    let fields = NonEmpty {
        first: members.remove(0),
        others: members,
    };
    Ok(Expr::Members(Box::new(alloc, base)?, fields))
}

/// `(sizeof(TYPE))`, and the type.
#[tactic(auto, unfolding(c_grammar::specs::Readers::read_size_of))]
fn read_size_of(alloc: Global, words: &mut Words<'_>) -> Result<TypeSpecifier, SyntaxFault>
    ensures value { Reads (readers.read_size_of words.old) specifier_tree result words.new }
    ensures stays { length words.new ≤ length words.old }
{
    words.take_open()?;
    words.take(Class::Sizeof)?;
    words.take_open()?;
    let allocated = read_specifier(alloc, words)?;
    words.take(Class::Close)?;
    words.take(Class::Close)?;
    Ok(allocated)
}

/// A `malloc` of these types.
fn malloc_of(
    alloc: Global,
    place: Place,
    cast: Option<TypeSpecifier>,
    allocated: TypeSpecifier,
) -> Result<Expr, AllocError>
    ensures { IfOk result (λ made. expr_tree made ≡ ExprTree.Malloc place (option_map specifier_tree cast) (specifier_tree allocated)) }
{
    let types = Box::new(alloc, MallocTypes { cast, allocated })?;
    Ok(Expr::Malloc(place, types))
}

/// `malloc(sizeof(TYPE))` without a cast (C11 7.22.3.4).
#[tactic(auto, unfolding(c_grammar::specs::Readers::read_malloc))]
pub(crate) fn read_malloc(alloc: Global, words: &mut Words<'_>) -> Result<Expr, SyntaxFault>
    ensures value { Reads (readers.read_malloc words.old) expr_tree result words.new }
    ensures stays { length words.new ≤ length words.old }
{
    let place = words.place();
    words.step();
    let allocated = read_size_of(alloc, words)?;
    Ok(malloc_of(alloc, place, None, allocated)?)
}

/// `malloc(sizeof(TYPE))` behind a cast, from the cast on (C11 6.5.4).
#[tactic(auto, unfolding(c_grammar::specs::Readers::read_cast))]
pub(crate) fn read_cast(alloc: Global, words: &mut Words<'_>) -> Result<Expr, SyntaxFault>
    ensures value { Reads (readers.read_cast words.old) expr_tree result words.new }
    ensures stays { length words.new ≤ length words.old }
{
    let place = words.place();
    words.step();
    let as_type = read_specifier(alloc, words)?;
    words.take(Class::Star)?;
    words.take(Class::Close)?;
    words.take(Class::Malloc)?;
    let allocated = read_size_of(alloc, words)?;
    Ok(malloc_of(alloc, place, Some(as_type), allocated)?)
}
