//! Expressions (C11 6.5). The calls nest as deep as the expression does.
ghost use Rattle.std.specs.Prelude.{◌≡◌, ◌∷◌, OnOk, map, option_map, codes};
ghost use Rattle.c_grammar.specs.Printing.{
  print_each,
  print_maybe,
  print_name,
  print_size_of,
  print_malloc,
  print_expr,
  print_links,
  print_args,
  text_of_binary,
  text_of_prefix,
};
ghost use Rattle.c_print.specs.Writing.{Prints, print_cast, print_call, print_in_parens};
ghost use Rattle.c_tree.specs.NonEmpty.{items};
ghost use Rattle.c_tree.specs.Syntax.{ident_tree, specifier_tree, binary_tree, prefix_tree, expr_tree, links_tree, args_tree};

use crate::types::write_specifier;
use crate::words::{write_comma, write_name, write_number, write_word};
use c_tree::{BinaryOp, Expr, Ident, Link, NonEmpty, PrefixOp, TypeSpecifier};
use std::alloc::AllocError;

/// The text of an operator between two operands.
fn text_of_binary(op: BinaryOp) -> &'static [u8]
    ensures { result.now ≡ text_of_binary (binary_tree op) }
{
    match op {
        BinaryOp::Or => b"||",
        BinaryOp::And => b"&&",
        BinaryOp::Equal => b"==",
        BinaryOp::NotEqual => b"!=",
        BinaryOp::Less => b"<",
        BinaryOp::LessEqual => b"<=",
        BinaryOp::Greater => b">",
        BinaryOp::GreaterEqual => b">=",
        BinaryOp::Add => b"+",
        BinaryOp::Subtract => b"-",
        BinaryOp::Multiply => b"*",
    }
}

/// The text of an operator before its operand.
fn text_of_prefix(op: PrefixOp) -> &'static [u8]
    ensures { result.now ≡ text_of_prefix (prefix_tree op) }
{
    match op {
        PrefixOp::Negate => b"-",
        PrefixOp::Not => b"!",
    }
}

/// Writes `->` and the field.
fn write_member(text: &mut Vec<u8>, field: &Ident) -> Result<(), AllocError>
    ensures { OnOk result (Prints (λ behind. codes "->" ∷ print_name (ident_tree field.now) behind) text.old.items text.new.items) }
{
    write_word(text, b"->")?;
    write_name(text, field)
}

/// Writes `->` and a field, for each field.
fn write_members(text: &mut Vec<u8>, fields: &NonEmpty<Ident>) -> Result<(), AllocError>
    ensures { OnOk result (Prints (print_each (λ field rest. codes "->" ∷ print_name field rest) (map ident_tree (items fields.now)))
        text.old.items text.new.items) }
{
    for field in fields.iter() {
        write_member(text, field)?;
    }
    Ok(())
}

/// Writes `( sizeof ( TYPE ) )`.
fn write_size_of(text: &mut Vec<u8>, allocated: &TypeSpecifier) -> Result<(), AllocError>
    ensures { OnOk result (Prints (print_size_of (specifier_tree allocated.now)) text.old.items text.new.items) }
{
    write_word(text, b"(")?;
    write_word(text, b"sizeof")?;
    write_word(text, b"(")?;
    write_specifier(text, allocated)?;
    write_word(text, b")")?;
    write_word(text, b")")
}

/// Writes `( TYPE * )`, the cast before a `malloc`, if there is one.
fn write_cast(text: &mut Vec<u8>, as_type: &Option<TypeSpecifier>) -> Result<(), AllocError>
    ensures { OnOk result (Prints (print_cast (option_map specifier_tree as_type.now)) text.old.items text.new.items) }
{
    match as_type {
        None => Ok(()),
        Some(as_type) => {
            write_word(text, b"(")?;
            write_specifier(text, as_type)?;
            write_word(text, b"*")?;
            write_word(text, b")")
        }
    }
}

/// Writes a call of `malloc`, behind a cast to a pointer if there is one.
fn write_malloc(
    text: &mut Vec<u8>,
    as_type: &Option<TypeSpecifier>,
    allocated: &TypeSpecifier,
) -> Result<(), AllocError>
    ensures { OnOk result (Prints (print_malloc (option_map specifier_tree as_type.now) (specifier_tree allocated.now))
        text.old.items text.new.items) }
{
    write_cast(text, as_type)?;
    write_word(text, b"malloc")?;
    write_size_of(text, allocated)
}

/// Writes the expression.
#[cycle(write)]
pub fn write_expr(text: &mut Vec<u8>, expr: &Expr) -> Result<(), AllocError>
    ensures { OnOk result (Prints (print_expr (expr_tree expr.now)) text.old.items text.new.items) }
{
    match expr {
        Expr::Chain(first, others) => {
            write_expr(text, first)?;
            write_links(text, others)
        }
        Expr::Prefix(_, op, inner) => {
            write_word(text, text_of_prefix(*op))?;
            write_expr(text, inner)
        }
        Expr::Members(base, fields) => {
            write_expr(text, base)?;
            write_members(text, fields)
        }
        Expr::Variable(name) => write_name(text, name),
        Expr::Number(_, value) => write_number(text, *value),
        Expr::Null(_) => write_word(text, b"NULL"),
        Expr::Paren(_, inner) => {
            write_word(text, b"(")?;
            write_expr(text, inner)?;
            write_word(text, b")")
        }
        Expr::Call(callee, args) => write_call(text, callee, args),
        Expr::Malloc(_, types) => write_malloc(text, &types.cast, &types.allocated),
    }
}

/// Writes each operator and the operand behind it.
#[cycle(write)]
fn write_links(text: &mut Vec<u8>, links: &Vec<Link>) -> Result<(), AllocError>
    ensures { OnOk result (Prints (print_links (links_tree links.now.items)) text.old.items text.new.items) }
{
    for link in links {
        write_word(text, text_of_binary(link.op))?;
        write_expr(text, &link.operand)?;
    }
    Ok(())
}

/// Writes a call of a function by its name.
#[cycle(write)]
pub fn write_call(text: &mut Vec<u8>, callee: &Ident, args: &Vec<Expr>) -> Result<(), AllocError>
    ensures { OnOk result (Prints (print_call (ident_tree callee.now) (args_tree args.now.items)) text.old.items text.new.items) }
{
    write_name(text, callee)?;
    write_word(text, b"(")?;
    write_args(text, args)?;
    write_word(text, b")")
}

/// Writes the arguments of a call, with commas between them.
#[cycle(write)]
fn write_args(text: &mut Vec<u8>, args: &Vec<Expr>) -> Result<(), AllocError>
    ensures { OnOk result (Prints (print_args (args_tree args.now.items)) text.old.items text.new.items) }
{
    for (place, arg) in args.iter().enumerate() {
        write_comma(text, place)?;
        write_expr(text, arg)?;
    }
    Ok(())
}

/// Writes the expression, if there is one.
pub fn write_optional_expr(text: &mut Vec<u8>, expr: &Option<Expr>) -> Result<(), AllocError>
    ensures { OnOk result (Prints (print_maybe print_expr (option_map expr_tree expr.now)) text.old.items text.new.items) }
{
    match expr {
        None => Ok(()),
        Some(expr) => write_expr(text, expr),
    }
}

/// Writes the word, and the expression in parentheses.
pub fn write_in_parens(text: &mut Vec<u8>, word: &[u8], inner: &Expr) -> Result<(), AllocError>
    ensures { OnOk result (Prints (print_in_parens word.now (expr_tree inner.now)) text.old.items text.new.items) }
{
    write_word(text, word)?;
    write_word(text, b"(")?;
    write_expr(text, inner)?;
    write_word(text, b")")
}
