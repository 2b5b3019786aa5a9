//! Locals (C11 6.7), and clauses: locals or a simple statement.
ghost use Rattle.std.specs.Prelude.{◌≡◌, ◌≤◌, ◌<◌, length, map, option_map, IfOk};
ghost use Rattle.c_grammar.specs.declared.class.Class.TheVariants as class;
ghost use Rattle.c_grammar.specs.Readers as readers;
ghost use Rattle.c_grammar.specs.Readers.{class_at, is_class};
ghost use Rattle.c_tree.specs.Syntax.{ident_tree, specifier_tree, expr_tree, initialized_tree, local_tree};
ghost use Rattle.c_parse_exprs.specs.Reads.{Reads};
ghost use Rattle.c_parse.specs.Clauses.{clause_tree, is_type, read_unnamed};

use crate::simple::{begins_simple, read_named, read_other};
use c_parse_exprs::exprs::read_expr;
use c_parse_exprs::types::{read_declarator, read_name, read_specifier};
use c_parse_exprs::{Class, SyntaxFault, Words};
use c_tree::{Expr, Ident, Initialized, Local, NonEmpty, Simple, TypeSpecifier};
use std::alloc::Global;

/// Locals, or a simple statement.
#[derive(Drop)]
pub enum Clause {
    Local(Local),
    Simple(Simple),
}

/// `=` and a value, if they stand there.
fn read_value(
    alloc: Global,
    levels: u32,
    words: &mut Words<'_>,
) -> Result<Option<Expr>, SyntaxFault>
    ensures value { Reads (readers.read_maybe (is_class class.Set) (readers.read_value levels) words.old) (option_map expr_tree)
        result words.new }
    ensures stays { length words.new ≤ length words.old }
{
    if !words.sees(Class::Set) {
        return Ok(None);
    }
    words.step();
    Ok(Some(read_expr(alloc, levels, words)?))
}

/// A declarator, with the value that the local begins with, if any (C11 6.7.9).
#[tactic(auto, unfolding(c_grammar::specs::Readers::read_initialized))]
fn read_initialized(
    alloc: Global,
    levels: u32,
    words: &mut Words<'_>,
) -> Result<Initialized, SyntaxFault>
    ensures value { Reads (readers.read_initialized levels words.old) initialized_tree result words.new }
    ensures falls { IfOk result (λ _. length words.new < length words.old) }
    ensures stays { length words.new ≤ length words.old }
{
    let declarator = read_declarator(alloc, words)?;
    let value = read_value(alloc, levels, words)?;
    Ok(Initialized { declarator, value })
}

/// More declarators with their values, each behind a comma.
fn read_more_initialized(
    alloc: Global,
    levels: u32,
    words: &mut Words<'_>,
) -> Result<Vec<Initialized>, SyntaxFault>
    ensures value { Reads (readers.read_more (length words.old) (readers.read_initialized levels) words.old)
        (λ found. map initialized_tree found.items) result words.new }
    ensures stays { length words.new ≤ length words.old }
{
    let mut others = Vec::new(alloc);
    while words.eat(Class::Comma) {
        others.push(read_initialized(alloc, levels, words)?)?;
    }
    Ok(others)
}

/// The locals of one declaration, behind its type (C11 6.7).
#[tactic(auto, unfolding(c_grammar::specs::Readers::read_locals))]
fn read_locals(
    alloc: Global,
    levels: u32,
    specifier: TypeSpecifier,
    words: &mut Words<'_>,
) -> Result<Local, SyntaxFault>
    ensures value { Reads (readers.read_locals levels (specifier_tree specifier) words.old) local_tree result words.new }
    ensures stays { length words.new ≤ length words.old }
{
    let first = read_initialized(alloc, levels, words)?;
    let others = read_more_initialized(alloc, levels, words)?;
    Ok(Local {
        specifier,
        declarators: NonEmpty { first, others },
    })
}

/// Whether the class is that of a type that has no name.
fn is_type(class: Class) -> bool
    ensures { result ≡ is_type class }
{
    matches!(class, Class::Int | Class::Void | Class::Struct)
}

/// Whether a declarator may begin with a word of the class.
fn begins_declarator(class: Class) -> bool
    ensures { result ≡ readers.begins_declarator class }
{
    matches!(class, Class::Star | Class::Name)
}

/// Whether a clause may begin with a word of the class.
pub fn begins_clause(class: Class) -> bool
    ensures { result ≡ readers.begins_clause class }
{
    is_type(class) || begins_simple(class)
}

/// Locals of a type that has no name.
fn read_typed(alloc: Global, levels: u32, words: &mut Words<'_>) -> Result<Clause, SyntaxFault>
    ensures value { Reads (readers.read_typed levels words.old) clause_tree result words.new }
    ensures stays { length words.new ≤ length words.old }
{
    let specifier = read_specifier(alloc, words)?;
    let locals = read_locals(alloc, levels, specifier, words)?;
    Ok(Clause::Local(locals))
}

/// Locals of a type that has a name, or a simple statement, behind the name.
fn read_clause_of_name(
    alloc: Global,
    levels: u32,
    name: Ident,
    words: &mut Words<'_>,
) -> Result<Clause, SyntaxFault>
    ensures value { Reads (readers.clause_named (readers.begins_declarator (class_at words.old)) levels (ident_tree name) words.old)
        clause_tree result words.new }
    ensures stays { length words.new ≤ length words.old }
{
    if begins_declarator(words.first_class()) {
        let locals = read_locals(alloc, levels, TypeSpecifier::Alias(name), words)?;
        Ok(Clause::Local(locals))
    } else {
        let simple = read_named(alloc, levels, name, words)?;
        Ok(Clause::Simple(simple))
    }
}

/// A clause that begins with a word of another class.
fn read_clause_of_other(
    alloc: Global,
    levels: u32,
    words: &mut Words<'_>,
) -> Result<Clause, SyntaxFault>
    ensures value { Reads (read_unnamed levels words.old) clause_tree result words.new }
    ensures stays { length words.new ≤ length words.old }
{
    let simple = read_other(alloc, levels, words)?;
    Ok(Clause::Simple(simple))
}

/// Locals, or a simple statement.
pub fn read_clause(alloc: Global, levels: u32, words: &mut Words<'_>) -> Result<Clause, SyntaxFault>
    ensures value { Reads (readers.read_clause levels words.old) clause_tree result words.new }
    ensures stays { length words.new ≤ length words.old }
{
    if is_type(words.first_class()) {
        return read_typed(alloc, levels, words);
    }
    if !words.sees(Class::Name) {
        return read_clause_of_other(alloc, levels, words);
    }
    let name = read_name(alloc, words)?;
    read_clause_of_name(alloc, levels, name, words)
}
