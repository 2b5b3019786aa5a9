//! Items: structures, names of types, prototypes and definitions.
ghost use Rattle.std.specs.Prelude.{◌≡◌, ◌++◌, false, not, OnOk, map, option_map};
ghost use Rattle.c_grammar.specs.Readers.{place_of_specifier};
ghost use Rattle.c_types_rules.specs.Types.{unless as unless_of, UNDECLARED, SECOND, LEFT_OUT};
ghost use Rattle.c_types_rules.specs.Tables.{joined, declared_by, is_defined, tag_or};
ghost use Rattle.c_types_rules.specs.Items as rule;
ghost use Rattle.c_types_rules.specs.Programs as program;
ghost use Rattle.c_tree.specs.Syntax.{ident_tree, fields_tree, param_tree, params_tree, head_tree, block_tree, item_tree};
ghost use Rattle.c_types_names.specs.FirstRefusal.{with_refusals};
ghost use Rattle.c_types_stmts.specs.Adding.{Adds};

use crate::heads::procedure_refusals;
use crate::structures::{alias_refusals, structure_refusals};
use c_tree::places::place_of_specifier;
use c_tree::{Block, FieldDecl, Head, Ident, Item, Param, Params};
use c_types_names::codes::{LEFT_OUT, SECOND, UNDECLARED};
use c_types_names::env::Env;
use c_types_names::first_refusal::FirstRefusal;
use c_types_names::objects::{is_defined, kind_of_result};
use c_types_names::params::add_params;
use c_types_names::tables::{Tables, tag_or};
use c_types_stmts::finding::Finding;
use c_types_stmts::stmts::stmts;
use std::alloc::{AllocError, Global};

/// Refuses a parameter of a definition that has no name.
#[tactic(auto, using(crate::proofs::FieldLines::lining))]
fn unnamed_refusal(param: &Param, first: &mut FirstRefusal)
    ensures { let seen = param_tree param.now in
        first.new ≡ with_refusals first.old (unless_of (rule.has_name seen.name) (place_of_specifier seen.specifier) LEFT_OUT) }
{
    first.unless(
        param.name.is_some(),
        place_of_specifier(&param.specifier),
        LEFT_OUT,
    );
}

/// Refuses parameters of a definition that have no name.
#[tactic(auto, using(crate::proofs::FieldLines::lining, c_types_names::proofs::ParamsInTurn::each_param))]
fn unnamed_refusals(params: &Params, first: &mut FirstRefusal)
    ensures { first.new ≡ with_refusals first.old (rule.unnamed_refusals (rule.listed (params_tree params.now))) }
{
    for param in params.iter() {
        unnamed_refusal(param, first);
    }
}

/// The body of a definition.
fn body<'a>(
    env: &mut Env<'a>,
    head: &'a Head,
    block: &'a Block,
    found: &mut Finding<'a>,
) -> Result<(), AllocError>
    ensures found { OnOk result (Adds (rule.body env.old.tables (head_tree head.now) (block_tree block.now).body) found.old found.new) }
    ensures tables { OnOk result (env.new.tables ≡ env.old.tables) }
{
    env.clear();
    add_params(env, &head.params)?;
    let answer = kind_of_result(env.tables(), head);
    stmts(env, answer, false, &block.stmts, found)
}

/// A structure under `typedef`.
#[tactic(auto, using(c_types_names::proofs::FirstRefusals::more_refusals))]
fn typedef_structure<'a>(
    alloc: Global,
    tables: &Tables<'a>,
    before: &Tables<'a>,
    tag: &'a Option<Ident>,
    lines: &'a Vec<FieldDecl>,
    alias: &'a Ident,
    first: &mut FirstRefusal,
) -> Result<(), AllocError>
    ensures { let name = tag_or (option_map ident_tree tag.now) (ident_tree alias.now) in
        OnOk result (first.new
        ≡ with_refusals first.old
        (rule.structure_refusals tables.now before.now name (map fields_tree lines.now.items)
        ++ rule.alias_refusals before.now (ident_tree alias.now) name)) }
{
    let tag = tag_or(tag, alias);
    match structure_refusals(alloc, tables, before, tag, lines, first) {
        Err(error) => Err(error),
        Ok(()) => {
            alias_refusals(before, alias, tag, first);
            Ok(())
        }
    }
}

/// A name of a type, of a structure that is defined elsewhere.
#[tactic(auto, using(c_types_names::proofs::FirstRefusals::more_refusals))]
fn typedef_alias(
    tables: &Tables,
    before: &Tables,
    tag: &Ident,
    alias: &Ident,
    first: &mut FirstRefusal,
)
    ensures { let name = ident_tree tag.now in
        first.new ≡ with_refusals first.old
        (unless_of (is_defined tables.now name.text) name.place UNDECLARED ++ rule.alias_refusals before.now (ident_tree alias.now) name) }
{
    first.unless(is_defined(tables, &tag.text), tag.place, UNDECLARED);
    alias_refusals(before, alias, tag, first);
}

/// A prototype.
#[tactic(auto, using(c_types_names::proofs::FirstRefusals::more_refusals))]
fn prototype<'a>(
    alloc: Global,
    tables: &Tables<'a>,
    before: &Tables<'a>,
    head: &'a Head,
    first: &mut FirstRefusal,
) -> Result<(), AllocError>
    ensures { OnOk result (first.new
        ≡ with_refusals first.old (rule.procedure_refusals tables.now before.now before.now.procedures (head_tree head.now))) }
{
    let declared = before.procedure(&head.declarator.name.text);
    procedure_refusals(alloc, tables, before, declared, head, first)
}

/// The head of a definition.
#[tactic(auto, using(c_types_names::proofs::FirstRefusals::more_refusals))]
fn defined_head<'a>(
    alloc: Global,
    tables: &Tables<'a>,
    before: &Tables<'a>,
    head: &'a Head,
    first: &mut FirstRefusal,
) -> Result<(), AllocError>
    ensures { let seen = head_tree head.now in
        OnOk result (first.new
        ≡ with_refusals first.old
        (rule.procedure_refusals tables.now before.now (rule.definitions false before.now.procedures) seen
        ++ unless_of (not (rule.is_defined_before before.now seen)) seen.declarator.name.place SECOND
        ++ rule.unnamed_refusals (rule.listed seen.params))) }
{
    let name = &head.declarator.name;
    let declared = before.definition(&name.text, false);
    procedure_refusals(alloc, tables, before, declared, head, first)?;
    let defined = before.definition(&name.text, true).is_some();
    first.unless(!defined, name.place, SECOND);
    unnamed_refusals(&head.params, first);
    Ok(())
}

/// An item, and what is declared before it.
fn item<'a>(
    alloc: Global,
    env: &mut Env<'a>,
    before: &Tables<'a>,
    one: &'a Item,
    found: &mut Finding<'a>,
) -> Result<(), AllocError>
    ensures found { OnOk result (Adds (rule.item env.old.tables before.now (item_tree one.now)) found.old found.new) }
    ensures tables { OnOk result (env.new.tables ≡ env.old.tables) }
{
    match one {
        Item::Struct { tag, fields, .. } => structure_refusals(
            alloc,
            env.tables(),
            before,
            tag,
            fields,
            &mut found.first,
        ),
        Item::TypedefStruct {
            tag,
            fields,
            alias,
            ..
        } => typedef_structure(
            alloc,
            env.tables(),
            before,
            tag,
            fields,
            alias,
            &mut found.first,
        ),
        Item::TypedefAlias { tag, alias, .. } => {
            typedef_alias(env.tables(), before, tag, alias, &mut found.first);
            Ok(())
        }
        Item::Prototype(head) => prototype(alloc, env.tables(), before, head, &mut found.first),
        Item::Definition(head, block) => {
            defined_head(alloc, env.tables(), before, head, &mut found.first)?;
            body(env, head, block, found)
        }
    }
}

/// Items, and what is declared before them.
pub fn items<'a>(
    alloc: Global,
    env: &mut Env<'a>,
    before: &mut Tables<'a>,
    ones: &'a [Item],
    found: &mut Finding<'a>,
) -> Result<(), AllocError>
    ensures found { OnOk result (Adds (program.items env.old.tables before.old (map item_tree ones.now)) found.old found.new) }
    ensures before { OnOk result (before.new ≡ joined before.old (declared_by (map item_tree ones.now))) }
    ensures tables { OnOk result (env.new.tables ≡ env.old.tables) }
{
    for one in ones {
        item(alloc, env, before, one, found)?;
        before.declare(one)?;
    }
    Ok(())
}
