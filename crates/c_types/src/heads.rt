//! Declarations of procedures (C11 6.7.6.3).
ghost use Rattle.std.specs.Prelude.{◌≡◌, ◌&&◌, ◌++◌, [], not, OnOk, List, map, option_map};
ghost use Rattle.c_grammar.specs.Trees.{Name as NameTree};
ghost use Rattle.c_grammar.specs.FirstPlaces.{place_of_head};
ghost use Rattle.c_types_rules.specs.Types.{may_agree, unless as unless_of, SECOND, CLASH};
ghost use Rattle.c_types_rules.specs.Tables.{Tables as TypeTables, is_alias, param_kind, param_kinds, kind_of_result};
ghost use Rattle.c_types_rules.specs.Items.{
  is_hidden_by,
  param_refusals,
  each_param_refusals,
  listed,
  with_name,
  head_refusals,
  same_kinds,
  same_head,
};
ghost use Rattle.c_tree.specs.Syntax.{ident_tree, specifier_tree, param_tree, params_tree, head_tree};
ghost use Rattle.c_types_names.specs.Seen.{procedure_seen};
ghost use Rattle.c_types_names.specs.FirstRefusal.{with_refusals};
ghost use Rattle.c_types.specs.Names.{Lists};

use crate::names::Names;
use c_tree::places::place_of_specifier;
use c_tree::{Head, Ident, Param, Params, TypeSpecifier};
use c_types_names::codes::{CLASH, LEFT_OUT, SECOND};
use c_types_names::declared::Procedure;
use c_types_names::first_refusal::FirstRefusal;
use c_types_names::kinds::may_agree;
use c_types_names::name_set::NameSet;
use c_types_names::objects::{
    is_alias, kind_of_result, may_be_object, may_be_result, param_kind, specifier_refusals,
};
use c_types_names::tables::Tables;
use std::alloc::{AllocError, Global};

/// Whether the specifier is a name of a type that is also that of a parameter before.
fn is_hidden_by(before: &NameSet, specifier: &TypeSpecifier) -> bool
    ensures { (names : List NameTree) → Lists before.now names → result ≡ is_hidden_by names (specifier_tree specifier.now) }
{
    match specifier {
        TypeSpecifier::Int(_) => false,
        TypeSpecifier::Void(_) => false,
        TypeSpecifier::Struct(_, _) => false,
        TypeSpecifier::Alias(name) => before.contains(&name.text),
    }
}

/// What is refused in a parameter, behind others.
fn param_refusals(tables: &Tables, before: &NameSet, param: &Param, first: &mut FirstRefusal)
    ensures { (names : List NameTree) → Lists before.now names
        → first.new ≡ with_refusals first.old (param_refusals tables.now names (param_tree param.now)) }
{
    specifier_refusals(tables, &param.specifier, first);
    let place = place_of_specifier(&param.specifier);
    let hidden = is_hidden_by(before, &param.specifier);
    first.unless(!hidden, place, LEFT_OUT);
    first.unless(
        may_be_object(&param.specifier, param.stars),
        place,
        LEFT_OUT,
    );
}

/// Adds the name of a parameter, if it has one.
fn add_name<'a>(before: &mut NameSet<'a>, name: &'a Option<Ident>) -> Result<(), AllocError>
    ensures { OnOk result ((names : List NameTree) → Lists before.old names
        → Lists before.new (with_name (option_map ident_tree name.now) names)) }
{
    match name {
        None => Ok(()),
        Some(name) => before.add(&name.text),
    }
}

/// What is refused in the parameters of a procedure.
#[tactic(auto, using(c_types_names::proofs::ParamsInTurn::each_param))]
fn each_param_refusals(
    alloc: Global,
    tables: &Tables,
    params: &Params,
    first: &mut FirstRefusal,
) -> Result<(), AllocError>
    ensures { OnOk result (first.new ≡ with_refusals first.old (each_param_refusals tables.now [] (listed (params_tree params.now)))) }
{
    let mut before = NameSet::new(alloc);
    for param in params.iter() {
        param_refusals(tables, &before, param, first);
        add_name(&mut before, &param.name)?;
    }
    Ok(())
}

/// What is refused in a head, whatever else is declared under its name.
#[tactic(auto, using(c_types_names::proofs::FirstRefusals::more_refusals))]
fn head_refusals<'a>(
    alloc: Global,
    tables: &Tables<'a>,
    head: &'a Head,
    first: &mut FirstRefusal,
) -> Result<(), AllocError>
    ensures { OnOk result (first.new ≡ with_refusals first.old (head_refusals tables.now (head_tree head.now))) }
{
    specifier_refusals(tables, &head.specifier, first);
    first.unless(
        may_be_result(&head.specifier, head.declarator.stars),
        place_of_specifier(&head.specifier),
        LEFT_OUT,
    );
    each_param_refusals(alloc, tables, &head.params, first)?;
    let mut names = Names::new(alloc);
    names.push_params(&head.params)?;
    names.refuse_second(alloc, first)
}

/// Whether there are as many parameters, and their types may agree.
#[tactic(auto, using(c_types_names::proofs::ParamsInTurn::each_kind))]
fn same_params<'a>(tables: &Tables<'a>, ones: &'a Params, others: &'a Params) -> bool
    ensures { result ≡ same_kinds (param_kinds tables.now (params_tree ones.now)) (param_kinds tables.now (params_tree others.now)) }
{
    let mut left = others.iter();
    for one in ones.iter() {
        match left.next() {
            None => return false,
            Some(other) => {
                if !may_agree(param_kind(tables, one), param_kind(tables, other)) {
                    return false;
                }
            }
        }
    }
    left.next().is_none()
}

/// Whether the types of the results may agree.
fn same_results<'a>(tables: &Tables<'a>, one: &'a Head, other: &'a Head) -> bool
    ensures { result ≡ may_agree (kind_of_result tables.now (head_tree one.now)) (kind_of_result tables.now (head_tree other.now)) }
{
    may_agree(kind_of_result(tables, one), kind_of_result(tables, other))
}

/// Whether a procedure that was declared before has the same types.
#[tactic(auto, unfolding(c_types_names::specs::Seen::procedure_seen))]
fn same_head<'a>(tables: &Tables<'a>, before: Option<Procedure<'a>>, head: &'a Head) -> bool
    ensures { result ≡ same_head tables.now (option_map procedure_seen before.entry) (head_tree head.now) }
{
    match before {
        None => true,
        Some(before) => {
            same_results(tables, before.head, head)
                && same_params(tables, &before.head.params, &head.params)
        }
    }
}

/// What is refused in a declaration of a procedure, of which this is the first of its name.
#[tactic(auto, using(c_types_names::proofs::FirstRefusals::more_refusals))]
pub fn procedure_refusals<'a>(
    alloc: Global,
    tables: &Tables<'a>,
    before: &Tables<'a>,
    declared: Option<Procedure<'a>>,
    head: &'a Head,
    first: &mut FirstRefusal,
) -> Result<(), AllocError>
    ensures { let seen = head_tree head.now in
        OnOk result (first.new
        ≡ with_refusals first.old
        (head_refusals tables.now seen
        ++ unless_of (not (is_alias before.now seen.declarator.name.text)) seen.declarator.name.place SECOND
        ++ unless_of (same_head tables.now (option_map procedure_seen declared.entry) seen) (place_of_head seen) CLASH)) }
{
    head_refusals(alloc, tables, head, first)?;
    let name = &head.declarator.name;
    let alias = is_alias(before, &name.text);
    first.unless(!alias, name.place, SECOND);
    let same = same_head(tables, declared, head);
    first.unless(same, place_of_specifier(&head.specifier), CLASH);
    Ok(())
}
