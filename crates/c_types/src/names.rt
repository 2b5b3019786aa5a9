//! Names that must differ: those of fields, and those of parameters.
ghost use Rattle.std.specs.Prelude.{◌≡◌, ◌++◌, ◌∷◌, [], OnOk, map};
ghost use Rattle.c_grammar.specs.Trees.{Declarator as DeclaratorTree};
ghost use Rattle.c_types_rules.specs.Items.{twice, field_names, with_name, param_names, listed};
ghost use Rattle.c_tree.specs.Syntax.{ident_tree, fields_tree, param_tree, params_tree};
ghost use Rattle.c_types_names.specs.FirstRefusal.{with_refusals};
ghost use Rattle.c_types.specs.Names.{named_seen};

use c_tree::{FieldDecl, Ident, Param, Params};
use c_types_names::codes::SECOND;
use c_types_names::first_refusal::FirstRefusal;
use c_types_names::name_set::NameSet;
use std::alloc::{AllocError, Global};
use std::marker::Model;

/// A name.
#[derive(Clone, Copy)]
pub struct Named<'a> {
    pub name: &'a Ident,
}

/// Names, in the order of the text.
#[derive(Drop)]
pub struct Names<'a> {
    found: Vec<Named<'a>>,
}

impl<'a> Model for Names<'a> {
    ghost use Rattle.std.specs.Prelude.{List, map};
    ghost use Rattle.c_grammar.specs.Trees.{Name};
    ghost use Rattle.c_types.specs.Names.{named_seen};

    ghost Value = { List Name };

    ghost view = { λ n. map named_seen n.found.items };
}

impl<'a> Names<'a> {
    /// No names.
    pub fn new(alloc: Global) -> Names<'a>
        ensures { result ≡ [] }
    {
        Names {
            found: Vec::new(alloc),
        }
    }

    /// One name more.
    fn push(&mut self, name: &'a Ident) -> Result<(), AllocError>
        ensures { OnOk result (self.new ≡ self.old ++ ident_tree name.now ∷ []) }
    {
        self.found.push(Named { name })?;
        Ok(())
    }

    /// The names of the fields in a declaration.
    #[tactic(auto, using(c_types_names::proofs::Appending::appending))]
    fn push_line(&mut self, line: &'a FieldDecl) -> Result<(), AllocError>
        ensures { let seen = fields_tree line.now in
            OnOk result (self.new ≡ self.old ++ map (λ (one : DeclaratorTree). one.name) (seen.first ∷ seen.others)) }
    {
        for one in line.declarators.iter() {
            self.push(&one.name)?;
        }
        Ok(())
    }

    /// The names of fields.
    #[tactic(auto, using(c_types_names::proofs::Appending::appending))]
    pub fn push_lines(&mut self, lines: &'a [FieldDecl]) -> Result<(), AllocError>
        ensures { OnOk result (self.new ≡ self.old ++ field_names (map fields_tree lines.now)) }
    {
        for line in lines {
            self.push_line(line)?;
        }
        Ok(())
    }

    /// The name of the parameter, if it has one.
    #[tactic(auto, using(c_types_names::proofs::Appending::appending))]
    fn push_param(&mut self, param: &'a Param) -> Result<(), AllocError>
        ensures { OnOk result (self.new ≡ self.old ++ with_name (param_tree param.now).name []) }
    {
        match &param.name {
            None => Ok(()),
            Some(name) => self.push(name),
        }
    }

    /// The names of a procedure's parameters that have one.
    #[tactic(auto, using(crate::proofs::NamesInTurn::pushing, c_types_names::proofs::ParamsInTurn::each_param))]
    pub fn push_params(&mut self, params: &'a Params) -> Result<(), AllocError>
        ensures { OnOk result (self.new ≡ self.old ++ param_names (listed (params_tree params.now))) }
    {
        for param in params.iter() {
            self.push_param(param)?;
        }
        Ok(())
    }

    /// Refuses each name that stood before.
    #[tactic(auto, using(crate::proofs::NamesInTurn::naming))]
    pub fn refuse_second(&self, alloc: Global, first: &mut FirstRefusal) -> Result<(), AllocError>
        ensures { OnOk result (first.new ≡ with_refusals first.old (twice [] self.now)) }
    {
        refuse_second_of(alloc, self.found.as_slice(), first)
    }
}

/// Refuses each name that stood before.
#[tactic(auto, using(crate::proofs::NamesInTurn::naming))]
fn refuse_second_of(
    alloc: Global,
    names: &[Named],
    first: &mut FirstRefusal,
) -> Result<(), AllocError>
    ensures { OnOk result (first.new ≡ with_refusals first.old (twice [] (map named_seen names.now))) }
{
    let mut before = NameSet::new(alloc);
    for one in names {
        let listed = before.contains(&one.name.text);
        first.unless(!listed, one.name.place, SECOND);
        before.add(&one.name.text)?;
    }
    Ok(())
}
