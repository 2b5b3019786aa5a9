//! Which variables stand at a place of a procedure's body (C11 6.2.1).
ghost use Rattle.std.specs.Prelude.{◌≡◌, ◌++◌, ◌≤◌, option_map, length, OnOk, List, [], take};
ghost use Rattle.c_types_rules.specs.Scopes.{Variable as ScopeVariable, variable, stands_here, with_variable, entered};
ghost use Rattle.c_types_names.specs.Seen.{kind_seen, variable_seen, stacked};

use crate::kinds::Kind;
use crate::tables::Tables;
use crate::variables::{Variable, Variables};
use c_tree::Name;
use std::alloc::{AllocError, Global};
use std::marker::Model;

/// A program, and the variables that stand at a place: the innermost one is the last.
#[derive(Drop)]
pub struct Env<'a> {
    tables: Tables<'a>,
    variables: Variables<'a>,
    begin: usize,
}

impl<'a> Model for Env<'a> {
    ghost use Rattle.std.specs.Prelude.{◌≤◌, length, take, drop};
    ghost use Rattle.c_types_rules.specs.Scopes.{Env};
    ghost use Rattle.c_types_names.specs.Seen.{stacked};

    ghost Value = { Env };

    ghost view = { λ e. record {
      tables = e.tables;
      scopes = record {
        here = stacked (drop e.begin e.variables);
        around = stacked (take e.begin e.variables);
      };
    } };

    ghost invariant = { λ e. e.begin ≤ length e.variables };
}

impl<'a> Env<'a> {
    /// Where no variable stands.
    #[tactic(auto, using(crate::proofs::Stacking::stacking))]
    pub fn new(alloc: Global, tables: Tables<'a>) -> Env<'a>
        ensures { result ≡ record { tables = tables.entry; scopes = record { here = []; around = [] } } }
    {
        Env {
            tables,
            variables: Variables::new(alloc),
            begin: 0,
        }
    }

    /// The program.
    pub fn tables(&self) -> &Tables<'a>
        ensures { result.now ≡ self.now.tables }
    {
        &self.tables
    }

    /// The program, which is taken out again.
    pub fn into_tables(self) -> Tables<'a>
        ensures { result ≡ self.entry.tables }
    {
        let Env {
            tables,
            variables: _variables,
            begin: _begin,
        } = self;
        tables
    }

    /// Where no variable stands.
    #[tactic(auto, using(crate::proofs::Stacking::stacking))]
    pub fn clear(&mut self)
        ensures { self.new ≡ record { tables = self.old.tables; scopes = record { here = []; around = [] } } }
    {
        self.variables.truncate(0);
        self.begin = 0;
    }

    /// The innermost variable of the name.
    #[tactic(auto, using(crate::proofs::Stacking::stacking))]
    pub fn variable(&self, name: &Name) -> Option<Variable<'a>>
        ensures { option_map variable_seen result ≡ variable self.now name.now }
    {
        self.variables.last(name)
    }

    /// Whether the innermost scope has a variable of the name.
    pub fn stands_here(&self, name: &Name) -> bool
        ensures { result ≡ stands_here self.now name.now }
    {
        self.variables.has_from(self.begin, name)
    }

    /// With one more variable in the innermost scope.
    pub fn add(&mut self, name: &'a Name, kind: Kind<'a>) -> Result<(), AllocError>
        ensures variable { OnOk result (self.new ≡ with_variable self.old name.now (kind_seen kind.entry)) }
        ensures tables { self.new.tables ≡ self.old.tables }
    {
        self.variables.push(Variable { name, kind })?;
        Ok(())
    }

    /// Goes into a scope of its own; gives how many variables stand in those around the one that was innermost.
    pub fn enter(&mut self) -> usize
        ensures scopes { self.new ≡ entered self.old }
        ensures around { result ≡ length self.old.scopes.around }
    {
        let begin = self.begin;
        self.begin = self.variables.len();
        begin
    }

    /// Leaves the innermost scope, where so many variables stand in those around the next one.
    pub fn leave(&mut self, begin: usize)
        requires { begin ≤ length self.old.scopes.around }
        ensures { (here : List ScopeVariable) → (around : List ScopeVariable) → self.old.scopes.around ≡ here ++ around
            → length around ≡ begin → self.new ≡ record { tables = self.old.tables; scopes = record { here = here; around = around } } }
    {
        self.variables.truncate(self.begin);
        self.begin = begin;
    }
}
