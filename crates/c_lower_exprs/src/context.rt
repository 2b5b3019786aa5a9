//! What the names of a body mean at a place of it.
ghost use Rattle.std.specs.Prelude.{◌≡◌, ◌≤◌, ◌<◌, ◌+◌, ◌-◌, length, OnOk, IfOk};
ghost use Rattle.c_types_rules.specs.Scopes.{variable};
ghost use Rattle.c_types_rules.specs.Expressions.{kind_of_variable};
ghost use Rattle.c_types_rules.specs.Programs.{known};
ghost use Rattle.c_types_names.specs.Seen.{type_seen, kind_seen};
ghost use Rattle.c_lower_rules.specs.Contexts.{Context as ContextValue, slot_in, visible, within_scope};
ghost use Rattle.c_types_rules.specs.Items.{listed};
ghost use Rattle.c_lower_rules.specs.Programs.{at_body};
ghost use Rattle.c_tree.specs.Syntax.{head_tree};
ghost use Rattle.c_lower_exprs.specs.Seen.{stacked};
ghost use Rattle.c_lower_exprs.specs.Contexts.{FieldsFit, behind_variable, IsWithin};

use crate::params::{bind_params, param_count};
use crate::slots::{Bound, Slots};
use c_lower_emit::visible_slots::VisibleSlots;
use c_tree::places::place_of_specifier;
use c_tree::{Head, Name, Place};
use c_types_exprs::exprs::kind_of_variable;
use c_types_names::env::Env;
use c_types_names::kinds::{CType, Kind, known};
use c_types_names::objects::kind_of_result;
use c_types_names::params::add_params;
use c_types_names::tables::Tables;
use std::alloc::{AllocError, Global};
use std::marker::Model;

/// A program, and a place of a body of it: the variables in scope, the innermost one last, where the slots of locals and of temporaries
/// begin, the type of the procedure's result, and its first line.
#[derive(Drop)]
pub struct Context<'a> {
    alloc: Global,
    env: Env<'a>,
    bound: Slots<'a>,
    first_local: u32,
    first_temp: u32,
    result: CType<'a>,
    first_line: u32,
}

impl<'a> Model for Context<'a> {
    ghost use Rattle.c_lower_rules.specs.Contexts.{Context};
    ghost use Rattle.c_types_names.specs.Seen.{type_seen};
    ghost use Rattle.c_lower_exprs.specs.Seen.{stacked};
    ghost use Rattle.c_lower_exprs.specs.Contexts.{FieldsFit};

    ghost Value = { Context };

    ghost view = { λ c. record {
      env = c.env;
      bound = stacked c.bound;
      first_local = c.first_local;
      first_temp = c.first_temp;
      result = type_seen c.result;
      first_line = c.first_line;
      line = 0;
    } };

    ghost invariant = { λ c. FieldsFit c.env.tables };
}

/// A scope that was entered, by what stood before: how many variables in the scopes around the innermost one, and how many in all.
#[derive(Clone, Copy)]
pub struct Scope {
    pub begin: usize,
    pub bound: usize,
}

impl<'a> Context<'a> {
    /// The program, before any body.
    pub fn new(alloc: Global, tables: Tables<'a>) -> Context<'a>
        requires { FieldsFit tables }
        ensures { result.env.tables ≡ tables.entry }
    {
        Context {
            alloc,
            env: Env::new(alloc, tables),
            bound: Slots::new(alloc),
            first_local: 0,
            first_temp: 0,
            result: CType::Int,
            first_line: 0,
        }
    }

    /// Goes to where the body of a procedure of the program begins, which has so many locals.
    pub fn begin(&mut self, head: &'a Head, locals: u32) -> Result<(), AllocError>
        ensures tables { self.new.env.tables ≡ self.old.env.tables }
        ensures body { OnOk result (length (listed (head_tree head.now).params) + locals < 4294967296
            → self.new ≡ at_body self.old.env.tables (head_tree head.now) locals) }
    {
        self.env.clear();
        self.bound.truncate(0);
        add_params(&mut self.env, &head.params)?;
        bind_params(&mut self.bound, &head.params)?;
        self.first_local = param_count(&head.params);
        self.first_temp = self.first_local.saturating_add(locals);
        self.result = known(kind_of_result(self.env.tables(), head));
        self.first_line = place_of_specifier(&head.specifier).line;
        Ok(())
    }

    /// The allocator.
    pub fn alloc(&self) -> Global {
        self.alloc
    }

    /// The program.
    pub fn tables(&self) -> &Tables<'a>
        ensures program { result.now ≡ self.now.env.tables }
        ensures fields { FieldsFit self.now.env.tables }
    {
        self.env.tables()
    }

    /// The type of the variable of the name; int where there is none, or its type is not known, which never comes in a typed program.
    pub fn kind_of(&self, name: &Name) -> CType<'a>
        ensures { type_seen result ≡ known (kind_of_variable (variable self.now.env name.now)) }
    {
        known(kind_of_variable(&self.env, name))
    }

    /// The slot of the variable of the name.
    pub fn slot_of(&self, name: &Name) -> u32
        ensures { result ≡ slot_in self.now.bound name.now }
    {
        self.bound.last(name)
    }

    /// The program, and the variables in scope.
    pub fn env(&self) -> &Env<'a>
        ensures { result.now ≡ self.now.env }
    {
        &self.env
    }

    /// Where the slots of locals begin.
    pub fn first_local(&self) -> u32
        ensures { result ≡ self.now.first_local }
    {
        self.first_local
    }

    /// The type of the procedure's result.
    pub fn result(&self) -> CType<'a>
        ensures { type_seen result ≡ self.now.result }
    {
        self.result
    }

    /// The line of the place, counted from 0 at the procedure's first.
    pub fn line_of(&self, place: Place) -> u32
        ensures { result ≡ place.line - self.now.first_line }
    {
        place.line.saturating_sub(self.first_line)
    }

    /// The slots of the variables in scope, the innermost one first.
    pub fn visible(&self) -> Result<VisibleSlots, AllocError>
        ensures { IfOk result (λ slots. slots ≡ visible self.now) }
    {
        self.bound.listed(self.alloc)
    }

    /// With one more variable in the innermost scope, in the slot.
    pub fn add_local(&mut self, name: &'a Name, kind: Kind<'a>, slot: u32) -> Result<(), AllocError>
        ensures { OnOk result (self.new ≡ behind_variable self.old name.now (kind_seen kind.entry) slot) }
    {
        self.env.add(name, kind)?;
        self.bound.push(Bound { name, slot })?;
        Ok(())
    }

    /// Goes into a scope of its own.
    pub fn enter(&mut self) -> Scope
        ensures scope { self.new ≡ within_scope self.old }
        ensures begin { result.begin ≡ length self.old.env.scopes.around }
        ensures bound { result.bound ≡ length self.old.bound }
    {
        let bound = self.bound.len();
        let begin = self.env.enter();
        Scope { begin, bound }
    }

    /// Leaves the innermost scope, which is `scope` as `enter` gave it.
    pub fn leave(&mut self, scope: Scope)
        requires { scope.begin ≤ length self.old.env.scopes.around }
        ensures { (outer : ContextValue) → IsWithin (within_scope outer) self.old → scope.begin ≡ length outer.env.scopes.around
            → scope.bound ≡ length outer.bound → self.new ≡ outer }
    {
        self.env.leave(scope.begin);
        self.bound.truncate(scope.bound);
    }

    /// Where the slots of temporaries begin.
    pub fn first_temp(&self) -> u32
        ensures { result ≡ self.now.first_temp }
    {
        self.first_temp
    }
}
