//! A context, and the line that nodes get there.
ghost use Rattle.std.specs.Prelude.{◌≡◌};
ghost use Rattle.c_types_names.specs.Seen.{type_seen};
ghost use Rattle.c_types_rules.specs.Expressions.{kind_of_variable};
ghost use Rattle.c_types_rules.specs.Programs.{known};
ghost use Rattle.c_types_rules.specs.Scopes.{variable};
ghost use Rattle.c_lower_rules.specs.Contexts.{at_place, slot_in};
ghost use Rattle.c_lower_exprs.specs.Contexts.{FieldsFit, on_line};

use crate::context::Context;
use c_lower_emit::uses::Spot;
use c_tree::{Name, Place};
use c_types_names::env::Env;
use c_types_names::kinds::CType;
use c_types_names::tables::Tables;
use std::alloc::Global;
use std::marker::Model;

/// A place of a body, and the line that nodes get there, counted from 0 at the procedure's first. Contracts see the context on that line.
#[derive(Drop)]
pub struct Site<'c, 'a> {
    context: &'c Context<'a>,
    line: u32,
}

impl<'c, 'a> Model for Site<'c, 'a> {
    ghost use Rattle.c_lower_rules.specs.Contexts.{Context};
    ghost use Rattle.c_lower_exprs.specs.Contexts.{on_line};

    ghost Value = { Context };

    ghost view = { λ site. on_line site.context.now site.line };
}

impl<'c, 'a> Site<'c, 'a> {
    /// The site whose nodes get the line.
    pub fn on(context: &'c Context<'a>, line: u32) -> Site<'c, 'a>
        ensures { result ≡ on_line context.now line }
    {
        Site { context, line }
    }

    /// The site whose nodes get the line of `place`, which is counted in the file.
    pub fn at(context: &'c Context<'a>, place: Place) -> Site<'c, 'a>
        ensures { result ≡ at_place context.now place }
    {
        let line = context.line_of(place);
        Site { context, line }
    }

    /// The line that nodes get.
    pub fn line(&self) -> u32
        ensures { result ≡ self.now.line }
    {
        self.line
    }

    /// Where the slots of temporaries begin.
    pub fn first_temp(&self) -> u32
        ensures { result ≡ self.now.first_temp }
    {
        self.context.first_temp()
    }

    /// What emitting needs of the site: where the slots of temporaries begin, and the line.
    pub fn spot(&self) -> Spot
        ensures first_temp { result.first_temp ≡ self.now.first_temp }
        ensures line { result.line ≡ self.now.line }
    {
        Spot {
            first_temp: self.first_temp(),
            line: self.line,
        }
    }

    /// The allocator.
    pub fn alloc(&self) -> Global {
        self.context.alloc()
    }

    /// The program.
    pub fn tables(&self) -> &Tables<'a>
        ensures program { result.now ≡ self.now.env.tables }
        ensures fields { FieldsFit self.now.env.tables }
    {
        self.context.tables()
    }

    /// The program, and the variables in scope.
    pub fn env(&self) -> &Env<'a>
        ensures { result.now ≡ self.now.env }
    {
        self.context.env()
    }

    /// The type of the variable of the name, as `Context::kind_of` gives it.
    pub fn kind_of(&self, name: &Name) -> CType<'a>
        ensures { type_seen result ≡ known (kind_of_variable (variable self.now.env name.now)) }
    {
        self.context.kind_of(name)
    }

    /// The slot of the variable of the name.
    pub fn slot_of(&self, name: &Name) -> u32
        ensures { result ≡ slot_in self.now.bound name.now }
    {
        self.context.slot_of(name)
    }

    /// The type of the procedure's result.
    pub fn result(&self) -> CType<'a>
        ensures { type_seen result ≡ self.now.result }
    {
        self.context.result()
    }
}
