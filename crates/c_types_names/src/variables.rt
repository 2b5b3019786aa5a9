//! Variables in the order in which they were declared, found by their names.
ghost use Rattle.std.specs.Prelude.{◌≡◌, ◌<◌, ◌≤◌, ◌-◌, ◌++◌, ◌∷◌, [], length, map, take, drop, is_some, option_map, OnOk, OnErr};
ghost use Rattle.c_types_rules.specs.Scopes.{variable_in};
ghost use Rattle.c_types_names.specs.Seen.{variable_seen, stacked};
ghost use Rattle.c_types_names.specs.Bindings.{IsBound, bound_of, variable_of};

use crate::kinds::Kind;
use crate::name_map::NameMap;
use c_tree::Name;
use std::alloc::{AllocError, Global};
use std::marker::Model;

/// A variable and its type.
#[derive(Clone, Copy)]
pub struct Variable<'a> {
    pub name: &'a Name,
    pub kind: Kind<'a>,
}

/// What a name is bound to: a variable, and how many were declared before it.
#[derive(Clone, Copy)]
struct Binding<'a> {
    variable: Variable<'a>,
    place: usize,
}

/// A variable that was declared, and what its name was bound to before.
#[derive(Clone, Copy)]
struct Declared<'a> {
    variable: Variable<'a>,
    hidden: Option<Binding<'a>>,
}

/// What names are bound to: each that has ever been declared has an entry, which is None where none of its variables is left.
type Bindings<'a> = NameMap<'a, Option<Binding<'a>>>;

/// Variables, the innermost one last. To find, to add and to forget one takes O(log n) comparisons of names, where n names have been
/// declared.
pub struct Variables<'a> {
    all: Vec<Declared<'a>>,
    bindings: Bindings<'a>,
}

impl<'a> Model for Variables<'a> {
    ghost use Rattle.std.specs.Prelude.{List, map};
    ghost use Rattle.c_types_names.specs.declared.variables.Variable.{Variable};
    ghost use Rattle.c_types_names.specs.Bindings.{IsBound, variable_of};

    ghost Value = { List Variable };

    ghost view = { λ v. map variable_of v.all.items };

    ghost invariant = { λ v. IsBound v.all.items v.bindings };
}

// Written out, so that callers' proofs take the end of the variables as one call.
impl<'a> Drop for Variables<'a> {
    fn drop(self) {
        let Variables {
            all: _all,
            bindings: _bindings,
        } = self;
    }
}

/// What the name is bound to.
fn binding_of<'a>(bindings: &Bindings<'a>, name: &Name) -> Option<Binding<'a>>
    ensures { result ≡ bound_of bindings.now name.now }
{
    bindings.named(name)?
}

/// Forgets the last variable.
fn forget_last<'a>(all: &mut Vec<Declared<'a>>, bindings: &mut Bindings<'a>)
    requires bound { IsBound all.old.items bindings.old }
    requires some { 0 < length all.old.items }
    ensures bound { IsBound all.new.items bindings.new }
    ensures items { all.new.items ≡ take (length all.old.items - 1) all.old.items }
{
    let last = all.pop().unwrap();
    bindings.set(last.variable.name, last.hidden).unwrap();
}

/// Forgets all variables but the first ones.
fn forget_behind<'a>(all: &mut Vec<Declared<'a>>, bindings: &mut Bindings<'a>, len: usize)
    requires { IsBound all.old.items bindings.old }
    ensures bound { IsBound all.new.items bindings.new }
    ensures items { all.new.items ≡ take len all.old.items }
{
    while all.len() > len {
        forget_last(all, bindings);
    }
}

/// Adds a variable.
fn declare<'a>(
    all: &mut Vec<Declared<'a>>,
    bindings: &mut Bindings<'a>,
    variable: Variable<'a>,
) -> Result<(), AllocError>
    requires { IsBound all.old.items bindings.old }
    ensures bound { IsBound all.new.items bindings.new }
    ensures more { OnOk result (map variable_of all.new.items ≡ map variable_of all.old.items ++ variable.entry ∷ []) }
    ensures same { OnErr result (all.new.items ≡ all.old.items) }
{
    all.reserve(1)?;
    let binding = Binding {
        variable,
        place: all.len(),
    };
    let hidden = bindings.replace(variable.name, Some(binding))?.flatten();
    all.push(Declared { variable, hidden }).unwrap();
    Ok(())
}

impl<'a> Variables<'a> {
    /// No variable.
    pub fn new(alloc: Global) -> Variables<'a>
        ensures { result ≡ [] }
    {
        Variables {
            all: Vec::new(alloc),
            bindings: NameMap::new(alloc),
        }
    }

    /// How many variables there are.
    pub fn len(&self) -> usize
        ensures { result ≡ length self.now }
    {
        self.all.len()
    }

    /// The last variable of the name.
    pub fn last(&self, name: &Name) -> Option<Variable<'a>>
        ensures { option_map variable_seen result ≡ variable_in (stacked self.now) name.now }
    {
        match binding_of(&self.bindings, name) {
            None => None,
            Some(binding) => Some(binding.variable),
        }
    }

    /// Whether one of the variables from this place on has the name.
    pub fn has_from(&self, begin: usize, name: &Name) -> bool
        requires { begin ≤ length self.now }
        ensures { result ≡ is_some (variable_in (stacked (drop begin self.now)) name.now) }
    {
        match binding_of(&self.bindings, name) {
            None => false,
            Some(binding) => begin <= binding.place,
        }
    }

    /// With one more variable.
    pub fn push(&mut self, variable: Variable<'a>) -> Result<(), AllocError>
        ensures more { OnOk result (self.new ≡ self.old ++ variable.entry ∷ []) }
        ensures same { OnErr result (self.new ≡ self.old) }
    {
        declare(&mut self.all, &mut self.bindings, variable)
    }

    /// Forgets all variables but the first ones.
    pub fn truncate(&mut self, len: usize)
        ensures { self.new ≡ take len self.old }
    {
        forget_behind(&mut self.all, &mut self.bindings, len);
    }
}
