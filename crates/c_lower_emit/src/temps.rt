//! The temporaries of a procedure: which are there, and which the statement or condition at hand has used.
ghost use Rattle.std.specs.Prelude.{◌≡◌, ◌==◌, ◌≤◌, ◌+◌, ◌++◌, ◌∷◌, [], All, OnOk, OnErr, IfOk, length, map, true};
ghost use Rattle.shape_data.specs.declared.program.Ty.{Ty};
ghost use Rattle.c_types_rules.specs.Types.{same_type};
ghost use Rattle.c_lower_rules.specs.Temporaries.{take_temp, released};
ghost use Rattle.c_types_names.specs.Seen.{type_seen};
ghost use Rattle.c_lower_emit.specs.Seen.{temp_seen};
ghost use Rattle.c_lower_emit.specs.KeptTemps.{AreFirst, IsKept, first_like, unused};

use crate::type_numbers::TypeNumbers;
use c_types_names::kinds::CType;
use std::alloc::{AllocError, Global};
use std::marker::Model;

/// A temporary: its type, whether the statement or condition at hand has used it, and the place of the first temporary of the type, by
/// which temporaries of one type are told from others.
#[derive(Clone, Copy)]
pub struct Temp<'a> {
    pub kind: CType<'a>,
    pub used: bool,
    pub first: usize,
}

/// Temporaries in the order in which they were first needed, with the place of the first one of each type. Those before a place are known
/// to be used, so that none of them is looked at again before all are released.
#[derive(Drop)]
pub struct Temps<'a> {
    all: Vec<Temp<'a>>,
    numbers: TypeNumbers<'a>,
    used_before: usize,
}

impl<'a> Model for Temps<'a> {
    ghost use Rattle.std.specs.Prelude.{List, map};
    ghost use Rattle.c_lower_rules.specs.Temporaries.{Temp};
    ghost use Rattle.c_lower_emit.specs.Seen.{temp_seen};
    ghost use Rattle.c_lower_emit.specs.KeptTemps.{IsKept};

    ghost Value = { List Temp };

    ghost view = { λ t. map temp_seen t.all.items };

    ghost invariant = { λ t. IsKept t.numbers t.used_before t.all.items };
}

/// The place of the first temporary of a type that is not used, or else behind all. Of the type are those whose `first` is the given one.
fn place_of_free(temps: &[Temp], first: usize) -> usize
    ensures within { result ≤ length temps.now }
    ensures place { (kind : Ty) → All (λ temp. (temp.first == first) ≡ same_type (type_seen temp.kind) kind) temps.now
        → result ≡ (take_temp kind (map temp_seen temps.now)).place }
{
    for (place, temp) in temps.iter().enumerate() {
        if temp.first == first && !temp.used {
            return place;
        }
    }
    temps.len()
}

/// Adds a used temporary of the type. `first` is the place of the first one of the type, or behind all where there is none.
fn add_used<'a>(
    temps: &mut Vec<Temp<'a>>,
    numbers: &mut TypeNumbers<'a>,
    kind: CType<'a>,
    first: usize,
) -> Result<(), AllocError>
    requires numbers { AreFirst numbers.old temps.old.items }
    requires first { first ≡ first_like (type_seen kind) temps.old.items }
    ensures more { OnOk result (temps.new.items ≡ temps.old.items ++ record { kind = kind.entry; used = true; first = first } ∷ []) }
    ensures same { OnErr result (temps.new.items ≡ temps.old.items) }
    ensures numbers { AreFirst numbers.new temps.new.items }
{
    temps.reserve(1)?;
    if first == temps.len() {
        numbers.set(kind, first)?;
    }
    temps
        .push(Temp {
            kind,
            used: true,
            first,
        })
        .unwrap();
    Ok(())
}

/// Takes the first temporary of the type that is not used, or else a new one, and gives its place. All before `from` are used.
fn take_one<'a>(
    temps: &mut Vec<Temp<'a>>,
    numbers: &mut TypeNumbers<'a>,
    from: usize,
    kind: CType<'a>,
) -> Result<usize, AllocError>
    requires { IsKept numbers.old from temps.old.items }
    ensures temps { OnOk result (map temp_seen temps.new.items ≡ (take_temp (type_seen kind.entry) (map temp_seen temps.old.items)).temps) }
    ensures place { IfOk result (λ place. place ≡ (take_temp (type_seen kind.entry) (map temp_seen temps.old.items)).place) }
    ensures within { IfOk result (λ place. place ≤ length temps.old.items) }
    ensures kept { IsKept numbers.new from temps.new.items }
    ensures used { IfOk result (λ place. place ≡ from → IsKept numbers.new (from + 1) temps.new.items) }
{
    let first = numbers.get(kind).unwrap_or(temps.len());
    let place = from + place_of_free(&temps[from..], first);
    if place < temps.len() {
        temps[place].used = true;
    } else {
        add_used(temps, numbers, kind, first)?;
    }
    Ok(place)
}

/// Releases all temporaries.
fn release_all(temps: &mut Vec<Temp>)
    ensures { temps.new.items ≡ map unused temps.old.items }
{
    for place in 0..temps.len() {
        temps[place].used = false;
    }
}

impl<'a> Temps<'a> {
    /// No temporary.
    pub fn new(alloc: Global) -> Temps<'a>
        ensures { result ≡ [] }
    {
        Temps {
            all: Vec::new(alloc),
            numbers: TypeNumbers::new(alloc),
            used_before: 0,
        }
    }

    /// The temporaries.
    pub fn into_vec(self) -> Vec<Temp<'a>>
        ensures { self.entry ≡ map temp_seen result.items }
    {
        self.all
    }

    /// Takes the first temporary of the type that is not used, or else a new one, and gives its place.
    pub fn take(&mut self, kind: CType<'a>) -> Result<usize, AllocError>
        ensures temps { OnOk result (self.new ≡ (take_temp (type_seen kind.entry) self.old).temps) }
        ensures place { IfOk result (λ place. place ≡ (take_temp (type_seen kind.entry) self.old).place) }
        ensures within { IfOk result (λ place. place ≤ length self.old) }
    {
        let place = take_one(&mut self.all, &mut self.numbers, self.used_before, kind)?;
        if place == self.used_before {
            self.used_before += 1;
        }
        Ok(place)
    }

    /// No temporary is used any longer.
    pub fn release(&mut self)
        ensures { self.new ≡ released self.old }
    {
        self.used_before = 0;
        release_all(&mut self.all);
    }
}
