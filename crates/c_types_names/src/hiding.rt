//! Names of types at places where variables stand: one that a variable hides is no type there (C11 6.2.1).
ghost use Rattle.std.specs.Prelude.{◌≡◌};
ghost use Rattle.c_types_rules.specs.Scopes.{stands, is_hidden, specifier_refusals_in, pointer_in};
ghost use Rattle.c_tree.specs.Syntax.{specifier_tree};
ghost use Rattle.c_types_names.specs.Seen.{kind_seen};
ghost use Rattle.c_types_names.specs.FirstRefusal.{with_refusals};

use crate::codes::LEFT_OUT;
use crate::env::Env;
use crate::first_refusal::FirstRefusal;
use crate::kinds::Kind;
use crate::objects::{is_alias, pointer_of, specifier_refusals};
use c_tree::places::place_of_specifier;
use c_tree::{Name, TypeSpecifier};

/// Whether a variable of the name stands there.
fn stands(env: &Env, name: &Name) -> bool
    ensures { result ≡ stands env.now name.now }
{
    env.variable(name).is_some()
}

/// Whether the specifier is a name of a type that a variable hides.
pub fn is_hidden(env: &Env, specifier: &TypeSpecifier) -> bool
    ensures { result ≡ is_hidden env.now (specifier_tree specifier.now) }
{
    match specifier {
        TypeSpecifier::Int(_) => false,
        TypeSpecifier::Void(_) => false,
        TypeSpecifier::Struct(_, _) => false,
        TypeSpecifier::Alias(name) => {
            is_alias(env.tables(), &name.text) && stands(env, &name.text)
        }
    }
}

/// Refuses a name in a specifier that is not declared, and one that is hidden.
#[tactic(auto, using(crate::proofs::FirstRefusals::more_refusals))]
pub fn specifier_refusals_in(env: &Env, specifier: &TypeSpecifier, first: &mut FirstRefusal)
    ensures { first.new ≡ with_refusals first.old (specifier_refusals_in env.now (specifier_tree specifier.now)) }
{
    specifier_refusals(env.tables(), specifier, first);
    let hidden = is_hidden(env, specifier);
    first.unless(!hidden, place_of_specifier(specifier), LEFT_OUT);
}

/// A pointer to the structure that the specifier names at this place.
pub fn pointer_in<'a>(env: &Env<'a>, specifier: &'a TypeSpecifier) -> Kind<'a>
    ensures { kind_seen result ≡ pointer_in env.now (specifier_tree specifier.now) }
{
    if is_hidden(env, specifier) {
        return None;
    }
    pointer_of(env.tables(), specifier)
}
