//! Keys by which entries are found. A key is long, so it is hashed by the name of its first procedure alone: keys of one store with the
//! same first name are few, unless it holds several answers for one procedure.
ghost use Rattle.std.specs.Prelude.{◌≡◌};
ghost use Rattle.component_keys.specs.Tests.{key_test};
ghost use Rattle.loaded_answers.specs.Lookup.{first_name};

use indexmap::Equivalent;
use shape_data::answer::Key;
use shape_data::is_same;
use std::hash::{Hash, Hasher};
use std::marker::Model;
use std::sync::Arc;

/// The name of a key's first procedure, if it has one.
fn first_name(key: &Key) -> &[u8]
    ensures { result.now ≡ first_name key.now.procs }
{
    match key.procs.as_slice().first() {
        Some(flow) => flow.name.as_bytes(),
        None => &[],
    }
}

/// Whether two keys are the same.
fn same_key(one: &Key, other: &Key) -> bool
    ensures { result ≡ key_test.0 one.now other.now }
{
    is_same(one, other)
}

/// A key of an entry. Contracts see it as the key.
#[derive(Drop)]
pub struct EntryKey {
    key: Arc<Key>,
}

impl Model for EntryKey {
    ghost use Rattle.shape_data.specs.declared.answer.Key.{Key};

    ghost Value = { Key };

    ghost view = { λ one. one.key.value };
}

impl EntryKey {
    /// The key.
    pub fn of(key: Arc<Key>) -> Self
        ensures { result ≡ key.value }
    {
        EntryKey { key }
    }
}

impl PartialEq for EntryKey {
    ghost use Rattle.std.specs.Cmp.{partial_equiv_from_equiv};
    ghost use Rattle.component_keys.specs.Tests.{key_test};
    ghost use Rattle.loaded_answers.specs.SameKeys.{entry_keys};

    ghost eq = { key_test.0 };

    ghost laws = { partial_equiv_from_equiv entry_keys };

    fn eq(&self, other: &EntryKey) -> bool {
        same_key(&self.key, &other.key)
    }
}

impl Eq for EntryKey {
    ghost use Rattle.loaded_answers.specs.SameKeys.{entry_keys};

    ghost laws = { entry_keys };
}

impl Hash for EntryKey {
    ghost use Rattle.std.specs.Hash as fed;
    ghost use Rattle.loaded_answers.specs.SameKeys.{fed_alike};
    ghost use Rattle.loaded_answers.specs.Lookup.{first_name};

    ghost hash_input = { λ key. fed.slice fed.u8 (first_name key.procs) };

    ghost respects_eq = { fed_alike };

    fn hash<H: Hasher>(&self, state: &mut H) {
        first_name(&self.key).hash(state);
    }
}

/// A key that is looked for.
#[derive(Clone, Copy)]
pub struct SoughtKey<'a> {
    pub key: &'a Key,
}

impl<'a> PartialEq for SoughtKey<'a> {
    ghost use Rattle.std.specs.Cmp.{partial_equiv_from_equiv};
    ghost use Rattle.component_keys.specs.Tests.{key_test};
    ghost use Rattle.loaded_answers.specs.SameKeys.{sought_keys};

    ghost eq = { λ one other. key_test.0 one.key.now other.key.now };

    ghost laws = { partial_equiv_from_equiv sought_keys };

    fn eq(&self, other: &SoughtKey<'a>) -> bool {
        same_key(self.key, other.key)
    }
}

impl<'a> Eq for SoughtKey<'a> {
    ghost use Rattle.loaded_answers.specs.SameKeys.{sought_keys};

    ghost laws = { sought_keys };
}

impl<'a> Hash for SoughtKey<'a> {
    ghost use Rattle.std.specs.Hash as fed;
    ghost use Rattle.loaded_answers.specs.SameKeys.{fed_alike};
    ghost use Rattle.loaded_answers.specs.Lookup.{first_name};

    ghost hash_input = { λ sought. fed.slice fed.u8 (first_name sought.key.now.procs) };

    ghost respects_eq = { λ one other. fed_alike one.key.now other.key.now };

    fn hash<H: Hasher>(&self, state: &mut H) {
        first_name(self.key).hash(state);
    }
}

impl<'a> Equivalent<EntryKey> for SoughtKey<'a> {
    ghost use Rattle.component_keys.specs.Tests.{key_test};
    ghost use Rattle.loaded_answers.specs.SameKeys.{entry_keys, fed_alike};

    ghost equivalent = { λ sought. key_test.0 sought.key.now };

    ghost respects_hash = { λ sought. fed_alike sought.key.now };

    ghost respects_eq = { λ sought. entry_keys.congr sought.key.now };

    fn equivalent(&self, one: &EntryKey) -> bool {
        same_key(self.key, &one.key)
    }
}
