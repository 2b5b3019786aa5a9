//! Composed keys stay within limits: a key that is made of a component of a well-formed program, and of answers that are well formed
//! for their keys, is well formed, within the limits of the answers. So every key and every answer in the world of a legal log is
//! within the limits of a store, where each answer was so for its key. Laws, each the contract of a public function that does
//! nothing; no code runs here.
#![tactic(auto)]

ghost use Rattle.key_laws.specs.Composing.{AnswersMakeCallees, ComposedKeysAreFormed, UsedAreContained};
ghost use Rattle.key_laws.specs.Storing.{DueKeysAreStorable, EventsKeepStorable, LegalWorldsAreStorable};

use claim_laws::Meaning;

/// A key that is composed of a well-formed program and well-formed callees is well formed.
pub fn composed_keys_are_formed()
    ensures { ComposedKeysAreFormed }
{}

/// The structures used are among those of the program.
pub fn used_are_contained()
    ensures { UsedAreContained }
{}

/// What an answer has for a procedure of its key makes a well-formed callee.
pub fn answers_make_callees()
    ensures { AnswersMakeCallees }
{}

/// What a component is due is storable, where the program is well formed and the slots are storable.
pub fn due_keys_are_storable()
    ensures { DueKeysAreStorable }
{}

/// Each event leaves a storable world storable.
pub fn events_keep_storable()
    ensures { EventsKeepStorable }
{}

/// The world of a legal log is storable, where each answer that is right for a key is so.
pub fn legal_worlds_are_storable<J: Meaning>()
    ensures { LegalWorldsAreStorable J.solves }
{}
