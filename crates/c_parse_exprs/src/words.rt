//! A cursor over words, and the smallest readers.
ghost use Rattle.std.specs.Prelude.{◌≡◌, ◌<◌, ◌≤◌, ◌+◌, length, IfOk, IsTrue, true, if◌then◌else◌};
ghost use Rattle.std.specs.Str.Parse.{digits_value};
ghost use Rattle.c_grammar.specs.Tokens.TokenLists.{IsTokenList};
ghost use Rattle.c_grammar.specs.declared.class.Class.TheVariants as class;
ghost use Rattle.c_grammar.specs.Words.{words_of};
ghost use Rattle.c_grammar.specs.Readers as readers;
ghost use Rattle.c_grammar.specs.Readers.{class_at, place_at, text_at, behind, is_class, is_open};
ghost use Rattle.c_parse_exprs.specs.Cursors.{classes_of, weight};
ghost use Rattle.c_parse_exprs.specs.Reads.{Reads, Takes, name_of, wrong_at, too_deep_at};

use crate::fault::SyntaxFault;
use c_grammar::Class;
use c_grammar::tokens::{Place, Token, digits_value};
use shape_data::name::Name;
use std::alloc::Global;
use std::marker::Model;

/// A word that cannot stand where it stands.
const WRONG_WORD: u16 = 111;

/// A word that opens a level of nesting too many.
const TOO_DEEP: u16 = 112;

/// Whether the classes are the same.
fn same_class(one: Class, other: Class) -> bool
    ensures { result ≡ is_class one other }
{
    one as u8 == other as u8
}

/// Whether the class is that of a `(`.
pub fn is_open(class: Class) -> bool
    ensures { result ≡ is_open class }
{
    matches!(class, Class::Open | Class::Cast)
}

/// The words that are left. Contracts see the list of them.
#[derive(Drop, Debug)]
pub struct Words<'a> {
    tokens: &'a [Token<'a>],
    classes: &'a [Class],
}

impl<'a> Model for Words<'a> {
    ghost use Rattle.std.specs.Prelude.{List};
    ghost use Rattle.c_grammar.specs.Words.{Word};

    ghost Value = { List Word };

    ghost use Rattle.c_grammar.specs.Words.{words_of};
    ghost use Rattle.c_parse_exprs.specs.Cursors.{AreWords};

    ghost view = { λ a. words_of a.tokens.now };

    ghost invariant = { λ a. AreWords a.tokens.now a.classes.now };
}

impl<'a> Words<'a> {
    /// The words of the tokens, whose classes [`classes`](crate::classes) gives.
    pub fn new(tokens: &'a [Token<'a>], classes: &'a [Class]) -> Words<'a>
        requires classes { classes.now ≡ classes_of tokens.now }
        requires listed { IsTokenList tokens.now }
        ensures { result ≡ words_of tokens.now }
    {
        Words { tokens, classes }
    }

    /// How many words are left.
    pub fn len(&self) -> usize
        ensures { result ≡ length self.now }
    {
        self.tokens.len()
    }

    /// The class of the first word.
    pub fn first_class(&self) -> Class
        ensures { result ≡ class_at self.now }
    {
        match self.classes.first() {
            Some(class) => *class,
            None => Class::OtherKey,
        }
    }

    /// The place of the first word.
    pub fn place(&self) -> Place
        ensures { result ≡ place_at self.now }
    {
        match self.tokens {
            [] => Place { line: 0, column: 0 },
            [first, ..] => Place {
                line: first.line,
                column: first.column,
            },
        }
    }

    /// The text of the first word.
    pub fn text(&self) -> &'a [u8]
        ensures value { result.now ≡ text_at self.now }
        ensures some { is_class class.Name (class_at self.now) ≡ true → 1 ≤ length result.now }
        ensures short { length result.now ≤ 64 }
    {
        match self.tokens {
            [] => &[],
            [first, ..] => first.text.as_bytes(),
        }
    }

    /// The number that the first word writes, if it is one.
    pub fn number(&self) -> u32
        ensures { is_class class.Number (class_at self.now) ≡ true → result ≡ digits_value 10 (text_at self.now) }
    {
        let _ = &self.tokens;
        if !self.sees(Class::Number) {
            return 0;
        }
        digits_value(self.text()) as u32
    }

    /// Passes the first word.
    pub fn step(&mut self)
        ensures value { self.new ≡ behind self.old }
        ensures stays { length self.new ≤ length self.old }
    {
        if let [_, tokens @ ..] = self.tokens {
            self.tokens = tokens;
        }
        if let [_, classes @ ..] = self.classes {
            self.classes = classes;
        }
    }

    /// Whether the first word is of the class.
    pub fn sees(&self, class: Class) -> bool
        ensures { result ≡ is_class class (class_at self.now) }
    {
        same_class(class, self.first_class())
    }

    /// Passes the first word if it is of the class, and says whether it is.
    pub fn eat(&mut self, class: Class) -> bool
        ensures seen { result ≡ is_class class (class_at self.old) }
        ensures value { self.new ≡ (if is_class class (class_at self.old) then behind self.old else self.old) }
        ensures falls { IsTrue result → length self.new + weight class ≤ length self.old }
        ensures stays { length self.new ≤ length self.old }
    {
        let seen = self.sees(class);
        if seen {
            self.step();
        }
        seen
    }

    /// The first word cannot stand where it stands.
    pub fn wrong(&self) -> SyntaxFault
        ensures { result ≡ wrong_at self.now }
    {
        SyntaxFault::Refused(self.place().refusal(WRONG_WORD))
    }

    /// The first word opens a level too many.
    pub fn too_deep(&self) -> SyntaxFault
        ensures { result ≡ too_deep_at self.now }
    {
        SyntaxFault::Refused(self.place().refusal(TOO_DEEP))
    }

    /// Takes a word of the class.
    #[tactic(auto, using(crate::proofs::Steps::stops, crate::proofs::Cursor::eaten_falls, crate::proofs::Cursor::open_falls))]
    pub fn take(&mut self, class: Class) -> Result<(), SyntaxFault>
        ensures value { Takes (readers.take class self.old) result self.new }
        ensures falls { IfOk result (λ _. length self.new + weight class ≤ length self.old) }
        ensures stays { length self.new ≤ length self.old }
    {
        if !self.sees(class) {
            return Err(self.wrong());
        }
        self.step();
        Ok(())
    }

    /// Takes a `(`, whatever stands behind it.
    #[tactic(auto, using(crate::proofs::Steps::stops, crate::proofs::Cursor::eaten_falls, crate::proofs::Cursor::open_falls))]
    pub fn take_open(&mut self) -> Result<(), SyntaxFault>
        ensures value { Takes (readers.take_open self.old) result self.new }
        ensures falls { IfOk result (λ _. length self.new < length self.old) }
        ensures stays { length self.new ≤ length self.old }
    {
        if !is_open(self.first_class()) {
            return Err(self.wrong());
        }
        self.step();
        Ok(())
    }

    /// Takes a name.
    #[tactic(auto, using(crate::proofs::Steps::stops, crate::proofs::Cursor::eaten_falls, crate::proofs::Cursor::open_falls))]
    pub fn take_name(&mut self, alloc: Global) -> Result<(Place, Name), SyntaxFault>
        ensures value { Reads (readers.read_name self.old) name_of result self.new }
        ensures falls { IfOk result (λ _. length self.new < length self.old) }
        ensures stays { length self.new ≤ length self.old }
    {
        if !self.sees(Class::Name) {
            return Err(self.wrong());
        }
        let place = self.place();
        let text = Name::of(alloc, self.text())?;
        self.step();
        Ok((place, text))
    }
}
