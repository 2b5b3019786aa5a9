//! Nodes whose ways on may still be exits of the piece that they belong to: their places are filled in once they are known, which is called
//! backpatching (Aho, Lam, Sethi, Ullman, Compilers, 6.7).
ghost use Rattle.std.specs.Prelude.{◌≡◌, ◌<◌, IfOk, map};
ghost use Rattle.c_lower_emit.specs.Drafts.{redirect, next_at, redirected, put_to, aimed, laid, at_start, resolve};
ghost use Rattle.c_lower_emit.specs.OpenPlaces.{is_exit, is_open};
ghost use Rattle.c_lower_emit.specs.declared.drafts.Label.TheVariants.{At};

use shape_data::program::{Cmd, Node};
use std::alloc::{AllocError, Global};

/// Where a run goes on: at a place, at an exit of a piece of code, or at a way on of a test.
#[derive(Clone, Copy)]
pub enum Label {
    /// The place, counted from 0 at the first node of the procedure.
    At(u32),
    /// Behind the piece.
    Next,
    /// Where a `break` leads.
    Breaks,
    /// Where a `continue` leads.
    Continues,
    /// Where a test goes on that holds.
    Holds,
    /// Where a test goes on that doesn't hold.
    Fails,
}

/// What each exit becomes.
#[derive(Clone, Copy)]
pub struct Ways {
    pub next: Label,
    pub breaks: Label,
    pub continues: Label,
    pub holds: Label,
    pub fails: Label,
}

/// All exits as they are.
pub const AS_THEY_ARE: Ways = Ways {
    next: Label::Next,
    breaks: Label::Breaks,
    continues: Label::Continues,
    holds: Label::Holds,
    fails: Label::Fails,
};

/// A node. Its command's places to go on at are not yet filled in; only a `Branch` has the second one.
#[derive(Drop)]
pub struct Draft {
    pub line: u32,
    pub cmd: Cmd,
    pub next: Label,
    pub other: Label,
}

impl Label {
    /// The place as a label.
    pub fn at(place: usize) -> Label
        ensures { place < 4294967296 → result ≡ At place }
    {
        Label::At(u32::try_from(place).unwrap_or(u32::MAX))
    }

    /// With each exit replaced.
    pub fn redirect(self, ways: Ways) -> Label
        ensures { result ≡ redirect ways self }
    {
        match self {
            Label::At(place) => Label::At(place),
            Label::Next => ways.next,
            Label::Breaks => ways.breaks,
            Label::Continues => ways.continues,
            Label::Holds => ways.holds,
            Label::Fails => ways.fails,
        }
    }

    /// Where a piece begins that goes on where what follows begins.
    pub fn followed_by(self, begin: Label) -> Label
        ensures { result ≡ redirect (next_at begin) self }
    {
        self.redirect(Ways {
            next: begin,
            ..AS_THEY_ARE
        })
    }

    /// Whether it is an exit, and no place.
    fn is_exit(self) -> bool
        ensures { result ≡ is_exit self }
    {
        match self {
            Label::At(_) => false,
            _ => true,
        }
    }

    /// The place; exits lead to the first one.
    pub fn place(self) -> u32
        ensures { result ≡ resolve at_start self }
    {
        match self {
            Label::At(place) => place,
            _ => 0,
        }
    }
}

/// The command that puts its value into the slot.
pub fn put_to(mut cmd: Cmd, slot: u32) -> Cmd
    ensures { result ≡ put_to cmd slot }
{
    match &mut cmd {
        Cmd::Copy { to, .. } => *to = slot,
        Cmd::Arith { to, .. } => *to = slot,
        Cmd::Any { to, .. } => *to = slot,
        Cmd::Load { to, .. } => *to = slot,
        Cmd::New { to, .. } => *to = slot,
        Cmd::Call { to, .. } => *to = Some(slot),
        _ => {}
    }
    cmd
}

/// The command with its places to go on at.
fn aimed(mut cmd: Cmd, place: u32, other: u32) -> Cmd
    ensures { result ≡ aimed cmd place other }
{
    match &mut cmd {
        Cmd::Copy { next, .. } => *next = place,
        Cmd::Arith { next, .. } => *next = place,
        Cmd::Any { next, .. } => *next = place,
        Cmd::Load { next, .. } => *next = place,
        Cmd::Store { next, .. } => *next = place,
        Cmd::New { next, .. } => *next = place,
        Cmd::Free { next, .. } => *next = place,
        Cmd::Call { next, .. } => *next = place,
        Cmd::Branch { yes, no, .. } => {
            *yes = place;
            *no = other;
        }
        Cmd::Return { .. } => {}
    }
    cmd
}

impl Draft {
    /// With each exit replaced.
    pub fn redirect(&mut self, ways: Ways)
        ensures { self.new ≡ redirected ways self.old }
    {
        self.next = self.next.redirect(ways);
        self.other = self.other.redirect(ways);
    }

    /// Whether it has an exit that is still open.
    pub fn is_open(&self) -> bool
        ensures { result ≡ is_open self.now }
    {
        self.next.is_exit() || self.other.is_exit()
    }

    /// The node, where each exit leads to the first place.
    fn node(self) -> Node
        ensures { result ≡ laid at_start self }
    {
        let next = self.next.place();
        let other = self.other.place();
        Node {
            line: self.line,
            cmd: aimed(self.cmd, next, other),
            head: None,
        }
    }
}

/// The nodes of a whole procedure, where each exit leads to the first place.
pub fn nodes(alloc: Global, drafts: Vec<Draft>) -> Result<Vec<Node>, AllocError>
    ensures { IfOk result (λ nodes. nodes.items ≡ map (laid at_start) drafts.items) }
{
    let mut nodes = Vec::new(alloc);
    for draft in drafts {
        nodes.push(draft.node())?;
    }
    Ok(nodes)
}
