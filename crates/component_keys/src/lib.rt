//! Components and keys as definitions (`specs/`): which procedures of a program are analysed together, by plain reachability, in
//! which order, and on what the answer for a component depends. Laws of them, each the contract of a public function that does
//! nothing; no code runs here. It stands on `shape_data`, and the crates on components, claims and solving cite it.
#![tactic(auto)]

ghost use Rattle.component_keys.specs.Laws.{CalleesStandBefore, EachIsListed, MembersDiffer};

/// No two components of a program have the same members.
pub fn members_differ()
    ensures { MembersDiffer }
{}

/// Whom a component calls outside of itself is of a component before it.
pub fn callees_stand_before()
    ensures { CalleesStandBefore }
{}

/// Each procedure is in a component.
pub fn each_is_listed()
    ensures { EachIsListed }
{}
