//! Worked matches, each by computation. In all of them `a`, `b` and `c` are parameters, variable 3 is a further logical one,
//! `?n` are existential variables, and `F`, `G` and `H` flexible ones.
ghost use Rattle.std.specs.Prelude.{◌≡◌, [], ◌∷◌, pos, true, false};
ghost use Rattle.shape_data.specs.declared.symbolic.Atom.TheVariants.{Junk};
ghost use Rattle.shape_data.specs.declared.symbolic.Exp.TheVariants.{Var};
ghost use Rattle.shape_data.specs.declared.symbolic.Fact.TheVariants.{Eq, Ne};
ghost use Rattle.sym_canon.specs.Canonical.{canon_state};
ghost use Rattle.sym_matching.specs.declared.matching.Abd.TheVariants as abd;
ghost use Rattle.sym_matching.specs.declared.matching.Sub.TheVariants as sub;
ghost use Rattle.sym_matching.specs.Covers.{matches_state};
ghost use Rattle.sym_matching.specs.Examples.{a, any, b, c, cell, first, flexible, heap, list, null, number, second, state, third};
ghost use Rattle.sym_matching.specs.Matches.{biabduce, subtract};

/// A wanted atom whose source another one binds is taken after it, though it stands before it.
pub fn source_is_bound_first()
    ensures { subtract (heap [] (cell a (number (pos 1)) b ∷ cell b (number (pos 2)) null ∷ []))
        (heap [] (cell (Var second) (Var third) null ∷ cell a (Var first) (Var second) ∷ [])) [] flexible
        ≡ sub.Match (heap [] []) ((first, number (pos 1)) ∷ (second, b) ∷ (third, number (pos 2)) ∷ []) }
{}

/// A segment whose end another atom binds is taken after it: here it is made of two. By itself it goes to the end of its
/// first piece, or is empty.
pub fn end_is_bound_first()
    ensures later { subtract (heap [] (list a b ∷ list b c ∷ cell (Var 3) (number (pos 1)) c ∷ []))
        (heap [] (list a (Var first) ∷ cell (Var 3) (Var second) (Var first) ∷ [])) [] flexible
        ≡ sub.Match (heap [] []) ((second, number (pos 1)) ∷ (first, c) ∷ []) }
    ensures alone { subtract (heap [] (list a b ∷ list b c ∷ [])) (heap [] (list a (Var first) ∷ [])) [] flexible
        ≡ sub.Match (heap [] (list b c ∷ [])) ((first, b) ∷ []) }
    ensures empty { subtract (heap [] []) (heap [] (list a (Var first) ∷ [])) [] flexible ≡ sub.Match (heap [] []) ((first, a) ∷ []) }
{}

/// A segment through a segment, a cell and a segment; and no further than its end.
pub fn segment_is_walked()
    ensures pieces { subtract (heap [] (list c null ∷ cell b (any 1) c ∷ list a b ∷ cell (Var 3) (any 2) a ∷ []))
        (heap [] (list a null ∷ [])) [] []
        ≡ sub.Match (heap [] (cell (Var 3) (any 2) a ∷ [])) [] }
    ensures to_cell { subtract (heap [] (list a b ∷ cell b (any 1) null ∷ [])) (heap [] (list a b ∷ [])) [] []
        ≡ sub.Match (heap [] (cell b (any 1) null ∷ [])) [] }
{}

/// A cell comes out of a segment whose ends differ, with the least new variables. It does not where they may be equal, and
/// then the match is stuck on it; in abduction the disequality is missing.
#[tactic(auto, unfolding(crate::specs::Steps::contradicts))]
pub fn cell_comes_out_of_segment()
    ensures differ { subtract (heap (Ne a null ∷ []) (list a null ∷ cell b (any 1) null ∷ []))
        (heap [] (cell a (Var first) (Var second) ∷ [])) [] flexible
        ≡ sub.Match (heap (Ne a null ∷ []) (list (any 3) null ∷ cell b (any 1) null ∷ [])) ((first, any 2) ∷ (second, any 3) ∷ []) }
    ensures may_be_equal { subtract (heap [] (list a null ∷ [])) (heap [] (Junk ∷ cell a (Var first) (Var second) ∷ [])) [] flexible
        ≡ sub.NoMatch 1 }
    ensures missing { biabduce (heap [] (list a null ∷ [])) (heap [] (cell a (Var first) (Var second) ∷ [])) [] flexible 3
        ≡ abd.Found (heap (Ne a null ∷ []) []) (heap (Ne a null ∷ []) (list (any 2) null ∷ [])) ((first, any 1) ∷ (second, any 2) ∷ []) }
{}

/// A fact that a field leaves over has the number of its atom, and facts are numbered after the atoms.
pub fn facts_have_numbers()
    ensures field { subtract (heap [] (cell a (number (pos 1)) null ∷ [])) (heap [] (Junk ∷ cell a (number (pos 2)) (Var first) ∷ [])) []
        flexible
        ≡ sub.NoMatch 1 }
    ensures fact { subtract (heap (Ne a b ∷ []) []) (heap (Ne b a ∷ Ne a null ∷ []) (Junk ∷ [])) [] [] ≡ sub.NoMatch 2 }
    ensures unbound { subtract (heap [] []) (heap [] (Junk ∷ cell (Var first) null null ∷ cell (Var second) null null ∷ [])) [] flexible
        ≡ sub.NoMatch 1 }
{}

/// Junk takes all that is left; the frame has the facts.
pub fn junk_takes_the_rest()
    ensures { subtract (heap (Ne a b ∷ []) (cell a null null ∷ cell b null null ∷ Junk ∷ []))
        (heap [] (cell b (Var first) null ∷ Junk ∷ [])) [] flexible
        ≡ sub.Match (heap (Ne a b ∷ []) []) ((first, null) ∷ []) }
{}

/// In abduction a cell or a segment from a logical variable may be missing, with new logical variables; not two cells at one
/// address, be it that one is there or that both are missing; nor a cell at an existential variable.
#[tactic(auto, unfolding(crate::specs::Steps::contradicts))]
pub fn atoms_may_be_missing()
    ensures cell { biabduce (heap [] []) (heap [] (cell a (Var first) null ∷ [])) [] flexible 3
        ≡ abd.Found (heap [] (cell a (Var 3) null ∷ [])) (heap [] []) ((first, Var 3) ∷ []) }
    ensures segment { biabduce (heap [] (cell a (any 1) b ∷ [])) (heap [] (list a null ∷ [])) [] [] 3
        ≡ abd.Found (heap [] (list b null ∷ [])) (heap [] []) [] }
    ensures unbound_end { biabduce (heap [] []) (heap [] (list a (Var first) ∷ [])) [] flexible 3
        ≡ abd.Found (heap [] (list a (Var 3) ∷ [])) (heap [] []) ((first, Var 3) ∷ []) }
    ensures twice { biabduce (heap [] []) (heap [] (cell a null null ∷ cell a null null ∷ [])) [] [] 3 ≡ abd.NoMatch 1 }
    ensures beside { biabduce (heap [] (cell a null null ∷ [])) (heap [] (cell a null null ∷ cell a null null ∷ [])) [] [] 3
        ≡ abd.NoMatch 1 }
    ensures existential { biabduce (heap [] []) (heap [] (cell (any 1) null null ∷ [])) [] [] 3 ≡ abd.NoMatch 0 }
    ensures equation { biabduce (heap [] (cell a b null ∷ [])) (heap [] (cell a c null ∷ [])) [] [] 3
        ≡ abd.Found (heap (Eq c b ∷ []) []) (heap (Eq c b ∷ []) []) [] }
{}

/// A covering binds existential variables by the locals.
pub fn locals_bind_in_a_covering()
    ensures covers { matches_state (state (b ∷ number (pos 7) ∷ []) [] (cell a (number (pos 7)) b ∷ list b null ∷ []))
        (state (any 1 ∷ any 2 ∷ []) [] (list a (any 1) ∷ list (any 1) null ∷ []))
        ≡ true }
    ensures other_way { matches_state (state (any 1 ∷ any 2 ∷ []) [] (list a (any 1) ∷ list (any 1) null ∷ []))
        (state (b ∷ number (pos 7) ∷ []) [] (cell a (number (pos 7)) b ∷ list b null ∷ []))
        ≡ false }
    ensures frame { matches_state (state [] [] (cell a null null ∷ cell b null null ∷ [])) (state [] [] (cell a null null ∷ [])) ≡ false }
{}

/// New variables avoid the locals: a local `?1` is not the data of the cell that is unfolded, so that the state where they
/// are equal does not cover; the one where they may differ does.
pub fn locals_are_not_captured()
    ensures captured { matches_state (state (any 1 ∷ []) (Ne a null ∷ []) (list a null ∷ []))
        (state (any 1 ∷ []) [] (cell a (any 1) (any 2) ∷ list (any 2) null ∷ []))
        ≡ false }
    ensures free { matches_state (state (any 1 ∷ []) (Ne a null ∷ []) (list a null ∷ []))
        (state (any 3 ∷ []) [] (cell a (any 1) (any 2) ∷ list (any 2) null ∷ []))
        ≡ true }
{}

/// Equal canonical forms cover where the match alone fails: of two existential variables that differ, none is bound.
pub fn equal_forms_cover()
    ensures no_match { matches_state (state [] (Ne (any 1) (any 2) ∷ []) []) (state [] (Ne (any 5) (any 4) ∷ []) []) ≡ false }
    ensures same_form { canon_state (state [] (Ne (any 1) (any 2) ∷ []) []) 0 ≡ canon_state (state [] (Ne (any 5) (any 4) ∷ []) []) 0 }
{}
