//! Worked abstractions, each by computation: a selection of random instances whose answers were computed by an implementation that
//! shares nothing with these definitions. `a` and `b` are parameters, and `v 2` on are further logical variables.
ghost use Rattle.std.specs.Prelude.{◌≡◌, [], ◌∷◌, pos, negsuc, true, false};
ghost use Rattle.std.specs.declared.option.Option.TheVariants.{None, Some};
ghost use Rattle.shape_data.specs.declared.symbolic.Atom.TheVariants.{Junk};
ghost use Rattle.shape_data.specs.declared.symbolic.Fact.TheVariants.{Eq, Ne};
ghost use Rattle.abstraction_laws.specs.Examples.{
  any,
  c,
  datas,
  heap,
  int_flow,
  keys,
  left,
  list,
  mark,
  node,
  null,
  pair,
  post,
  ptr_flow,
  right,
  state,
  structs,
  tree,
  v,
};
ghost use Rattle.abstraction_laws.specs.Heads.{abstract_head, abstract_exit};
ghost use Rattle.abstraction_laws.specs.Pairs.{abstract_pair, abstract_pre};

/// States at the head of a loop, part 1.
pub fn heads_one()
    ensures one { abstract_head
        (state (any 1 ∷ v 1 ∷ v 1 ∷ []) (Ne (v 0) (v 2) ∷ [])
        (tree (v 0) (any 1) (any 2) null ∷ right (any 1) null ∷ tree (any 2) (any 3) (c (negsuc 0)) (v 0) ∷ []))
        int_flow (mark [] (2 ∷ [])) structs
        ≡ Some (state (any 1 ∷ v 1 ∷ any 2 ∷ []) (Ne (v 0) (v 2) ∷ []) (keys (v 0) (any 3) ∷ right (any 1) null ∷ [])) }
    ensures two { abstract_head
        (state (any 1 ∷ v 0 ∷ []) (Ne (v 2) (any 1) ∷ Ne (any 1) null ∷ Eq (v 0) (c (pos 3)) ∷ [])
        (tree (v 0) null (any 6) (any 1) ∷ tree (any 1) (any 7) (v 1) (v 2) ∷ left (v 2) (v 1) ∷ left (v 1) null ∷ []))
        int_flow (mark (1 ∷ []) []) structs
        ≡ Some (state (any 1 ∷ c (pos 3) ∷ []) (Eq (v 0) (c (pos 3)) ∷ Ne (v 2) (any 1) ∷ [])
        (left (v 1) null ∷ tree (any 1) (any 2) (v 1) (v 2) ∷ tree (c (pos 3)) null (any 3) (any 1) ∷ left (v 2) (v 1) ∷ [])) }
    ensures three { abstract_head
        (state (any 1 ∷ c (pos 2) ∷ v 0 ∷ []) (Ne (v 0) (any 3) ∷ Ne (v 1) null ∷ Ne (v 2) (any 3) ∷ [])
        (node (any 1) (c (pos 4)) (any 2) ∷ node (any 2) (v 1) (any 3) ∷ node (any 3) (any 4) (any 1) ∷ []))
        int_flow (mark (2 ∷ []) []) structs
        ≡ Some (state (any 1 ∷ c (pos 2) ∷ v 0 ∷ []) (Ne (v 1) null ∷ []) (list (any 1) (any 1) ∷ [])) }
    ensures four { abstract_head
        (state (v 1 ∷ v 1 ∷ v 0 ∷ v 0 ∷ []) (Eq (v 2) (v 0) ∷ Ne (v 0) null ∷ [])
        (node (v 1) (any 1) (any 2) ∷ list (any 3) (any 1) ∷ node (any 4) null (any 3) ∷ []))
        int_flow (mark (1 ∷ 2 ∷ 3 ∷ []) []) structs
        ≡ Some (state (v 1 ∷ v 1 ∷ v 0 ∷ v 0 ∷ []) (Eq (v 2) (v 0) ∷ Ne (v 0) null ∷ []) (node (v 1) (any 1) (any 2) ∷ Junk ∷ [])) }
    ensures five { abstract_head
        (state (v 2 ∷ any 1 ∷ any 1 ∷ []) (Ne (v 1) (any 1) ∷ [])
        (node (v 2) (any 2) (v 2) ∷ list (any 1) (any 3) ∷ node (any 2) (c (pos 3)) (any 3) ∷ node (any 3) (any 4) (any 1) ∷ []))
        int_flow (mark (0 ∷ []) []) structs
        ≡ Some (state (v 2 ∷ any 1 ∷ any 1 ∷ []) (Ne (v 1) (any 1) ∷ []) (datas (v 2) (any 2) ∷ list (any 1) (any 1) ∷ [])) }
    ensures six { abstract_head
        (state (v 1 ∷ null ∷ []) (Eq (v 0) null ∷ Eq (v 2) null ∷ Ne (v 1) (any 1) ∷ Ne (any 1) null ∷ []) (list (v 1) null ∷ []))
        int_flow (mark [] (0 ∷ 1 ∷ [])) structs
        ≡ Some (state (any 1 ∷ any 2 ∷ []) (Eq (v 0) null ∷ Eq (v 2) null ∷ []) (list (v 1) null ∷ [])) }
    ensures seven { abstract_head
        (state (v 1 ∷ v 1 ∷ []) (Ne (v 0) null ∷ Ne (any 3) null ∷ Ne (any 3) (c (pos 3)) ∷ [])
        (tree (any 1) (any 2) (any 2) null ∷ []))
        int_flow (mark (1 ∷ []) []) structs
        ≡ Some (state (v 1 ∷ v 1 ∷ []) (Ne (v 0) null ∷ []) (Junk ∷ [])) }
    ensures eight { abstract_head
        (state (null ∷ v 0 ∷ []) (Ne (any 4) (any 6) ∷ [])
        (node (v 0) (any 1) (any 2) ∷ list (v 1) (any 3) ∷ node (any 2) (c (pos 4)) (any 4) ∷ node (any 4) (v 2) (any 5)
        ∷ node (any 5) (any 1) (v 2) ∷ []))
        int_flow (mark (1 ∷ []) []) structs
        ≡ Some (state (null ∷ v 0 ∷ []) [] (list (v 0) (v 2) ∷ list (v 1) (any 1) ∷ [])) }
{}

/// States at the head of a loop, part 2.
pub fn heads_two()
    ensures one { abstract_head (state (v 0 ∷ null ∷ []) (Eq (v 2) (v 0) ∷ []) (node (v 0) (any 1) (v 1) ∷ node (v 1) (any 2) (v 0) ∷ []))
        int_flow (mark [] (0 ∷ [])) structs ≡
        Some (state (any 1 ∷ null ∷ []) (Eq (v 2) (v 0) ∷ []) (node (v 0) (any 2) (v 1) ∷ node (v 1) (any 3) (v 0) ∷ [])) }
    ensures two { abstract_head (state (v 0 ∷ v 2 ∷ v 1 ∷ c (pos 5) ∷ []) (Ne (v 0) (v 1) ∷ []) (tree (any 1) (v 2) (v 2) null ∷ []))
        int_flow (mark (1 ∷ 2 ∷ 3 ∷ []) []) structs
        ≡ Some (state (v 0 ∷ v 2 ∷ v 1 ∷ any 1 ∷ []) (Ne (v 0) (v 1) ∷ []) (Junk ∷ [])) }
    ensures three { abstract_head (state (v 2 ∷ v 1 ∷ []) [] (list (v 2) (v 0) ∷ Junk ∷ [])) int_flow (mark [] []) structs ≡
        Some (state (v 2 ∷ v 1 ∷ []) [] (list (v 2) (v 0) ∷ Junk ∷ [])) }
    ensures four { abstract_head
        (state (v 2 ∷ c (pos 1) ∷ []) (Ne (v 1) (any 1) ∷ [])
        (node (v 0) (c (pos 2)) (v 2) ∷ node (v 2) (any 1) (any 2) ∷ node (any 1) (c (pos 2)) (v 0) ∷ node (any 2) (any 3) (v 0)
        ∷ []))
        int_flow (mark [] (1 ∷ [])) structs
        ≡ Some (state (v 2 ∷ any 1 ∷ []) [] (node (v 0) (any 2) (v 2) ∷ datas (v 2) (any 3) ∷ Junk ∷ [])) }
    ensures five { abstract_head
        (state (v 1 ∷ v 1 ∷ any 1 ∷ []) (Ne (v 1) (v 2) ∷ [])
        (tree (any 1) null null (any 2) ∷ tree (any 2) null (c (pos 4)) (v 0) ∷ []))
        int_flow (mark (1 ∷ 2 ∷ []) []) structs
        ≡ Some (state (v 1 ∷ v 1 ∷ any 1 ∷ []) (Ne (v 1) (v 2) ∷ []) (right (any 1) (v 0) ∷ [])) }
    ensures six { abstract_head (state (null ∷ null ∷ null ∷ []) [] (list (any 1) (v 2) ∷ [])) int_flow (mark (0 ∷ 1 ∷ 2 ∷ []) []) structs ≡
        Some (state (any 1 ∷ any 2 ∷ any 3 ∷ []) [] (Junk ∷ [])) }
    ensures seven { abstract_head
        (state (null ∷ c (pos 5) ∷ []) [] (node (v 2) (any 6) (v 2) ∷ list (v 2) (any 3) ∷ list (any 3) (any 2) ∷ [])) int_flow
        (mark [] []) structs
        ≡ Some (state (null ∷ c (pos 5) ∷ []) [] (node (v 2) (any 1) (v 2) ∷ [])) }
    ensures eight { abstract_head (state (v 1 ∷ v 0 ∷ v 0 ∷ any 2 ∷ []) (Ne (any 3) (v 1) ∷ Ne (any 1) (v 2) ∷ []) (Junk ∷ [])) int_flow
        (mark [] (3 ∷ [])) structs
        ≡ Some (state (v 1 ∷ v 0 ∷ v 0 ∷ any 1 ∷ []) [] (Junk ∷ [])) }
{}

/// States at the head of a loop, part 3.
pub fn heads_three()
    ensures one { abstract_head (state (v 0 ∷ v 0 ∷ any 4 ∷ []) [] (node (any 3) null (any 4) ∷ [])) int_flow (mark (2 ∷ []) (1 ∷ []))
        structs
        ≡ Some (state (v 0 ∷ any 1 ∷ any 2 ∷ []) [] (Junk ∷ [])) }
    ensures two { abstract_head (state (v 2 ∷ any 3 ∷ v 0 ∷ null ∷ []) [] (list (v 1) (v 1) ∷ [])) int_flow (mark [] (0 ∷ [])) structs ≡
        Some (state (any 1 ∷ any 2 ∷ v 0 ∷ null ∷ []) [] (list (v 1) (v 1) ∷ [])) }
    ensures three { abstract_head (state (v 2 ∷ v 1 ∷ []) [] (tree (any 1) (any 6) (c (pos 3)) (v 0) ∷ right (v 2) (any 1) ∷ [])) int_flow
        (mark (1 ∷ []) (1 ∷ [])) structs
        ≡ Some (state (v 2 ∷ any 1 ∷ []) [] (right (v 2) (v 0) ∷ [])) }
    ensures four { abstract_head (state (null ∷ any 1 ∷ v 0 ∷ any 1 ∷ []) [] (left (v 2) (v 1) ∷ [])) int_flow (mark (3 ∷ []) []) structs ≡
        Some (state (null ∷ any 1 ∷ v 0 ∷ any 1 ∷ []) [] (left (v 2) (v 1) ∷ [])) }
{}

/// Posts at an exit, of recursive components and of others, part 1.
pub fn exits_one()
    ensures one { abstract_exit
        (post null []
        (tree (v 2) null (any 6) (any 4) ∷ tree (v 1) (v 2) (c (negsuc 0)) (any 3) ∷ tree (any 4) (v 1) null null
        ∷ tree (any 3) null (v 1) (v 0) ∷ []))
        ptr_flow structs true
        ≡ Some (post null [] (right (v 1) (v 0) ∷ right (v 2) null ∷ [])) }
    ensures two { abstract_exit
        (post null (Eq (v 0) null ∷ Eq (v 1) (c (pos 3)) ∷ Ne (any 1) (any 2) ∷ [])
        (right (any 1) (any 2) ∷ right (any 2) (c (pos 3)) ∷ []))
        ptr_flow structs true
        ≡ Some (post null (Eq (v 0) null ∷ Eq (v 1) (c (pos 3)) ∷ []) (Junk ∷ [])) }
    ensures three { abstract_exit
        (post (c (pos 2)) (Eq (v 2) (v 1) ∷ Ne (v 1) null ∷ [])
        (tree (v 0) null (any 1) (v 1) ∷ right (v 1) (v 0) ∷ tree (any 1) (any 2) null (v 0) ∷ []))
        int_flow structs false
        ≡ Some (post (c (pos 2)) (Eq (v 2) (v 1) ∷ Ne (v 1) null ∷ [])
        (tree (v 0) null (any 1) (v 1) ∷ right (v 1) (v 0) ∷ tree (any 1) (any 2) null (v 0) ∷ [])) }
    ensures four { abstract_exit
        (post null (Ne (v 2) (any 4) ∷ Ne (v 2) null ∷ [])
        (node (v 1) (any 1) (any 2) ∷ list (any 1) (v 1) ∷ node (any 2) (any 3) (any 1) ∷ []))
        int_flow structs true
        ≡ Some (post (any 1) (Ne (v 2) null ∷ []) (list (v 1) (v 1) ∷ [])) }
    ensures five { abstract_exit
        (post (v 0) (Ne (v 1) (v 2) ∷ [])
        (tree (any 1) (v 0) null null ∷ tree (v 0) (any 1) (any 6) null ∷ tree (v 1) (v 1) (v 2) null ∷ []))
        ptr_flow structs true
        ≡ Some (post (v 0) (Ne (v 1) (v 2) ∷ []) (left (v 0) (v 0) ∷ tree (v 1) (v 1) (v 2) null ∷ [])) }
    ensures six { abstract_exit (post (any 1) (Eq (v 1) null ∷ Ne (v 0) (any 2) ∷ []) []) int_flow structs true ≡
        Some (post (any 1) (Eq (v 1) null ∷ []) []) }
    ensures seven { abstract_exit (post null (Ne (v 0) (v 2) ∷ Ne (v 2) (any 1) ∷ []) (node (any 1) (c (pos 2)) (any 2) ∷ []))
        ptr_flow structs true
        ≡ Some (post null (Ne (v 0) (v 2) ∷ []) (Junk ∷ [])) }
    ensures eight { abstract_exit (post (v 2) (Ne (v 0) (any 4) ∷ []) (node (v 1) (any 1) (any 2) ∷ node (any 2) (any 3) (v 1) ∷ []))
        ptr_flow structs true
        ≡ Some (post (v 2) [] (list (v 1) (v 1) ∷ [])) }
{}

/// Posts at an exit, of recursive components and of others, part 2.
pub fn exits_two()
    ensures one { abstract_exit (post null (Ne (v 2) (any 1) ∷ []) (tree (any 2) (v 0) (any 1) (v 2) ∷ [])) int_flow structs true ≡
        Some (post (any 1) [] (Junk ∷ [])) }
    ensures two { abstract_exit (post (v 0) (Ne (v 2) (any 1) ∷ Ne (any 1) (any 2) ∷ []) (Junk ∷ [])) ptr_flow structs false ≡
        Some (post (v 0) [] (Junk ∷ [])) }
    ensures three { abstract_exit
        (post null (Ne (v 0) (any 4) ∷ Ne (any 3) null ∷ [])
        (tree (v 1) (any 1) (v 1) (any 2) ∷ tree (any 2) null (c (negsuc 0)) null ∷ []))
        int_flow structs true
        ≡ Some (post (any 1) [] (right (v 1) null ∷ [])) }
    ensures four { abstract_exit (post (v 0) [] (node (any 1) (any 2) (any 3) ∷ [])) ptr_flow structs false ≡
        Some (post (v 0) [] (Junk ∷ [])) }
    ensures five { abstract_exit (post (c (pos 2)) [] (list (any 2) (any 3) ∷ [])) ptr_flow structs true ≡
        Some (post (c (pos 2)) [] (Junk ∷ [])) }
    ensures six { abstract_exit
        (post (v 1) (Ne (v 0) (any 6) ∷ [])
        (list (any 1) (any 2) ∷ list (any 2) (any 3) ∷ list (any 3) (v 1) ∷ node (v 2) (any 4) (any 5)
        ∷ node (any 5) (any 1) (any 1) ∷ []))
        int_flow structs true
        ≡ Some (post (v 1) [] (list (v 2) (v 1) ∷ [])) }
    ensures seven { abstract_exit (post (v 0) (Ne (v 0) (c (pos 3)) ∷ Ne (any 3) null ∷ []) (node (v 2) (any 1) (any 2) ∷ []))
        ptr_flow structs true
        ≡ Some (post (v 0) (Ne (v 0) (c (pos 3)) ∷ []) (node (v 2) (any 1) (any 2) ∷ [])) }
    ensures eight { abstract_exit (post (v 1) [] (right (any 1) (any 2) ∷ tree (any 2) null (any 3) (any 1) ∷ [])) int_flow structs true ≡
        Some (post (v 1) [] (Junk ∷ [])) }
{}

/// Pairs at the head of a loop, part 1.
pub fn pairs_one()
    ensures one { abstract_pair
        (pair (heap [] (node (v 2) (v 0) (v 3) ∷ node (v 3) (c (negsuc 1)) null ∷ []))
        (state (null ∷ null ∷ null ∷ []) (Eq (v 2) (v 1) ∷ Ne (v 0) null ∷ Ne (v 1) (any 1) ∷ Ne (v 1) (any 2) ∷ [])
        (node (v 1) (v 0) (v 3) ∷ node (v 3) (c (negsuc 1)) null ∷ [])))
        int_flow (mark (1 ∷ 2 ∷ []) (1 ∷ [])) structs
        ≡ Some (pair (heap [] (list (v 2) null ∷ []))
        (state (null ∷ any 1 ∷ any 2 ∷ []) (Eq (v 2) (v 1) ∷ Ne (v 0) null ∷ []) (list (v 1) null ∷ []))) }
    ensures two { abstract_pair
        (pair (heap [] (tree (v 2) (v 0) (v 3) (v 1) ∷ tree (v 0) (v 4) (v 1) null ∷ []))
        (state (null ∷ c (pos 5) ∷ []) (Ne null (any 2) ∷ Ne (v 3) (any 3) ∷ [])
        (tree (any 1) (v 1) (any 3) null ∷ tree (v 1) (v 0) null null ∷ tree (v 3) (any 2) (any 1) null ∷ [])))
        int_flow (mark (0 ∷ 1 ∷ []) []) structs
        ≡ Some (pair (heap [] (tree (v 0) (v 2) (v 1) null ∷ tree (v 3) (v 0) (v 4) (v 1) ∷ []))
        (state (any 1 ∷ any 2 ∷ []) (Ne (v 4) (any 4) ∷ []) (tree (v 1) (v 0) (any 3) null ∷ keys (v 4) (any 4) ∷ []))) }
    ensures three { abstract_pair
        (pair (heap (Eq (v 0) (c (pos 3)) ∷ []) (list (v 2) (v 1) ∷ []))
        (state (v 1 ∷ any 1 ∷ any 2 ∷ []) (Ne (v 3) (any 1) ∷ [])
        (tree (v 1) (c (pos 3)) (any 1) (c (pos 3)) ∷ list (v 2) (v 1) ∷ [])))
        int_flow (mark [] []) structs
        ≡ Some (pair (heap (Eq (v 0) (c (pos 3)) ∷ []) (list (v 2) (v 1) ∷ []))
        (state (v 1 ∷ any 1 ∷ any 2 ∷ []) [] (tree (v 1) (c (pos 3)) (any 1) (c (pos 3)) ∷ list (v 2) (v 1) ∷ []))) }
    ensures four { abstract_pair
        (pair (heap [] (node (v 0) (v 1) (v 2) ∷ list (v 1) (v 3) ∷ node (v 2) null (v 1) ∷ []))
        (state (any 1 ∷ v 0 ∷ []) (Eq (v 4) (v 0) ∷ Ne (v 0) (v 1) ∷ Ne (v 1) (any 4) ∷ [])
        (node (v 0) (v 1) (v 2) ∷ list (v 1) (v 3) ∷ node (v 2) null (v 1) ∷ tree (any 2) (v 1) (v 1) (any 3) ∷ [])))
        int_flow (mark (0 ∷ 1 ∷ []) []) structs
        ≡ Some (pair (heap [] (list (v 0) (v 1) ∷ list (v 1) (v 2) ∷ []))
        (state (any 1 ∷ v 0 ∷ []) (Ne (v 0) (v 1) ∷ []) (list (v 0) (v 1) ∷ list (v 1) (v 2) ∷ Junk ∷ []))) }
    ensures five { abstract_pair
        (pair (heap [] (node (v 1) null (v 4) ∷ node (v 5) (v 0) (v 0) ∷ node (v 0) (v 5) (v 0) ∷ []))
        (state (v 0 ∷ v 0 ∷ v 0 ∷ []) (Ne (v 0) (c (pos 3)) ∷ [])
        (node (v 1) null (v 4) ∷ node (v 5) (v 0) (v 0) ∷ node (v 0) (v 5) (v 0) ∷ [])))
        int_flow (mark (0 ∷ 2 ∷ []) []) structs
        ≡ Some (pair (heap [] (datas (v 0) (v 0) ∷ node (v 1) null (v 2) ∷ []))
        (state (v 0 ∷ v 0 ∷ v 0 ∷ []) (Ne (v 0) (c (pos 3)) ∷ []) (datas (v 0) (v 0) ∷ node (v 1) (any 1) (v 2) ∷ []))) }
    ensures six { abstract_pair (pair (heap [] (tree (v 0) null (v 0) (v 0) ∷ [])) (state (v 0 ∷ v 1 ∷ []) (Ne (v 1) (any 1) ∷ []) []))
        int_flow (mark (1 ∷ []) (1 ∷ [])) structs
        ≡ Some (pair (heap [] (tree (v 0) null (v 0) (v 0) ∷ [])) (state (v 0 ∷ any 1 ∷ []) [] [])) }
    ensures seven { abstract_pair
        (pair (heap (Eq (v 1) (v 0) ∷ []) (tree (v 0) (v 0) (c (negsuc 1)) null ∷ []))
        (state (any 1 ∷ v 0 ∷ []) [] (tree (v 0) (v 0) (c (negsuc 1)) null ∷ right (any 2) (any 1) ∷ [])))
        int_flow (mark (0 ∷ 1 ∷ []) []) structs
        ≡ Some (pair (heap (Eq (v 1) (v 0) ∷ []) (tree (v 0) (v 0) (c (negsuc 1)) null ∷ []))
        (state (any 1 ∷ v 0 ∷ []) [] (tree (v 0) (v 0) (any 2) null ∷ Junk ∷ []))) }
    ensures eight { abstract_pair
        (pair (heap [] (list (v 1) (v 2) ∷ node (v 2) (v 3) (v 4) ∷ []))
        (state (v 1 ∷ v 4 ∷ []) (Ne (v 3) (v 5) ∷ []) (list (v 1) (v 2) ∷ node (v 2) (v 3) (v 4) ∷ [])))
        int_flow (mark [] (1 ∷ [])) structs
        ≡ Some (pair (heap [] (list (v 1) (v 2) ∷ [])) (state (v 1 ∷ any 1 ∷ []) [] (list (v 1) (v 2) ∷ []))) }
{}

/// Pairs at the head of a loop, part 2.
pub fn pairs_two()
    ensures one { abstract_pair
        (pair (heap [] []) (state (v 2 ∷ v 0 ∷ v 0 ∷ []) (Ne (any 1) (v 2) ∷ Ne (any 9) (v 0) ∷ Ne (any 2) (any 4) ∷ []) [])) int_flow
        (mark (2 ∷ []) (2 ∷ [])) structs
        ≡ Some (pair (heap [] []) (state (any 1 ∷ v 0 ∷ any 2 ∷ []) [] [])) }
    ensures two { abstract_pair
        (pair (heap [] (node (v 1) (v 1) (v 2) ∷ node (v 2) (c (pos 3)) (v 1) ∷ []))
        (state (v 1 ∷ c (pos 4) ∷ []) [] (node (v 1) (v 1) (v 2) ∷ node (v 2) (c (pos 3)) (v 1) ∷ [])))
        int_flow (mark (1 ∷ []) []) structs
        ≡ Some (pair (heap [] (list (v 1) (v 1) ∷ [])) (state (v 1 ∷ any 1 ∷ []) [] (list (v 1) (v 1) ∷ []))) }
    ensures three { abstract_pair
        (pair (heap [] (list (v 2) (v 1) ∷ []))
        (state (v 0 ∷ v 1 ∷ []) (Ne (v 0) (v 1) ∷ Ne (any 1) null ∷ []) (list (v 2) (v 1) ∷ [])))
        int_flow (mark (1 ∷ []) []) structs
        ≡ Some (pair (heap [] (list (v 2) (v 1) ∷ [])) (state (v 0 ∷ v 1 ∷ []) (Ne (v 0) (v 1) ∷ []) (list (v 2) (v 1) ∷ []))) }
    ensures four { abstract_pair
        (pair (heap [] (list (v 0) (v 0) ∷ []))
        (state (null ∷ v 1 ∷ c (pos 2) ∷ []) [] (list (v 0) (v 0) ∷ node (any 1) (v 0) (v 4) ∷ [])))
        int_flow (mark [] []) structs
        ≡ Some (pair (heap [] (list (v 0) (v 0) ∷ [])) (state (null ∷ v 1 ∷ c (pos 2) ∷ []) [] (list (v 0) (v 0) ∷ Junk ∷ []))) }
    ensures five { abstract_pair
        (pair (heap [] (list (v 1) (v 2) ∷ list (v 2) (v 3) ∷ []))
        (state (v 4 ∷ v 3 ∷ []) (Ne (v 5) (any 1) ∷ []) (list (v 1) (v 2) ∷ list (v 2) (v 3) ∷ [])))
        int_flow (mark [] []) structs
        ≡ Some (pair (heap [] (list (v 1) (v 2) ∷ [])) (state (any 1 ∷ v 2 ∷ []) [] (list (v 1) (v 2) ∷ []))) }
    ensures six { abstract_pair
        (pair (heap [] (list (v 0) (v 4) ∷ [])) (state (any 2 ∷ any 1 ∷ []) (Ne (v 0) (any 1) ∷ []) (list (v 0) (v 4) ∷ []))) int_flow
        (mark (0 ∷ []) []) structs
        ≡ Some (pair (heap [] (list (v 0) (v 2) ∷ [])) (state (any 1 ∷ any 2 ∷ []) (Ne (v 0) (any 2) ∷ []) (list (v 0) (v 2) ∷ []))) }
    ensures seven { abstract_pair
        (pair (heap [] (tree (v 1) null (c (pos 2)) (v 2) ∷ tree (v 3) (v 4) (v 2) (v 5) ∷ tree (v 4) (v 1) null (v 5) ∷ []))
        (state (any 1 ∷ c (pos 5) ∷ []) [] []))
        int_flow (mark [] (0 ∷ [])) structs
        ≡ Some (pair (heap [] (tree (v 1) null (c (pos 2)) (v 2) ∷ left (v 3) (v 1) ∷ [])) (state (any 1 ∷ c (pos 5) ∷ []) [] [])) }
    ensures eight { abstract_pair (pair (heap [] (node (v 0) (c (pos 4)) (v 0) ∷ [])) (state (v 0 ∷ v 4 ∷ v 5 ∷ v 5 ∷ []) [] [])) int_flow
        (mark (0 ∷ 2 ∷ []) (1 ∷ 2 ∷ [])) structs
        ≡ Some (pair (heap [] (node (v 0) (c (pos 4)) (v 0) ∷ [])) (state (v 0 ∷ any 1 ∷ any 2 ∷ any 3 ∷ []) [] [])) }
{}

/// Pairs at the head of a loop, part 3.
pub fn pairs_three()
    ensures one { abstract_pair
        (pair (heap [] (right (v 1) (v 2) ∷ []))
        (state (null ∷ v 2 ∷ []) [] (list (v 1) null ∷ list (any 1) (v 2) ∷ list (v 3) (v 1) ∷ [])))
        int_flow (mark [] []) structs
        ≡ Some (pair (heap [] (right (v 1) (v 2) ∷ [])) (state (null ∷ v 2 ∷ []) [] (list (v 1) null ∷ list (any 1) (v 1) ∷ Junk ∷ []))) }
    ensures two { abstract_pair
        (pair (heap [] (list (v 1) (v 2) ∷ list (v 2) (v 0) ∷ []))
        (state (any 1 ∷ v 0 ∷ []) (Ne (v 3) null ∷ []) (list (v 1) (v 2) ∷ list (v 2) (v 0) ∷ [])))
        int_flow (mark [] (1 ∷ [])) structs
        ≡ Some (pair (heap [] (list (v 1) (v 0) ∷ [])) (state (any 1 ∷ any 2 ∷ []) [] (list (v 1) (v 0) ∷ []))) }
    ensures three { abstract_pair
        (pair (heap (Eq (v 1) (v 0) ∷ []) (tree (v 0) (v 0) (c (negsuc 1)) (v 0) ∷ []))
        (state (any 1 ∷ null ∷ []) [] (right (v 0) (v 0) ∷ node (any 1) (any 7) (any 3) ∷ [])))
        int_flow (mark (0 ∷ []) []) structs
        ≡ Some (pair (heap (Eq (v 1) (v 0) ∷ []) (tree (v 0) (v 0) (c (negsuc 1)) (v 0) ∷ []))
        (state (any 1 ∷ null ∷ []) [] (right (v 0) (v 0) ∷ node (any 1) (any 2) (any 3) ∷ []))) }
    ensures four { abstract_pair
        (pair (heap [] (node (v 0) (c (pos 2)) (v 1) ∷ []))
        (state (v 1 ∷ v 0 ∷ null ∷ []) (Ne (any 9) (c (pos 3)) ∷ Ne (any 2) (any 3) ∷ []) []))
        int_flow (mark (1 ∷ []) (0 ∷ [])) structs
        ≡ Some (pair (heap [] (node (v 0) (c (pos 2)) (v 1) ∷ [])) (state (any 1 ∷ v 0 ∷ null ∷ []) [] [])) }
{}

/// Candidates of a recursive component, part 1.
pub fn candidates_one()
    ensures one { abstract_pre
        (heap (Ne (v 3) (v 2) ∷ [])
        (node (v 3) (v 0) (v 4) ∷ node (v 5) (v 3) (v 1) ∷ node (v 1) (c (pos 1)) (v 2) ∷ list (v 2) (v 0) ∷ list (v 0) (v 5) ∷ []))
        2
        ≡ Some (heap (Ne (v 3) (v 4) ∷ []) (list (v 0) (v 2) ∷ list (v 1) (v 0) ∷ datas (v 2) (v 0) ∷ [])) }
    ensures two { abstract_pre (heap (Eq (v 0) null ∷ []) (list (v 4) (v 3) ∷ [])) 2 ≡
        Some (heap (Eq (v 0) null ∷ []) (list (v 2) (v 3) ∷ [])) }
    ensures three { abstract_pre (heap [] (tree (v 1) (v 4) (v 3) (v 3) ∷ tree (v 4) (v 5) (v 5) null ∷ tree (v 5) (v 2) (v 1) (v 2) ∷ []))
        2
        ≡ Some (heap [] (left (v 1) (v 2) ∷ [])) }
    ensures four { abstract_pre (heap (Eq (v 1) (v 0) ∷ []) (node (v 2) (c (pos 1)) (v 0) ∷ node (v 0) (c (negsuc 1)) (v 2) ∷ [])) 2 ≡
        Some (heap (Eq (v 1) (v 0) ∷ []) (list (v 0) (v 0) ∷ [])) }
    ensures five { abstract_pre (heap (Ne (v 0) (v 2) ∷ []) (left (v 1) null ∷ tree (v 2) (v 2) null null ∷ [])) 2 ≡
        Some (heap (Ne (v 0) (v 2) ∷ []) (left (v 1) null ∷ tree (v 2) (v 2) null null ∷ [])) }
    ensures six { abstract_pre
        (heap [] (node (v 4) (v 2) (v 1) ∷ node (v 1) (v 4) (v 0) ∷ list (v 0) (v 2) ∷ node (v 2) (v 4) (v 3) ∷ list (v 3) (v 0) ∷ []))
        2
        ≡ Some (heap [] (list (v 0) (v 2) ∷ datas (v 1) (v 2) ∷ list (v 2) (v 0) ∷ [])) }
    ensures seven { abstract_pre (heap (Ne (v 3) (v 1) ∷ []) (tree (v 0) null (c (pos 4)) (v 2) ∷ tree (v 2) null (v 0) (v 3) ∷ [])) 2 ≡
        Some (heap (Ne (v 1) (v 2) ∷ []) (right (v 0) (v 2) ∷ [])) }
    ensures eight { abstract_pre (heap [] (list (v 1) (v 4) ∷ [])) 2 ≡
        Some (heap [] (list (v 1) (v 2) ∷ [])) }
{}

/// Candidates of a recursive component, part 2.
pub fn candidates_two()
    ensures one { abstract_pre (heap [] (tree (v 3) null null (v 2) ∷ tree (v 2) null null null ∷ [])) 2 ≡
        Some (heap [] (right (v 2) null ∷ [])) }
    ensures two { abstract_pre (heap (Ne (v 3) (v 0) ∷ []) (node (v 2) (v 0) (v 3) ∷ node (v 3) (v 2) (v 0) ∷ [])) 2 ≡
        Some (heap (Ne (v 0) (v 3) ∷ []) (list (v 2) (v 0) ∷ [])) }
    ensures three { abstract_pre (heap [] (node (v 1) (v 1) (v 2) ∷ list (v 2) (v 3) ∷ list (v 3) (v 1) ∷ [])) 2 ≡
        Some (heap [] (list (v 1) (v 1) ∷ [])) }
    ensures four { abstract_pre (heap [] (left (v 1) (v 1) ∷ left (v 0) (v 3) ∷ [])) 2 ≡
        Some (heap [] (left (v 0) (v 2) ∷ left (v 1) (v 1) ∷ [])) }
    ensures five { abstract_pre (heap [] (node (v 3) (v 2) (v 2) ∷ node (v 2) null (v 3) ∷ [])) 2 ≡
        Some (heap [] (list (v 2) (v 2) ∷ [])) }
    ensures six { abstract_pre (heap [] (left (v 4) (v 0) ∷ tree (v 1) (v 4) (c (negsuc 1)) (v 2) ∷ [])) 2 ≡
        Some (heap [] (left (v 1) (v 0) ∷ [])) }
{}

/// A join can make a contradiction of a normal state: of `a!=0 * a!=b * ls(a,?1) * ls(?1,0) * ls(a,b)`, with both segments from `a`
/// then known not to be empty. (By hand.)
pub fn contradictions()
    ensures { abstract_head
        (state [] (Ne (v 0) null ∷ Ne (v 0) (v 1) ∷ []) (list (v 0) (any 1) ∷ list (any 1) null ∷ list (v 0) (v 1) ∷ [])) int_flow
        (mark [] []) structs
        ≡ None }
{}
