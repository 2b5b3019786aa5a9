//! What is not valid and what is not met, so that a definition that says less is noticed: each law here fails where a fault is
//! allowed, where a frame may change, where a sum's parts may share a cell, or where a post may choose the logical variables anew.
ghost use Rattle.std.specs.Prelude.{pos};
ghost use Rattle.shape_data.specs.declared.symbolic.Exp.TheVariants.{Const, Var};
ghost use Rattle.shape_data.specs.Valid.{Valid};
ghost use Rattle.sym_parts.specs.Shapes.Examples.{bad_flow};
ghost use Rattle.sym_parts.specs.Shapes.Refuted.{
  CycleMeets,
  IsNeverValid,
  NoEmptySegment,
  TwoCellsAreApart,
  cell_at_x,
  drop_flow,
  list_between,
  set_flow,
};
ghost use Rattle.sym_parts.specs.Shapes.Returns.{identity_program, returns_value};
ghost use Rattle.sym_parts.specs.Shapes.Symbolic.{emp};

/// `int id(int a){return a;}` does not return 2 whatever a is, nor the value of a logical variable that is not a.
pub fn wrong_result_is_not_valid()
    ensures number { ¬ Valid identity_program 0 (returns_value (Const (pos 2))) }
    ensures variable { ¬ Valid identity_program 0 (returns_value (Var 1)) }
{}

/// A read of a freed cell is a fault: with the cell as precondition no posts are right.
pub fn use_after_free_is_not_valid()
    ensures { IsNeverValid bad_flow cell_at_x }
{}

/// What a procedure frees or writes beside its precondition is the frame's, which has to stay: no posts are right of
/// `free(x)` from `ls[node.next](x,x)`, which may be empty, and of `x->data = 1` from `emp`.
pub fn frame_stays()
    ensures freed { IsNeverValid drop_flow (list_between (Var 0) (Var 0)) }
    ensures written { IsNeverValid set_flow emp }
{}

/// A segment from an address to itself may be a cycle; one between different addresses is not empty.
pub fn segments_have_cells()
    ensures cycle { CycleMeets }
    ensures apart { NoEmptySegment }
{}

/// Two atoms share no cell, so two cells at one address are met by nothing.
pub fn two_cells_are_apart()
    ensures { TwoCellsAreApart }
{}
