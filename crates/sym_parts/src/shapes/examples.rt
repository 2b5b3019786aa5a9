//! Worked runs of three small procedures, each by computation: one that reads a field, one that makes a
//! cell, one that reads what it freed.
ghost use Rattle.std.specs.Prelude.{◌≡◌, pos, [], ◌∷◌};
ghost use Rattle.shape_data.specs.declared.answer.Fault.TheVariants as fault;
ghost use Rattle.shape_data.specs.declared.machine.Choice.TheVariants as choice;
ghost use Rattle.shape_data.specs.declared.machine.Outcome.TheVariants as outcome;
ghost use Rattle.shape_data.specs.Machine.{start};
ghost use Rattle.sym_parts.specs.Shapes.Examples.{bad_flow, get_flow, make_flow, node_cell, run_of};

/// `get` reads the field of its node: of a live one, of none, and with no choice it has not begun.
pub fn get_runs()
    ensures live { let heap = node_cell (pos 1) (pos 7) (pos 0) ∷ [] in run_of get_flow (pos 1) heap (choice.Go ∷ choice.Go ∷ [])
        ≡ outcome.Returned (pos 7) heap }
    ensures null { run_of get_flow (pos 0) [] (choice.Go ∷ choice.Go ∷ []) ≡ outcome.Fault 2 fault.Null }
    ensures unbegun { let heap = node_cell (pos 1) (pos 7) (pos 0) ∷ [] in run_of get_flow (pos 1) heap []
        ≡ outcome.Running (start get_flow 0 (pos 1 ∷ []) heap) }
{}

/// `mk` makes a node and writes its argument there: with no memory it faults on line 4, the line of the
/// write. An address that is 0, or that is live, is no choice for the new cell.
pub fn make_runs()
    ensures null { run_of make_flow (pos 5) [] (choice.Null ∷ choice.Go ∷ []) ≡ outcome.Fault 4 fault.Null }
    ensures made { run_of make_flow (pos 5) [] (choice.Cell (pos 9) (pos 0 ∷ pos 0 ∷ []) ∷ choice.Go ∷ choice.Go ∷ [])
        ≡ outcome.Returned (pos 9) (node_cell (pos 9) (pos 5) (pos 0) ∷ []) }
    ensures at_zero { run_of make_flow (pos 5) [] (choice.Cell (pos 0) (pos 0 ∷ pos 0 ∷ []) ∷ []) ≡ outcome.BadChoice 0 }
    ensures at_live { run_of make_flow (pos 5) (node_cell (pos 9) (pos 1) (pos 0) ∷ []) (choice.Cell (pos 9) (pos 0 ∷ pos 0 ∷ []) ∷ [])
        ≡ outcome.BadChoice 0 }
{}

/// `bad` reads the node that it freed.
pub fn bad_runs()
    ensures { run_of bad_flow (pos 1) (node_cell (pos 1) (pos 0) (pos 0) ∷ []) (choice.Go ∷ choice.Go ∷ [])
        ≡ outcome.Fault 2 fault.Unowned }
{}
