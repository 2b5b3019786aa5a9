//! The rules for a wanted cell, one after the other.
ghost use Rattle.std.specs.Prelude.{◌≡◌, ◌+◌, ◌<◌, IfOk, length, position};
ghost use Rattle.sym_matching.specs.NewVariables.{HasRoom};
ghost use Rattle.sym_matching.specs.Steps.{whole as whole_of};
ghost use Rattle.sym_matching.specs.WantedCells.{
  is_to_unfold as is_to_unfold_of,
  unfold_place as unfold_place_of,
  want_cell as want_cell_of,
};
ghost use Rattle.sym_matching.specs.RuleSteps.InSetting.{rules_in};

use crate::cells::{place_of_segment, take_cell, take_unfolded};
use crate::missing_cells::want_missing;
use shape_data::Name;
use shape_data::symbolic::Exp;
use std::alloc::{AllocError, Global};
use sym_canon::place_of_cell;
use sym_matching::rule_steps::reading::Setting;
use sym_matching::{Matching, Turned};

/// A wanted cell, where no cell is at the expression: one out of a segment, or one that is missing.
fn want_out_of_segment(
    alloc: Global,
    setting: &Setting,
    number: u32,
    kind: &Name,
    wants: &[Exp],
    e: Exp,
    m: Matching,
) -> Result<Turned, AllocError>
    requires room { HasRoom (length wants.now) m.used }
    requires names { m.next + length wants.now < 4294967296 }
    ensures { IfOk result (λ turned. turned
        ≡ unfold_place_of (rules_in setting.now) number kind.now wants.now e m
        (position (is_to_unfold_of (whole_of (rules_in setting.now) m) e kind.now) m.left)) }
{
    match place_of_segment(alloc, setting, e, kind, &m)? {
        Some(place) => take_unfolded(alloc, setting, number, wants, m, place),
        None => want_missing(alloc, setting, number, kind, wants, e, m),
    }
}

/// A cell of the kind with these fields is wanted at an expression, which is read. There is room for a new variable for each
/// field, existential or logical.
pub fn want_cell(
    alloc: Global,
    setting: &Setting,
    number: u32,
    kind: &Name,
    wants: &[Exp],
    e: Exp,
    m: Matching,
) -> Result<Turned, AllocError>
    requires room { HasRoom (length wants.now) m.used }
    requires names { m.next + length wants.now < 4294967296 }
    ensures { IfOk result (λ turned. turned ≡ want_cell_of (rules_in setting.now) number kind.now wants.now e m) }
{
    match place_of_cell(e, m.left.as_slice()) {
        Some(place) => take_cell(setting, number, kind, wants, m, place),
        None => want_out_of_segment(alloc, setting, number, kind, wants, e, m),
    }
}
