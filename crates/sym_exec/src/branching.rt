//! The row of Branch.
ghost use Rattle.std.specs.Prelude.{◌≡◌, ◌++◌, if◌then◌else◌, IfOk};
ghost use Rattle.shape_data.specs.Machine.{test_passes};
ghost use Rattle.exec_laws.specs.Branching.{
  are_equal as are_equal_of,
  branch as branch_of,
  branch_equal as branch_equal_of,
  branch_on as branch_on_of,
  branch_other as branch_other_of,
  branch_unequal as branch_unequal_of,
  passes as passes_of,
  where_test_is as where_test_is_of,
};
ghost use Rattle.exec_cells.specs.InSetting.{setting_in};

use exec_cells::cells::goes_on;
use exec_cells::pairs::{where_true, where_true_in_state};
use exec_cells::setting::Setting;
use exec_cells::values::{on_alone, operand};
use exec_laws::Case;
use shape_data::copy_of;
use shape_data::program::{Operand, TestOp};
use shape_data::symbolic::{Exp, Fact, SymHeap};
use std::alloc::{AllocError, Global};
use sym_canon::Pair;
use sym_parts::is_same_exp;
use sym_pure::differs;

/// The nodes of the two sides of a test.
#[derive(Clone, Copy)]
pub struct Sides {
    pub yes: u32,
    pub no: u32,
}

impl Sides {
    /// The node of the side that is taken.
    fn taken(self, passed: bool) -> u32
        ensures { result ≡ (if passed then self.yes else self.no) }
    {
        if passed { self.yes } else { self.no }
    }
}

/// Whether two expressions are equal, where equal expressions or a known difference decide it.
fn are_equal(heap: &SymHeap, e: Exp, f: Exp) -> Option<bool>
    ensures { result ≡ are_equal_of heap.now e f }
{
    if is_same_exp(e, f) {
        Some(true)
    } else if differs(heap, e, f) {
        Some(false)
    } else {
        None
    }
}

/// A comparison of two constants.
fn compared(op: TestOp, left: i32, right: i32) -> bool
    ensures { result ≡ test_passes op left right }
{
    match op {
        TestOp::Eq => left == right,
        TestOp::Ne => left != right,
        TestOp::Lt => left < right,
        TestOp::Le => left <= right,
        TestOp::Gt => left > right,
        TestOp::Ge => left >= right,
    }
}

/// Whether another test passes, where two constants or one same expression decide it.
fn passes(op: TestOp, e: Exp, f: Exp) -> Option<bool>
    ensures { result ≡ passes_of op e f }
{
    match (e, f) {
        (Exp::Const(m), Exp::Const(n)) => Some(compared(op, m, n)),
        _ => {
            if is_same_exp(e, f) {
                Some(compared(op, 0, 0))
            } else {
                None
            }
        }
    }
}

/// The case in which a fact is true. The fact of a test of pointers is missing too.
fn where_test_is(
    alloc: Global,
    setting: &Setting,
    pointers: bool,
    fact: Fact,
    next: u32,
    pair: Pair,
) -> Result<Vec<Case>, AllocError>
    ensures { IfOk result (λ cases. cases.items ≡ where_test_is_of (setting_in setting.now) pointers fact next pair) }
{
    let made = if pointers {
        where_true(alloc, setting, fact, pair)?
    } else {
        where_true_in_state(alloc, setting, fact, pair)?
    };
    goes_on(alloc, next, made)
}

/// Both cases of a test of equality that nothing decides, with the fact of each.
fn both_cases(
    alloc: Global,
    setting: &Setting,
    pointers: bool,
    yes: Fact,
    no: Fact,
    sides: Sides,
    pair: Pair,
) -> Result<Vec<Case>, AllocError>
    ensures { IfOk result (λ cases. cases.items
        ≡ where_test_is_of (setting_in setting.now) pointers yes sides.yes pair
        ++ where_test_is_of (setting_in setting.now) pointers no sides.no pair) }
{
    let mut cases = where_test_is(alloc, setting, pointers, yes, sides.yes, copy_of(&pair)?)?;
    let mut others = where_test_is(alloc, setting, pointers, no, sides.no, pair)?;
    cases.append(&mut others)?;
    Ok(cases)
}

/// Branch on `==`.
fn branch_equal(
    alloc: Global,
    setting: &Setting,
    pointers: bool,
    e: Exp,
    f: Exp,
    sides: Sides,
    pair: Pair,
) -> Result<Vec<Case>, AllocError>
    ensures { IfOk result (λ cases. cases.items
        ≡ branch_equal_of (setting_in setting.now) pointers e f sides.yes sides.no pair (are_equal_of pair.state.heap e f)) }
{
    match are_equal(&pair.state.heap, e, f) {
        Some(equal) => on_alone(alloc, sides.taken(equal), pair),
        None => both_cases(
            alloc,
            setting,
            pointers,
            Fact::Eq(e, f),
            Fact::Ne(e, f),
            sides,
            pair,
        ),
    }
}

/// Branch on `!=`.
fn branch_unequal(
    alloc: Global,
    setting: &Setting,
    pointers: bool,
    e: Exp,
    f: Exp,
    sides: Sides,
    pair: Pair,
) -> Result<Vec<Case>, AllocError>
    ensures { IfOk result (λ cases. cases.items
        ≡ branch_unequal_of (setting_in setting.now) pointers e f sides.yes sides.no pair (are_equal_of pair.state.heap e f)) }
{
    match are_equal(&pair.state.heap, e, f) {
        Some(equal) => on_alone(alloc, sides.taken(!equal), pair),
        None => both_cases(
            alloc,
            setting,
            pointers,
            Fact::Ne(e, f),
            Fact::Eq(e, f),
            sides,
            pair,
        ),
    }
}

/// Branch on another test: what decides, else both sides, with no fact.
fn branch_other(
    alloc: Global,
    op: TestOp,
    e: Exp,
    f: Exp,
    sides: Sides,
    pair: Pair,
) -> Result<Vec<Case>, AllocError>
    ensures { IfOk result (λ cases. cases.items ≡ branch_other_of sides.yes sides.no pair (passes_of op e f)) }
{
    match passes(op, e, f) {
        Some(passed) => on_alone(alloc, sides.taken(passed), pair),
        None => {
            let mut cases = on_alone(alloc, sides.yes, copy_of(&pair)?)?;
            cases.push(Case::On {
                node: sides.no,
                pair,
            })?;
            Ok(cases)
        }
    }
}

/// Branch on a test of two expressions.
fn branch_on(
    alloc: Global,
    setting: &Setting,
    op: TestOp,
    pointers: bool,
    e: Exp,
    f: Exp,
    sides: Sides,
    pair: Pair,
) -> Result<Vec<Case>, AllocError>
    ensures { IfOk result (λ cases. cases.items ≡ branch_on_of (setting_in setting.now) op pointers e f sides.yes sides.no pair) }
{
    match op {
        TestOp::Eq => branch_equal(alloc, setting, pointers, e, f, sides, pair),
        TestOp::Ne => branch_unequal(alloc, setting, pointers, e, f, sides, pair),
        TestOp::Lt => branch_other(alloc, op, e, f, sides, pair),
        TestOp::Le => branch_other(alloc, op, e, f, sides, pair),
        TestOp::Gt => branch_other(alloc, op, e, f, sides, pair),
        TestOp::Ge => branch_other(alloc, op, e, f, sides, pair),
    }
}

/// Branch: what decides the test; else both sides, `yes` first.
pub fn branch(
    alloc: Global,
    setting: &Setting,
    op: TestOp,
    pointers: bool,
    left: Operand,
    right: Operand,
    sides: Sides,
    pair: Pair,
) -> Result<Vec<Case>, AllocError>
    ensures { IfOk result (λ cases. cases.items ≡ branch_of (setting_in setting.now) op pointers left right sides.yes sides.no pair) }
{
    let e = operand(&pair, left);
    let f = operand(&pair, right);
    branch_on(alloc, setting, op, pointers, e, f, sides, pair)
}
