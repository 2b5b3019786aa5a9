//! Types whose `==` and `clone` are exact: `==` is true exactly where two values are the same as contracts see
//! them, and a clone is the value that it was made from. A derived `==` or `clone` says only what those of the
//! fields say; this trait adds the law, for each data type of this crate and for lists and options of such types.
ghost use Rattle.std.specs.Prelude.{◌≡◌, ◌↔◌, IsTrue, IfOk};

use std::alloc::AllocError;
use std::sync::Arc;

mod answer;
mod machine;
mod program;
mod symbolic;

/// A type whose `==` answers whether two values are the same, and whose `clone` gives the same value.
/// Generic code has both laws under the bound `T: Exact`; [`is_same`] and [`copy_of`] are their plain forms.
pub trait Exact: Eq + Clone {
    ghost use Rattle.std.specs.Prelude.{◌≡◌};
    ghost use Rattle.std.specs.Bool.{Decides};

    ghost eq_is_same: { (x y : Self) → Decides (Self.eq x y) (x ≡ y) };

    ghost clone_is_same: { (x y : Self) → Self.is_clone x y → y ≡ x };
}

/// Whether two values are the same.
pub fn is_same<T: Exact>(a: &T, b: &T) -> bool
    ensures { IsTrue result ↔ (a.now ≡ b.now) }
{
    a == b
}

/// The same value again, in memory of its own.
pub fn copy_of<T: Exact>(value: &T) -> Result<T, AllocError>
    ensures { IfOk result (λ copied. copied ≡ value.now) }
{
    value.clone()
}

/// Whether two shared values are the same, wherever they lie.
pub fn is_same_shared<T: Exact>(a: &Arc<T>, b: &Arc<T>) -> bool
    ensures { IsTrue result ↔ (a.now.value ≡ b.now.value) }
{
    let left: &T = a;
    let right: &T = b;
    is_same(left, right)
}

/// One more owner of a shared value. std's `clone` of an `Arc` says the same of its result, but as
/// `arc_value`; this is its plain form.
pub fn share<T: Drop>(value: &Arc<T>) -> Result<Arc<T>, AllocError>
    ensures { IfOk result (λ shared. shared.value ≡ value.now.value) }
{
    value.clone()
}

impl Exact for bool {
    ghost use Rattle.shape_data.specs.Exact.{bool_same, itself};

    ghost eq_is_same = { bool_same };

    ghost clone_is_same = { itself };
}

impl Exact for u32 {
    ghost use Rattle.shape_data.specs.Exact.{number_same, itself};

    ghost eq_is_same = { number_same };

    ghost clone_is_same = { itself };
}

impl Exact for u64 {
    ghost use Rattle.shape_data.specs.Exact.{number_same, itself};

    ghost eq_is_same = { number_same };

    ghost clone_is_same = { itself };
}

impl Exact for i32 {
    ghost use Rattle.shape_data.specs.Exact.{signed_same, itself};

    ghost eq_is_same = { signed_same };

    ghost clone_is_same = { itself };
}

impl Exact for i128 {
    ghost use Rattle.shape_data.specs.Exact.{signed_same, itself};

    ghost eq_is_same = { signed_same };

    ghost clone_is_same = { itself };
}

impl<T: Exact> Exact for Option<T> {
    ghost use Rattle.shape_data.specs.Exact.{option_same, option_copied};

    ghost eq_is_same = { option_same T.eq_is_same };

    ghost clone_is_same = { option_copied _ (λ _ _ h. h) (λ _ h. h) (λ _ h. h) T.clone_is_same };
}
