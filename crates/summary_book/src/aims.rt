//! Aims: for which components answers are wanted.
use shape_data::Name;

/// Which components are wanted.
#[derive(Drop)]
pub enum Aim {
    /// Every component.
    All,
    /// The component of the procedure of this name, and those that it calls, directly or not. A name that the present program does
    /// not define reaches none.
    One(Name),
}
