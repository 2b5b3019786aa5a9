//! Components by the places of procedures in their program.
use shape_data::Name;

/// A procedure outside of a component that one of its members calls.
#[derive(Clone, Copy, PartialEq, Eq, Debug)]
pub struct Outer {
    /// The procedure's place in the program.
    pub number: u32,
    /// The place of its component.
    pub component: u32,
}

/// A component of a program.
#[derive(Drop)]
pub struct Component {
    /// The places of its procedures in the program, in order of their names.
    pub members: Vec<u32>,
    /// The procedures outside that they call, in order of their names.
    pub outer: Vec<Outer>,
}

/// The structures of a program by their places: whom the fields of each one point to, their names, and the places in order of the names.
#[derive(Drop)]
pub struct Structures {
    pub pointed: Vec<Vec<u32>>,
    pub names: Vec<Name>,
    pub order: Vec<u32>,
}
