//! What is found where a certificate is not inductive.
use shape_data::answer::Fault;

/// The first place of a spec's certificate that fails.
#[derive(Clone, Copy, PartialEq, Eq, Debug)]
pub struct SpecGap {
    /// Why its execution fails; `Cover` where something is not covered.
    pub fault: Fault,
    /// The line of its node, which counts as that of a node. At the entry and at a post it is that of node 0.
    pub line: u32,
}

/// The first place of an answer that fails.
#[derive(Clone, Copy, PartialEq, Eq, Debug)]
pub struct Gap {
    /// The place of the procedure in the key.
    pub proc: u32,
    /// The place of the spec in the procedure's summary.
    pub spec: u32,
    /// The line of the place, as in [`SpecGap`].
    pub line: u32,
    /// Why it fails, as in [`SpecGap`].
    pub fault: Fault,
}
