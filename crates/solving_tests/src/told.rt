//! What answers tell of procedures.
use shape_data::answer::{Answer, Fault, Reason};

/// How many specs a procedure has, and why there is none.
pub type Told = (usize, Option<Reason>);

/// No path of a procedure comes to its end, for a call on line 1 that fits no spec.
pub const NO_PATH: Reason = Reason::NoPath {
    fault: Fault::Callee,
    line: 1,
};

/// Whether an answer tells this of its procedures, in order, and of no others.
pub fn tells(answer: &Answer, wanted: &[Told]) -> bool {
    let summaries = answer.procs.as_slice();
    for (summary, told) in summaries.iter().zip(wanted) {
        if summary.specs.len() != told.0 || summary.reason != told.1 {
            return false;
        }
    }
    summaries.len() == wanted.len()
}
