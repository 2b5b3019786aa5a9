//! Annotation of a precondition as code: states are executed, and what comes of them is listed, until nothing new comes; the posts are
//! taken from the exits, and all that is listed is the certificate. It answers the value of the definition in
//! `solve_laws::annotation`, whose laws say that what it gives is inductive, and stands on the code of `certificate_steps` for what comes
//! to a node and for coverings.
#![tactic(auto)]

mod annotating;
mod listing;
mod turns;

pub use annotating::annotate;
pub use certificate_steps::Task;
pub use solve_laws::annotation::Annotated;
