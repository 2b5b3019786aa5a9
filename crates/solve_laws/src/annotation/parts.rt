//! What comes of an annotation.
use shape_data::Row;
use shape_data::answer::{Budget, Fault};
use shape_data::symbolic::{Cert, Post};

/// What comes of an annotation.
#[derive(Drop, Debug)]
pub enum Annotated {
    /// Nothing fails: the posts, and the certificate.
    Done { posts: Row<Post>, cert: Cert },
    /// The fault of the first state whose execution fails. The line counts as that of a node.
    Fail { fault: Fault, line: u32 },
    /// A budget was used up, at this count.
    Spent { what: Budget, count: u32 },
}
