//! What was emitted, as the body of a procedure.
ghost use Rattle.std.specs.Prelude.{◌≡◌, IfOk, map};
ghost use Rattle.c_lower_rules.specs.Programs.{temp_kind};
ghost use Rattle.c_types_names.specs.Seen.{type_seen};
ghost use Rattle.c_lower_emit.specs.Seen.{temp_seen};
ghost use Rattle.c_lower.specs.Closing.{IsFinished};

use crate::body::Body;
use c_lower_emit::drafts::nodes;
use c_lower_emit::output::{Output, Parts};
use c_lower_emit::temps::Temp;
use c_types_names::kinds::CType;
use std::alloc::{AllocError, Global};

/// The types of temporaries.
fn kinds<'a>(alloc: Global, temps: &[Temp<'a>]) -> Result<Vec<CType<'a>>, AllocError>
    ensures { IfOk result (λ kinds. map type_seen kinds.items ≡ map temp_kind (map temp_seen temps.now)) }
{
    let mut kinds = Vec::new(alloc);
    for temp in temps {
        kinds.push(temp.kind)?;
    }
    Ok(kinds)
}

/// The nodes, loops and temporaries.
pub fn body_of<'a>(alloc: Global, out: Output<'a>) -> Result<Body<'a>, AllocError>
    ensures { IfOk result (λ body. IsFinished out.entry body) }
{
    let Parts {
        nodes: drafts,
        temps,
        loops,
    } = out.into_parts();
    let temps = kinds(alloc, temps.as_slice())?;
    let nodes = nodes(alloc, drafts)?;
    Ok(Body {
        nodes,
        loops,
        temps,
    })
}
