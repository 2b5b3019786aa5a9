//! Parameters, which texts of heaps are over, and which must be well formed before one is read.
ghost use Rattle.std.specs.Prelude.{◌≡◌, Some, IfOk, IfErr};
ghost use Rattle.serde_json.specs.View.{view};
ghost use Rattle.shape_data.specs.WellFormed.{AreParams};
ghost use Rattle.flow_json.specs.Unread.{IsUnread};
ghost use Rattle.summary_json.specs.Params.{are_params, read_params};

use flow_json::{Unread, read_list};
use serde_json::Value;
use shape_data::{Name, Row, are_params};
use std::alloc::Global;

/// The parameters of an array of names, if they are well formed.
#[tactic(auto, using(crate::proofs::ParamLaws::are_good_params, crate::proofs::ParamLaws::are_no_params), unfolding(flow_json::specs::Forms::go_on))]
pub fn read_params(alloc: Global, value: &Value) -> Result<Row<Name>, Unread>
    ensures ok { IfOk result (λ params. read_params (view value.now) ≡ Some params) }
    ensures formed { IfOk result AreParams }
    ensures err { IfErr result (λ fault. IsUnread fault (read_params (view value.now))) }
{
    let params: Row<Name> = read_list(alloc, value)?;
    if are_params(params.as_slice()) {
        Ok(params)
    } else {
        Err(Unread::NotOfForm)
    }
}
