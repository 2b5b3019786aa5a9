//! The fields of structures are counted (C11 6.7.2.1).
ghost use Rattle.std.specs.Prelude.{◌≡◌, nat_le, length, map};
ghost use Rattle.c_types_rules.specs.Items.{field_names};
ghost use Rattle.c_lower_rules.specs.Programs.{MOST_FIELDS, fields_refusals};
ghost use Rattle.c_tree.specs.Syntax.{fields_tree};
ghost use Rattle.c_types_names.specs.FirstRefusal.{with_refusals};

use c_tree::{FieldDecl, Place};
use c_types_names::first_refusal::FirstRefusal;

/// Most fields of a structure.
const MOST_FIELDS: usize = 16;

/// A structure with more fields than that.
const FIELDS: u16 = 134;

/// Whether there are no more than so many fields.
fn are_few(lines: &[FieldDecl]) -> bool
    ensures { result ≡ nat_le (length (field_names (map fields_tree lines.now))) MOST_FIELDS }
{
    let mut left = MOST_FIELDS;
    for line in lines {
        let others = line.declarators.others.len();
        if left <= others {
            return false;
        }
        left -= others + 1;
    }
    true
}

/// Refuses a structure with too many fields.
pub fn fields_refusals(place: Place, lines: &[FieldDecl], first: &mut FirstRefusal)
    ensures { first.new ≡ with_refusals first.old (fields_refusals place (map fields_tree lines.now)) }
{
    first.unless(are_few(lines), place, FIELDS);
}
