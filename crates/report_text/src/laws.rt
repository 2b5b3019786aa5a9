//! What is well formed within any limits can be printed, so that the condition of [`block`](crate::block) is met by every
//! answer of an analysis and every answer of a store.
ghost use Rattle.report_text.specs.Parts.{FormedIsPrintable, StorableIsPrintable};

use sym_text::laws::well_formed_spec_is_shaped;

/// A summary that is well formed within any limits, and that has a spec or a reason, can be printed.
pub fn formed_is_printable()
    ensures { FormedIsPrintable }
{
    well_formed_spec_is_shaped();
}

/// A summary that a store may hold, and that has a spec or a reason, can be printed.
pub fn storable_is_printable()
    ensures { StorableIsPrintable }
{
    formed_is_printable();
}
