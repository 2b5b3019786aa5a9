//! Why a program has no flow form.
use c_types::UnitsFault;

/// Why a program has no flow form: the first refusal in the order of the text. The codes are 131, a procedure of more than 512 nodes;
/// 132, one of more than 32 parameters and locals, or more than 16 temporaries; 133, one of more than 8 parameters; and 134, a
/// structure of more than 16 fields.
pub type LowerFault = UnitsFault;
