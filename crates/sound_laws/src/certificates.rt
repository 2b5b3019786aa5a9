//! Inductive certificates: what they claim is valid. The proof goes by induction on the number of choices, for all claims at once,
//! so that recursion needs nothing more than loops do.
ghost use Rattle.sound_laws.specs.Certificates.{CasesGoOn, ClaimsAreValid};

/// What is claimed by certificates that support each other is valid.
pub fn claims_are_valid()
    ensures { ClaimsAreValid }
{}

/// A state goes on within a certificate where each of its cases does.
pub fn cases_go_on()
    ensures { CasesGoOn }
{}
