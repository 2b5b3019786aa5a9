//! Junk takes in whatever stands beside it.
ghost use Rattle.sym_parts.specs.Laws.Junks.{JunkAbsorbs, JunkForgets, OneJunkIsEnough};

/// Beside Junk any more memory may stand.
pub fn junk_absorbs()
    ensures { JunkAbsorbs }
{}

/// Beside Junk any atoms may be forgotten.
pub fn junk_forgets()
    ensures { JunkForgets }
{}

/// One Junk says as much as several.
pub fn one_junk_is_enough()
    ensures { OneJunkIsEnough }
{}
