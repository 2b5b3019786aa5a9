//! A recursive procedure, valid by its certificate, which uses the very spec that is shown.
ghost use Rattle.shape_data.specs.Valid.{Valid};
ghost use Rattle.sound_laws.specs.Certificates.{IsClaimed, SupportEachOther};
ghost use Rattle.sound_laws.specs.Examples.{down_callees, down_claims, down_program, down_spec};

/// `int down(int a) { if (a == 0) return 7; int r = down(a - 1); return r; }` returns 7, if it returns.
pub fn recursive_procedure_is_valid()
    ensures supported { SupportEachOther down_program down_callees (IsClaimed down_claims) }
    ensures valid { Valid down_program 0 down_spec }
{}
