//! What holds of the specifications of all files.
ghost use Rattle.std.specs.Prelude.{◌≡◌, ℕ, List};
ghost use Rattle.jm_model.specs.declared.fault.SpecFault.{SpecFault};
ghost use Rattle.jm_inputs.specs.Specifications.{Specification, IsSpecification, IsSpecFault};

/// One reading: no bytes say two specifications, or a specification and a fault.
pub fn one_reading()
    ensures one { (bytes : List ℕ) (s t : Specification) → IsSpecification bytes s → IsSpecification bytes t → s ≡ t }
    ensures never_both { (bytes : List ℕ) (s : Specification) (fault : SpecFault) → IsSpecification bytes s
        → IsSpecFault bytes fault → ⊥ }
{}
