//! Laws of certificates, each the contract of a function that does nothing.

ghost use Rattle.std.specs.Prelude.{◌≡◌, ◌↔◌};
ghost use Rattle.vs_certificate.specs.declared.members.Certificate.{Certificate};
ghost use Rattle.vs_certificate.specs.JsonValue.{value_of};
ghost use Rattle.vs_certificate.specs.Sameness.{IsSame};

/// A JSON value has at most one certificate: two have the same value exactly where they have the same members.
pub fn value_has_one_certificate()
    ensures { (c d : Certificate) → (value_of c ≡ value_of d) ↔ IsSame c d }
{}
