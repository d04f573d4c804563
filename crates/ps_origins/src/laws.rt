//! Laws of the origins of rules.

ghost use Rattle.ps_origins.specs.Besides.{OriginsStandBesideRules};

/// The rules of a compiled program and their origins, each in its order, come from the same rules of the source, rule
/// by rule: so there is one origin for each.
pub fn origins_stand_beside_rules()
    ensures { OriginsStandBesideRules }
{}
