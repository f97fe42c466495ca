//! Laws of the definitions that contracts on violations cite. The functions do nothing: the
//! contract is the law.
ghost use Rattle.ras_validation.specs.Violations.{ViolationsStandTogether, ViolationsOfParts, OnlyKindsWithRules};

/// The violations of a tree are those at the nodes before a subtree in preorder, those in it, and
/// those at the nodes after it.
pub fn violations_stand_together()
    ensures { ViolationsStandTogether }
{}

/// The violations of a tree are those among all of its rows, and those among some rows in a run are
/// those among the first of them, and then those among the rest.
pub fn violations_of_parts()
    ensures { ViolationsOfParts }
{}

/// A node whose kind has no rules has no violations.
pub fn only_kinds_with_rules()
    ensures { OnlyKindsWithRules }
{}
