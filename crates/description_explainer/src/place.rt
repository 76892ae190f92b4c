// Where a description breaks a rule.
ghost use Rattle.std.specs.Prelude.{◌≡◌};
ghost use Rattle.description_explainer.specs.Places.{fault_of, rule_fault};

use description::{BuildFault, Description, Held, Limit, Misnumbered, Part, ShapePlace};
use recovery::Unbanked;

/// A rule that a description breaks, and the first place that breaks it. The rule about a table's form is in `Place`.
#[derive(Clone, Copy)]
pub enum Rule {
    Limit(Limit),
    Number(Misnumbered),
    Field(Part),
    Target(Held),
    Owner(Unbanked),
}

impl Rule {
    /// Returns the fault that `build` returns if this is the first broken rule.
    pub fn fault(self) -> BuildFault
        ensures { result ≡ rule_fault self }
    {
        match self {
            Rule::Limit(_) => BuildFault::Limits,
            Rule::Number(_) => BuildFault::Number,
            Rule::Field(_) => BuildFault::Field,
            Rule::Target(_) => BuildFault::Target,
            Rule::Owner(_) => BuildFault::Owner,
        }
    }
}

/// The first rule that a table breaks, and the first place that breaks it.
#[derive(Drop)]
pub enum Place<'a> {
    /// The table isn't that of a description: its first flaw.
    Shape(ShapePlace<'a>),
    /// The table's description breaks this rule.
    Rule(Description, Rule),
}

impl Place<'_> {
    /// Returns the fault that `build` returns for this table.
    pub fn fault(&self) -> BuildFault
        ensures { result ≡ fault_of self.now }
    {
        match self {
            Place::Shape(_) => BuildFault::Shape,
            Place::Rule(_, rule) => rule.fault(),
        }
    }
}
