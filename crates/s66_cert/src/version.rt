//! The versions of documents: which leaves and fact lines a document of each may have.

ghost use Rattle.std.specs.Prelude.{◌≡◌, option_map};
ghost use Rattle.s66_isa.specs.{some_of};
ghost use Rattle.s66_moments.specs.{is_of_supposition};
ghost use Rattle.s66_cert.specs.{has_suppositions, version, version_number, version_rule, has_facts, may_suppose};

use s66_model::Rule;
use s66_moments::FactStep;

/// What documents of a version have to show their bounds, besides the bounds of leaves.
#[derive(Clone, Copy)]
pub(crate) enum Version {
    /// 1: nothing.
    BoundsAlone,
    /// 2: dominated leaves, which name nodes that are written earlier.
    EarlierNodes,
    /// 3: dominated leaves, which name nodes that stand.
    StandingNodes,
    /// 4: fact lines.
    FactLines,
    /// 5: fact lines with suppositions.
    Suppositions,
}

/// Whether one of the lines begins or ends a supposition.
fn some_supposes(steps: &[FactStep]) -> bool
    ensures { result ≡ some_of is_of_supposition steps.now }
{
    for step in steps {
        if step.is_of_supposition() {
            return true;
        }
    }
    false
}

/// Whether a document of these fact lines, if it may have some, has suppositions.
pub(crate) fn has_suppositions(facts: Option<&[FactStep]>) -> bool
    ensures { result ≡ has_suppositions (option_map (λ steps. steps.now) facts.entry) }
{
    match facts {
        None => false,
        Some(steps) => some_supposes(steps),
    }
}

impl Version {
    /// The version of a document of these fact lines, if it may have some, by this rule.
    pub(crate) fn of(facts: Option<&[FactStep]>, rule: Rule) -> Version
        ensures { result ≡ version (option_map (λ steps. steps.now) facts.entry) rule }
    {
        match (facts, rule) {
            (None, Rule::NoneNamed) => Version::BoundsAlone,
            (None, Rule::WrittenEarlier) => Version::EarlierNodes,
            (None, Rule::ClampedStanding) => Version::StandingNodes,
            (Some(steps), _) => {
                if some_supposes(steps) {
                    Version::Suppositions
                } else {
                    Version::FactLines
                }
            }
        }
    }

    /// Its number.
    pub(crate) fn number(self) -> u32
        ensures { result ≡ version_number self }
    {
        match self {
            Version::BoundsAlone => 1,
            Version::EarlierNodes => 2,
            Version::StandingNodes => 3,
            Version::FactLines => 4,
            Version::Suppositions => 5,
        }
    }

    /// The rule of its documents.
    pub(crate) fn rule(self) -> Rule
        ensures { result ≡ version_rule self }
    {
        match self {
            Version::BoundsAlone => Rule::NoneNamed,
            Version::EarlierNodes => Rule::WrittenEarlier,
            Version::StandingNodes | Version::FactLines | Version::Suppositions => {
                Rule::ClampedStanding
            }
        }
    }

    /// Whether its documents may have fact lines.
    pub(crate) fn has_facts(self) -> bool
        ensures { result ≡ has_facts self }
    {
        matches!(self, Version::FactLines | Version::Suppositions)
    }

    /// Whether they may have suppositions.
    pub(crate) fn may_suppose(self) -> bool
        ensures { result ≡ may_suppose self }
    {
        matches!(self, Version::Suppositions)
    }
}
