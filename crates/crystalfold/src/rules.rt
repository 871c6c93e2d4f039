// The rule sets of the fold.

// Default: the Rust's. Fuller: these, the truth-order quads, and division of an f64 by zero.
// (An enum, and no trait or closure: promises name a set by its value, from `rules_of` of specs/Rules on.)
#[derive(Clone, Copy)]
pub enum RuleSet {
    Default,
    Fuller,
}
