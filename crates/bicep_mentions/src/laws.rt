//! What holds of every file whose symbols have an order in which each comes after those that its declaration mentions.
ghost use Rattle.std.specs.Prelude.{◌≡◌, ℕ, List};
ghost use Rattle.bicep_circles.specs.Kind.{Kind};
ghost use Rattle.bicep_circles.specs.Declarations.{DeclaredTree};
ghost use Rattle.bicep_circles.specs.Links.{links};
ghost use Rattle.bicep_circles.specs.Orders.{IsLinkOrder};
ghost use Rattle.bicep_mentions.specs.Entries.{state_reads, state_step};
ghost use Rattle.bicep_mentions.specs.Through.{mentioning, mentioning_step};
ghost use Rattle.bicep_mentions.specs.Agreement.{IsKnown};

/// A symbol reads state exactly where its declaration does, by what the symbols that it mentions do.
pub fn states_are_settled()
    ensures { (kinds : List Kind) (ds : List DeclaredTree) (order : List ℕ) → IsLinkOrder (links kinds ds) order
        → IsKnown (state_reads kinds ds) (state_step kinds ds (state_reads kinds ds)) }
{}

/// A declaration mentions a symbol exactly where it mentions it directly, or a variable that mentions it.
#[tactic(auto, using(crate::proofs::OrderLemmas::mentions_settle))]
pub fn mentions_are_settled()
    ensures { (kinds : List Kind) (ds : List DeclaredTree) (order : List ℕ) → IsLinkOrder (links kinds ds) order
        → (k n : ℕ) → mentioning kinds ds k n ≡ mentioning_step kinds ds (mentioning kinds ds) k n }
{}
