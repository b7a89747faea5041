//! What holds of orders in which each symbol comes after those that its declaration mentions.
ghost use Rattle.std.specs.Prelude.{ℕ, List};
ghost use Rattle.bicep_program.specs.Circles.{IsCircle, Links};
ghost use Rattle.bicep_circles.specs.Orders.{IsLinkOrder};

/// Where there is such an order, there is no circle.
#[tactic(auto, using(crate::proofs::PlaceLemmas::no_circle))]
pub fn orders_have_no_circle()
    ensures { (lists : List (List ℕ)) (order : List ℕ) → IsLinkOrder lists order
        → (circle : List ℕ) → ¬ IsCircle (Links lists) circle }
{}
