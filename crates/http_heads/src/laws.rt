// What more bytes change: nothing.

ghost use Rattle.std.specs.Prelude.{◌≡◌, ℕ, List, ◌++◌};
ghost use Rattle.httparse.specs.Grammar.{RequestHead, ReadsRequest};
ghost use Rattle.http_heads.specs.Fronts.{IsHopeless};

/// Bytes begin with at most one head, and more bytes leave it there. More bytes leave hopeless bytes hopeless, and
/// bytes that begin with a head are not hopeless.
pub fn heads_stay()
    ensures one { (bytes rest left : List ℕ) (h k : RequestHead) → ReadsRequest bytes h rest
        → ReadsRequest bytes k left → (h ≡ k) × (rest ≡ left) }
    ensures further { (bytes more rest : List ℕ) (h : RequestHead) → ReadsRequest bytes h rest
        → ReadsRequest (bytes ++ more) h (rest ++ more) }
    ensures hopeless { (bytes more : List ℕ) → IsHopeless bytes → IsHopeless (bytes ++ more) }
    ensures apart { (bytes rest : List ℕ) (h : RequestHead) → ReadsRequest bytes h rest
        → ¬ (IsHopeless bytes) }
{}
