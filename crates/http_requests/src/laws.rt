// What a body asks: one thing.

ghost use Rattle.std.specs.Prelude.{◌≡◌, ℕ, List};
ghost use Rattle.http_requests.specs.Asks.{Asked};
ghost use Rattle.http_requests.specs.Bodies.{IsAsk, IsBadBody};
ghost use Rattle.http_requests.specs.Calls.{Called};

/// A body asks at most one thing of a call, and a body that asks something has its form.
pub fn one_ask()
    ensures one { (call : Called) (body : List ℕ) (what other : Asked) → IsAsk call body what
        → IsAsk call body other → what ≡ other }
    ensures apart { (call : Called) (body : List ℕ) (what : Asked) → IsAsk call body what
        → ¬ (IsBadBody call body) }
{}
