// What bytes spell: one list of requests, in whatever pieces they come.

ghost use Rattle.std.specs.Prelude.{◌≡◌, ℕ, true, List, [], ◌++◌, Option, Result, is_ok};
ghost use Rattle.deploy_http.specs.Conversations.{Ending, IsDecided, RequestsOf, seen};
ghost use Rattle.deploy_http.specs.Requests.{EndsEarly, IsAnswer, IsRefused, IsRequest, Requested};
ghost use Rattle.deploy_http.specs.declared.fault.HttpFault.{HttpFault};
ghost use Rattle.deploy_http.specs.declared.request.Request.{Request};

/// An input begins with one request at most, and one that begins with a request is not refused. An input is refused for
/// one cause, and for its early end only where nothing is yet to come. An empty input begins with no request, and is
/// not refused. More bytes leave a request where it is.
pub fn one_request()
    ensures one { (input left other : List ℕ) (r s : Requested) → IsRequest input r left
        → IsRequest input s other → (r ≡ s) × (left ≡ other) }
    ensures refusal { (input coming later : List ℕ) (f g : HttpFault) → IsRefused input f coming
        → IsRefused input g later → f ≡ g }
    ensures early { (input coming : List ℕ) (f : HttpFault) → IsRefused input f coming
        → EndsEarly input → coming ≡ [] }
    ensures apart { (input left coming : List ℕ) (r : Requested) (f : HttpFault) → IsRequest input r left
        → ¬ (IsRefused input f coming) }
    ensures some { (input left : List ℕ) (r : Requested) → IsRequest input r left → ¬ (input ≡ []) }
    ensures wrong { (input coming : List ℕ) (f : HttpFault) → IsRefused input f coming → ¬ (input ≡ []) }
    ensures further { (input left more : List ℕ) (r : Requested) → IsRequest input r left
        → IsRequest (input ++ more) r (left ++ more) }
{}

/// Two answers to one input are one, whatever pieces it came in, and leave the same bytes, where no read failed and
/// memory did not run out.
pub fn one_answer()
    ensures same { (input left other coming later : List ℕ) (a b : Result (Option Request) HttpFault)
        → IsDecided a → IsDecided b → IsAnswer input a left coming → IsAnswer input b other later
        → seen a ≡ seen b }
    ensures left { (input left other coming later : List ℕ) (a b : Result (Option Request) HttpFault)
        → is_ok a ≡ true → is_ok b ≡ true → IsAnswer input a left coming
        → IsAnswer input b other later → left ≡ other }
{}

/// The bytes of a connection spell one list of requests, and end in one way.
pub fn one_conversation()
    ensures { (bytes : List ℕ) (rs ss : List Requested) (e d : Ending) → RequestsOf bytes rs e
        → RequestsOf bytes ss d → (rs ≡ ss) × (e ≡ d) }
{}
