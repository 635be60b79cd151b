//! Laws of the definitions that the contracts cite.

ghost use Rattle.std.specs.Prelude.{◌≡◌, ℕ, List};
ghost use Rattle.heesch_words.specs.declared.requests.Request.{Request};
ghost use Rattle.heesch_words.specs.Requests.{Asks, IsInRange};

/// Words ask for one thing at most.
pub fn words_ask_for_one_thing()
    ensures { (words : List (List ℕ)) (first second : Request)
        → Asks words first → Asks words second → first ≡ second }
{}

/// What words ask for lies in its ranges.
pub fn requests_are_in_range()
    ensures { (words : List (List ℕ)) (request : Request) → Asks words request → IsInRange request }
{}
