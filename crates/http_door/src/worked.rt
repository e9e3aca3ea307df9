ghost use Rattle.std.specs.Prelude.{◌≡◌, ℕ, List, [], ◌∷◌, ◌++◌, codes, true, false};
ghost use Rattle.http_door.specs.declared.fields.Framing.TheVariants.{Sized, BadLength, NoLength, TooLong};
ghost use Rattle.http_door.specs.declared.refusals.Refusal.TheVariants as refusal;
ghost use Rattle.http_door.specs.Fields.{framing_by, closes_by};
ghost use Rattle.http_door.specs.declared.responses.Content.TheVariants as content;
ghost use Rattle.http_door.specs.Responses.{content_lines, content_response, response_text};
ghost use Rattle.http_door.specs.Refusals.{refusal_response};

/// The definition of a body's framing at fields.
pub fn worked_lengths()
    ensures given { framing_by (codes "POST") ((codes "Content-Length", codes "017") ∷ []) ≡ Sized 17 }
    ensures none { framing_by (codes "GET") ((codes "host", codes "x") ∷ []) ≡ Sized 0 }
    ensures post { framing_by (codes "POST") ((codes "host", codes "x") ∷ []) ≡ NoLength }
    ensures no_post { framing_by (codes "post") [] ≡ Sized 0 }
    ensures coded { framing_by (codes "GET") ((codes "content-length", codes "5")
        ∷ ((codes "Transfer-Encoding", codes "chunked") ∷ [])) ≡ NoLength }
    ensures repeated { framing_by (codes "GET") ((codes "content-length", codes "5")
        ∷ ((codes "CONTENT-LENGTH", codes "5") ∷ [])) ≡ BadLength }
    ensures repeated_and_coded { let five : List ℕ × List ℕ = (codes "content-length", codes "5") in
        framing_by (codes "POST") (five ∷ ((codes "transfer-encoding", codes "gzip") ∷ (five ∷ []))) ≡ BadLength }
    ensures empty { framing_by (codes "GET") ((codes "content-length", []) ∷ []) ≡ BadLength }
    ensures signed { framing_by (codes "GET") ((codes "content-length", codes "+5") ∷ []) ≡ BadLength }
    ensures listed { framing_by (codes "GET") ((codes "content-length", codes "5, 5") ∷ []) ≡ BadLength }
    ensures digits_18 { let value = codes "000000000000000001" in
        framing_by (codes "GET") ((codes "content-length", value) ∷ []) ≡ Sized 1 }
    ensures digits_19 { let value = codes "0000000000000000001" in
        framing_by (codes "GET") ((codes "content-length", value) ∷ []) ≡ BadLength }
    ensures most { framing_by (codes "PUT") ((codes "content-length", codes "33554432") ∷ []) ≡ Sized 33554432 }
    ensures more { framing_by (codes "PUT") ((codes "content-length", codes "33554433") ∷ []) ≡ TooLong 33554433 }
{}

/// The definition of persistence at versions and fields.
pub fn worked_fields()
    ensures persists { closes_by 1 ((codes "connection", codes "keep-alive") ∷ []) ≡ false }
    ensures close { closes_by 1 ((codes "host", codes "x") ∷ ((codes "Connection", codes "CLOSE") ∷ [])) ≡ true }
    ensures not_whole { closes_by 1 ((codes "connection", codes "keep-alive, close") ∷ []) ≡ false }
    ensures version { closes_by 0 ((codes "connection", codes "keep-alive") ∷ []) ≡ true }
{}

/// The definition of responses at the four refusals, and at a page.
pub fn worked_responses()
    ensures page { content_response content.Page true 200 (codes "<p>")
        ≡ codes "HTTP/1.1 200 OK\r\ncontent-length: 3\r\n" ++ content_lines content.Page
        ++ codes "connection: close\r\n\r\n<p>" }
    ensures bad_head { refusal_response refusal.BadHead ≡ response_text 400 (codes "{\"reply\":\"bad-head\"}") }
    ensures head_too_long { refusal_response refusal.HeadTooLong ≡ response_text 431 (codes "{\"reply\":\"head-too-long\"}") }
    ensures body_too_long { refusal_response refusal.BodyTooLong ≡ response_text 413 (codes "{\"reply\":\"body-too-long\"}") }
    ensures no_length { refusal_response refusal.NoLength ≡ response_text 411 (codes "{\"reply\":\"no-length\"}") }
{}
