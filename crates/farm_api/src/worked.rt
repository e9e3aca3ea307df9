ghost use Rattle.std.specs.Prelude.{◌≡◌, ◌++◌, [], ◌∷◌, codes, true, false, Some, None};
ghost use Rattle.farm_kinds.specs.Names.{jury};
ghost use Rattle.farm_kinds.specs.declared.kinds.Kind.TheVariants as kind;
ghost use Rattle.farm_kinds.specs.declared.outcomes.Answer.TheVariants.{Final, Pending};
ghost use Rattle.farm_kinds.specs.declared.outcomes.Verdict.TheVariants.{Tests};
ghost use Rattle.farm_kinds.specs.declared.events.Event.TheVariants as event;
ghost use Rattle.farm_kinds.specs.declared.events.Reply.TheVariants as reply;
ghost use Rattle.wire_json.specs.declared.routes.Route.TheVariants as route;
ghost use Rattle.farm_api.specs.declared.routes.Routed.TheVariants as routed;
ghost use Rattle.http_door.specs.declared.responses.Content.TheVariants as content;
ghost use Rattle.http_door.specs.Responses.{content_response};
ghost use Rattle.contest_page.specs.ViewValue.{ViewValue};
ghost use Rattle.contest_page.specs.Page.{page_text};
ghost use Rattle.farm_api.specs.Jobs.{no_view};
ghost use Rattle.farm_api.specs.Routes.{route_of, routed_of};
ghost use Rattle.farm_api.specs.Conversation.{nothing_given, response_of};
ghost use Rattle.farm_api.specs.Entering.{with_reply, with_look, Replies};
ghost use Rattle.farm_api.specs.Exchanges.{entered_in};

/// The definition of routes at some paths.
pub fn worked_routes()
    ensures host { route_of (codes "/judgehosts") ≡ Some route.Hosts }
    ensures verify { route_of (codes "/judgements/12/verify") ≡ Some (route.Verify 12) }
    ensures ask { route_of (codes "/judgements/12/ask") ≡ Some (route.Ask 12) }
    ensures submission { route_of (codes "/judgements/12/submission") ≡ Some (route.Submission 12) }
    ensures job { route_of (codes "/judgehosts/job/12/3") ≡ Some (route.Job 12 3) }
    ensures job_of_zero { route_of (codes "/judgehosts/job/12/0") ≡ Some (route.Job 12 0) }
    ensures job_without_test { route_of (codes "/judgehosts/job/12") ≡ None }
    ensures job_of_a_word { route_of (codes "/judgehosts/job/12/one") ≡ None }
    ensures job_of_a_signed_number { route_of (codes "/judgehosts/job/+12/3") ≡ None }
    ensures job_rest { route_of (codes "/judgehosts/job/12/3/rest") ≡ Some (route.JobRest 12 3) }
    ensures job_rest_of_a_word { route_of (codes "/judgehosts/job/12/x/rest") ≡ None }
    ensures largest { route_of (codes "/rejudgings/4294967295") ≡ Some (route.Rejudging 4294967295) }
    ensures too_large { route_of (codes "/rejudgings/4294967296") ≡ None }
    ensures zero { route_of (codes "/judgements/012") ≡ None }
    ensures empty { route_of (codes "/judgements//verify") ≡ None }
    ensures slash { route_of (codes "/board/") ≡ None }
{}

/// The definition of routes at some methods and targets.
pub fn worked_targets()
    ensures query { routed_of (codes "GET") (codes "/board?all") ≡ routed.Route route.Board }
    ensures method { routed_of (codes "POST") (codes "/board") ≡ routed.NoMethod }
    ensures job_method { routed_of (codes "POST") (codes "/judgehosts/job/12/3") ≡ routed.NoMethod }
    ensures job_rest_method { routed_of (codes "PUT") (codes "/judgehosts/job/12/3/rest") ≡ routed.NoMethod }
    ensures lower_case { routed_of (codes "get") (codes "/board") ≡ routed.NoMethod }
    ensures public { routed_of (codes "GET") (codes "/public") ≡ routed.Public }
    ensures public_query { routed_of (codes "GET") (codes "/public?team=1") ≡ routed.Public }
    ensures public_method { routed_of (codes "POST") (codes "/public") ≡ routed.NoMethod }
    ensures page { routed_of (codes "GET") (codes "/?team=1") ≡ routed.Page }
    ensures page_method { routed_of (codes "POST") (codes "/") ≡ routed.NoMethod }
    ensures contest { routed_of (codes "GET") (codes "/contest") ≡ routed.Contest }
    ensures contest_method { routed_of (codes "DELETE") (codes "/contest") ≡ routed.NoMethod }
    ensures no_route { routed_of (codes "POST") (codes "/boards") ≡ routed.NoRoute }
{}

/// The definition of what is entered for requests, where the clock shows 7.
pub fn worked_events()
    ensures claim { let body = codes "{\"hostname\":\"h1\"}" in
        let r : Replies = record { ticked = reply.Ended 2; answer = reply.Nothing; downed = reply.NoMemory } in
        entered_in record { request = record { method = codes "POST"; target = codes "/judgehosts/fetch-work"; close = false; body = body }; moment = 7; replies = r; given = nothing_given; asked = false }
        ≡ with_reply (event.Tick 7) (reply.Ended 2) ∷ with_reply (event.Claim (codes "h1")) reply.Nothing ∷ [] }
    ensures fetch { let body = codes "{\"hostname\":\"h1\",\"max\":2}" in
        let r : Replies = record { ticked = reply.Ended 0; answer = reply.Nothing; downed = reply.NoMemory } in
        entered_in record { request = record { method = codes "POST"; target = codes "/judgehosts/fetch-work"; close = false; body = body }; moment = 7; replies = r; given = nothing_given; asked = false }
        ≡ with_reply (event.Tick 7) (reply.Ended 0) ∷ with_reply (event.Fetch (codes "h1") 2) reply.Nothing ∷ [] }
    ensures verify { let r : Replies = record { ticked = reply.NoMemory; answer = reply.Verified 1; downed = reply.NoMemory } in
        entered_in record { request = record { method = codes "POST"; target = codes "/judgements/1/verify"; close = false; body = [] }; moment = 7; replies = r; given = nothing_given; asked = false }
        ≡ with_reply (event.Verify jury 1) (reply.Verified 1) ∷ [] }
    ensures job { let r : Replies = record { ticked = reply.NoMemory; answer = reply.Owned 1; downed = reply.NoMemory } in
        entered_in record { request = record { method = codes "GET"; target = codes "/judgehosts/job/4/2"; close = false; body = [] }; moment = 7; replies = r; given = nothing_given; asked = false }
        ≡ with_reply (event.Owner 4) (reply.Owned 1) ∷ [] }
    ensures job_rest { let r : Replies = record { ticked = reply.NoMemory; answer = reply.Owned 1; downed = reply.NoMemory } in
        entered_in record { request = record { method = codes "GET"; target = codes "/judgehosts/job/4/2/rest"; close = false; body = [] }; moment = 7; replies = r; given = nothing_given; asked = false }
        ≡ with_reply (event.Owner 4) (reply.Owned 1) ∷ [] }
    ensures public { let r : Replies = record { ticked = reply.NoMemory; answer = reply.NoMemory; downed = reply.NoMemory } in
        entered_in record { request = record { method = codes "GET"; target = codes "/public"; close = false; body = [] }; moment = 7; replies = r; given = record { case = None; look = reply.Board (Pending ∷ []); contest = no_view }; asked = false }
        ≡ with_look (reply.Board (Pending ∷ [])) ∷ [] }
    ensures page { let r : Replies = record { ticked = reply.NoMemory; answer = reply.NoMemory; downed = reply.NoMemory } in
        entered_in record { request = record { method = codes "GET"; target = codes "/"; close = false; body = [] }; moment = 7; replies = r; given = record { case = None; look = reply.Board (Pending ∷ []); contest = no_view }; asked = false }
        ≡ with_look (reply.Board (Pending ∷ [])) ∷ [] }
    ensures contest { let r : Replies = record { ticked = reply.NoMemory; answer = reply.NoMemory; downed = reply.NoMemory } in
        entered_in record { request = record { method = codes "GET"; target = codes "/contest"; close = false; body = [] }; moment = 7; replies = r; given = nothing_given; asked = false } ≡ [] }
    ensures no_event { let r : Replies = record { ticked = reply.Nothing; answer = reply.Nothing; downed = reply.Nothing } in
        entered_in record { request = record { method = codes "PUT"; target = codes "/board"; close = false; body = [] }; moment = 7; replies = r; given = nothing_given; asked = false } ≡ [] }
    ensures differs { let body = codes "{\"hostname\":\"h2\",\"judging\":1,\"test\":1,\"result\":\"wrong-answer\"}" in
        let r : Replies = record { ticked = reply.NoMemory; answer = reply.Differs kind.Correct kind.WrongAnswer; downed = reply.Ended 1 } in
        entered_in record { request = record { method = codes "POST"; target = codes "/judgehosts/add-judging-run"; close = false; body = body }; moment = 7; replies = r; given = nothing_given; asked = false }
        ≡ with_reply (event.Result (codes "h2") 1 1 kind.WrongAnswer) (reply.Differs kind.Correct kind.WrongAnswer)
        ∷ with_reply (event.Down (codes "h2")) (reply.Ended 1) ∷ [] }
{}

/// The definition of responses at some requests and replies.
pub fn worked_responses()
    ensures nothing { response_of false record { method = codes "GET"; target = codes "/board"; close = false; body = [] } reply.Nothing nothing_given
        ≡ codes "HTTP/1.1 200 OK\r\ncontent-length: 19\r\ncontent-type: application/json\r\n\r\n"
        ++ codes "{\"reply\":\"nothing\"}" }
    ensures no_host { response_of false record { method = codes "GET"; target = codes "/board"; close = false; body = [] } (reply.NoHost (codes "h9")) nothing_given
        ≡ codes "HTTP/1.1 404 Not Found\r\ncontent-length: 31\r\ncontent-type: application/json\r\n\r\n"
        ++ codes "{\"name\":\"h9\",\"reply\":\"no-host\"}" }
    ensures no_lease { response_of false record { method = codes "GET"; target = codes "/board"; close = false; body = [] } reply.NoLease nothing_given
        ≡ codes "HTTP/1.1 409 Conflict\r\ncontent-length: 20\r\ncontent-type: application/json\r\n\r\n"
        ++ codes "{\"reply\":\"no-lease\"}" }
    ensures no_route { response_of false record { method = codes "GET"; target = codes "/boards"; close = false; body = [] } reply.Nothing nothing_given
        ≡ codes "HTTP/1.1 404 Not Found\r\ncontent-length: 20\r\ncontent-type: application/json\r\n\r\n"
        ++ codes "{\"reply\":\"no-route\"}" }
    ensures no_method { response_of false record { method = codes "PUT"; target = codes "/board"; close = false; body = [] } reply.Nothing nothing_given
        ≡ codes "HTTP/1.1 405 Method Not Allowed\r\ncontent-length: 21\r\ncontent-type: application/json\r\n\r\n"
        ++ codes "{\"reply\":\"no-method\"}" }
    ensures bad_body { response_of false record { method = codes "POST"; target = codes "/judgehosts"; close = false; body = [] } reply.Nothing nothing_given
        ≡ codes "HTTP/1.1 400 Bad Request\r\ncontent-length: 45\r\ncontent-type: application/json\r\n\r\n"
        ++ codes "{\"reply\":\"bad-body\",\"why\":\"missing hostname\"}" }
    ensures batch { response_of false record { method = codes "POST"; target = codes "/judgehosts/fetch-work"; close = false; body = codes "{\"hostname\":\"h1\",\"max\":2}" } (reply.Batch 1 (1 ∷ 2 ∷ []) 60) nothing_given
        ≡ codes "HTTP/1.1 200 OK\r\ncontent-length: 54\r\ncontent-type: application/json\r\n\r\n"
        ++ codes "{\"judging\":1,\"reply\":\"batch\",\"tests\":[1,2],\"until\":60}" }
    ensures bad_max { response_of false record { method = codes "POST"; target = codes "/judgehosts/fetch-work"; close = false; body = codes "{\"hostname\":\"h1\",\"max\":17}" } reply.Nothing nothing_given
        ≡ codes "HTTP/1.1 400 Bad Request\r\ncontent-length: 36\r\ncontent-type: application/json\r\n\r\n"
        ++ codes "{\"reply\":\"bad-body\",\"why\":\"bad max\"}" }
    ensures owner { response_of false record { method = codes "GET"; target = codes "/judgements/1/submission"; close = false; body = [] } (reply.Owned 1) nothing_given
        ≡ codes "HTTP/1.1 200 OK\r\ncontent-length: 32\r\ncontent-type: application/json\r\n\r\n"
        ++ codes "{\"reply\":\"owner\",\"submission\":1}" }
    ensures no_job { response_of false record { method = codes "GET"; target = codes "/judgehosts/job/1/9"; close = false; body = [] } (reply.Owned 1) nothing_given
        ≡ codes "HTTP/1.1 404 Not Found\r\ncontent-length: 18\r\ncontent-type: application/json\r\n\r\n"
        ++ codes "{\"reply\":\"no-job\"}" }
    ensures no_job_rest { response_of false record { method = codes "GET"; target = codes "/judgehosts/job/1/9/rest"; close = false; body = [] } (reply.Owned 1) nothing_given
        ≡ codes "HTTP/1.1 404 Not Found\r\ncontent-length: 18\r\ncontent-type: application/json\r\n\r\n"
        ++ codes "{\"reply\":\"no-job\"}" }
    ensures job_of_no_judging { response_of false record { method = codes "GET"; target = codes "/judgehosts/job/9/1"; close = false; body = [] } (reply.NoJudging 9) nothing_given
        ≡ codes "HTTP/1.1 404 Not Found\r\ncontent-length: 34\r\ncontent-type: application/json\r\n\r\n"
        ++ codes "{\"judging\":9,\"reply\":\"no-judging\"}" }
    ensures public { response_of false record { method = codes "GET"; target = codes "/public"; close = false; body = [] } reply.Nothing record { case = None; look = reply.Board (Final (Tests kind.Correct) ∷ Pending ∷ []); contest = no_view }
        ≡ codes "HTTP/1.1 200 OK\r\ncontent-length: 101\r\ncontent-type: application/json\r\n\r\n"
        ++ codes "{\"reply\":\"public\",\"rows\":[{\"submission\":1,\"verdict\":\"correct\"},{\"submission\":2,\"verdict\":\"pending\"}]}" }
    ensures page { let rows = reply.Board (Pending ∷ []) in
        response_of true record { method = codes "GET"; target = codes "/"; close = false; body = [] } reply.Nothing record { case = None; look = rows; contest = no_view }
        ≡ content_response content.Page true 200 (page_text no_view (Pending ∷ [])) }
    ensures contest { let view : ViewValue = record { problems = codes "echo" ∷ []; entries = record { team = codes "otters"; problem = codes "echo" } ∷ [] } in
        response_of false record { method = codes "GET"; target = codes "/contest"; close = false; body = [] } reply.Nothing record { case = None; look = reply.Nothing; contest = view }
        ≡ codes "HTTP/1.1 200 OK\r\ncontent-length: 105\r\ncontent-type: application/json\r\n\r\n"
        ++ codes "{\"problems\":[\"echo\"],\"reply\":\"contest\",\"submissions\":[{\"problem\":\"echo\",\"submission\":1,\"team\":\"otters\"}]}" }
    ensures already { response_of false record { method = codes "POST"; target = codes "/judgements/1/ask"; close = false; body = [] } (reply.Already 1) nothing_given
        ≡ codes "HTTP/1.1 409 Conflict\r\ncontent-length: 31\r\ncontent-type: application/json\r\n\r\n"
        ++ codes "{\"judging\":1,\"reply\":\"already\"}" }
    ensures closing { response_of true record { method = codes "GET"; target = codes "/board"; close = false; body = [] } reply.Nothing nothing_given
        ≡ codes "HTTP/1.1 200 OK\r\ncontent-length: 19\r\ncontent-type: application/json\r\nconnection: close\r\n\r\n"
        ++ codes "{\"reply\":\"nothing\"}" }
{}
