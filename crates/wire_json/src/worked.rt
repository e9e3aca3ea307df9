//! Computed examples, for the proof alone: each function has an empty body, and the check computes its contract.
ghost use Rattle.std.specs.Prelude.{◌≡◌, [], ◌∷◌, Some, None, Ok, Err, codes};
ghost use Rattle.serde_json.specs.Written.{compact_text};
ghost use Rattle.farm_kinds.specs.Names.{jury};
ghost use Rattle.farm_kinds.specs.declared.kinds.Kind.TheVariants as kind;
ghost use Rattle.farm_kinds.specs.declared.outcomes.Answer.TheVariants.{Final, Pending};
ghost use Rattle.farm_kinds.specs.declared.outcomes.Verdict.TheVariants.{Tests, CompilerError};
ghost use Rattle.farm_kinds.specs.declared.outcomes.How.TheVariants as how;
ghost use Rattle.farm_kinds.specs.declared.events.Reply.TheVariants as reply;
ghost use Rattle.wire_json.specs.declared.bodies.Body.TheVariants as body;
ghost use Rattle.wire_json.specs.declared.routes.Route.TheVariants as route;
ghost use Rattle.wire_json.specs.declared.faults.Field.TheVariants as field;
ghost use Rattle.wire_json.specs.declared.faults.BodyFault.TheVariants.{TooManyValues, TooLongStrings, NotJson, MissingField, BadField};
ghost use Rattle.wire_json.specs.Bodies.{body_of};
ghost use Rattle.wire_json.specs.Strings.{bytes_in_strings};
ghost use Rattle.wire_json.specs.declared.strings.Position.TheVariants.{Outside};
ghost use Rattle.wire_json.specs.Replies.{json_of};
ghost use Rattle.wire_json.specs.FaultTexts.{json_of_fault};

/// The definition of bodies at texts without a fault.
pub fn worked_bodies()
    ensures host { body_of route.Hosts (codes "{\"hostname\":\"h1\"}") ≡ Ok (body.Host (codes "h1")) }
    ensures run { body_of route.AddRun (codes "{\"hostname\":\"h1\",\"judging\":1,\"test\":1,\"result\":\"correct\"}")
        ≡ Ok (body.Run (codes "h1") 1 1 kind.Correct) }
    ensures one { body_of route.FetchWork (codes "{\"hostname\":\"h1\"}") ≡ Ok (body.Fetch (codes "h1") None) }
    ensures some { body_of route.FetchWork (codes "{\"max\":2,\"hostname\":\"h1\"}") ≡ Ok (body.Fetch (codes "h1") (Some 2)) }
    ensures last_counts { body_of route.Down (codes "{\"hostname\":1,\"hostname\":\"h2\"}") ≡ Ok (body.Host (codes "h2")) }
    ensures jury { body_of (route.Verify 1) [] ≡ Ok (body.Actor jury) }
    ensures list { body_of route.Rejudgings (codes "{\"submissions\":[1,2],\"who\":\"eve\"}") ≡ Ok (body.Rejudge (1 ∷ 2 ∷ []) (codes "eve")) }
    ensures unread { body_of route.Board (codes "{") ≡ Ok body.Empty }
{}

/// The definition of bodies at texts with a fault, and what these are answered.
pub fn worked_faults()
    ensures empty { body_of route.Hosts [] ≡ Err (MissingField field.Hostname) }
    ensures list { body_of route.Hosts (codes "[]") ≡ Err NotJson }
    ensures point { body_of route.Renew (codes "{\"hostname\":\"h\",\"judging\":60.0}") ≡ Err (BadField field.Judging) }
    ensures minus { body_of route.Renew (codes "{\"hostname\":\"h\",\"judging\":-0}") ≡ Err (BadField field.Judging) }
    ensures high { body_of route.FetchWork (codes "{\"hostname\":\"h1\",\"max\":17}") ≡ Err (BadField field.Max) }
    ensures present { body_of (route.Ask 1) (codes "{\"who\":null}") ≡ Err (BadField field.Who) }
    ensures table_order { body_of route.Rejudgings (codes "{\"who\":null,\"submissions\":[1,-2]}") ≡ Err (BadField field.Submissions) }
    ensures bad_max { compact_text (json_of_fault (BadField field.Max)) ≡ codes "{\"reply\":\"bad-body\",\"why\":\"bad max\"}" }
    ensures missing { compact_text (json_of_fault (MissingField field.Hostname)) ≡ codes "{\"reply\":\"bad-body\",\"why\":\"missing hostname\"}" }
    ensures too_many { compact_text (json_of_fault TooManyValues) ≡ codes "{\"reply\":\"bad-body\",\"why\":\"too-many-values\"}" }
    ensures too_long { compact_text (json_of_fault TooLongStrings) ≡ codes "{\"reply\":\"bad-body\",\"why\":\"too-long-strings\"}" }
    ensures strings { bytes_in_strings Outside (codes "{\"a\\\"b\":1,\"\":\"\\n\"}") ≡ 9 }
    ensures not_json { compact_text (json_of_fault NotJson) ≡ codes "{\"reply\":\"bad-body\",\"why\":\"not-json\"}" }
{}

/// The definition of replies' texts.
pub fn worked_replies()
    ensures host { compact_text (json_of (reply.Host (codes "h1"))) ≡ codes "{\"host\":\"h1\",\"reply\":\"host\"}" }
    ensures task { compact_text (json_of (reply.Handed record { judging = 1; test = 1 } 60)) ≡ codes "{\"judging\":1,\"reply\":\"task\",\"test\":1,\"until\":60}" }
    ensures batch { compact_text (json_of (reply.Batch 1 (1 ∷ 2 ∷ []) 60)) ≡ codes "{\"judging\":1,\"reply\":\"batch\",\"tests\":[1,2],\"until\":60}" }
    ensures owner { compact_text (json_of (reply.Owned 1)) ≡ codes "{\"reply\":\"owner\",\"submission\":1}" }
    ensures counted { compact_text (json_of reply.Counted) ≡ codes "{\"reply\":\"counted\"}" }
    ensures shown { compact_text (json_of (reply.Shown (Final (Tests kind.Correct)))) ≡ codes "{\"reply\":\"final\",\"verdict\":\"correct\"}" }
    ensures differs { compact_text (json_of (reply.Differs kind.Correct kind.WrongAnswer)) ≡ codes "{\"given\":\"wrong-answer\",\"kept\":\"correct\",\"reply\":\"differs\"}" }
    ensures no_host { compact_text (json_of (reply.NoHost (codes "h2"))) ≡ codes "{\"name\":\"h2\",\"reply\":\"no-host\"}" }
    ensures already { compact_text (json_of (reply.Already 1)) ≡ codes "{\"judging\":1,\"reply\":\"already\"}" }
    ensures closed { compact_text (json_of (reply.Closed how.Cancelled)) ≡ codes "{\"how\":\"cancelled\",\"reply\":\"closed\"}" }
    ensures head { compact_text (json_of (reply.Audit 2 (171 ∷ 5 ∷ []))) ≡ codes "{\"count\":2,\"head\":\"ab05\",\"reply\":\"audit\"}" }
{}

/// The definition of replies with rows.
pub fn worked_rows()
    ensures board { compact_text (json_of (reply.Board (Final CompilerError ∷ Pending ∷ [])))
        ≡ codes "{\"reply\":\"board\",\"rows\":[{\"submission\":1,\"verdict\":\"compiler-error\"},{\"submission\":2,\"verdict\":\"pending\"}]}" }
    ensures no_rows { compact_text (json_of (reply.Board [])) ≡ codes "{\"reply\":\"board\",\"rows\":[]}" }
    ensures matrix { compact_text (json_of (reply.Matrix (record { old = Final (Tests kind.WrongAnswer); new = Final (Tests kind.Correct); count = 3 } ∷ []) 3))
        ≡ codes "{\"members\":3,\"reply\":\"matrix\",\"rows\":[{\"count\":3,\"new\":\"correct\",\"old\":\"wrong-answer\"}]}" }
{}
