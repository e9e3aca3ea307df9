//! Computed examples, for the proof alone: each function has an empty body, and the check computes its contract.
ghost use Rattle.std.specs.Prelude.{◌≡◌, ◌++◌, [], ◌∷◌, codes};
ghost use Rattle.farm_kinds.specs.declared.kinds.Kind.TheVariants as kind;
ghost use Rattle.farm_kinds.specs.declared.outcomes.Answer.TheVariants.{Final, Pending};
ghost use Rattle.farm_kinds.specs.declared.outcomes.Verdict.TheVariants.{Tests};
ghost use Rattle.contest_page.specs.Page.{escaped, rows_from};
ghost use Rattle.contest_page.specs.Views.{view_text};

/// The definition of the JSON of a contest.
pub fn worked_json()
    ensures empty { view_text [] [] ≡ codes "{\"problems\":[],\"reply\":\"contest\",\"submissions\":[]}" }
    ensures one { view_text (codes "echo" ∷ []) (record { team = codes "otters"; problem = codes "echo" } ∷ [])
        ≡ codes "{\"problems\":[\"echo\"],\"reply\":\"contest\",\"submissions\":[{\"problem\":\"echo\",\"submission\":1,\"team\":\"otters\"}]}" }
{}

/// The definition of the rows of a page.
pub fn worked_rows()
    ensures hostile { escaped (codes "<a b=\"&'\">") ≡ codes "&lt;a b=&quot;&amp;&#39;&quot;&gt;" }
    ensures none { rows_from 0 [] (Pending ∷ []) ≡ [] }
    ensures one { rows_from 0 (record { team = codes "otters"; problem = codes "echo" } ∷ []) (Final (Tests kind.WrongAnswer) ∷ [])
        ≡ codes "<tr><th scope=\"row\">1</th><td>otters</td><td>echo</td>"
        ++ codes "<td class=\"wrong-answer\">wrong-answer</td></tr>\n" }
{}
