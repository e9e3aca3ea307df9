/// What a request asks for: a path of the server, with the id where the path has one.
///
/// The paths are those of this server's own API, after DOMjudge's (`/judgehosts`, `/judgements`).
#[derive(Clone, Copy, Debug, PartialEq, Eq)]
pub enum Route {
    /// `POST /judgehosts`: a judgehost comes up.
    Hosts,
    /// `POST /judgehosts/fetch-work`: a judgehost asks for tasks.
    FetchWork,
    /// `POST /judgehosts/add-judging-run`: a judgehost gives the result of one test.
    AddRun,
    /// `POST /judgehosts/renew`: a judgehost asks to hold a task for longer.
    Renew,
    /// `POST /judgehosts/down`: a judgehost goes down.
    Down,
    /// `GET /judgehosts/job/{judging}/{test}`: a judgehost asks for the program and the files of a test of a judging.
    Job { judging: u32, test: u32 },
    /// `GET /judgehosts/job/{judging}/{test}/rest`: a judgehost that has the judging's program asks for the files alone.
    JobRest { judging: u32, test: u32 },
    /// `GET /judgements/{id}`: what is reported of a judging.
    Judgement(u32),
    /// `GET /judgements/{id}/submission`: the submission of a judging.
    Submission(u32),
    /// `POST /judgements/{id}/verify`: the jury lets the public see a judging.
    Verify(u32),
    /// `POST /judgements/{id}/ask`: the jury asks for a judging that waits to be asked for.
    Ask(u32),
    /// `GET /board`: what the public sees of each submission.
    Board,
    /// `GET /audit`: how many entries the audit log has, and its last digest.
    Audit,
    /// `POST /rejudgings`: the jury has submissions judged anew.
    Rejudgings,
    /// `GET /rejudgings/{id}`: how the verdicts of a rejudging differ from the old ones.
    Rejudging(u32),
    /// `POST /rejudgings/{id}/apply`: the jury makes the judgings of a rejudging the current ones.
    Apply(u32),
    /// `POST /rejudgings/{id}/cancel`: the jury gives a rejudging up.
    Cancel(u32),
}
