ghost use Rattle.std.specs.Prelude.{◌≡◌, IfOk, OnOk, fold, map};
ghost use Rattle.farm_api.specs.Table.{with_path, rows, place_in};

use farm_kinds::NoMemory;
use matchit::{InsertError, Router};
use std::alloc::Global;

/// A path of the server, without its ids.
#[derive(Clone, Copy, Debug, PartialEq, Eq)]
pub enum Place {
    Hosts,
    FetchWork,
    AddRun,
    Renew,
    Down,
    Job,
    JobRest,
    Judgement,
    Submission,
    Verify,
    Ask,
    Board,
    Public,
    Page,
    Contest,
    Audit,
    Rejudgings,
    Rejudging,
    Apply,
    Cancel,
}

static TABLE: [(&str, Place); 20] = [
    ("/judgehosts", Place::Hosts),
    ("/judgehosts/fetch-work", Place::FetchWork),
    ("/judgehosts/add-judging-run", Place::AddRun),
    ("/judgehosts/renew", Place::Renew),
    ("/judgehosts/down", Place::Down),
    ("/judgehosts/job/{judging}/{test}", Place::Job),
    ("/judgehosts/job/{judging}/{test}/rest", Place::JobRest),
    ("/judgements/{id}", Place::Judgement),
    ("/judgements/{id}/submission", Place::Submission),
    ("/judgements/{id}/verify", Place::Verify),
    ("/judgements/{id}/ask", Place::Ask),
    ("/board", Place::Board),
    ("/public", Place::Public),
    ("/", Place::Page),
    ("/contest", Place::Contest),
    ("/audit", Place::Audit),
    ("/rejudgings", Place::Rejudgings),
    ("/rejudgings/{id}", Place::Rejudging),
    ("/rejudgings/{id}/apply", Place::Apply),
    ("/rejudgings/{id}/cancel", Place::Cancel),
];

/// The paths of the server, made once for all of its connections.
#[derive(Drop)]
pub struct Paths {
    router: Router<Place>,
    ghost whole: { router ≡ rows },
}

/// Adds a path.
fn add(router: &mut Router<Place>, path: &str, place: Place) -> Result<(), InsertError>
    ensures { OnOk result (router.new ≡ with_path router.old (path.now, place)) }
{
    router.insert(path, place)
}

/// Adds paths.
fn add_all(router: &mut Router<Place>, paths: &[(&str, Place)]) -> Result<(), InsertError>
    ensures { OnOk result (router.new ≡ fold with_path router.old (map (λ p. (p.0.now, p.1)) paths.now)) }
{
    for path in paths {
        add(router, path.0, path.1)?;
    }
    Ok(())
}

/// The router of the table.
fn make_router(alloc: Global) -> Result<Router<Place>, InsertError>
    ensures { IfOk result (λ router. router ≡ rows) }
{
    let mut router = Router::new(alloc);
    add_all(&mut router, TABLE.as_slice())?;
    Ok(router)
}

impl Paths {
    /// The paths of the server.
    pub fn new(alloc: Global) -> Result<Paths, NoMemory> {
        match make_router(alloc) {
            Ok(router) => Ok(Paths { router }),
            Err(_) => Err(NoMemory),
        }
    }

    /// The place that a path names, whatever stands where it has ids.
    pub fn find(&self, path: &str) -> Option<Place>
        ensures { result ≡ place_in rows path.now }
    {
        match self.router.at(path) {
            Ok(found) => Some(*found.value),
            Err(_) => None,
        }
    }
}
