ghost use Rattle.std.specs.Prelude.{◌≡◌, ◌≢◌};
ghost use Rattle.farm_kinds.specs.declared.events.Reply.TheVariants as reply;
ghost use Rattle.farm_model.specs.Refusals.{claim_reply, fetch_reply, count_reply, renewed_reply};
ghost use Rattle.farm_core.specs.FarmShape.{fault_reply};

use farm_kinds::{Claim, Count, Fetched, MAX_HELD, Renewed, Reply};
use rejudge_book::BookFault;

/// What becomes of a result, as a reply.
pub fn count_reply(judging: u32, test: u32, count: Count) -> Reply
    ensures { result ≡ count_reply judging test count }
{
    match count {
        Count::NoJudging => Reply::NoJudging { judging },
        Count::NoTest => Reply::NoTest { test },
        Count::NotHanded => Reply::NotHanded,
        Count::Repeat { kept } => Reply::Repeat { kept },
        Count::Differs { kept, given } => Reply::Differs { kept, given },
        Count::Dropped => Reply::Dropped,
        Count::Counted => Reply::Counted,
    }
}

/// What a claim is answered, as a reply.
pub fn claim_reply(claim: Claim) -> Reply
    ensures { result ≡ claim_reply claim }
{
    match claim {
        Claim::Holding => Reply::Holding { limit: MAX_HELD },
        Claim::Nothing => Reply::Nothing,
        Claim::Handed { task, until } => Reply::Handed { task, until },
    }
}

/// What a fetch is answered, as a reply.
pub fn fetch_reply(fetched: Fetched) -> Reply
    ensures { result ≡ fetch_reply fetched }
{
    match fetched {
        Fetched::Holding => Reply::Holding { limit: MAX_HELD },
        Fetched::Nothing => Reply::Nothing,
        Fetched::Batch {
            judging,
            tests,
            until,
        } => Reply::Batch {
            judging,
            tests,
            until,
        },
    }
}

/// What becomes of a lease, as a reply.
pub fn renewed_reply(judging: u32, test: u32, renewed: Renewed) -> Reply
    ensures { result ≡ renewed_reply judging test renewed }
{
    match renewed {
        Renewed::NoJudging => Reply::NoJudging { judging },
        Renewed::NoTest => Reply::NoTest { test },
        Renewed::NoLease => Reply::NoLease,
        Renewed::Until { until } => Reply::Until { until },
    }
}

/// Why a rejudging is not prepared, as a reply.
pub fn fault_reply(fault: BookFault) -> Reply
    ensures { result ≡ fault_reply fault }
{
    match fault {
        BookFault::EmptySet => Reply::EmptySet,
        BookFault::Twice { submission } => Reply::Twice { submission },
        BookFault::Busy {
            submission,
            rejudging,
        } => Reply::Busy {
            submission,
            rejudging,
        },
        BookFault::NoMemory => Reply::NoMemory,
    }
}
