//! Laws, for the proof alone: each function has an empty body, and its contract is the law.
ghost use Rattle.rv_machine.specs.Laws as laws;

/// What the ending of a run is, in other words: the first ending when the machine's step is repeated. Every run comes
/// to one, since each step that goes on costs at least 1.
pub fn finish_is_the_first_ending()
    ensures first { laws.EndsAsFinish }
    ensures in_time { laws.EndsInTime }
{}

/// How a machine is made ready: an image is loaded as its bytes are placed, and placing no bytes changes nothing.
#[tactic(auto, using(crate::proofs::Placing::loads_by_placing, crate::proofs::Placing::places_nothing))]
pub fn an_image_is_placed()
    ensures loads { laws.LoadsByPlacing }
    ensures nothing { laws.PlacesNothing }
{}
