//! A law, for the proof alone: the function has an empty body, and its contract is the law.
ghost use Rattle.case_run.specs.Laws as laws;

/// What a machine with an executable is before its run: which byte each address has, which pages are touched, and that
/// all else is as at every start. An executable of more pages than the limit ends as `Ending::Memory` at no cost.
#[tactic(auto, using(crate::proofs::Opening::opens_executable, crate::proofs::Opening::has_bytes_of_file, crate::proofs::Opening::touches_pages_of_bytes, crate::proofs::Opening::touches_no_other, crate::proofs::Opening::starts_at_entry, crate::proofs::Opening::costs_nothing))]
pub fn an_executable_is_opened()
    ensures opened { laws.OpensExecutable }
    ensures bytes { laws.HasBytesOfFile }
    ensures touched { laws.TouchesPagesOfBytes }
    ensures no_other { laws.TouchesNoOther }
    ensures start { laws.StartsAtEntry }
    ensures too_large { laws.EndsForMemory }
    ensures costs_nothing { laws.CostsNothing }
{}
