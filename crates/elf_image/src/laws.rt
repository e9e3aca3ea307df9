//! A law, for the proof alone: the function has an empty body, and its contract is the law.
ghost use Rattle.elf_image.specs.Laws as laws;

/// What the definition of an executable's bytes in memory says, segment by segment.
#[tactic(auto, using(crate::proofs::Bytes::has_bytes, crate::proofs::Bytes::has_no_other))]
pub fn bytes_stand_at_their_addresses()
    ensures there { laws.HasBytes }
    ensures nowhere_else { laws.HasNoOther }
{}
