//! Computed examples, for the proof alone: each function has an empty body, and the check computes its contract.
ghost use Rattle.std.specs.Prelude.{◌≡◌, [], ◌∷◌, take, Ok, Err, Some, None};
ghost use Rattle.elf_image.specs.declared.fault.ElfFault.TheVariants.{BadStart, NoSegment, Truncated, PastFile};
ghost use Rattle.elf_image.specs.Image.{elf_of, byte_of};
ghost use Rattle.elf_image.specs.Smallest.{smallest};

/// The definition at a file of 92 bytes with one segment, of which 8 bytes stand in the file and 16 in memory.
pub fn worked_image()
    ensures image { elf_of (smallest 0x10054 1) ≡ Ok (record { entry = 0x10054; segments = record { at = 0x10054; offset = 84; len = 8; size = 16 } ∷ [] }) }
    ensures first { byte_of (smallest 0x10054 1) (record { at = 0x10054; offset = 84; len = 8; size = 16 } ∷ []) 0x10054 ≡ Some 0x93 }
    ensures last { byte_of (smallest 0x10054 1) (record { at = 0x10054; offset = 84; len = 8; size = 16 } ∷ []) 0x1005B ≡ Some 0 }
    ensures behind { byte_of (smallest 0x10054 1) (record { at = 0x10054; offset = 84; len = 8; size = 16 } ∷ []) 0x1005C ≡ None }
{}

/// The definition at that file with a fault.
pub fn worked_faults()
    ensures start { elf_of (smallest 0x10056 1) ≡ Err (BadStart 0x10056) }
    ensures none { elf_of (smallest 0x10054 0) ≡ Err NoSegment }
    ensures table { elf_of (take 60 (smallest 0x10054 1)) ≡ Err (Truncated 84) }
    ensures bytes { elf_of (take 90 (smallest 0x10054 1)) ≡ Err (PastFile 0) }
{}
