//! A law, for the proof alone: the function has an empty body, and its contract is the law.
ghost use Rattle.std.specs.Prelude.{◌≡◌, ◌≤◌, ◌↔◌, ℕ, List, length, Ok};
ghost use Rattle.farm_kinds.specs.declared.Limits.{Limits};
ghost use Rattle.elf_image.specs.Image.{Image, elf_of};
ghost use Rattle.rv_machine.specs.Inputs.{Inputs};
ghost use Rattle.case_run.specs.Images.{opened};
ghost use Rattle.case_run.specs.Laws.{Fits, memory_of};
ghost use Rattle.definition_laws.specs.PageSets.{ArePages};

/// An executable fits into a machine exactly where the pages that have bytes of it, each counted once, are at most as
/// many as the limit. The memory of a machine that was opened, with whatever file, has the limit that it was given.
pub fn an_executable_fits_by_its_pages()
    ensures fits { (file : List ℕ) (elf : Image) (limits : Limits) (inputs : Inputs) (pages : List ℕ)
        → elf_of file ≡ Ok elf → ArePages file elf pages
        → Fits (opened file limits inputs) ↔ (length pages ≤ limits.pages) }
    ensures limit { (file : List ℕ) (limits : Limits) (inputs : Inputs)
        → (memory_of (opened file limits inputs)).limit ≡ limits.pages }
{}
