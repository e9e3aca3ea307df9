ghost use Rattle.std.specs.Prelude.{◌≡◌, ◌∷◌, [], Some, None, Ok, Err, codes, false};
ghost use Rattle.case_run.specs.Cases.{TestCase, ByDefault};
ghost use Rattle.wire_job.specs.declared.faults.JobFault.TheVariants as fault;
ghost use Rattle.wire_job.specs.declared.faults.JobField.TheVariants as field;
ghost use Rattle.wire_job.specs.declared.parts.JobPart.TheVariants as parts;
ghost use Rattle.wire_job.specs.Reading.{job_of};
ghost use Rattle.wire_job.specs.Writing.{job_text};

/// A job that is written whole and without its image, and what each of the two is to a reader that has an image or none.
pub fn worked_jobs()
    ensures whole { let c : TestCase = record { image = 19 ∷ 0 ∷ 0 ∷ 0 ∷ []; input = codes "7\n"; answer = codes "8\n"; check = ByDefault (record { case = false; space = false; tolerance = record { relative = None; absolute = None } }); limits = record { instructions = 5; pages = 6; output = 7 } } in
        job_text parts.Whole (record { judging = 4; test = 2 }) c
        ≡ codes "{\"answer\":\"OAo=\",\"check\":\"default\",\"flags\":{\"absolute\":null,\"case\":false,\"relative\":null,\"space\":false},\"image\":\"EwAAAA==\",\"input\":\"Nwo=\",\"instructions\":5,\"judging\":4,\"output\":7,\"pages\":6,\"reply\":\"job\",\"test\":2}" }
    ensures rest { let c : TestCase = record { image = 19 ∷ 0 ∷ 0 ∷ 0 ∷ []; input = codes "7\n"; answer = codes "8\n"; check = ByDefault (record { case = false; space = false; tolerance = record { relative = None; absolute = None } }); limits = record { instructions = 5; pages = 6; output = 7 } } in
        job_text parts.Rest (record { judging = 4; test = 2 }) c
        ≡ codes "{\"answer\":\"OAo=\",\"check\":\"default\",\"flags\":{\"absolute\":null,\"case\":false,\"relative\":null,\"space\":false},\"input\":\"Nwo=\",\"instructions\":5,\"judging\":4,\"output\":7,\"pages\":6,\"reply\":\"job\",\"test\":2}" }
    ensures rest_read { let c : TestCase = record { image = 55 ∷ 1 ∷ 0 ∷ 0 ∷ []; input = codes "7\n"; answer = codes "8\n"; check = ByDefault (record { case = false; space = false; tolerance = record { relative = None; absolute = None } }); limits = record { instructions = 5; pages = 6; output = 7 } } in
        job_of (Some (55 ∷ 1 ∷ 0 ∷ 0 ∷ [])) (codes "{\"answer\":\"OAo=\",\"check\":\"default\",\"flags\":{\"absolute\":null,\"case\":false,\"relative\":null,\"space\":false},\"input\":\"Nwo=\",\"instructions\":5,\"judging\":4,\"output\":7,\"pages\":6,\"reply\":\"job\",\"test\":2}")
        ≡ Ok (record { task = record { judging = 4; test = 2 }; case = c }) }
    ensures own_image { let c : TestCase = record { image = 55 ∷ 1 ∷ 0 ∷ 0 ∷ []; input = codes "7\n"; answer = codes "8\n"; check = ByDefault (record { case = false; space = false; tolerance = record { relative = None; absolute = None } }); limits = record { instructions = 5; pages = 6; output = 7 } } in
        job_of (Some (55 ∷ 1 ∷ 0 ∷ 0 ∷ [])) (codes "{\"answer\":\"OAo=\",\"check\":\"default\",\"flags\":{\"absolute\":null,\"case\":false,\"relative\":null,\"space\":false},\"image\":\"EwAAAA==\",\"input\":\"Nwo=\",\"instructions\":5,\"judging\":4,\"output\":7,\"pages\":6,\"reply\":\"job\",\"test\":2}")
        ≡ Ok (record { task = record { judging = 4; test = 2 }; case = c }) }
    ensures no_image { job_of None (codes "{\"answer\":\"OAo=\",\"check\":\"default\",\"flags\":{\"absolute\":null,\"case\":false,\"relative\":null,\"space\":false},\"input\":\"Nwo=\",\"instructions\":5,\"judging\":4,\"output\":7,\"pages\":6,\"reply\":\"job\",\"test\":2}") ≡ Err (fault.MissingField field.Image) }
    ensures bad_image { job_of (Some (55 ∷ [])) (codes "{\"answer\":\"OAo=\",\"check\":\"default\",\"flags\":{\"absolute\":null,\"case\":false,\"relative\":null,\"space\":false},\"input\":\"Nwo=\",\"instructions\":5,\"judging\":4,\"output\":7,\"pages\":6,\"reply\":\"job\",\"test\":2}") ≡ Err (fault.BadField field.Image) }
{}
