//! A computed example, for the proof alone: the function has an empty body, and the check computes its contract.
ghost use Rattle.std.specs.Prelude.{◌≡◌, [], ◌∷◌, Some, None, true, false};
ghost use Rattle.farm_model.specs.Judgings.{task_of};
ghost use Rattle.farm_model.specs.Leases.{is_held_by, held_count, with_lease, without_task, without_host, renewed, renewed_of, ended_at, left_after, first_due};

/// What holding, ending and renewing do to a list of two leases.
pub fn worked_leases()
    ensures due { let two = with_lease (with_lease [] 1 (task_of 1 2) 60) 2 (task_of 1 1) 60 in
        first_due two 60 ≡ Some (record { host = 2; task = task_of 1 1; until = 60 }) }
    ensures not_due { let two = with_lease (with_lease [] 1 (task_of 1 2) 60) 2 (task_of 1 1) 60 in first_due two 59 ≡ None }
    ensures left { let two = with_lease (with_lease [] 1 (task_of 1 1) 60) 1 (task_of 1 2) 61 in
        left_after two 60 ≡ (record { host = 1; task = task_of 1 2; until = 61 }) ∷ [] }
    ensures ended { let two = with_lease (with_lease [] 1 (task_of 1 1) 60) 1 (task_of 1 2) 61 in
        ended_at two 60 ≡ (record { host = 1; task = task_of 1 1; until = 60 }) ∷ [] }
    ensures renewed { let two = with_lease (with_lease [] 1 (task_of 1 1) 60) 2 (task_of 1 2) 60 in
        renewed two (task_of 1 1) 119 ≡ with_lease (with_lease [] 1 (task_of 1 1) 119) 2 (task_of 1 2) 60 }
    ensures renewed_of { let two = with_lease (with_lease [] 1 (task_of 1 1) 60) 1 (task_of 1 2) 61 in
        renewed_of (with_lease two 1 (task_of 2 1) 62) 1 1 119
        ≡ (record { host = 1; task = task_of 1 1; until = 119 }) ∷ (record { host = 1; task = task_of 1 2; until = 119 })
        ∷ (record { host = 1; task = task_of 2 1; until = 62 }) ∷ [] }
    ensures held { let two = with_lease (with_lease [] 1 (task_of 1 1) 60) 1 (task_of 1 2) 60 in held_count two 1 ≡ 2 }
    ensures other { let one = with_lease [] 1 (task_of 1 1) 60 in is_held_by one 2 (task_of 1 1) ≡ false }
    ensures dead { let two = with_lease (with_lease [] 1 (task_of 1 1) 60) 2 (task_of 1 2) 60 in
        without_host two 1 ≡ without_task two (task_of 1 1) }
{}
