ghost use Rattle.std.specs.Prelude.{◌≡◌, ◌↔◌, ◌++◌, ◌∷◌, ℕ, List, Some, codes};
ghost use Rattle.std.specs.List.{Contains};
ghost use Rattle.wire_json.specs.declared.routes.Route.{Route};
ghost use Rattle.farm_api.specs.declared.routes.Routed.TheVariants as routed;
ghost use Rattle.farm_api.specs.Routes.{path_of, method_of, route_of, routed_of};
ghost use Rattle.route_laws.specs.PathTexts.{path_text, HasIds, NamesNothing};

/// The path of a route whose ids are in range names that route, and no other path does.
pub fn each_route_has_one_path()
    ensures path { (r : Route) → HasIds r → route_of (path_text r) ≡ Some r }
    ensures no_other { (path : List ℕ) (r : Route) → route_of path ≡ Some r → (path ≡ path_text r) × HasIds r }
{}

/// A request asks for a route exactly where its target has the route's path before the question mark, and its method is
/// the route's; for what the public sees, the page and the names of the contest by `GET` at one path each; and for
/// nothing that has a path exactly where its path is none of these.
pub fn a_path_and_a_method_are_asked_for()
    ensures route { (method target : List ℕ) (r : Route) → (routed_of method target ≡ routed.Route r)
        ↔ ((path_of target ≡ path_text r) × HasIds r × (method ≡ method_of r)) }
    ensures public { (method target : List ℕ) → (routed_of method target ≡ routed.Public)
        ↔ ((path_of target ≡ codes "/public") × (method ≡ codes "GET")) }
    ensures page { (method target : List ℕ) → (routed_of method target ≡ routed.Page)
        ↔ ((path_of target ≡ codes "/") × (method ≡ codes "GET")) }
    ensures contest { (method target : List ℕ) → (routed_of method target ≡ routed.Contest)
        ↔ ((path_of target ≡ codes "/contest") × (method ≡ codes "GET")) }
    ensures no_route { (method target : List ℕ) → (routed_of method target ≡ routed.NoRoute)
        ↔ NamesNothing (path_of target) }
{}

/// The path of a target is all of it, or what stands before its first question mark.
pub fn a_query_is_no_part_of_the_path()
    ensures alone { (path : List ℕ) → ¬ Contains path 63 → path_of path ≡ path }
    ensures with_query { (path query : List ℕ) → ¬ Contains path 63 → path_of (path ++ 63 ∷ query) ≡ path }
{}
