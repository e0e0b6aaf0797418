// The definitions of one place among all, where these are in the order of places.
ghost use Rattle.std.specs.Prelude.{◌≡◌, ℕ, true};
ghost use Rattle.std.specs.List.{All};
ghost use Rattle.std.specs.List.Sorted.{IsNonDecreasingBy};
ghost use Rattle.argot_points_rules.specs.Stretches.{reached, AreEnough};

/// Whether each definition reaches the place of the one before it, or one behind.
pub fn are_in_order(defs: &[(u32, u32, u32)]) -> bool
    ensures yes { result ≡ true → IsNonDecreasingBy reached defs.now }
    ensures no { IsNonDecreasingBy reached defs.now → result ≡ true }
{
    defs.is_sorted_by_key(|def| def.1)
}

/// The definitions that reach the place; where they aren't in order, all.
pub fn stretch_of(defs: &[(u32, u32, u32)], in_order: bool, place: u32) -> &[(u32, u32, u32)]
    requires { in_order ≡ true → IsNonDecreasingBy reached defs.now }
    ensures enough { AreEnough defs.now result.now place }
    ensures only { in_order ≡ true → All (λ d. reached d ≡ place) result.now }
{
    if !in_order {
        return defs;
    }
    let first = defs.partition_point(|def| def.1 < place);
    let end = defs.partition_point(|def| def.1 <= place);
    &defs[first..end]
}
