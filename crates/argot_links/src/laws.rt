// What the test `has` says of a list: a law, as the contract of a function without code.
ghost use Rattle.std.specs.Prelude.{◌≡◌, ℕ, List};
ghost use Rattle.argot_links.specs.Members.{has, IsAscending};

/// An ascending list is known by what it has.
pub fn ascending_lists_are_known()
    ensures { (xs ys : List ℕ) → IsAscending xs → IsAscending ys → ((i : ℕ) → has xs i ≡ has ys i) → xs ≡ ys }
{}
