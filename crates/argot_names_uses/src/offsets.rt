// The sooner one of two places of a file.
ghost use Rattle.std.specs.Prelude.{◌≡◌};
ghost use Rattle.argot_names_scopes.specs.Again.{sooner_of};

/// The smaller one of two offsets, where there are two. No memory.
pub fn sooner(best: Option<u32>, offset: Option<u32>) -> Option<u32>
    ensures { result ≡ sooner_of best offset }
{
    match offset {
        None => best,
        Some(b) => match best {
            None => Some(b),
            Some(a) => { if a <= b { Some(a) } else { Some(b) } }
        },
    }
}
