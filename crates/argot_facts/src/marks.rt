// Flags by number.
ghost use Rattle.std.specs.Prelude.{◌≡◌, ◌<◌, length, IsTrue};
ghost use Rattle.argot_facts.specs.Marked.{IsSet, Sets};

/// Sets the flag of a number.
pub fn mark(flags: &mut Vec<bool>, n: usize)
    requires { n < length flags.old.items }
    ensures { Sets flags.old.items flags.new.items n }
{
    flags[n] = true;
}

/// Whether the flag of a number is set; where there is none, it isn't.
pub fn is_marked(flags: &[bool], n: usize) -> bool
    ensures yes { IsTrue result → IsSet flags.now n }
    ensures no { IsSet flags.now n → IsTrue result }
{
    n < flags.len() && flags[n]
}
