// A path relative to a folder.
ghost use Rattle.std.specs.Prelude.{◌≡◌};
ghost use Rattle.std.specs.Option.{option_copied};
ghost use Rattle.argot_io.specs.Told.{after_prefix};

/// What follows the prefix in the path, if it begins so.
pub fn after<'a>(prefix: &str, path: &'a str) -> Option<&'a str>
    ensures { option_copied result ≡ after_prefix prefix.now path.now }
{
    path.strip_prefix(prefix)
}
