// The configuration that counts where none is given.
ghost use Rattle.std.specs.Prelude.{◌≡◌, IfOk};
ghost use Rattle.argot_config_read.specs.Fallback.{default_config, named as matchers_named};

use crate::{Asked, Config, MatchKind, Matcher, Test};
use argot_text::{Memory, Sequence, Text};
use std::alloc::Global;

/// The configuration without a file: the problem `default`, whose sources have the name `source`, its sinks and points
/// `sink`, its sanitizers `sanitize` and its validators `validate`, in any package and with any receiver. The names are
/// compared whole.
pub fn fallback(alloc: Global) -> Result<Config, Memory>
    ensures { IfOk result (λ config. config ≡ default_config) }
{
    let asked = Asked {
        name: Text::from_str(alloc, "default")?,
        sources: named(alloc, "source")?,
        sinks: named(alloc, "sink")?,
        sanitizers: named(alloc, "sanitize")?,
        validators: named(alloc, "validate")?,
        points: named(alloc, "sink")?,
        escapes: false,
    };
    let mut problems = Vec::new(alloc);
    problems.push(asked)?;
    Ok(Config {
        main: Text::from_str(alloc, "")?,
        problems: Sequence::from_vec(problems),
        externals: Sequence::from_vec(Vec::new(alloc)),
    })
}

// Functions of this name.
fn named(alloc: Global, name: &str) -> Result<Sequence<Matcher>, Memory>
    ensures { IfOk result (λ made. made ≡ matchers_named name.now) }
{
    let mut made = Vec::new(alloc);
    made.push(Matcher {
        kind: MatchKind::Func,
        package: Test::All,
        receiver: Test::All,
        name: Test::Whole(Text::from_str(alloc, name)?),
    })?;
    Ok(Sequence::from_vec(made))
}
