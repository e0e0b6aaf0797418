// From what is wanted to a configuration: each pattern is made, in order.
ghost use Rattle.std.specs.Prelude.{◌≡◌, ◌∷◌, [], codes, IfOk, IfErr, OnOk, Option, List, ℕ};
ghost use Rattle.std.specs.List.{AllZip};
ghost use Rattle.argot_config_read.specs.Built.{IsTestOf, IsMatcherOf, IsAskedOf, IsConfigOf};
ghost use Rattle.argot_config_read.specs.Patterns.{HaveReadings, IsRefusal, KeptBy, pattern_at, patterns_of, patterns_of_matcher, patterns_of_matchers, patterns_of_problem, patterns_of_problems};
ghost use Rattle.argot_config_read.specs.Paths.{key_path};

use crate::paths::{path_of_item, path_of_key};
use crate::wanted::{Wanted, WantedMatcher, WantedProblem};
use crate::{Asked, Config, ConfigFault, Matcher, PatternFault, Patterns, Test};
use argot_text::{Sequence, Text};
use std::alloc::Global;

/// The configuration that is wanted, with its patterns made.
#[tactic(auto, unfolding(crate::specs::Patterns::patterns_of))]
pub(crate) fn config<P: Patterns>(
    alloc: Global,
    wanted: Wanted,
    patterns: &mut P,
) -> Result<Config, ConfigFault>
    ensures ok { IfOk result (λ c. HaveReadings (patterns_of wanted) × IsConfigOf wanted c) }
    ensures kept { OnOk result ((P.refusals patterns.new ≡ P.refusals patterns.old) × (P.last patterns.new ≡ P.last patterns.old)) }
    ensures kept_by { IfErr result (λ e. KeptBy e (P.refusals patterns.old) (P.refusals patterns.new) (P.last patterns.old) (P.last patterns.new)) }
    ensures refused { IfErr result (IsRefusal (patterns_of wanted) (P.refusals patterns.old) (P.refusals patterns.new) (P.last patterns.new)) }
{
    let problems = problems(alloc, wanted.problems.as_slice(), patterns)?;
    let Wanted {
        main,
        problems: _,
        externals,
    } = wanted;
    Ok(Config {
        main,
        problems: Sequence::from_vec(problems),
        externals,
    })
}

fn problems<P: Patterns>(
    alloc: Global,
    wanted: &[WantedProblem],
    patterns: &mut P,
) -> Result<Vec<Asked>, ConfigFault>
    ensures ok { IfOk result (λ made. HaveReadings (patterns_of_problems 0 wanted.now) × AllZip IsAskedOf wanted.now made.items) }
    ensures kept { OnOk result ((P.refusals patterns.new ≡ P.refusals patterns.old) × (P.last patterns.new ≡ P.last patterns.old)) }
    ensures kept_by { IfErr result (λ e. KeptBy e (P.refusals patterns.old) (P.refusals patterns.new) (P.last patterns.old) (P.last patterns.new)) }
    ensures refused { IfErr result (IsRefusal (patterns_of_problems 0 wanted.now) (P.refusals patterns.old) (P.refusals patterns.new) (P.last patterns.new)) }
{
    let mut made = Vec::new(alloc);
    for (i, next) in wanted.iter().enumerate() {
        let path = path_of_item(alloc, "problems", i)?;
        let asked = asked(alloc, next, path.as_str(), patterns)?;
        made.push(asked)?;
    }
    Ok(made)
}

#[tactic(auto, using(crate::proofs::Refusals::refusals), unfolding(crate::specs::Patterns::patterns_of_problem))]
fn asked<P: Patterns>(
    alloc: Global,
    wanted: &WantedProblem,
    path: &str,
    patterns: &mut P,
) -> Result<Asked, ConfigFault>
    ensures ok { IfOk result (λ a. HaveReadings (patterns_of_problem path.now wanted.now) × IsAskedOf wanted.now a) }
    ensures kept { OnOk result ((P.refusals patterns.new ≡ P.refusals patterns.old) × (P.last patterns.new ≡ P.last patterns.old)) }
    ensures kept_by { IfErr result (λ e. KeptBy e (P.refusals patterns.old) (P.refusals patterns.new) (P.last patterns.old) (P.last patterns.new)) }
    ensures refused { IfErr result (IsRefusal (patterns_of_problem path.now wanted.now) (P.refusals patterns.old) (P.refusals patterns.new) (P.last patterns.new)) }
{
    let name = Text::from_str(alloc, wanted.name.as_str())?;
    let sources = matchers(alloc, &wanted.sources, path, "sources", patterns)?;
    let sinks = matchers(alloc, &wanted.sinks, path, "sinks", patterns)?;
    let sanitizers = matchers(alloc, &wanted.sanitizers, path, "sanitizers", patterns)?;
    let validators = matchers(alloc, &wanted.validators, path, "validators", patterns)?;
    let points = matchers(alloc, &wanted.points, path, "points", patterns)?;
    Ok(Asked {
        name,
        sources,
        sinks,
        sanitizers,
        validators,
        points,
        escapes: wanted.escapes,
    })
}

fn matchers<P: Patterns>(
    alloc: Global,
    wanted: &Sequence<WantedMatcher>,
    path: &str,
    key: &str,
    patterns: &mut P,
) -> Result<Sequence<Matcher>, ConfigFault>
    ensures ok { IfOk result (λ made. HaveReadings (patterns_of_matchers (key_path path.now key.now) 0 wanted.now) × AllZip IsMatcherOf wanted.now made) }
    ensures kept { OnOk result ((P.refusals patterns.new ≡ P.refusals patterns.old) × (P.last patterns.new ≡ P.last patterns.old)) }
    ensures kept_by { IfErr result (λ e. KeptBy e (P.refusals patterns.old) (P.refusals patterns.new) (P.last patterns.old) (P.last patterns.new)) }
    ensures refused { IfErr result (IsRefusal (patterns_of_matchers (key_path path.now key.now) 0 wanted.now) (P.refusals patterns.old) (P.refusals patterns.new) (P.last patterns.new)) }
{
    let path = path_of_key(alloc, path, key)?;
    let made = each_matcher(alloc, wanted.as_slice(), path.as_str(), patterns)?;
    Ok(Sequence::from_vec(made))
}

fn each_matcher<P: Patterns>(
    alloc: Global,
    wanted: &[WantedMatcher],
    path: &str,
    patterns: &mut P,
) -> Result<Vec<Matcher>, ConfigFault>
    ensures ok { IfOk result (λ made. HaveReadings (patterns_of_matchers path.now 0 wanted.now) × AllZip IsMatcherOf wanted.now made.items) }
    ensures kept { OnOk result ((P.refusals patterns.new ≡ P.refusals patterns.old) × (P.last patterns.new ≡ P.last patterns.old)) }
    ensures kept_by { IfErr result (λ e. KeptBy e (P.refusals patterns.old) (P.refusals patterns.new) (P.last patterns.old) (P.last patterns.new)) }
    ensures refused { IfErr result (IsRefusal (patterns_of_matchers path.now 0 wanted.now) (P.refusals patterns.old) (P.refusals patterns.new) (P.last patterns.new)) }
{
    let mut made = Vec::new(alloc);
    for (i, next) in wanted.iter().enumerate() {
        let place = path_of_item(alloc, path, i)?;
        let matcher = matcher(alloc, next, place.as_str(), patterns)?;
        made.push(matcher)?;
    }
    Ok(made)
}

#[tactic(auto, using(crate::proofs::Refusals::refusals), unfolding(crate::specs::Patterns::patterns_of_matcher))]
fn matcher<P: Patterns>(
    alloc: Global,
    wanted: &WantedMatcher,
    path: &str,
    patterns: &mut P,
) -> Result<Matcher, ConfigFault>
    ensures ok { IfOk result (λ m. HaveReadings (patterns_of_matcher path.now wanted.now) × IsMatcherOf wanted.now m) }
    ensures kept { OnOk result ((P.refusals patterns.new ≡ P.refusals patterns.old) × (P.last patterns.new ≡ P.last patterns.old)) }
    ensures kept_by { IfErr result (λ e. KeptBy e (P.refusals patterns.old) (P.refusals patterns.new) (P.last patterns.old) (P.last patterns.new)) }
    ensures refused { IfErr result (IsRefusal (patterns_of_matcher path.now wanted.now) (P.refusals patterns.old) (P.refusals patterns.new) (P.last patterns.new)) }
{
    let package = test(alloc, &wanted.package, path, "package", patterns)?;
    let receiver = test(alloc, &wanted.receiver, path, "receiver", patterns)?;
    let name = test(alloc, &wanted.name, path, "name", patterns)?;
    Ok(Matcher {
        kind: wanted.kind,
        package,
        receiver,
        name,
    })
}

// The test that a pattern asks for, if there is one.
#[tactic(auto, using(crate::proofs::Readings::has_reading))]
fn test<P: Patterns>(
    alloc: Global,
    wanted: &Option<Text>,
    path: &str,
    key: &str,
    patterns: &mut P,
) -> Result<Test, ConfigFault>
    ensures ok { IfOk result (λ t. HaveReadings (pattern_at (key_path path.now key.now) wanted.now) × IsTestOf wanted.now t) }
    ensures kept { OnOk result ((P.refusals patterns.new ≡ P.refusals patterns.old) × (P.last patterns.new ≡ P.last patterns.old)) }
    ensures kept_by { IfErr result (λ e. KeptBy e (P.refusals patterns.old) (P.refusals patterns.new) (P.last patterns.old) (P.last patterns.new)) }
    ensures refused { IfErr result (IsRefusal (pattern_at (key_path path.now key.now) wanted.now) (P.refusals patterns.old) (P.refusals patterns.new) (P.last patterns.new)) }
{
    let Some(text) = wanted else {
        return Ok(Test::All);
    };
    let path = path_of_key(alloc, path, key)?;
    match patterns.compile(alloc, text.as_str()) {
        Ok(made) => Ok(Test::Built(made)),
        Err(PatternFault::NoPattern) => Err(ConfigFault::BadPattern { path }),
        Err(PatternFault::Size) => Err(ConfigFault::PatternSize { path }),
        Err(PatternFault::Memory) => Err(ConfigFault::Memory),
    }
}
