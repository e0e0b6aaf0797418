// From a JSON value to what it says, or to its first fault.
ghost use Rattle.std.specs.Prelude.{◌≡◌, ◌≢◌, [], Some, None, true, false, codes, map, unwrap_or, IfOk, IfErr};
ghost use Rattle.serde_json.specs.View.{view};
ghost use Rattle.argot_config_read.specs.Shapes.{IsFault, IsFirst, as_list, items_between, row, row_faults};
ghost use Rattle.argot_config_read.specs.Table.{entries as judge_entries, entry as judge_entry, faults_of, matcher as judge_matcher, matchers as judge_matchers, problem as judge_problem, problems as judge_problems};
ghost use Rattle.argot_config_read.specs.Wanted.{items_at, matchers_at, wanted as wanted_of, wanted_entry, wanted_matcher, wanted_problem};

use crate::ConfigFault;
use crate::objects::{Object, expect_object};
use crate::paths::{path_of_item, path_of_key, wrong_shape, wrong_value};
use crate::scalars::{flag, kind, pattern, problem_name, text};
use crate::wanted::{Wanted, WantedMatcher, WantedProblem};
use argot_text::Sequence;
use argot_tree::{Entries, Entry};
use serde_json::Value;
use std::alloc::Global;

/// What the value says, or its first fault.
#[tactic(auto, using(crate::proofs::Firsts::firsts), unfolding(crate::specs::Table::faults_of, crate::specs::Wanted::wanted))]
pub(crate) fn wanted(alloc: Global, value: &Value) -> Result<Wanted, ConfigFault>
    ensures ok { IfOk result (λ w. (faults_of (view value.now) ≡ []) × (w ≡ wanted_of (view value.now))) }
    ensures fault { IfErr result (IsFirst (faults_of (view value.now))) }
{
    expect_object(alloc, value, ".", Object::Top)?;
    let main = text(alloc, value, ".", "main", false)?;
    let problems = problems(alloc, value, ".")?;
    let externals = entries(alloc, value, ".")?;
    Ok(Wanted {
        main,
        problems,
        externals,
    })
}

// The items of a list that has so many of them.
#[tactic(auto, using(crate::proofs::Items::sizes))]
fn items<'v>(
    alloc: Global,
    value: &'v Value,
    path: &str,
    least: usize,
    most: usize,
) -> Result<&'v [Value], ConfigFault>
    ensures ok { IfOk result (λ items. items_between least most (view value.now) ≡ Some (map view items.now)) }
    ensures list { IfOk result (λ items. as_list (view value.now) ≡ Some (map view items.now)) }
    ensures none { IfErr result (λ e. e ≢ ConfigFault.Memory → items_between least most (view value.now) ≡ None) }
    ensures fault { IfErr result (IsFault (ConfigFault.Shape path.now)) }
{
    let Some(items) = value.as_array() else {
        return Err(wrong_value(alloc, path));
    };
    if items.len() < least {
        return Err(wrong_value(alloc, path));
    }
    if most < items.len() {
        return Err(wrong_value(alloc, path));
    }
    Ok(items.as_slice())
}

#[tactic(auto, using(crate::proofs::Firsts::firsts), unfolding(crate::specs::Shapes::row_faults))]
fn problems(
    alloc: Global,
    value: &Value,
    path: &str,
) -> Result<Sequence<WantedProblem>, ConfigFault>
    ensures ok { IfOk result (λ made. (row_faults path.now (view value.now) (row (codes "problems") true judge_problems) ≡ []) × (made ≡ map wanted_problem (items_at (codes "problems") (view value.now)))) }
    ensures fault { IfErr result (IsFirst (row_faults path.now (view value.now) (row (codes "problems") true judge_problems))) }
{
    let Some(found) = value.get("problems") else {
        return Err(wrong_shape(alloc, path, "problems"));
    };
    let path = path_of_key(alloc, path, "problems")?;
    let made = each_problem(alloc, found, path.as_str())?;
    Ok(Sequence::from_vec(made))
}

fn each_problem(alloc: Global, value: &Value, path: &str) -> Result<Vec<WantedProblem>, ConfigFault>
    ensures ok { IfOk result (λ made. (judge_problems path.now (view value.now) ≡ []) × (made.items ≡ map wanted_problem (unwrap_or (as_list (view value.now)) []))) }
    ensures fault { IfErr result (IsFirst (judge_problems path.now (view value.now))) }
{
    let items = items(alloc, value, path, 1, 16)?;
    let mut made = Vec::new(alloc);
    for (i, item) in items.iter().enumerate() {
        let place = path_of_item(alloc, path, i)?;
        let next = problem(alloc, item, place.as_str(), made.as_slice())?;
        made.push(next)?;
    }
    Ok(made)
}

// A problem behind others.
#[tactic(auto, using(crate::proofs::Firsts::firsts), unfolding(crate::specs::Table::problem, crate::specs::Wanted::wanted_problem))]
fn problem(
    alloc: Global,
    value: &Value,
    path: &str,
    before: &[WantedProblem],
) -> Result<WantedProblem, ConfigFault>
    ensures ok { IfOk result (λ made. (judge_problem (map (λ p. p.name) before.now) path.now (view value.now) ≡ []) × (made ≡ wanted_problem (view value.now))) }
    ensures fault { IfErr result (IsFirst (judge_problem (map (λ p. p.name) before.now) path.now (view value.now))) }
{
    expect_object(alloc, value, path, Object::Problem)?;
    let name = problem_name(alloc, value, path, before)?;
    let sources = matchers(alloc, value, path, "sources", true)?;
    let sinks = matchers(alloc, value, path, "sinks", false)?;
    let sanitizers = matchers(alloc, value, path, "sanitizers", false)?;
    let validators = matchers(alloc, value, path, "validators", false)?;
    let points = matchers(alloc, value, path, "points", false)?;
    let escapes = flag(alloc, value, path, "escapes", false)?;
    Ok(WantedProblem {
        name,
        sources,
        sinks,
        sanitizers,
        validators,
        points,
        escapes,
    })
}

#[tactic(auto, using(crate::proofs::Firsts::firsts), unfolding(crate::specs::Shapes::row_faults))]
fn matchers(
    alloc: Global,
    value: &Value,
    path: &str,
    key: &str,
    in_sources: bool,
) -> Result<Sequence<WantedMatcher>, ConfigFault>
    ensures ok { IfOk result (λ made. (row_faults path.now (view value.now) (row key.now false (judge_matchers in_sources)) ≡ []) × (made ≡ matchers_at key.now (view value.now))) }
    ensures fault { IfErr result (IsFirst (row_faults path.now (view value.now) (row key.now false (judge_matchers in_sources)))) }
{
    let Some(found) = value.get(key) else {
        return Ok(Sequence::from_vec(Vec::new(alloc)));
    };
    let path = path_of_key(alloc, path, key)?;
    let made = each_matcher(alloc, found, path.as_str(), in_sources)?;
    Ok(Sequence::from_vec(made))
}

fn each_matcher(
    alloc: Global,
    value: &Value,
    path: &str,
    in_sources: bool,
) -> Result<Vec<WantedMatcher>, ConfigFault>
    ensures ok { IfOk result (λ made. (judge_matchers in_sources path.now (view value.now) ≡ []) × (made.items ≡ map wanted_matcher (unwrap_or (as_list (view value.now)) []))) }
    ensures fault { IfErr result (IsFirst (judge_matchers in_sources path.now (view value.now))) }
{
    let items = items(alloc, value, path, 0, 64)?;
    let mut made = Vec::new(alloc);
    for (i, item) in items.iter().enumerate() {
        let place = path_of_item(alloc, path, i)?;
        let next = matcher(alloc, item, place.as_str(), in_sources)?;
        made.push(next)?;
    }
    Ok(made)
}

#[tactic(auto, using(crate::proofs::Firsts::firsts), unfolding(crate::specs::Table::matcher, crate::specs::Wanted::wanted_matcher))]
fn matcher(
    alloc: Global,
    value: &Value,
    path: &str,
    in_sources: bool,
) -> Result<WantedMatcher, ConfigFault>
    ensures ok { IfOk result (λ made. (judge_matcher in_sources path.now (view value.now) ≡ []) × (made ≡ wanted_matcher (view value.now))) }
    ensures fault { IfErr result (IsFirst (judge_matcher in_sources path.now (view value.now))) }
{
    expect_object(alloc, value, path, Object::Matcher)?;
    let kind = kind(alloc, value, path, in_sources)?;
    let package = pattern(alloc, value, path, "package")?;
    let receiver = pattern(alloc, value, path, "receiver")?;
    let name = pattern(alloc, value, path, "name")?;
    Ok(WantedMatcher {
        kind,
        package,
        receiver,
        name,
    })
}

#[tactic(auto, using(crate::proofs::Firsts::firsts), unfolding(crate::specs::Shapes::row_faults))]
fn entries(alloc: Global, value: &Value, path: &str) -> Result<Entries, ConfigFault>
    ensures ok { IfOk result (λ made. (row_faults path.now (view value.now) (row (codes "externals") false judge_entries) ≡ []) × (made ≡ map wanted_entry (items_at (codes "externals") (view value.now)))) }
    ensures fault { IfErr result (IsFirst (row_faults path.now (view value.now) (row (codes "externals") false judge_entries))) }
{
    let Some(found) = value.get("externals") else {
        return Ok(Sequence::from_vec(Vec::new(alloc)));
    };
    let path = path_of_key(alloc, path, "externals")?;
    let made = each_entry(alloc, found, path.as_str())?;
    Ok(Sequence::from_vec(made))
}

fn each_entry(alloc: Global, value: &Value, path: &str) -> Result<Vec<Entry>, ConfigFault>
    ensures ok { IfOk result (λ made. (judge_entries path.now (view value.now) ≡ []) × (made.items ≡ map wanted_entry (unwrap_or (as_list (view value.now)) []))) }
    ensures fault { IfErr result (IsFirst (judge_entries path.now (view value.now))) }
{
    let items = items(alloc, value, path, 0, 1024)?;
    let mut made = Vec::new(alloc);
    for (i, item) in items.iter().enumerate() {
        let place = path_of_item(alloc, path, i)?;
        let next = entry(alloc, item, place.as_str())?;
        made.push(next)?;
    }
    Ok(made)
}

#[tactic(auto, using(crate::proofs::Firsts::firsts), unfolding(crate::specs::Table::entry, crate::specs::Wanted::wanted_entry))]
fn entry(alloc: Global, value: &Value, path: &str) -> Result<Entry, ConfigFault>
    ensures ok { IfOk result (λ made. (judge_entry path.now (view value.now) ≡ []) × (made ≡ wanted_entry (view value.now))) }
    ensures fault { IfErr result (IsFirst (judge_entry path.now (view value.now))) }
{
    expect_object(alloc, value, path, Object::Entry)?;
    let package = text(alloc, value, path, "package", true)?;
    let name = text(alloc, value, path, "name", true)?;
    let receiver = text(alloc, value, path, "receiver", false)?;
    let flow = flag(alloc, value, path, "flow", true)?;
    Ok(Entry {
        package,
        receiver,
        name,
        flow,
    })
}
