// Texts, patterns, names, kinds and truth values of a configuration.
ghost use Rattle.std.specs.Prelude.{◌≡◌, [], ◌&&◌, List, ℕ, Bool, true, false, not, length, map, codes, bytes_eq, IfOk, IfErr};
ghost use Rattle.std.specs.List.{list_any, list_all};
ghost use Rattle.serde_json.specs.View.{view};
ghost use Rattle.argot_config_read.specs.Shapes.{IsFirst, flag as judge_flag, row, row_faults, text_that};
ghost use Rattle.argot_config_read.specs.Table.{any_text, is_kind, is_name_byte as is_name_byte_spec, is_problem_name as is_problem_name_spec, is_short, text_in};
ghost use Rattle.argot_config_read.specs.Wanted.{flag_at, kind_in, text_at};

use crate::paths::wrong_shape;
use crate::wanted::WantedProblem;
use crate::{ConfigFault, MatchKind};
use argot_text::Text;
use serde_json::Value;
use std::alloc::Global;

/// How many bytes a pattern may have.
const MOST_PATTERN: usize = 1000;

/// The text at a key, empty where it is missing and may be.
#[tactic(auto, unfolding(crate::specs::Shapes::row_faults))]
pub(crate) fn text(
    alloc: Global,
    value: &Value,
    path: &str,
    key: &str,
    is_required: bool,
) -> Result<Text, ConfigFault>
    ensures ok { IfOk result (λ text. (row_faults path.now (view value.now) (row key.now is_required any_text) ≡ []) × (text ≡ text_in key.now (view value.now))) }
    ensures fault { IfErr result (IsFirst (row_faults path.now (view value.now) (row key.now is_required any_text))) }
{
    match value.get(key) {
        Some(found) => match found.as_str() {
            Some(text) => Ok(Text::from_str(alloc, text)?),
            None => Err(wrong_shape(alloc, path, key)),
        },
        None if is_required => Err(wrong_shape(alloc, path, key)),
        None => Ok(Text::from_str(alloc, "")?),
    }
}

/// The pattern at a key, if there is one.
#[tactic(auto, unfolding(crate::specs::Shapes::row_faults))]
pub(crate) fn pattern(
    alloc: Global,
    value: &Value,
    path: &str,
    key: &str,
) -> Result<Option<Text>, ConfigFault>
    ensures ok { IfOk result (λ text. (row_faults path.now (view value.now) (row key.now false (text_that is_short)) ≡ []) × (text ≡ text_at key.now (view value.now))) }
    ensures fault { IfErr result (IsFirst (row_faults path.now (view value.now) (row key.now false (text_that is_short)))) }
{
    let Some(found) = value.get(key) else {
        return Ok(None);
    };
    match found.as_str() {
        Some(text) if text.len() <= MOST_PATTERN => Ok(Some(Text::from_str(alloc, text)?)),
        _ => Err(wrong_shape(alloc, path, key)),
    }
}

/// The kind of a matcher: a function where it is missing.
#[tactic(auto, unfolding(crate::specs::Shapes::row_faults))]
pub(crate) fn kind(
    alloc: Global,
    value: &Value,
    path: &str,
    in_sources: bool,
) -> Result<MatchKind, ConfigFault>
    ensures ok { IfOk result (λ kind. (row_faults path.now (view value.now) (row (codes "kind") false (text_that (is_kind in_sources))) ≡ []) × (kind ≡ kind_in (view value.now))) }
    ensures fault { IfErr result (IsFirst (row_faults path.now (view value.now) (row (codes "kind") false (text_that (is_kind in_sources))))) }
{
    let Some(found) = value.get("kind") else {
        return Ok(MatchKind::Func);
    };
    match found.as_str() {
        Some(name) if name == "func" => Ok(MatchKind::Func),
        Some(name) if in_sources && name == "field" => Ok(MatchKind::Field),
        Some(name) if in_sources && name == "global" => Ok(MatchKind::Global),
        _ => Err(wrong_shape(alloc, path, "kind")),
    }
}

/// The truth value at a key, the default where it is missing.
#[tactic(auto, unfolding(crate::specs::Shapes::row_faults))]
pub(crate) fn flag(
    alloc: Global,
    value: &Value,
    path: &str,
    key: &str,
    default: bool,
) -> Result<bool, ConfigFault>
    ensures ok { IfOk result (λ truth. (row_faults path.now (view value.now) (row key.now false judge_flag) ≡ []) × (truth ≡ flag_at key.now default (view value.now))) }
    ensures fault { IfErr result (IsFirst (row_faults path.now (view value.now) (row key.now false judge_flag))) }
{
    let Some(found) = value.get(key) else {
        return Ok(default);
    };
    match found.as_bool() {
        Some(truth) => Ok(truth),
        None => Err(wrong_shape(alloc, path, key)),
    }
}

fn is_name_byte(byte: u8) -> bool
    ensures { result ≡ is_name_byte_spec byte }
{
    (65 <= byte && byte <= 90)
        || ((97 <= byte && byte <= 122)
            || ((48 <= byte && byte <= 57)
                || ((95 <= byte && byte <= 95) || (45 <= byte && byte <= 45))))
}

// Whether the text may be the name of a problem.
fn is_problem_name(name: &str) -> bool
    ensures { result ≡ is_problem_name_spec name.now }
{
    1 <= name.len() && (name.len() <= 64 && has_name_bytes(name))
}

fn has_name_bytes(name: &str) -> bool
    ensures { result ≡ list_all is_name_byte_spec name.now }
{
    name.as_bytes().iter().all(|byte| is_name_byte(*byte))
}

// Whether a problem has the name.
#[tactic(auto, using(crate::proofs::Lists::any_of_map))]
fn is_taken(problems: &[WantedProblem], name: &str) -> bool
    ensures { result ≡ list_any (bytes_eq name.now) (map (λ p. p.name) problems.now) }
{
    has_problem(problems, name)
}

fn has_problem(problems: &[WantedProblem], name: &str) -> bool
    ensures { result ≡ list_any (λ p. bytes_eq name.now p.name) problems.now }
{
    problems.iter().any(|problem| name == problem.name.as_str())
}

/// The name of a problem behind others.
#[tactic(auto, unfolding(crate::specs::Shapes::row_faults))]
pub(crate) fn problem_name(
    alloc: Global,
    value: &Value,
    path: &str,
    before: &[WantedProblem],
) -> Result<Text, ConfigFault>
    ensures ok { IfOk result (λ name. (row_faults path.now (view value.now) (row (codes "name") true (text_that (λ s. is_problem_name_spec s && not (list_any (bytes_eq s) (map (λ p. p.name) before.now))))) ≡ []) × (name ≡ text_in (codes "name") (view value.now))) }
    ensures fault { IfErr result (IsFirst (row_faults path.now (view value.now) (row (codes "name") true (text_that (λ s. is_problem_name_spec s && not (list_any (bytes_eq s) (map (λ p. p.name) before.now))))))) }
{
    let Some(found) = value.get("name") else {
        return Err(wrong_shape(alloc, path, "name"));
    };
    match found.as_str() {
        Some(name) if is_problem_name(name) && !is_taken(before, name) => {
            Ok(Text::from_str(alloc, name)?)
        }
        _ => Err(wrong_shape(alloc, path, "name")),
    }
}
