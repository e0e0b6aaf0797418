//! What a step of main calls, takes and gives.

ghost use Rattle.std.specs.Prelude.{◌≡◌, ◌+◌, ◌-◌};
ghost use Rattle.std.specs.Option.{option_copied};
ghost use Rattle.argot_first.specs.Code.{number_of};
ghost use Rattle.argot_first.specs.Marks.{named_source, named_sink, cleans_name, parameter_returned, passes, calls_named, target, arguments_of};

use argot_first_form::{Function, Name, Returned};
use argot_plain::first::Kind;

fn named_source(name: &[u8]) -> bool
    ensures { result ≡ named_source name.now }
{
    name == b"source".as_slice()
}

fn named_sink(name: &[u8]) -> bool
    ensures { result ≡ named_sink name.now }
{
    name == b"sink".as_slice()
}

fn cleans(name: &[u8]) -> bool
    ensures { result ≡ cleans_name name.now }
{
    name == b"sanitize".as_slice() && !named_source(name)
}

fn number_of(names: &[Name], name: &[u8]) -> usize
    ensures { result ≡ number_of names.now name.now }
{
    let mut number = 0;
    for other in names {
        if other.as_slice() == name {
            return number;
        }
        number += 1;
    }
    number
}

fn parameter_returned(parameters: &[Name], returned: &Returned) -> Option<usize>
    ensures { result ≡ parameter_returned parameters.now returned.now }
{
    match returned {
        Returned::Nothing => None,
        Returned::Text => None,
        Returned::Parameter(name) => Some(number_of(parameters, name.as_slice())),
    }
}

/// The parameter whose data the result of a call of this function has.
pub fn passes(functions: &[Function], number: usize) -> Option<usize>
    ensures { result ≡ passes functions.now number }
{
    match functions.get(number.saturating_sub(1)) {
        Some(function) => {
            if cleans(function.name.as_slice()) {
                None
            } else {
                parameter_returned(function.parameters.as_slice(), &function.returned)
            }
        }
        None => None,
    }
}

/// The register that a step gives.
pub fn target(kind: &Kind) -> Option<usize>
    ensures { result ≡ target kind.now }
{
    match kind {
        Kind::Op { to, .. } => Some(*to),
        Kind::Move { to, .. } => Some(*to),
        Kind::Call { to, .. } => to.as_slice().first().copied(),
        Kind::RunDefers => None,
        Kind::Leave { .. } => None,
        Kind::Goto { .. } => None,
        Kind::Branch { .. } => None,
    }
}

/// Whether a step calls a source.
pub fn calls_source(functions: &[Function], kind: &Kind) -> bool
    ensures { result ≡ calls_named named_source functions.now kind.now }
{
    match kind {
        Kind::Call { function, .. } => match functions.get(function.saturating_sub(1)) {
            Some(callee) => named_source(callee.name.as_slice()),
            None => false,
        },
        Kind::Op { .. } => false,
        Kind::Move { .. } => false,
        Kind::RunDefers => false,
        Kind::Leave { .. } => false,
        Kind::Goto { .. } => false,
        Kind::Branch { .. } => false,
    }
}

/// Whether a step calls a sink.
pub fn calls_sink(functions: &[Function], kind: &Kind) -> bool
    ensures { result ≡ calls_named named_sink functions.now kind.now }
{
    match kind {
        Kind::Call { function, .. } => match functions.get(function.saturating_sub(1)) {
            Some(callee) => named_sink(callee.name.as_slice()),
            None => false,
        },
        Kind::Op { .. } => false,
        Kind::Move { .. } => false,
        Kind::RunDefers => false,
        Kind::Leave { .. } => false,
        Kind::Goto { .. } => false,
        Kind::Branch { .. } => false,
    }
}

/// The registers that a call hands over.
pub fn arguments_of(kind: &Kind) -> &[usize]
    ensures { result.now ≡ arguments_of kind.now }
{
    match kind {
        Kind::Call { arguments, .. } => arguments.as_slice(),
        Kind::Op { .. } => &[],
        Kind::Move { .. } => &[],
        Kind::RunDefers => &[],
        Kind::Leave { .. } => &[],
        Kind::Goto { .. } => &[],
        Kind::Branch { .. } => &[],
    }
}
