// Results and arguments of calls, by index.
ghost use Rattle.std.specs.Prelude.{◌≡◌, ◌↔◌, ◌<◌, ℕ, IfSome, IsNone, IsTrue, length};
ghost use Rattle.argot_plain.specs.Code.{arguments};
ghost use Rattle.argot_flow_ends.specs.Ends.{IsResult, IsArgumentBehind, IsArgumentAt};

use argot_plain::{Callee, Kind};

/// Whether the index is that of a result of a Call.
pub(crate) fn is_result(kind: &Kind, index: u32) -> bool
    ensures { IsTrue result ↔ IsResult kind.now index }
{
    match kind {
        Kind::Call { to, .. } => (index as usize) < to.len(),
        _ => false,
    }
}

/// Whether so many arguments are handed on that there is one of this number.
fn is_argument(callee: &Callee, args: &[u32], k: u32) -> bool
    ensures { IsTrue result ↔ (k < length (arguments callee.now args.now)) }
{
    match callee {
        Callee::Static(_) | Callee::Value(_) => (k as usize) < args.len(),
        Callee::Method(..) => (k as usize) <= args.len(),
    }
}

/// The number of the argument at the index behind n results; none where there is no such argument.
fn argument_behind(callee: &Callee, args: &[u32], n: usize, index: u32) -> Option<u32>
    ensures some { IfSome result (IsArgumentBehind callee.now args.now n index) }
    ensures none { IsNone result → (k : ℕ) → IsArgumentBehind callee.now args.now n index k → ⊥ }
{
    if (index as usize) < n {
        return None;
    }
    let k = index - n as u32;
    if is_argument(callee, args, k) {
        return Some(k);
    }
    None
}

/// The number of the argument of a Call, Go or Defer at the index.
pub(crate) fn argument_at(kind: &Kind, index: u32) -> Option<u32>
    ensures some { IfSome result (IsArgumentAt kind.now index) }
    ensures none { IsNone result → (k : ℕ) → IsArgumentAt kind.now index k → ⊥ }
{
    match kind {
        Kind::Call { to, callee, args } => argument_behind(
            callee,
            args.as_slice(),
            to.len(),
            index,
        ),
        Kind::Go { callee, args } | Kind::Defer { callee, args } => {
            argument_behind(callee, args.as_slice(), 0, index)
        }
        _ => None,
    }
}
