// The stub of a path.
ghost use Rattle.std.specs.Prelude.{◌≡◌, ℕ, List, IfSome, IsNone};
ghost use Rattle.argot_stubs.specs.Stubs.{HasStub};

use crate::texts;

/// The text that stands for the package at that path; None exactly where no stub stands for it. No memory.
pub fn stub(path: &str) -> Option<&'static str>
    ensures found { IfSome result (λ text. HasStub path.now text.now) }
    ensures none { IsNone result → (text : List ℕ) → HasStub path.now text → ⊥ }
{
    match path {
        "errors" => Some(texts::errors_stub()),
        "fmt" => Some(texts::fmt_stub()),
        "os" => Some(texts::os_stub()),
        "os/exec" => Some(texts::exec_stub()),
        "strings" => Some(texts::strings_stub()),
        "log" => Some(texts::log_stub()),
        "strconv" => Some(texts::strconv_stub()),
        "sync" => Some(texts::sync_stub()),
        _ => None,
    }
}
