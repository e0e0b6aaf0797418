// Wrappers, by type and name.
ghost use Rattle.std.specs.Prelude.{◌≡◌, drop, length, slice_get};
ghost use Rattle.argot_plain_parts.specs.Wrappers.{can_wrap, agree, agrees, methods_fit};

use crate::functions::is_wrapper;
use argot_plain::Function;
use argot_text::Text;

fn can_wrap(functions: &[Function], number: u32) -> bool
    ensures { result ≡ can_wrap (slice_get functions.now number) }
{
    if number as usize >= functions.len() {
        return false;
    }
    let f = &functions[number as usize];
    is_wrapper(&f.role) && f.external.is_none()
}

fn agree(x: &(u32, Text, u32), y: &(u32, Text, u32)) -> bool
    ensures { result ≡ agree x.now y.now }
{
    x.0 != y.0 || x.1 != y.1 || x.2 == y.2
}

fn agrees(x: &(u32, Text, u32), methods: &[(u32, Text, u32)]) -> bool
    ensures { result ≡ agrees x.now methods.now }
{
    for i in 0..methods.len() {
        if !agree(x, &methods[i]) {
            return false;
        }
    }
    true
}

/// Whether each method has a wrapper, and none has two.
pub fn methods_fit(functions: &[Function], methods: &[(u32, Text, u32)]) -> bool
    ensures { result ≡ methods_fit functions.now methods.now }
{
    for i in 0..methods.len() {
        let number = methods[i].2;
        if !can_wrap(functions, number) || !agrees(&methods[i], &methods[i + 1..]) {
            return false;
        }
    }
    true
}
