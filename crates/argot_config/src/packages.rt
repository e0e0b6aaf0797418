// The packages of functions by numbers, so that a matcher looks at each path once.
ghost use Rattle.std.specs.Prelude.{◌≡◌, ◌<◌, ℕ, List, IfOk, length};
ghost use Rattle.argot_plain.specs.Code.{Code, IsFunction};
ghost use Rattle.argot_plain.specs.declared.functions.Function.{Function};
ghost use Rattle.argot_config.specs.Looking.{Sought, is_found};
ghost use Rattle.argot_config.specs.Packages.{ArePackages, IsPath, found_in, path_of};

use argot_plain::{Ident, Program};
use argot_text::Memory;
use indexmap::IndexSet;
use std::alloc::Global;

/// The paths of packages, each once, and the number of each function's path among them.
#[derive(Drop)]
pub(crate) struct Packages<'p> {
    pub(crate) paths: IndexSet<&'p str>,
    numbers: Vec<usize>,
}

// The path of a function's package; a function without a name has the empty one.
fn path_of(ident: &Option<Ident>) -> &str
    ensures { result.now ≡ path_of ident.now }
{
    match ident {
        Some(ident) => ident.package.as_str(),
        None => "",
    }
}

// The number of a path, which becomes the last one where it is new.
fn number_of<'p>(paths: &mut IndexSet<&'p str>, path: &'p str) -> Result<usize, Memory>
    ensures is { IfOk result (λ n. IsPath paths.new.keys n path.now) }
    ensures kept { IfOk result (λ _. (n : ℕ) (other : List ℕ) → IsPath paths.old.keys n other → IsPath paths.new.keys n other) }
{
    let (number, _) = paths.insert_full(path)?;
    Ok(number)
}

impl<'p> Packages<'p> {
    pub(crate) fn new(alloc: Global, program: &'p Program) -> Result<Packages<'p>, Memory>
        ensures { IfOk result (ArePackages program.now) }
    {
        let mut paths = IndexSet::new(alloc);
        let mut numbers = Vec::new(alloc);
        for g in 0..program.function_count() {
            let path = path_of(&program.function(g).ident);
            numbers.push(number_of(&mut paths, path)?)?;
        }
        Ok(Packages { paths, numbers })
    }

    /// What is said of the path of the function's package, by what is said of each path.
    pub(crate) fn at(&self, said: &[bool], g: usize) -> bool
        requires function { (p : Code) × (ArePackages p self.now × (g < length p.functions)) }
        requires said { length said.now ≡ length self.now.paths.keys }
        ensures { (p : Code) (fn : Function) (s : Sought) → ArePackages p self.now → IsFunction p g fn → said.now ≡ found_in s self.now.paths.keys → result ≡ is_found s (path_of fn.ident) }
    {
        said[self.numbers[g]]
    }
}
