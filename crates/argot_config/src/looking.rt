// Tests made ready to look at many texts. The calls of `regex` stand here.
ghost use Rattle.std.specs.Prelude.{◌≡◌, IfOk};
ghost use Rattle.argot_config.specs.Packages.{found_in};
ghost use Rattle.argot_config.specs.Looking.{are_found, is_found, seeks, sought_by, three_in, three_of};

use argot_config_read::{Matcher, Test};
use argot_plain::Ident;
use regex::Matcher as Searcher;
use std::alloc::{AllocError, Global};

/// A test made ready.
#[derive(Drop)]
pub(crate) enum Looker<'r> {
    All,
    Whole(&'r str),
    Built(Searcher<'r>),
}

impl<'r> Looker<'r> {
    pub(crate) fn new(alloc: Global, test: &'r Test) -> Result<Looker<'r>, AllocError>
        ensures { IfOk result (λ l. seeks l ≡ sought_by test.now) }
    {
        match test {
            Test::All => Ok(Looker::All),
            Test::Whole(text) => Ok(Looker::Whole(text.as_str())),
            Test::Built(pattern) => Ok(Looker::Built(pattern.matcher(alloc)?)),
        }
    }

    /// Whether the text passes.
    pub(crate) fn passes(&mut self, text: &str) -> bool
        ensures found { result ≡ is_found (seeks self.old) text.now }
        ensures same { seeks self.new ≡ seeks self.old }
    {
        match self {
            Looker::All => true,
            Looker::Whole(wanted) => text == *wanted,
            Looker::Built(searcher) => searcher.is_match(text),
        }
    }
}

/// A matcher made ready.
#[derive(Drop)]
pub(crate) struct Look<'r> {
    package: Looker<'r>,
    receiver: Looker<'r>,
    name: Looker<'r>,
}

impl<'r> Look<'r> {
    pub(crate) fn new(alloc: Global, matcher: &'r Matcher) -> Result<Look<'r>, AllocError>
        ensures { IfOk result (λ l. three_in l ≡ three_of matcher.now) }
    {
        Ok(Look {
            package: Looker::new(alloc, &matcher.package)?,
            receiver: Looker::new(alloc, &matcher.receiver)?,
            name: Looker::new(alloc, &matcher.name)?,
        })
    }

    /// For each path of a package whether it passes.
    pub(crate) fn passing(&mut self, alloc: Global, paths: &[&str]) -> Result<Vec<bool>, AllocError>
        ensures passing { IfOk result (λ v. v.items ≡ found_in (seeks self.old.package) paths.now) }
        ensures same { three_in self.new ≡ three_in self.old }
    {
        let mut passing = Vec::new(alloc);
        for path in paths {
            passing.push(self.package.passes(path))?;
        }
        Ok(passing)
    }

    /// Whether each part of what is named passes. The name comes first, since it tells most.
    pub(crate) fn finds(&mut self, ident: &Ident) -> bool
        ensures found { result ≡ are_found (three_in self.old) ident.now }
        ensures same { three_in self.new ≡ three_in self.old }
    {
        self.name.passes(ident.name.as_str())
            && (self.receiver.passes(ident.receiver.as_str())
                && self.package.passes(ident.package.as_str()))
    }
}
