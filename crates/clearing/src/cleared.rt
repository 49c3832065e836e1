// The package that clearing answers.
ghost use Rattle.std.specs.Prelude.{◌≡◌};
ghost use Rattle.verdict.specs.Answers.{Cleared};

use package::ReadPackage;
use std::marker::Model;

// A package that was cleared. Only `clear` makes one, and only from one that was read. Contracts see it as the package
// that it is; the rules hold of it.
#[derive(Drop)]
pub struct ClearedPackage<'a> {
    pub(crate) read: ReadPackage<'a>,
}

impl<'a> Model for ClearedPackage<'a> {
    ghost use Rattle.package.specs.Package.{Package};

    ghost Value = { Package };

    ghost use Rattle.verdict.specs.Answers.{Cleared};

    ghost view = { λ c. c.read };

    ghost invariant = { λ c. Cleared c.read };
}

impl<'a> ClearedPackage<'a> {
    // The package that was read.
    pub fn package(&self) -> &ReadPackage<'a>
        ensures is { result.now ≡ self.now }
        ensures cleared { Cleared self.now }
    {
        &self.read
    }
}
