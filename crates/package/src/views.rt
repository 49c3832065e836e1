// The package that reading answers: a view of the bytes, and what later layers ask it for.
ghost use Rattle.std.specs.Prelude.{◌≡◌, length};
ghost use Rattle.declarations.specs.Marks.{mark_at};
ghost use Rattle.declarations.specs.Procedures.{opening_at, owner_of, program_of};
ghost use Rattle.declarations.specs.Views.{mark_found, procedure_found, procedure_seen};
ghost use Rattle.package.specs.Format.{Valid};
ghost use Rattle.package.specs.Package.{counts_of};

use super::counts::Counts;
use declarations::marks::{MarkView, find_mark};
use declarations::procedures::{ProcedureView, find_opening, find_owner, first_procedure};
use fields::field_count;
use std::marker::Model;

// A package that was read. Only `read` makes one; it borrows the bytes that it shows. Contracts see it as the package
// that its bytes hold, which is valid.
#[derive(Drop)]
pub struct ReadPackage<'a> {
    pub(crate) code: &'a [u8],
    pub(crate) procedures: &'a [u8],
    pub(crate) marks: &'a [u8],
}

impl<'a> Model for ReadPackage<'a> {
    ghost use Rattle.package.specs.Package.{Package};

    ghost Value = { Package };

    ghost use Rattle.package.specs.Views.{IsValid, package_seen};

    ghost view = { package_seen };

    ghost invariant = { IsValid };
}

impl<'a> ReadPackage<'a> {
    pub fn code(&self) -> &'a [u8]
        ensures is { result.now ≡ self.now.code }
        ensures valid { Valid self.now }
    {
        self.code
    }

    pub fn procedure_count(&self) -> usize
        ensures { result ≡ length self.now.procedures }
    {
        field_count(self.procedures)
    }

    pub fn mark_count(&self) -> usize
        ensures { result ≡ length self.now.marks }
    {
        field_count(self.marks)
    }

    pub fn counts(&self) -> Counts
        ensures { result ≡ counts_of self.now }
    {
        Counts {
            code: self.code.len(),
            procedures: self.procedure_count(),
            marks: self.mark_count(),
        }
    }

    // The program: the first procedure.
    pub fn program(&self) -> ProcedureView<'a>
        ensures { procedure_seen result ≡ program_of self.now.procedures }
    {
        first_procedure(self.procedures)
    }

    // How many bytes the globals take: the program's locals.
    pub fn globals_size(&self) -> u16
        ensures { result ≡ (program_of self.now.procedures).locals }
    {
        self.program().locals
    }

    // The procedure that owns an offset of the code: the last that opens there or before.
    pub fn owner(&self, offset: usize) -> ProcedureView<'a>
        ensures { procedure_seen result ≡ owner_of self.now.procedures offset }
    {
        find_owner(self.procedures, offset)
    }

    // The procedure that opens at an offset of the code.
    pub fn opening_at(&self, offset: usize) -> Option<ProcedureView<'a>>
        ensures { procedure_found result ≡ opening_at self.now.procedures offset }
    {
        find_opening(self.procedures, offset)
    }

    // The mark at an offset of the code. A package without marks is answered here, without the search.
    pub fn mark_at(&self, offset: usize) -> Option<MarkView<'a>>
        ensures { mark_found result ≡ mark_at self.now.marks offset }
    {
        if self.marks.is_empty() {
            return None;
        }
        self.search_marks(offset)
    }

    // The search for it. Not inlined, so that its loop stands once in a program: clearing asks from several places, and
    // with many marks most of its time goes here.
    #[inline(never)]
    fn search_marks(&self, offset: usize) -> Option<MarkView<'a>>
        ensures { mark_found result ≡ mark_at self.now.marks offset }
    {
        find_mark(self.marks, offset)
    }
}
