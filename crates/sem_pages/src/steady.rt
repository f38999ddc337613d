//! What of a page is so again in the context that it leaves: constants, fields of `static`, and calls with numbers that have such fields alone inside.

ghost use Rattle.std.specs.Prelude.{◌≡◌, IsTrue, Some, true};
ghost use Rattle.std.specs.Option.{option_copied};
ghost use Rattle.sem_pages.specs.Steady as spec;

use crate::entries::format_of;
use crate::page::{Page, Shown};
use sem_expr::Expr;
use sem_profile::{Encoding, Field, Library, Method, Part};

/// Whether the field, with what the page shows of it, fits its encoding in each context that has the page's entries.
#[inline(always)]
pub fn is_steady(methods: &[Method], field: &Field, shown: &Shown) -> bool
    ensures { IsTrue result → spec.IsSteady methods.now field.now shown.now }
{
    match field.encoding.get() {
        Encoding::Bare => false,
        Encoding::Library(library) => is_steady_by(library, field.declared.part),
        Encoding::Call { method, arguments } => {
            are_literals(arguments.as_slice()) && is_steady_inside(methods, *method, shown)
        }
    }
}

/// The same by its library method.
#[inline(always)]
fn is_steady_by(library: &Library, part: Part) -> bool
    ensures { IsTrue result → spec.IsSteadyBy part library.now }
{
    match library {
        Library::Static => has_entry(part),
        Library::UncompressedValue { length, value } => is_literal(length) && is_literal(value),
        Library::CompressedValue { length, value } => is_literal(length) && is_literal(value),
        Library::Irregular { .. } | Library::Lsb { .. } | Library::Crc(_) => false,
    }
}

/// Whether a field of that part leaves an entry.
#[inline(always)]
fn has_entry(part: Part) -> bool
    ensures { IsTrue result → spec.HasEntry part }
{
    match part {
        Part::Header | Part::Control => true,
        Part::Local => false,
    }
}

/// Whether the expression is a number.
#[inline(always)]
fn is_literal(expr: &Expr) -> bool
    ensures { IsTrue result → spec.IsLiteral expr.now }
{
    match expr {
        Expr::Number(_, _) => true,
        Expr::Parameter(_, _) | Expr::Attribute(_, _) | Expr::Binary(_, _, _, _) => false,
    }
}

/// Whether each of the expressions is one.
#[inline(always)]
fn are_literals(exprs: &[Expr]) -> bool
    ensures { IsTrue result → spec.AreLiterals exprs.now }
{
    for expr in exprs {
        if !is_literal(expr) {
            return false;
        }
    }
    true
}

/// Whether a page is inside, of a format of the method in which each field is a constant or `static`.
#[inline(always)]
fn is_steady_inside(methods: &[Method], method: usize, shown: &Shown) -> bool
    ensures { IsTrue result → spec.IsSteadyInside methods.now method shown.now }
{
    let Some(page) = &shown.inner else {
        return false;
    };
    let Some(format) = format_of(methods, method, page.format) else {
        return false;
    };
    are_leaves(format.fields.as_slice())
}

/// Whether each of the fields is a constant or `static`.
#[inline(always)]
fn are_leaves(fields: &[Field]) -> bool
    ensures { IsTrue result → spec.AreLeaves fields.now }
{
    for field in fields {
        if !is_leaf(field) {
            return false;
        }
    }
    true
}

#[inline(always)]
fn is_leaf(field: &Field) -> bool
    ensures { IsTrue result → spec.IsLeaf field.now }
{
    match field.encoding.get() {
        Encoding::Library(library) => is_steady_by(library, field.declared.part),
        Encoding::Bare | Encoding::Call { .. } => false,
    }
}
