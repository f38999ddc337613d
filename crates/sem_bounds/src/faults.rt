//! The faults of the expressions of a format: values that may be wider than 64 bits, and parts without a range.

ghost use Rattle.std.specs.Prelude.{◌≡◌, Some, IfOk};
ghost use Rattle.std.specs.Option.{option_copied};
ghost use Rattle.sem_profile.specs.Precedence.{earlier};
ghost use Rattle.sem_profile.specs.BoundsFaults as spec;
ghost use Rattle.sem_profile.specs.Ranging.{format_ranges};

use crate::formats::sizes_at;
use crate::glance::format_quiet;
use crate::ranges::{WIDEST_VALUE, format_ranges};
use sem_expr::{Attribute, Cond, Expr, Interval, Measure, Ranges, Side, Subject};
use sem_profile::extent::{Extent, condition_range_fault, range_fault};
use sem_profile::{
    Bounds, Constraint, Encoding, Field, Format, FormatSizes, Library, Method, MethodSizes,
    ProfileFault, ProfileFaultKind, Sizes, earlier,
};
use sqlite_items::at;
use std::alloc::{AllocError, Global};
use text_source::Span;

/// How many octets the word THIS has.
const THIS_LENGTH: usize = 4;

pub(crate) fn side_bounds(side: Side, sizes: Sizes) -> Bounds
    ensures { result ≡ spec.side_bounds side sizes }
{
    match side {
        Side::Uncompressed => sizes.uncompressed,
        Side::Compressed => sizes.compressed,
    }
}

fn subject_sizes(sizes: &FormatSizes, subject: Subject) -> Sizes
    ensures { result ≡ spec.subject_sizes sizes.now subject }
{
    match subject {
        Subject::Field(index) => sizes_at(sizes.fields.as_slice(), index),
        Subject::This => sizes.whole,
    }
}

fn is_wide(sizes: &FormatSizes, attribute: Attribute) -> bool
    ensures { result ≡ spec.is_wide sizes.now attribute }
{
    let bounds = side_bounds(attribute.side, subject_sizes(sizes, attribute.subject));
    match attribute.measure {
        Measure::Value => WIDEST_VALUE < bounds.most,
        Measure::Length => false,
    }
}

fn word_length(fields: &[Field], subject: Subject) -> usize
    ensures { result ≡ spec.word_length fields.now subject }
{
    match subject {
        Subject::Field(index) => match fields.get(index) {
            Some(field) => field.declared.name.as_str().len(),
            None => 0,
        },
        Subject::This => THIS_LENGTH,
    }
}

fn wide_value(fields: &[Field], at: Span, subject: Subject) -> ProfileFault
    ensures { result ≡ spec.wide_value fields.now at subject }
{
    let to = (at.from as usize).saturating_add(word_length(fields, subject));
    let word = Span {
        from: at.from,
        to: to.min(u32::MAX as usize) as u32,
    };
    ProfileFault {
        kind: ProfileFaultKind::WideValue,
        at,
        first: Some(word),
        second: None,
    }
}

fn wide_in(format: &Format, sizes: &FormatSizes, expr: &Expr) -> Option<ProfileFault>
    ensures { result ≡ spec.wide_in format.now sizes.now expr.now }
{
    match expr {
        Expr::Number(_, _) | Expr::Parameter(_, _) => None,
        Expr::Attribute(at, attribute) => {
            if is_wide(sizes, *attribute) {
                Some(wide_value(format.fields.as_slice(), *at, attribute.subject))
            } else {
                None
            }
        }
        Expr::Binary(_, _, left, right) => earlier(
            wide_in(format, sizes, left),
            wide_in(format, sizes, right),
        ),
    }
}

fn wide_in_condition(format: &Format, sizes: &FormatSizes, cond: &Cond) -> Option<ProfileFault>
    ensures { result ≡ spec.wide_in_condition format.now sizes.now cond.now }
{
    match cond {
        Cond::Constant(_, _) => None,
        Cond::Compare(_, _, left, right) => earlier(
            wide_in(format, sizes, left),
            wide_in(format, sizes, right),
        ),
        Cond::Not(_, inner) => wide_in_condition(format, sizes, inner),
        Cond::And(_, left, right) | Cond::Or(_, left, right) => earlier(
            wide_in_condition(format, sizes, left),
            wide_in_condition(format, sizes, right),
        ),
    }
}

fn expr_fault(
    extent: Extent,
    format: &Format,
    sizes: &FormatSizes,
    ranges: &Ranges,
    expr: &Expr,
) -> Option<ProfileFault>
    ensures { result ≡ spec.expr_fault extent format.now sizes.now ranges.now expr.now }
{
    let wide = wide_in(format, sizes, expr);
    match range_fault(extent, expr, ranges) {
        None => wide,
        Some(fault) => earlier(wide, Some(ProfileFault::of_range(fault))),
    }
}

fn condition_fault(
    extent: Extent,
    format: &Format,
    sizes: &FormatSizes,
    ranges: &Ranges,
    cond: &Cond,
) -> Option<ProfileFault>
    ensures { result ≡ spec.condition_fault extent format.now sizes.now ranges.now cond.now }
{
    let wide = wide_in_condition(format, sizes, cond);
    match condition_range_fault(extent, cond, ranges) {
        None => wide,
        Some(fault) => earlier(wide, Some(ProfileFault::of_range(fault))),
    }
}

fn exprs_fault(
    extent: Extent,
    format: &Format,
    sizes: &FormatSizes,
    ranges: &Ranges,
    exprs: &[Expr],
) -> Option<ProfileFault>
    ensures { result ≡ spec.earliest (spec.expr_fault extent format.now sizes.now ranges.now) exprs.now }
{
    let mut found = None;
    for expr in exprs {
        found = earlier(found, expr_fault(extent, format, sizes, ranges, expr));
    }
    found
}

fn pair_fault(
    extent: Extent,
    format: &Format,
    sizes: &FormatSizes,
    ranges: &Ranges,
    first: &Expr,
    second: &Expr,
) -> Option<ProfileFault>
    ensures { result
        ≡ earlier (spec.expr_fault extent format.now sizes.now ranges.now first.now) (spec.expr_fault extent format.now sizes.now ranges.now second.now) }
{
    earlier(
        expr_fault(extent, format, sizes, ranges, first),
        expr_fault(extent, format, sizes, ranges, second),
    )
}

fn library_fault(
    extent: Extent,
    format: &Format,
    sizes: &FormatSizes,
    ranges: &Ranges,
    library: &Library,
) -> Option<ProfileFault>
    ensures { result ≡ spec.library_fault (spec.expr_fault extent format.now sizes.now ranges.now) library.now }
{
    match library {
        Library::UncompressedValue { length, value } => {
            pair_fault(extent, format, sizes, ranges, length, value)
        }
        Library::CompressedValue { length, value } => {
            pair_fault(extent, format, sizes, ranges, length, value)
        }
        Library::Irregular { length } => expr_fault(extent, format, sizes, ranges, length),
        Library::Static => None,
        Library::Lsb { bits, offset } => pair_fault(extent, format, sizes, ranges, bits, offset),
        Library::Crc(crc) => earlier(
            pair_fault(
                extent,
                format,
                sizes,
                ranges,
                &crc.get().bits,
                &crc.get().polynomial,
            ),
            pair_fault(
                extent,
                format,
                sizes,
                ranges,
                &crc.get().initial,
                &crc.get().length,
            ),
        ),
    }
}

fn encoding_fault(
    extent: Extent,
    format: &Format,
    sizes: &FormatSizes,
    ranges: &Ranges,
    encoding: &Encoding,
) -> Option<ProfileFault>
    ensures { result ≡ spec.encoding_fault (spec.expr_fault extent format.now sizes.now ranges.now) encoding.now }
{
    match encoding {
        Encoding::Bare => None,
        Encoding::Library(library) => library_fault(extent, format, sizes, ranges, library),
        Encoding::Call { arguments, .. } => {
            exprs_fault(extent, format, sizes, ranges, arguments.as_slice())
        }
    }
}

fn constraint_fault(
    extent: Extent,
    format: &Format,
    sizes: &FormatSizes,
    ranges: &Ranges,
    constraint: &Constraint,
) -> Option<ProfileFault>
    ensures { result ≡ spec.constraint_fault extent format.now sizes.now ranges.now constraint.now }
{
    match constraint {
        Constraint::Bracket { lengths, .. } => {
            exprs_fault(extent, format, sizes, ranges, lengths.as_slice())
        }
        Constraint::Enforce { condition, .. } => {
            condition_fault(extent, format, sizes, ranges, condition.get())
        }
    }
}

fn fields_fault(
    extent: Extent,
    format: &Format,
    sizes: &FormatSizes,
    ranges: &Ranges,
) -> Option<ProfileFault>
    ensures { result
        ≡ spec.earliest (λ d. spec.encoding_fault (spec.expr_fault extent format.now sizes.now ranges.now) d.encoding) format.now.fields }
{
    let mut found = None;
    for field in format.fields.as_slice() {
        found = earlier(
            found,
            encoding_fault(extent, format, sizes, ranges, field.encoding.get()),
        );
    }
    found
}

fn constraints_fault(
    extent: Extent,
    format: &Format,
    sizes: &FormatSizes,
    ranges: &Ranges,
) -> Option<ProfileFault>
    ensures { result ≡ spec.earliest (spec.constraint_fault extent format.now sizes.now ranges.now) format.now.constraints }
{
    let mut found = None;
    for constraint in format.constraints.as_slice() {
        found = earlier(
            found,
            constraint_fault(extent, format, sizes, ranges, constraint.get()),
        );
    }
    found
}

/// The earliest fault in the expressions of a format, under the ranges of its attributes and parameters.
pub(crate) fn format_fault(
    extent: Extent,
    format: &Format,
    sizes: &FormatSizes,
    ranges: &Ranges,
) -> Option<ProfileFault>
    ensures { result ≡ spec.format_fault extent format.now sizes.now ranges.now }
{
    earlier(
        fields_fault(extent, format, sizes, ranges),
        constraints_fault(extent, format, sizes, ranges),
    )
}

fn judged(
    alloc: Global,
    extent: Extent,
    parameters: &[Interval],
    format: &Format,
    sizes: &FormatSizes,
) -> Result<Option<ProfileFault>, AllocError>
    ensures { IfOk result (λ o. o ≡ spec.format_fault extent format.now sizes.now (format_ranges sizes.now parameters.now)) }
{
    if format_quiet(extent, sizes, parameters, format) {
        return Ok(None);
    }
    let ranges = format_ranges(alloc, sizes, parameters)?;
    Ok(format_fault(extent, format, sizes, &ranges))
}

fn sized_fault(
    alloc: Global,
    extent: Extent,
    parameters: &[Interval],
    format: &Format,
    sizes: Option<&FormatSizes>,
) -> Result<Option<ProfileFault>, AllocError>
    ensures { IfOk result (λ o. o ≡ spec.sized_fault extent parameters.now format.now (option_copied sizes.entry)) }
{
    match sizes {
        Some(sizes) => judged(alloc, extent, parameters, format, sizes),
        None => Ok(None),
    }
}

fn formats_fault(
    alloc: Global,
    extent: Extent,
    method: &Method,
    sizes: &MethodSizes,
) -> Result<Option<ProfileFault>, AllocError>
    ensures { IfOk result (λ o. o ≡ spec.method_fault extent method.now (Some sizes.now)) }
{
    let mut found = None;
    let mut place = 0;
    for format in method.formats.as_slice() {
        let sized = at(sizes.formats.as_slice(), place);
        let fault = sized_fault(alloc, extent, sizes.parameters.as_slice(), format, sized)?;
        found = earlier(found, fault);
        place += 1;
    }
    Ok(found)
}

fn method_fault(
    alloc: Global,
    extent: Extent,
    method: &Method,
    entry: Option<&MethodSizes>,
) -> Result<Option<ProfileFault>, AllocError>
    ensures { IfOk result (λ o. o ≡ spec.method_fault extent method.now (option_copied entry.entry)) }
{
    match entry {
        Some(sizes) => formats_fault(alloc, extent, method, sizes),
        None => Ok(None),
    }
}

/// The earliest fault in the expressions of the methods, under the ranges that their bounds and parameters give.
pub(crate) fn methods_fault(
    alloc: Global,
    extent: Extent,
    methods: &[Method],
    table: &[MethodSizes],
) -> Result<Option<ProfileFault>, AllocError>
    ensures { IfOk result (λ o. o ≡ spec.methods_fault extent methods.now table.now) }
{
    let mut found = None;
    let mut place = 0;
    for method in methods {
        let fault = method_fault(alloc, extent, method, at(table, place))?;
        found = earlier(found, fault);
        place += 1;
    }
    Ok(found)
}
