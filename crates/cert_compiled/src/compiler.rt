//! From plans to fewer operations, for who draws fillings up and has them judged.

ghost use Rattle.std.specs.Prelude.{◌≡◌, IfOk, IfSome, slice_get, option_and_then};
ghost use Rattle.std.specs.Option.{option_copied};
ghost use Rattle.cert_compiled.specs.Compiled as spec;

use crate::looks::{Looks, looks_of};
use crate::operations::{CompiledPlan, Operations};
use crate::pages::{PageOperation, PageWriting, page_operations, page_writing};
use crate::places::{entry_counts, places_of};
use crate::steps::OperationsSoFar;
use cert_types::{Direction, FormatPlans, MethodPlans, Step};
use sem_pages::Prepared;
use sem_profile::{Format, FormatSizes, Method, MethodSizes};
use sqlite_items::{Items, at};
use std::alloc::{AllocError, Global};

/// For each method the operations of its formats, as far as these have plans. Nothing is promised of them: who follows them judges what he finds. The error is want
/// of memory.
pub(crate) fn plan_acts(
    alloc: Global,
    methods: &[Method],
    table: &[MethodSizes],
    entries: &[Option<MethodPlans>],
) -> Result<Items<Items<CompiledPlan>>, AllocError>
    ensures { IfOk result (spec.AreCompiled methods.now table.now) }
{
    let counts = entry_counts(alloc, methods)?;
    let calls = Calls {
        methods,
        counts: counts.as_slice(),
    };
    let mut all = Items::new(alloc);
    for k in 0..methods.len() {
        let acts = acts_at(alloc, &calls, &methods[k], at(table, k), at(entries, k))?;
        all.push(acts)?;
    }
    Ok(all)
}

/// The methods that may be called, and for each how many entries a level of it leaves.
#[derive(Clone, Copy)]
struct Calls<'a> {
    methods: &'a [Method],
    counts: &'a [usize],
}

/// Those of one method, none where it has no plans.
fn acts_at(
    alloc: Global,
    calls: &Calls<'_>,
    method: &Method,
    sizes: Option<&MethodSizes>,
    entry: Option<&Option<MethodPlans>>,
) -> Result<Items<CompiledPlan>, AllocError>
    ensures { IfOk result (spec.ArePlansOf method.now.formats (option_copied sizes.entry)) }
{
    let Some(entry) = entry else {
        return Ok(Items::new(alloc));
    };
    match entry {
        Some(plans) => method_acts(
            alloc,
            calls,
            method.formats.as_slice(),
            sizes,
            plans.formats.as_slice(),
        ),
        None => Ok(Items::new(alloc)),
    }
}

fn method_acts(
    alloc: Global,
    calls: &Calls<'_>,
    formats: &[Format],
    sizes: Option<&MethodSizes>,
    plans: &[FormatPlans],
) -> Result<Items<CompiledPlan>, AllocError>
    ensures { IfOk result (spec.ArePlansOf formats.now (option_copied sizes.entry)) }
{
    let mut all = Items::new(alloc);
    for index in 0..formats.len() {
        let own = format_sizes(sizes, index);
        let plan = plan_for(alloc, calls, &formats[index], own, at(plans, index))?;
        all.push(plan)?;
    }
    Ok(all)
}

/// The bounds of the format of that index.
fn format_sizes(sizes: Option<&MethodSizes>, index: usize) -> Option<&FormatSizes>
    ensures { option_copied result ≡ option_and_then (λ s. slice_get s.formats index) (option_copied sizes.entry) }
{
    sizes?.formats.get(index)
}

fn plan_for(
    alloc: Global,
    calls: &Calls<'_>,
    format: &Format,
    sizes: Option<&FormatSizes>,
    entry: Option<&FormatPlans>,
) -> Result<CompiledPlan, AllocError>
    ensures { IfOk result (spec.IsPlanOf format.now (option_copied sizes.entry)) }
{
    match entry {
        Some(entry) => format_acts(alloc, calls, format, sizes, entry),
        None => Ok(NONE),
    }
}

const NONE: CompiledPlan = CompiledPlan {
    looks: None,
    places: None,
    prepared: None,
    read: None,
    page: None,
    page_writing: None,
    write: None,
};

fn format_acts(
    alloc: Global,
    calls: &Calls<'_>,
    format: &Format,
    sizes: Option<&FormatSizes>,
    entry: &FormatPlans,
) -> Result<CompiledPlan, AllocError>
    ensures { IfOk result (spec.IsPlanOf format.now (option_copied sizes.entry)) }
{
    match &entry.plans {
        Some(plans) => {
            let prepared = Prepared::of(alloc, format)?;
            let reading = reading_of(alloc, format, &prepared, plans.read.as_slice())?;
            let writing = writing_of(
                alloc,
                calls.methods,
                format,
                &prepared,
                plans.write.as_slice(),
            )?;
            let places = places_of(alloc, calls.counts, format)?;
            let looks = looks_at(alloc, calls, format, sizes)?;
            let (read, page) = reading.parts();
            let (write, page_writing) = writing.parts();
            Ok(CompiledPlan {
                looks,
                places: Some(places),
                prepared: Some(prepared),
                read,
                page,
                page_writing,
                write,
            })
        }
        None => Ok(NONE),
    }
}

/// The operations of a read plan, and those by which a page is read.
struct Reading {
    read: Option<Operations>,
    page: Option<Items<PageOperation>>,
}

// A call of its own, so that no caller's proof goes through the cases.
impl Drop for Reading {
    fn drop(self) {
        let Reading {
            read: _read,
            page: _page,
        } = self;
    }
}

impl Reading {
    fn parts(self) -> (Option<Operations>, Option<Items<PageOperation>>) {
        let Reading { read, page } = self;
        (read, page)
    }
}

fn reading_of(
    alloc: Global,
    format: &Format,
    prepared: &Prepared,
    plan: &[Step],
) -> Result<Reading, AllocError> {
    let read = operations(alloc, format, Direction::Read, plan)?;
    let page = page_operations(alloc, format, prepared, plan)?;
    Ok(Reading { read, page })
}

/// The same of a write plan.
struct Writing {
    write: Option<Operations>,
    page_writing: Option<Items<PageWriting>>,
}

// As above.
impl Drop for Writing {
    fn drop(self) {
        let Writing {
            write: _write,
            page_writing: _page_writing,
        } = self;
    }
}

impl Writing {
    fn parts(self) -> (Option<Operations>, Option<Items<PageWriting>>) {
        let Writing {
            write,
            page_writing,
        } = self;
        (write, page_writing)
    }
}

fn writing_of(
    alloc: Global,
    methods: &[Method],
    format: &Format,
    prepared: &Prepared,
    plan: &[Step],
) -> Result<Writing, AllocError> {
    let write = operations(alloc, format, Direction::Write, plan)?;
    let page_writing = page_writing(alloc, methods, format, prepared, plan)?;
    Ok(Writing {
        write,
        page_writing,
    })
}

/// What a look at the format goes over, where its bounds are there.
fn looks_at(
    alloc: Global,
    calls: &Calls<'_>,
    format: &Format,
    sizes: Option<&FormatSizes>,
) -> Result<Option<Looks>, AllocError>
    ensures { IfOk result (λ o. IfSome o (spec.IsLookedBy format.now (option_copied sizes.entry))) }
{
    match sizes {
        Some(sizes) => Ok(Some(looks_of(alloc, calls.methods, format, sizes)?)),
        None => Ok(None),
    }
}

/// The operations of a plan.
fn operations(
    alloc: Global,
    format: &Format,
    direction: Direction,
    plan: &[Step],
) -> Result<Option<Operations>, AllocError> {
    let mut so_far = OperationsSoFar::new(alloc, format, direction)?;
    for step in plan {
        if !so_far.add(alloc, *step)? {
            return Ok(None);
        }
    }
    Ok(Some(so_far.into_operations()))
}
