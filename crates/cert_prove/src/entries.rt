//! What the prover's order gives of each method and format.

ghost use Rattle.std.specs.Prelude.{◌≡◌, ◌<◌, ℕ, List, Some, length, slice_get, IfOk, IfErr};
ghost use Rattle.sem_profile.specs.declared.profile.Format.{Format};
ghost use Rattle.sem_profile.specs.declared.profile.Method.{Method};
ghost use Rattle.sem_profile.specs.declared.profile.FormatSizes.{FormatSizes};
ghost use Rattle.sem_profile.specs.declared.profile.MethodSizes.{MethodSizes};
ghost use Rattle.cert_types.specs.Kept.{IsPlanKept};
ghost use Rattle.cert_rules.specs.Plans.{way_of};
ghost use Rattle.cert_prove.specs.Order.{order_of};
ghost use Rattle.cert_prove.specs.Ordered.{OrderedPlan};
ghost use Rattle.cert_prove.specs.Refusals as order;
ghost use Rattle.cert_prove.specs.Growing.{IsUnparted};
ghost use Rattle.cert_prove.specs.Made.{AreMade, IsEntryMade, AreFormatsMade, IsFormatMade, FormatLacks, FormatsLack, MethodLacks};
ghost use Rattle.cert_prove.specs.Proved.{ReadBefore, Lacks};

use crate::unproved::Unproved;
use crate::way::Way;
use crate::{Unordered, Unparted, order_plan, part_formats};
use cert_types::{Direction, FormatPlans, MethodPlans, Plans, Step, Version};
use sem_profile::{Format, FormatSizes, Method, MethodSizes};
use sqlite_items::Items;
use std::alloc::Global;

/// What is said of each method, where the table holds their bounds.
pub(crate) fn all_entries(
    alloc: Global,
    version: Version,
    methods: &[Method],
    table: &[MethodSizes],
) -> Result<Items<Option<MethodPlans>>, Unproved>
    requires each { length table.now ≡ length methods.now }
    requires formats { (k : ℕ) (m : Method) (s : MethodSizes) → slice_get methods.now k ≡ Some m → slice_get table.now k ≡ Some s → length s.formats ≡ length m.formats }
    ensures made { IfOk result (AreMade version methods.now table.now) }
    ensures lacks { IfErr result (Lacks version methods.now table.now) }
{
    let mut entries = Items::new(alloc);
    for method in 0..methods.len() {
        match entry(
            alloc,
            version,
            table,
            &methods[method],
            &table[method],
            method,
        ) {
            Ok(entry) => entries.push(entry)?,
            Err(unproved) => return Err(unproved),
        }
    }
    Ok(entries)
}

/// What is said of a method, nothing where it has no formats: its tree, then the plans of its formats.
fn entry(
    alloc: Global,
    version: Version,
    table: &[MethodSizes],
    method: &Method,
    sizes: &MethodSizes,
    index: usize,
) -> Result<Option<MethodPlans>, Unproved>
    requires { length sizes.now.formats ≡ length method.now.formats }
    ensures made { IfOk result (IsEntryMade version table.now method.now sizes.now) }
    ensures lacks { IfErr result (MethodLacks version table.now index method.now sizes.now) }
{
    if method.formats.is_empty() {
        return Ok(None);
    }
    let tree = match part_formats(alloc, version, method.formats.as_slice(), sizes) {
        Ok(tree) => tree,
        Err(unparted) => return Err(of_unparted(version, index, unparted)),
    };
    let bounds = sizes.formats.as_slice();
    match all_formats(
        alloc,
        version,
        table,
        bounds,
        method.formats.as_slice(),
        index,
    ) {
        Ok(formats) => Ok(Some(MethodPlans::of(alloc, method, tree, formats)?)),
        Err(unproved) => Err(unproved),
    }
}

/// What is said of each format of a method.
fn all_formats(
    alloc: Global,
    version: Version,
    table: &[MethodSizes],
    bounds: &[FormatSizes],
    formats: &[Format],
    method: usize,
) -> Result<Items<FormatPlans>, Unproved>
    requires { length bounds.now ≡ length formats.now }
    ensures made { IfOk result (AreFormatsMade version table.now bounds.now formats.now) }
    ensures lacks { IfErr result (FormatsLack version table.now method bounds.now formats.now) }
{
    let mut entries = Items::new(alloc);
    for format in 0..formats.len() {
        match format_entry(
            alloc,
            version,
            table,
            &bounds[format],
            &formats[format],
            method,
            format,
        ) {
            Ok(entry) => entries.push(entry)?,
            Err(unproved) => return Err(unproved),
        }
    }
    Ok(entries)
}

/// What is said of a format: its plan to read, then its plan to write.
fn format_entry(
    alloc: Global,
    version: Version,
    table: &[MethodSizes],
    sizes: &FormatSizes,
    format: &Format,
    method: usize,
    index: usize,
) -> Result<FormatPlans, Unproved>
    ensures made { IfOk result (IsFormatMade version table.now sizes.now format.now) }
    ensures lacks { IfErr result (FormatLacks version table.now method index sizes.now format.now) }
{
    let reading = Way {
        version,
        direction: Direction::Read,
        table,
        sizes,
        format,
    };
    let read = match format_plan(alloc, &reading, method, index) {
        Ok(steps) => steps,
        Err(unproved) => return Err(unproved),
    };
    let writing = Way {
        version,
        direction: Direction::Write,
        table,
        sizes,
        format,
    };
    let write = match format_plan(alloc, &writing, method, index) {
        Ok(steps) => steps,
        Err(unproved) => return Err(unproved),
    };
    Ok(FormatPlans::of(alloc, format, Some(Plans { read, write }))?)
}

/// The plan of a format in a direction; that to write comes after that to read.
fn format_plan(
    alloc: Global,
    way: &Way<'_, '_>,
    method: usize,
    index: usize,
) -> Result<Items<Step>, Unproved>
    requires { ReadBefore way.now.version way.now.direction way.now.table.now way.now.sizes.now way.now.format.now }
    ensures ordered { IfOk result (OrderedPlan (way_of way.now.version way.now.direction way.now.table.now way.now.sizes.now way.now.format.now) (order_of way.now.direction way.now.format.now)) }
    ensures kept { IfOk result IsPlanKept }
    ensures lacks { IfErr result (FormatLacks way.now.version way.now.table.now method index way.now.sizes.now way.now.format.now) }
{
    let Way {
        version,
        direction,
        table,
        sizes,
        format,
    } = *way;
    match order_plan(alloc, version, direction, table, sizes, format) {
        Ok(steps) => Ok(steps),
        Err(unordered) => Err(of_unordered(version, method, index, direction, unordered)),
    }
}

/// Why a method's formats have no tree, as a refusal of the profile.
fn of_unparted(version: Version, method: usize, unparted: Unparted) -> Unproved
    ensures { (table : List MethodSizes) (m : Method) (s : MethodSizes) → IsUnparted version m.formats s unparted → MethodLacks version table method m s result }
{
    match unparted {
        Unparted::Stuck { first, second } => Unproved::NoTree {
            method,
            first,
            second,
        },
        Unparted::Limit => Unproved::Limit,
        Unparted::OutOfMemory => Unproved::OutOfMemory,
    }
}

/// Why a format has no plan, as a refusal of the profile.
fn of_unordered(
    version: Version,
    method: usize,
    format: usize,
    direction: Direction,
    unordered: Unordered,
) -> Unproved
    ensures { (table : List MethodSizes) (z : FormatSizes) (f : Format) → order.Blames version direction table z f unordered → ReadBefore version direction table z f → FormatLacks version table method format z f result }
{
    match unordered {
        Unordered::Lacking { sides } => Unproved::NoPlan {
            method,
            format,
            direction,
            sides,
        },
        Unordered::TooLong => Unproved::Limit,
        Unordered::OutOfMemory => Unproved::OutOfMemory,
    }
}
