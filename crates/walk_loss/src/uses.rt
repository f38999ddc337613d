//! Which references a filling uses.

ghost use Rattle.std.specs.Prelude.{◌≡◌, ◌<◌, IfOk, MatchOption, [], ◌∷◌, length};
ghost use Rattle.std.specs.Option.{option_copied};
ghost use Rattle.sem_profile.specs.BoundsLaws.{library_exprs};
ghost use Rattle.sem_elsewhere.specs.Listed.{UsesAre};
ghost use Rattle.sem_elsewhere.specs.Uses.{use_of};
ghost use Rattle.sem_expr.specs.Known.{assignment_of};
ghost use Rattle.sem_expr.specs.Spread.{IsRanged};
ghost use Rattle.sem_filling.specs.Fillings.{inner_of};
ghost use Rattle.sem_filling.specs.Level.{AllRanged};
ghost use Rattle.sem_filling.specs.Ready.{ArgumentsLieAt, IsReady, IsShown, ValuesLieAt};
ghost use Rattle.sem_profile.specs.declared.profile.Library.TheVariants as library;
ghost use Rattle.walk_loss.specs.Uses as spec;

use cert_accepted::Accepted;
use sem_bits::Bits;
use sem_expr::Expr;
use sem_filling::whole_sides::{header_of, packed_of};
use sem_filling::{FieldPath, FilledField, Filling, below};
use sem_holds::level::{Level, level_of};
use sem_holds::numbers::{FillingNumbers, add_values, number_in};
use sem_profile::{Encoding, Field, Library, Part, Profile};
use smallvec::SmallVec;
use sqlite_items::Items;
use std::alloc::{AllocError, Global};
use std::marker::Model;

/// A method that says something of its field's reference, with the values of its arguments.
#[derive(Clone, Copy, PartialEq, Eq)]
pub enum Referring {
    Static,
    /// `lsb(bits, offset)`
    Lsb { bits: i128, offset: i128 },
}

/// A use of a reference: the path of the field, its part and its value of INITIAL, its method, and its two sides.
#[derive(Drop)]
pub struct Using {
    pub path: String,
    pub part: Part,
    pub initial: Option<Bits>,
    pub method: Referring,
    pub uncompressed: Bits,
    pub compressed: Bits,
}

impl Model for Using {
    ghost use Rattle.std.specs.Prelude.{string_bytes};
    ghost use Rattle.sem_elsewhere.specs.Uses.{Use};
    ghost use Rattle.walk_loss.specs.Uses as spec;

    ghost Value = { Use };

    ghost view = { λ u. record { part = u.part; path = string_bytes u.path; initial = u.initial; method = spec.method u.method; uncompressed = u.uncompressed; compressed = u.compressed } };
}

/// A field that calls a method with these arguments.
#[derive(Clone, Copy)]
struct FieldCall<'a> {
    field: &'a Field,
    method: usize,
    arguments: &'a [Expr],
}

/// The uses of a filling that fits the top in some context: in field order, and in the place of a field that calls a method those of the filling inside. The error
/// is out of memory.
pub fn uses_of(
    alloc: Global,
    accepted: &Accepted,
    filling: &Filling,
) -> Result<Items<Using>, AllocError>
    requires { spec.FitsAnywhere accepted.now.profile.methods accepted.now.profile.top [] [] filling.now }
    ensures { IfOk result (UsesAre accepted.now.profile.methods accepted.now.profile.top [] [] filling.now) }
{
    let profile = accepted.profile();
    profile.keeps();
    filling_uses(alloc, profile, profile.top(), [].as_slice(), "", filling)
}

/// Those of a filling of the method, under these arguments and below the path. It has a header, packed bits and a level, since it fits somewhere.
#[cycle(descending)]
fn filling_uses(
    alloc: Global,
    profile: &Profile,
    method: usize,
    arguments: &[i128],
    path: &str,
    filling: &Filling,
) -> Result<Items<Using>, AllocError>
    requires within { method < length profile.now.methods }
    requires arguments { ArgumentsLieAt profile.now method arguments.now }
    requires fits { spec.FitsAnywhere profile.now.methods method arguments.now path.now filling.now }
    ensures { IfOk result (UsesAre profile.now.methods method arguments.now path.now filling.now) }
{
    profile.keeps();
    let Some(header) = header_of(alloc, filling)? else {
        return Ok(Items::new(alloc));
    };
    let Some(packed) = packed_of(alloc, filling)? else {
        return Ok(Items::new(alloc));
    };
    let level = level_of(profile, method, arguments, filling, &header, &packed);
    let Some(level) = level else {
        return Ok(Items::new(alloc));
    };
    fields_uses(alloc, profile, path, &level, filling)
}

/// Those of the fields of a level.
#[cycle(descending)]
fn fields_uses(
    alloc: Global,
    profile: &Profile,
    path: &str,
    level: &Level<'_>,
    filling: &Filling,
) -> Result<Items<Using>, AllocError>
    requires same { level.now.filling.now ≡ filling.now }
    requires ready { IsReady profile.now level.now.format.now level.now.known }
    requires shown { IsShown level.now.format.now level.now.filling.now level.now.header.now level.now.packed.now }
    requires fit { spec.AllFitAnywhere profile.now.methods path.now level.now.format.now level.now.filling.now (assignment_of level.now.known) }
    ensures { IfOk result (spec.FirstUses profile.now.methods path.now level.now.format.now level.now.filling.now (assignment_of level.now.known) (length level.now.format.now.fields)) }
{
    let mut found = Items::new(alloc);
    let filled = filling.fields.as_slice();
    for i in 0..filled.len() {
        let more = field_uses(alloc, profile, path, level, i, &filled[i])?;
        found.append(more)?;
    }
    Ok(found)
}

/// Those of the field at the place.
#[cycle(descending)]
fn field_uses(
    alloc: Global,
    profile: &Profile,
    path: &str,
    level: &Level<'_>,
    place: usize,
    filled: &FilledField,
) -> Result<Items<Using>, AllocError>
    requires within { place < length level.now.format.now.fields }
    requires ready { IsReady profile.now level.now.format.now level.now.known }
    requires fits { spec.FieldFitsAnywhere profile.now.methods path.now level.now.format.now level.now.filling.now (assignment_of level.now.known) place filled.now }
    ensures { IfOk result (spec.UsesAt profile.now.methods path.now level.now.format.now level.now.filling.now (assignment_of level.now.known) place filled.now) }
{
    let field = &level.format.fields.as_slice()[place];
    match field.encoding.get() {
        Encoding::Bare => Ok(Items::new(alloc)),
        Encoding::Library(library) => {
            own_uses(alloc, path, &level.known, field, library, filled)
        }
        Encoding::Call { method, arguments } => {
            let call = FieldCall {
                field,
                method: *method,
                arguments: arguments.as_slice(),
            };
            call_uses(alloc, profile, path, &level.known, &call, filled)
        }
    }
}

/// The library method with the values of its arguments, if it refers.
fn referring_of(library: &Library, known: &FillingNumbers<'_>) -> Option<Referring>
    requires { AllRanged known.now (library_exprs library.now) }
    ensures { MatchOption result (spec.RefersNot (assignment_of known.now) library.now) (spec.IsReferring (assignment_of known.now) library.now) }
{
    match library {
        Library::Static => Some(Referring::Static),
        Library::Lsb { bits, offset } => near_of(bits, offset, known),
        Library::UncompressedValue { .. }
        | Library::CompressedValue { .. }
        | Library::Irregular { .. }
        | Library::Crc(_) => None,
    }
}

/// `lsb` with the values of its arguments.
fn near_of(bits: &Expr, offset: &Expr, known: &FillingNumbers<'_>) -> Option<Referring>
    requires bits { IsRanged (assignment_of known.now) bits.now }
    requires offset { IsRanged (assignment_of known.now) offset.now }
    ensures { MatchOption result (spec.RefersNot (assignment_of known.now) (library.Lsb bits.now offset.now)) (spec.IsReferring (assignment_of known.now) (library.Lsb bits.now offset.now)) }
{
    let bits = number_in(bits, known)?;
    let offset = number_in(offset, known)?;
    Some(Referring::Lsb { bits, offset })
}

/// Those of the filling of a field that calls a method.
#[cycle(descending)]
fn call_uses(
    alloc: Global,
    profile: &Profile,
    path: &str,
    known: &FillingNumbers<'_>,
    call: &FieldCall<'_>,
    filled: &FilledField,
) -> Result<Items<Using>, AllocError>
    requires within { call.now.method < length profile.now.methods }
    requires ranged { AllRanged known.now call.now.arguments.now }
    requires lie { ValuesLieAt profile.now known.now call.now.method call.now.arguments.now }
    requires fits { spec.CallFitsAnywhere profile.now.methods path.now call.now.field.now (assignment_of known.now) call.now.method call.now.arguments.now filled.now }
    ensures { IfOk result (spec.UsesInside profile.now.methods path.now call.now.field.now (assignment_of known.now) call.now.method call.now.arguments.now filled.now) }
{
    let mut values = SmallVec::<i128, 4>::new(alloc);
    if !add_values(call.arguments, known, &mut values)? {
        return Ok(Items::new(alloc));
    }
    let here = FieldPath::of(alloc, path, call.field.declared.name.as_str())?;
    inner_uses(
        alloc,
        profile,
        call.method,
        values.as_slice(),
        here.as_str(),
        filled,
    )
}

/// Those of the filling of a field, if it has one, under these arguments and below the path.
#[cycle(descending)]
fn inner_uses(
    alloc: Global,
    profile: &Profile,
    method: usize,
    arguments: &[i128],
    path: &str,
    filled: &FilledField,
) -> Result<Items<Using>, AllocError>
    requires within { method < length profile.now.methods }
    requires arguments { ArgumentsLieAt profile.now method arguments.now }
    requires fits { spec.InnerFitsAnywhere profile.now.methods method arguments.now path.now (inner_of filled.now) }
    ensures { IfOk result (spec.UsesWithin profile.now.methods method arguments.now path.now (inner_of filled.now)) }
{
    let Some(inner) = &filled.inner else {
        return Ok(Items::new(alloc));
    };
    filling_uses(alloc, profile, method, arguments, path, inner)
}

/// The use of a field with a library method, if that refers.
fn own_uses(
    alloc: Global,
    path: &str,
    known: &FillingNumbers<'_>,
    field: &Field,
    library: &Library,
    filled: &FilledField,
) -> Result<Items<Using>, AllocError>
    requires { AllRanged known.now (library_exprs library.now) }
    ensures { IfOk result (spec.UsesBy path.now field.now (assignment_of known.now) library.now filled.now) }
{
    let Some(method) = referring_of(library, known) else {
        return Ok(Items::new(alloc));
    };
    let one = one_use(alloc, path, field, method, filled)?;
    let mut found = Items::new(alloc);
    found.push(one)?;
    Ok(found)
}

/// The use of a field by the method.
fn one_use(
    alloc: Global,
    path: &str,
    field: &Field,
    method: Referring,
    filled: &FilledField,
) -> Result<Using, AllocError>
    ensures { IfOk result (λ u. u ≡ use_of path.now field.now filled.now (spec.method method)) }
{
    Ok(Using {
        path: below(alloc, path, field.declared.name.as_str())?,
        part: field.declared.part,
        initial: copied(alloc, field.initial.as_ref())?,
        method,
        uncompressed: filled.uncompressed.copy(alloc)?,
        compressed: filled.compressed.copy(alloc)?,
    })
}

pub(crate) fn copied(alloc: Global, bits: Option<&Bits>) -> Result<Option<Bits>, AllocError>
    ensures { IfOk result (λ o. o ≡ option_copied bits.entry) }
{
    match bits {
        Some(bits) => Ok(Some(bits.copy(alloc)?)),
        None => Ok(None),
    }
}
