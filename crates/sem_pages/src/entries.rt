//! What the filling of a page leaves in the context, and its asked values.

ghost use Rattle.std.specs.Prelude.{◌≡◌, ◌<◌, ◌++◌, ◌∷◌, [], ℤ, Bool, List, false, true, suc, length, slice_get, IfOk, IfSome, IsTrue, OnOk, OnErr, Some, unwrap_or};
ghost use Rattle.std.specs.Option.{option_copied};
ghost use Rattle.sem_filling.specs.Fits.{Fits, format_at};
ghost use Rattle.sem_context.specs.Entries.{Entries, bits_at};
ghost use Rattle.sem_filling.specs.declared.filling.Filling as filling;
ghost use Rattle.sem_filling.specs.declared.filling.FilledField as filled;
ghost use Rattle.sem_filling.specs.Entries.{Path, below, entries, own_entry, entries_below, next};
ghost use Rattle.sem_filling.specs.Fillings as fillings;
ghost use Rattle.sem_filling.specs.FillingLaws.{entries_at};
ghost use Rattle.sem_pages.specs.Pages as spec;
ghost use Rattle.sem_pages.specs.Progress.{HasFirst, GoesOn, WhereKnown, changed};
ghost use Rattle.sem_pages.specs.Steady.{Has, IsKept};

use crate::page::{Page, Shown};
use crate::word::Word;
use sem_bits::Bits;
use sem_context::Context;
use sem_context::path::are_same;
use sem_filling::{AskedValue, is_below};
use sem_profile::{Encoding, Field, Format, Method, Part};
use sqlite_items::Items;
use std::alloc::{AllocError, Global};

/// For how many changes of a context room is made at once.
const FEW: usize = 8;

/// The names of the asked fields of the page's format of the method with their uncompressed sides, in field order. None where the format isn't there.
pub fn asked_values(
    alloc: Global,
    methods: &[Method],
    method: usize,
    page: &Page,
) -> Result<Option<Items<AskedValue>>, AllocError>
    ensures { IfOk result (λ o. IfSome o (λ values. (f : filling.Filling) → spec.Shows methods.now method page.now f → values ≡ fillings.asked_values (fillings.level f))) }
{
    let Some(format) = format_of(methods, method, page.format) else {
        return Ok(None);
    };
    let fields = format.fields.as_slice();
    let shown = page.fields.as_slice();
    if shown.len() != fields.len() {
        return Ok(None);
    }
    let mut values = Items::new(alloc);
    for i in 0..fields.len() {
        add_asked(alloc, &mut values, &fields[i], &shown[i])?;
    }
    Ok(Some(values))
}

/// Whether the asked fields of the page's format of the method have these names and uncompressed sides, in field order. It takes no memory.
pub fn has_asked(methods: &[Method], method: usize, page: &Page, values: &[AskedValue]) -> bool
    ensures { IsTrue result → (f : filling.Filling) → spec.Shows methods.now method page.now f → fillings.asked_values (fillings.level f) ≡ values.now }
{
    let Some(format) = format_of(methods, method, page.format) else {
        return false;
    };
    let fields = format.fields.as_slice();
    let shown = page.fields.as_slice();
    if shown.len() != fields.len() {
        return false;
    }
    let mut place = 0;
    for i in 0..fields.len() {
        let field = &fields[i];
        if !field.declared.asked {
            continue;
        }
        if !is_next(values, place, field, &shown[i]) {
            return false;
        }
        place += 1;
    }
    place == values.len()
}

/// Whether the value at the place is that of the field.
fn is_next(values: &[AskedValue], place: usize, field: &Field, shown: &Shown) -> bool
    ensures within { IsTrue result → place < length values.now }
    ensures same { IsTrue result → slice_get values.now place ≡ Some (spec.value_by field.now shown.now) }
{
    let Some(value) = values.get(place) else {
        return false;
    };
    let Some(word) = &shown.uncompressed else {
        return false;
    };
    is_value(value, field, word)
}

/// Whether the value has the name of the field, and these bits.
fn is_value(value: &AskedValue, field: &Field, word: &Word) -> bool
    ensures { IsTrue result → value.now ≡ record { name = field.now.declared.name; bits = word.now } }
{
    are_same(
        value.name.as_str().as_bytes(),
        field.declared.name.as_str().as_bytes(),
    ) && word.is_all_of(&value.bits)
}

pub(crate) fn format_of(methods: &[Method], method: usize, index: usize) -> Option<&Format>
    ensures { option_copied result ≡ format_at methods.now method index }
{
    methods.get(method)?.formats.get(index)
}

/// Adds the value of the field, if it is asked.
fn add_asked(
    alloc: Global,
    values: &mut Items<AskedValue>,
    field: &Field,
    shown: &Shown,
) -> Result<(), AllocError>
    ensures { OnOk result (values.new ≡ values.old ++ fillings.asked_values (spec.sides_by field.now shown.now ∷ [])) }
{
    if field.declared.asked {
        let bits = bits_of(alloc, &shown.uncompressed)?;
        values.push(AskedValue {
            name: field.declared.name.share()?,
            bits,
        })?;
    }
    Ok(())
}

/// How far a context has gone on: so many of its entries are passed, and these changes, each the place of an entry and the bits that come there, are to be made.
/// What stays as it is needs none.
#[derive(Drop)]
struct Progress {
    passed: usize,
    changes: Vec<(usize, Bits)>,
}

/// The bits, none where they aren't read.
#[inline(always)]
fn bits_of(alloc: Global, word: &Option<Word>) -> Result<Bits, AllocError>
    ensures { IfOk result (λ b. b ≡ unwrap_or word.now []) }
{
    match word {
        Some(word) => word.to_bits(alloc),
        None => Ok(Bits::new(alloc)),
    }
}

/// Puts what the filling of the page leaves into the context. False where the context, which stays then, has not the paths of its entries first, in their order:
/// where that is known no path is compared. Where memory runs out the context is as before.
pub fn advance(
    alloc: Global,
    context: &mut Context,
    methods: &[Method],
    method: usize,
    page: &Page,
    known: bool,
) -> Result<bool, AllocError>
    ensures ok { IfOk result (λ is. IsTrue is → (f : filling.Filling) → spec.Shows methods.now method page.now f → WhereKnown known context.old (entries f) → context.new ≡ next context.old f) }
    // the paths of its entries come first, as they did
    ensures begins { IfOk result (λ is. IsTrue is → (f : filling.Filling) → spec.Shows methods.now method page.now f → WhereKnown known context.old (entries f) → HasFirst context.new (entries f)) }
    // and what is steady of the page fits again
    ensures kept { IfOk result (λ is. IsTrue is → (f : filling.Filling) (args : List ℤ) → Fits methods.now (bits_at context.old) method args [] f → spec.Shows methods.now method page.now f → WhereKnown known context.old (entries f) → IsKept methods.now (bits_at context.new) method [] page.now) }
    ensures stays { IfOk result (λ is. is ≡ false → context.new ≡ context.old) }
    ensures err { OnErr result (context.new ≡ context.old) }
{
    let Some(changes) = changes_in_order(alloc, context, methods, method, page, known)? else {
        return Ok(false);
    };
    put_changes(context, changes);
    Ok(true)
}

/// Makes the changes, one after the other. It takes no memory.
fn put_changes(context: &mut Context, changes: Vec<(usize, Bits)>)
    ensures { context.new ≡ changed context.old changes.items }
{
    for (place, bits) in changes {
        context.set_bits(place, bits);
    }
}

/// What the filling of the page changes in the context, where the first entries of the context have the paths of its entries, in their order. Where that is known
/// no path is compared.
fn changes_in_order(
    alloc: Global,
    context: &Context,
    methods: &[Method],
    method: usize,
    page: &Page,
    known: bool,
) -> Result<Option<Vec<(usize, Bits)>>, AllocError>
    ensures next { IfOk result (λ o. IfSome o (λ changes. (f : filling.Filling) → spec.Shows methods.now method page.now f → WhereKnown known context.now (entries f) → changed context.now changes.items ≡ next context.now f)) }
    ensures begins { IfOk result (λ o. IfSome o (λ changes. (f : filling.Filling) → spec.Shows methods.now method page.now f → WhereKnown known context.now (entries f) → HasFirst (changed context.now changes.items) (entries f))) }
    ensures there { IfOk result (λ o. IfSome o (λ changes. (f : filling.Filling) → spec.Shows methods.now method page.now f → WhereKnown known context.now (entries f) → Has (bits_at (changed context.now changes.items)) (entries f))) }
{
    let mut progress = Progress {
        passed: 0,
        changes: Vec::with_capacity(alloc, context.len().min(FEW))?,
    };
    if !add_first(alloc, &mut progress, context, methods, method, page, known)? {
        return Ok(None);
    }
    let Progress { changes, .. } = progress;
    Ok(Some(changes))
}

/// Adds the changes by the entries of the page. Whether they are all in the context.
fn add_first(
    alloc: Global,
    progress: &mut Progress,
    context: &Context,
    methods: &[Method],
    method: usize,
    page: &Page,
    known: bool,
) -> Result<bool, AllocError>
    ensures { IfOk result (λ is. IsTrue is → (f : filling.Filling) → spec.Shows methods.now method page.now f → GoesOn known context.now progress.old progress.new (entries f)) }
{
    if known {
        renew_page(page, alloc, progress, context, methods, method)
    } else {
        add_page(page, alloc, progress, context, methods, method, "")
    }
}

/// Adds the changes by the entries of the page below a path, where those of the context that come next have their paths. Whether they have.
#[cycle(entries)]
fn add_page(
    page: &Page,
    alloc: Global,
    progress: &mut Progress,
    context: &Context,
    methods: &[Method],
    method: usize,
    path: &str,
) -> Result<bool, AllocError>
    ensures { IfOk result (λ is. IsTrue is → (f : filling.Filling) → spec.Shows methods.now method page.now f → GoesOn false context.now progress.old progress.new (entries_below f path.now)) }
{
    let Some(format) = format_of(methods, method, page.format) else {
        return Ok(false);
    };
    let fields = format.fields.as_slice();
    let shown = page.fields.as_slice();
    if shown.len() != fields.len() {
        return Ok(false);
    }
    for i in 0..fields.len() {
        if !add_field(
            &shown[i], alloc, progress, context, methods, path, &fields[i],
        )? {
            return Ok(false);
        }
    }
    Ok(true)
}

/// The same of one field.
#[cycle(entries)]
fn add_field(
    shown: &Shown,
    alloc: Global,
    progress: &mut Progress,
    context: &Context,
    methods: &[Method],
    path: &str,
    field: &Field,
) -> Result<bool, AllocError>
    ensures { IfOk result (λ is. IsTrue is → (g : filled.FilledField) → spec.StandsFor methods.now field.now shown.now g → GoesOn false context.now progress.old progress.new (entries_at path.now g)) }
{
    let name = field.declared.name.as_str();
    let part = field.declared.part;
    let Some(inner) = &shown.inner else {
        return add_plain(
            alloc,
            progress,
            context,
            part,
            path,
            name,
            &shown.uncompressed,
        );
    };
    let Encoding::Call { method, .. } = field.encoding.get() else {
        return Ok(false);
    };
    let Some(here) = add_next(
        alloc,
        progress,
        context,
        part,
        path,
        name,
        &shown.uncompressed,
    )?
    else {
        return Ok(false);
    };
    add_page(inner, alloc, progress, context, methods, *method, here)
}

/// Adds the change by the entry, if there is one, that a field of that part and name leaves below a path. Whether the path that comes next is its path.
#[inline(always)]
fn add_plain(
    alloc: Global,
    progress: &mut Progress,
    context: &Context,
    part: Part,
    path: &str,
    name: &str,
    bits: &Option<Word>,
) -> Result<bool, AllocError>
    ensures { IfOk result (λ is. IsTrue is → GoesOn false context.now progress.old progress.new (own_entry part (below path.now name.now) (unwrap_or bits.now []))) }
{
    if let Part::Local = part {
        return Ok(true);
    }
    match add_next(alloc, progress, context, part, path, name, bits)? {
        Some(_) => Ok(true),
        None => Ok(false),
    }
}

/// Adds the change by the entry that a field of that part and name leaves below a path, where the context's entry that comes next has this path, which is given. It
/// is none where these bits are there.
#[inline(always)]
fn add_next<'a>(
    alloc: Global,
    progress: &mut Progress,
    context: &'a Context,
    part: Part,
    path: &str,
    name: &str,
    bits: &Option<Word>,
) -> Result<Option<&'a str>, AllocError>
    ensures { IfOk result (λ o. IfSome o (λ here. (here.now ≡ below path.now name.now) × GoesOn false context.now progress.old progress.new (own_entry part here.now (unwrap_or bits.now [])))) }
{
    if let Part::Local = part {
        return Ok(None);
    }
    let Some((here, kept)) = context.entry_at(progress.passed) else {
        return Ok(None);
    };
    if !is_below(here, path, name) {
        return Ok(None);
    }
    let Some(next) = progress.passed.checked_add(1) else {
        return Ok(None);
    };
    pass(alloc, progress, next, kept, bits)?;
    Ok(Some(here))
}

/// Adds the changes by the entries of the page where the context's entries that come next are known to have their paths. Whether there are so many.
#[cycle(renewed)]
fn renew_page(
    page: &Page,
    alloc: Global,
    progress: &mut Progress,
    context: &Context,
    methods: &[Method],
    method: usize,
) -> Result<bool, AllocError>
    ensures { IfOk result (λ is. IsTrue is → (f : filling.Filling) (path : Path) → spec.Shows methods.now method page.now f → GoesOn true context.now progress.old progress.new (entries_below f path)) }
{
    let Some(format) = format_of(methods, method, page.format) else {
        return Ok(false);
    };
    let fields = format.fields.as_slice();
    let shown = page.fields.as_slice();
    if shown.len() != fields.len() {
        return Ok(false);
    }
    for i in 0..fields.len() {
        if !renew_field(&shown[i], alloc, progress, context, methods, &fields[i])? {
            return Ok(false);
        }
    }
    Ok(true)
}

/// The same of one field.
#[cycle(renewed)]
fn renew_field(
    shown: &Shown,
    alloc: Global,
    progress: &mut Progress,
    context: &Context,
    methods: &[Method],
    field: &Field,
) -> Result<bool, AllocError>
    ensures { IfOk result (λ is. IsTrue is → (g : filled.FilledField) (path : Path) → spec.StandsFor methods.now field.now shown.now g → GoesOn true context.now progress.old progress.new (entries_at path g)) }
{
    let part = field.declared.part;
    if !renew_own(alloc, progress, context, part, &shown.uncompressed)? {
        return Ok(false);
    }
    let Some(inner) = &shown.inner else {
        return Ok(true);
    };
    let Encoding::Call { method, .. } = field.encoding.get() else {
        return Ok(false);
    };
    renew_page(inner, alloc, progress, context, methods, *method)
}

/// Adds the change by the entry, if there is one, that a field of that part leaves where it is known to come next. Whether it is there.
#[inline(always)]
fn renew_own(
    alloc: Global,
    progress: &mut Progress,
    context: &Context,
    part: Part,
    bits: &Option<Word>,
) -> Result<bool, AllocError>
    ensures { IfOk result (λ is. IsTrue is → (here : Path) → GoesOn true context.now progress.old progress.new (own_entry part here (unwrap_or bits.now []))) }
{
    if let Part::Local = part {
        return Ok(true);
    }
    let Some((_, kept)) = context.entry_at(progress.passed) else {
        return Ok(false);
    };
    let Some(next) = progress.passed.checked_add(1) else {
        return Ok(false);
    };
    pass(alloc, progress, next, kept, bits)?;
    Ok(true)
}

/// Passes the entry that comes next, which has the one bits and is to have the others: so many are passed then.
#[inline(always)]
fn pass(
    alloc: Global,
    progress: &mut Progress,
    next: usize,
    kept: &Bits,
    bits: &Option<Word>,
) -> Result<(), AllocError>
    requires { next ≡ suc progress.old.passed }
    ensures { OnOk result ((known : Bool) (ctx : Entries) (here : Path) → slice_get ctx progress.old.passed ≡ Some (here, kept.now) → GoesOn known ctx progress.old progress.new ((here, unwrap_or bits.now []) ∷ [])) }
{
    if are_bits(bits, kept) {
        progress.passed = next;
        return Ok(());
    }
    let place = progress.passed;
    progress.changes.push((place, bits_of(alloc, bits)?))?;
    progress.passed = next;
    Ok(())
}

/// Whether the bits, none where they aren't read, are these.
#[inline(always)]
fn are_bits(word: &Option<Word>, bits: &Bits) -> bool
    ensures { IsTrue result → bits.now ≡ unwrap_or word.now [] }
{
    match word {
        Some(word) => word.is_all_of(bits),
        None => bits.is_empty(),
    }
}
