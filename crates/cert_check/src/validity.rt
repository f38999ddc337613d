//! Whether a certificate is valid for a profile.

ghost use Rattle.std.specs.Prelude.{◌≡◌, true, Some, slice_get, IfOk, IfErr, IfSome, IfNone};
ghost use Rattle.cert_types.specs.declared.certificate.Version.{Version};
ghost use Rattle.sem_profile.specs.declared.profile.FormatSizes.{FormatSizes};
ghost use Rattle.std.specs.Option.{option_copied};
ghost use Rattle.cert_types.specs.Kept.{AreKept, are_trees};
ghost use Rattle.cert_trees.specs.Calling.{HasOrder, CallsWithin};
ghost use Rattle.cert_plans.specs.Laws.{refusal_of};
ghost use Rattle.cert_rules.specs.Counts as counts;
ghost use Rattle.cert_rules.specs.Valid as valid;
ghost use Rattle.cert_rules.specs.Valid.{HasPlans, Valid};
ghost use Rattle.cert_rules.specs.Capped.{AreCapped};
ghost use Rattle.cert_check.specs.Blaming.{AreRightBefore, Blames};
ghost use Rattle.cert_check.specs.declared.refusal.CheckError.{CheckError};
ghost use Rattle.cert_check.specs.Judged as spec;
ghost use Rattle.cert_check.specs.Judged.{RefusesIn, RefusesEntry, RefusesFormats, RefusesFormat, RefusesPlans};
ghost use Rattle.cert_check.specs.Right.{Serve, AreEntriesRight, AreFormatsRight, IsMethodRight, IsEntryRight};

use crate::refusal::{CheckError, RefusedCertificate};
use cert_accepted::Accepted;
use cert_candidates::format_counts;
use cert_compiled::CompiledPlans;
use cert_plans::{PlanFault, plan_fault};
use cert_rules::CheckFault;
use cert_tables::Tables;
use cert_trees::{TreeFault, callees_first, count_candidates, tree_fault};
use cert_types::{
    CANDIDATE_LIMIT, Certificate, Direction, MethodPlans, PACKED_LIMIT, Plans, Version,
};
use sem_profile::{Format, FormatSizes, Method, MethodSizes, Profile};
use sqlite_items::{Items, at};
use std::alloc::{AllocError, Global};

/// Accepts the profile where the certificate is valid for it. A refusal hands both back; its fault is the first in this order: for each method in the order
/// of the text a missing entry, the nodes of its tree in preorder, then each format's missing plans, its read plan and its write plan; at the end the
/// number of candidates and the length of the top.
pub fn check(
    alloc: Global,
    profile: Profile,
    certificate: Certificate,
) -> Result<Accepted, RefusedCertificate>
    ensures profile { IfOk result (λ a. a.profile ≡ profile) }
    ensures certificate { IfOk result (λ a. a.certificate ≡ certificate) }
    ensures same_profile { IfErr result (λ r. r.profile ≡ profile) }
    ensures same_certificate { IfErr result (λ r. r.certificate ≡ certificate) }
    ensures fault { IfErr result (λ r. Blames profile certificate r.error) }
{
    let verdict = judged(alloc, &profile, &certificate);
    concluded(alloc, profile, certificate, verdict)
}

/// The same of a certificate whose entries are known to be right, as those of one that is proved: the number of candidates and the length of the top alone
/// are looked at.
pub fn check_right(
    alloc: Global,
    profile: Profile,
    certificate: Certificate,
) -> Result<Accepted, RefusedCertificate>
    requires { AreEntriesRight profile.methods profile.sizes certificate }
    ensures profile { IfOk result (λ a. a.profile ≡ profile) }
    ensures certificate { IfOk result (λ a. a.certificate ≡ certificate) }
    ensures same_profile { IfErr result (λ r. r.profile ≡ profile) }
    ensures same_certificate { IfErr result (λ r. r.certificate ≡ certificate) }
    ensures fault { IfErr result (λ r. Blames profile certificate r.error) }
{
    let verdict = judged_right(alloc, &profile, &certificate);
    concluded(alloc, profile, certificate, verdict)
}

/// Accepts the profile with the certificate by this verdict, or hands both back.
fn concluded(
    alloc: Global,
    profile: Profile,
    certificate: Certificate,
    verdict: Result<Verdict, AllocError>,
) -> Result<Accepted, RefusedCertificate>
    requires { IfOk verdict (spec.IsVerdict profile.methods profile.sizes profile.top certificate) }
    ensures profile { IfOk result (λ a. a.profile ≡ profile) }
    ensures certificate { IfOk result (λ a. a.certificate ≡ certificate) }
    ensures same_profile { IfErr result (λ r. r.profile ≡ profile) }
    ensures same_certificate { IfErr result (λ r. r.certificate ≡ certificate) }
    ensures fault { IfErr result (λ r. Blames profile certificate r.error) }
{
    match verdict {
        Ok(Verdict::Right(counts)) => accepted(alloc, profile, certificate, counts),
        Ok(Verdict::Wrong(fault)) => Err(RefusedCertificate {
            error: CheckError::Fault(fault),
            profile,
            certificate,
        }),
        Err(_) => Err(RefusedCertificate {
            error: CheckError::OutOfMemory,
            profile,
            certificate,
        }),
    }
}

/// Keeps a valid certificate with its profile and the numbers of candidates, of which those of the methods are told.
fn accepted(
    alloc: Global,
    profile: Profile,
    certificate: Certificate,
    counts: Items<u64>,
) -> Result<Accepted, RefusedCertificate>
    requires valid { Valid profile.methods profile.sizes profile.top certificate }
    requires counted { AreCapped profile.methods certificate.methods counts }
    ensures profile { IfOk result (λ a. a.profile ≡ profile) }
    ensures certificate { IfOk result (λ a. a.certificate ≡ certificate) }
    ensures same_profile { IfErr result (λ r. r.profile ≡ profile) }
    ensures same_certificate { IfErr result (λ r. r.certificate ≡ certificate) }
    ensures fault { IfErr result (λ r. Blames profile certificate r.error) }
{
    let Ok(tables) = Tables::of(alloc, &certificate) else {
        return Err(forgotten(profile, certificate));
    };
    let methods = profile.methods();
    let entries = certificate.methods();
    let Ok(compiled) = CompiledPlans::of(alloc, methods, profile.sizes(), entries) else {
        return Err(forgotten(profile, certificate));
    };
    match format_counts(alloc, methods, entries, counts.as_slice()) {
        Ok(spans) => Ok(Accepted::of(profile, certificate, counts, spans, tables, compiled)),
        Err(_) => Err(forgotten(profile, certificate)),
    }
}

/// The refusal where memory ran out.
fn forgotten(profile: Profile, certificate: Certificate) -> RefusedCertificate
    ensures same_profile { result.profile ≡ profile }
    ensures same_certificate { result.certificate ≡ certificate }
    ensures error { result.error ≡ CheckError.OutOfMemory }
{
    RefusedCertificate {
        error: CheckError::OutOfMemory,
        profile,
        certificate,
    }
}

/// What is found of a certificate: that it is valid, with the number of each method's candidates, or its first fault.
#[derive(Drop)]
enum Verdict {
    Right(Items<u64>),
    Wrong(CheckFault),
}

fn judged(
    alloc: Global,
    profile: &Profile,
    certificate: &Certificate,
) -> Result<Verdict, AllocError>
    ensures { IfOk result (spec.IsVerdict profile.now.methods profile.now.sizes profile.now.top certificate.now) }
{
    profile.keeps();
    certificate.keeps();
    let methods = profile.methods();
    let sizes = profile.sizes();
    let version = certificate.version();
    let entries = certificate.methods();
    if let Some(fault) = entries_fault(alloc, version, methods, sizes, entries)? {
        return Ok(Verdict::Wrong(fault));
    }
    top_verdict(alloc, methods, sizes, profile.top(), entries)
}

/// The same where the entries are right.
fn judged_right(
    alloc: Global,
    profile: &Profile,
    certificate: &Certificate,
) -> Result<Verdict, AllocError>
    requires { AreEntriesRight profile.now.methods profile.now.sizes certificate.now }
    ensures { IfOk result (spec.IsVerdict profile.now.methods profile.now.sizes profile.now.top certificate.now) }
{
    profile.keeps();
    let methods = profile.methods();
    let entries = certificate.methods();
    top_verdict(alloc, methods, profile.sizes(), profile.top(), entries)
}

/// The first fault of the entries, method by method.
fn entries_fault(
    alloc: Global,
    version: Version,
    methods: &[Method],
    sizes: &[MethodSizes],
    entries: &[Option<MethodPlans>],
) -> Result<Option<CheckFault>, AllocError>
    requires { AreKept (record { version = version; methods = entries.now }) }
    ensures right { IfOk result (λ o. IfNone o (AreEntriesRight methods.now sizes.now (record { version = version; methods = entries.now }))) }
    ensures found { IfOk result (λ o. IfSome o (RefusesIn methods.now sizes.now (record { version = version; methods = entries.now }))) }
{
    for k in 0..methods.len() {
        if let Some(fault) = method_fault(alloc, version, methods, sizes, entries, k)? {
            return Ok(Some(fault));
        }
    }
    Ok(None)
}

/// The first fault of a method's entry, where those before it are right. A method without formats needs none.
fn method_fault(
    alloc: Global,
    version: Version,
    methods: &[Method],
    sizes: &[MethodSizes],
    entries: &[Option<MethodPlans>],
    k: usize,
) -> Result<Option<CheckFault>, AllocError>
    requires kept { AreKept (record { version = version; methods = entries.now }) }
    requires before { AreRightBefore methods.now sizes.now (record { version = version; methods = entries.now }) k }
    ensures right { IfOk result (λ o. IfNone o (IsMethodRight methods.now sizes.now (record { version = version; methods = entries.now }) k)) }
    ensures found { IfOk result (λ o. IfSome o (RefusesIn methods.now sizes.now (record { version = version; methods = entries.now }))) }
{
    let Some(method) = at(methods, k) else {
        return Ok(None);
    };
    let Some(bounds) = at(sizes, k) else {
        return Ok(None);
    };
    if method.formats.is_empty() {
        return Ok(None);
    }
    match entry_at(entries, k) {
        Some(entry) => entry_fault(alloc, version, sizes, method, bounds, entry, k),
        None => Ok(Some(CheckFault::NoMethod { method: k })),
    }
}

/// What the certificate says of a method.
fn entry_at(entries: &[Option<MethodPlans>], k: usize) -> Option<&MethodPlans>
    ensures { option_copied result ≡ counts.entry_at entries.now k }
{
    entries.get(k)?.as_ref()
}

/// The first fault of an entry: of its tree, else of its plans.
fn entry_fault(
    alloc: Global,
    version: Version,
    table: &[MethodSizes],
    method: &Method,
    bounds: &MethodSizes,
    entry: &MethodPlans,
    k: usize,
) -> Result<Option<CheckFault>, AllocError>
    requires { are_trees 1 entry.now.tree ≡ true }
    ensures right { IfOk result (λ o. IfNone o (IsEntryRight version table.now method.now bounds.now entry.now)) }
    ensures found { IfOk result (λ o. IfSome o (RefusesEntry version table.now k method.now bounds.now entry.now)) }
{
    if let Some(fault) = tree_fault(
        alloc,
        method.formats.as_slice(),
        bounds,
        entry.tree.as_slice(),
    )? {
        return Ok(Some(of_tree(k, fault)));
    }
    formats_fault(alloc, version, table, bounds, method, entry, k)
}

/// The fault of a method's tree, as one of the certificate.
fn of_tree(method: usize, fault: TreeFault) -> CheckFault
    ensures { result ≡ spec.of_tree method fault }
{
    match fault {
        TreeFault::WrongLeaf { node, format } => CheckFault::WrongLeaf {
            method,
            node,
            format,
        },
        TreeFault::ShortFormat { node, format } => CheckFault::ShortFormat {
            method,
            node,
            format,
        },
        TreeFault::OutOfRange { node } => CheckFault::OutOfRange { method, node },
        TreeFault::BeyondWord { node } => CheckFault::BeyondWord { method, node },
    }
}

/// Where a format stands: its method and itself, by their indices.
#[derive(Clone, Copy)]
struct FormatPlace {
    method: usize,
    format: usize,
}

/// The first fault of the plans of a method's formats.
fn formats_fault(
    alloc: Global,
    version: Version,
    table: &[MethodSizes],
    bounds: &MethodSizes,
    method: &Method,
    entry: &MethodPlans,
    k: usize,
) -> Result<Option<CheckFault>, AllocError>
    ensures right { IfOk result (λ o. IfNone o (AreFormatsRight version table.now bounds.now.formats method.now.formats entry.now)) }
    ensures found { IfOk result (λ o. IfSome o (RefusesFormats version table.now k bounds.now.formats method.now.formats entry.now)) }
{
    let formats = method.formats.as_slice();
    let sizes = bounds.formats.as_slice();
    for n in 0..formats.len() {
        let place = FormatPlace {
            method: k,
            format: n,
        };
        if let Some(fault) = format_fault(
            alloc,
            version,
            table,
            sizes,
            &formats[n],
            entry,
            place,
        )? {
            return Ok(Some(fault));
        }
    }
    Ok(None)
}

/// The first fault of the plans of a format.
fn format_fault(
    alloc: Global,
    version: Version,
    table: &[MethodSizes],
    bounds: &[FormatSizes],
    format: &Format,
    entry: &MethodPlans,
    place: FormatPlace,
) -> Result<Option<CheckFault>, AllocError>
    ensures right { IfOk result (λ o. IfNone o ((z : FormatSizes) → slice_get bounds.now place.format ≡ Some z → HasPlans version table.now z format.now entry.now place.format)) }
    ensures found { IfOk result (λ o. IfSome o (RefusesFormat version table.now place.method place.format bounds.now format.now entry.now)) }
{
    match plans_at(entry, place.format) {
        Some(plans) => match at(bounds, place.format) {
            Some(sizes) => plans_fault(alloc, version, table, sizes, format, plans, place),
            None => Ok(None),
        },
        None => Ok(Some(CheckFault::NoFormat {
            method: place.method,
            format: place.format,
        })),
    }
}

/// The plans of a format.
fn plans_at(entry: &MethodPlans, n: usize) -> Option<&Plans>
    ensures { option_copied result ≡ valid.plans_at entry.now n }
{
    entry.formats.get(n)?.plans.as_ref()
}

/// The first fault of two plans of a format.
fn plans_fault(
    alloc: Global,
    version: Version,
    table: &[MethodSizes],
    sizes: &FormatSizes,
    format: &Format,
    plans: &Plans,
    place: FormatPlace,
) -> Result<Option<CheckFault>, AllocError>
    ensures right { IfOk result (λ o. IfNone o (Serve version table.now sizes.now format.now plans.now)) }
    ensures found { IfOk result (λ o. IfSome o (RefusesPlans version table.now place.method place.format sizes.now format.now plans.now)) }
{
    let read = plans.read.as_slice();
    if let Some(fault) = plan_fault(alloc, version, Direction::Read, table, sizes, format, read)? {
        return Ok(Some(of_plan(place, Direction::Read, fault)));
    }
    let write = plans.write.as_slice();
    match plan_fault(
        alloc,
        version,
        Direction::Write,
        table,
        sizes,
        format,
        write,
    )? {
        Some(fault) => Ok(Some(of_plan(place, Direction::Write, fault))),
        None => Ok(None),
    }
}

/// The fault of a plan, as one of the certificate.
fn of_plan(place: FormatPlace, direction: Direction, fault: PlanFault) -> CheckFault
    ensures { result ≡ refusal_of place.method place.format direction fault }
{
    let FormatPlace { method, format } = place;
    match fault {
        PlanFault::NotEnabled { step } => CheckFault::NotEnabled {
            method,
            format,
            direction,
            step,
        },
        PlanFault::NeverLearnt { field, side } => CheckFault::NeverLearnt {
            method,
            format,
            direction,
            field,
            side,
        },
    }
}

/// Whether the top has no more candidates and packed bits than it may.
fn top_verdict(
    alloc: Global,
    methods: &[Method],
    sizes: &[MethodSizes],
    top: usize,
    entries: &[Option<MethodPlans>],
) -> Result<Verdict, AllocError>
    requires ordered { HasOrder methods.now }
    requires within { CallsWithin methods.now }
    ensures { (version : Version) → IfOk result (spec.IsTopVerdict methods.now sizes.now top (record { version = version; methods = entries.now })) }
{
    let order = callees_first(alloc, methods)?;
    let counts = count_candidates(alloc, methods, entries, order.as_slice())?;
    match top_fault(counts.as_slice(), sizes, top) {
        Some(fault) => Ok(Verdict::Wrong(fault)),
        None => Ok(Verdict::Right(counts)),
    }
}

/// The first fault of the top.
fn top_fault(counts: &[u64], sizes: &[MethodSizes], top: usize) -> Option<CheckFault>
    ensures { result ≡ spec.top_fault (spec.is_many counts.now top) (spec.is_long sizes.now top) }
{
    if is_many(counts, top) {
        return Some(CheckFault::TooMany);
    }
    if is_long(sizes, top) {
        return Some(CheckFault::TooLong);
    }
    None
}

fn is_many(counts: &[u64], top: usize) -> bool
    ensures { result ≡ spec.is_many counts.now top }
{
    match counts.get(top) {
        Some(count) => *count > CANDIDATE_LIMIT,
        None => false,
    }
}

fn is_long(sizes: &[MethodSizes], top: usize) -> bool
    ensures { result ≡ spec.is_long sizes.now top }
{
    match sizes.get(top) {
        Some(bounds) => bounds.whole.compressed.most > PACKED_LIMIT,
        None => false,
    }
}
