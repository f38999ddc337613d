//! A profile with a certificate that is valid for it.

ghost use Rattle.std.specs.Prelude.{◌≡◌, drop, length, slice_get, IfOk, IsTrue};
ghost use Rattle.sem_context.specs.Entries.{bits_at};
ghost use Rattle.sem_elsewhere.specs.Paths.{CallAlike};
ghost use Rattle.cert_accepted.specs.Accepted.{IsAccepted, IsDeterminate};
ghost use Rattle.cert_compiled.specs.Compiled.{AreCompiled};
ghost use Rattle.cert_compiled.specs.Single.{AreSingles};
ghost use Rattle.cert_rules.specs.Trees.{references};
ghost use Rattle.cert_tables.specs.Kept.{AreTables};
ghost use Rattle.cert_tables.specs.Picked.{formats_of, picks};
ghost use Rattle.cert_tables.specs.Tables.{entries_of};

use cert_compiled::CompiledPlans;
use cert_tables::{Picked, Tables};
use cert_types::Certificate;
use sem_bits::Cursor;
use sem_filling::Frame;
use sem_pages::calls_alike;
use sem_profile::Profile;
use sqlite_items::Items;
use std::alloc::{AllocError, Global};
use std::marker::Model;

/// A profile with a certificate that is valid for it. `check` of cert_check makes one.
#[derive(Drop)]
pub struct Accepted {
    profile: Profile,
    certificate: Certificate,
    counts: Items<u64>,
    spans: Items<Items<u64>>,
    tables: Tables,
    compiled: CompiledPlans,
    /// Whether the methods call alike.
    alike: bool,
}

impl Model for Accepted {
    ghost use Rattle.cert_accepted.specs.Accepted.{Accepting, IsAccepted};
    ghost use Rattle.cert_compiled.specs.Compiled.{AreCompiled};
    ghost use Rattle.cert_compiled.specs.Single.{AreSingles};
    ghost use Rattle.cert_tables.specs.Kept.{AreTables};
    ghost use Rattle.sem_elsewhere.specs.Paths.{CallAlike};
    ghost use Rattle.std.specs.Prelude.{IsTrue};
    ghost use Rattle.sem_expr.specs.contracts.expr.Expr as expr;
    ghost use Rattle.sem_expr.specs.contracts.expr.Cond as cond;
    ghost use Rattle.std.specs.Coded.{codes};

    ghost Value = { Accepting };

    ghost coded = { Prim.hlevel (codes, expr.the_row.coded, cond.the_row.coded) };

    ghost view = { λ a. record { profile = a.profile; certificate = a.certificate; counts = a.counts; spans = a.spans } };

    ghost invariant = { λ a. IsAccepted (record { profile = a.profile; certificate = a.certificate; counts = a.counts; spans = a.spans }) × AreTables a.certificate.methods a.tables × AreCompiled a.profile.methods a.profile.sizes a.compiled.plan_acts × AreSingles a.profile.methods a.certificate.methods a.compiled.singles × (IsTrue a.alike → CallAlike a.profile.methods) };
}

impl Accepted {
    /// The profile with the certificate, where this is valid for it, with the numbers of its candidates, its trees as tables, and its plans made short.
    pub fn of(
        profile: Profile,
        certificate: Certificate,
        counts: Items<u64>,
        spans: Items<Items<u64>>,
        tables: Tables,
        compiled: CompiledPlans,
    ) -> Accepted
        requires accepted { IsAccepted (record { profile = profile; certificate = certificate; counts = counts; spans = spans }) }
        requires tables { AreTables certificate.methods tables }
        requires compiled { AreCompiled profile.methods profile.sizes compiled.plan_acts }
        requires singles { AreSingles profile.methods certificate.methods compiled.singles }
        ensures profile { result.profile ≡ profile }
        ensures certificate { result.certificate ≡ certificate }
    {
        let alike = calls_alike(profile.methods());
        Accepted {
            profile,
            certificate,
            counts,
            spans,
            tables,
            compiled,
            alike,
        }
    }

    /// The profile that was checked.
    pub fn profile(&self) -> &Profile
        ensures { result.now ≡ self.now.profile }
    {
        &self.profile
    }

    /// The certificate that was checked.
    pub fn certificate(&self) -> &Certificate
        ensures { result.now ≡ self.now.certificate }
    {
        &self.certificate
    }

    /// For each method the number of its candidates, the greatest of 64 bits where it is above that.
    pub fn counts(&self) -> &[u64]
        ensures { result.now ≡ self.now.counts }
    {
        self.counts.as_slice()
    }

    /// For each method the numbers of candidates of its formats, each the greatest of 64 bits where it is above that.
    pub fn spans(&self) -> &[Items<u64>]
        ensures { result.now ≡ self.now.spans }
    {
        self.spans.as_slice()
    }

    /// Where the tree of the frame's method leads there, for the bits at the cursor's place, by the tables. The error is out of memory, for the path of a field
    /// that is tested.
    pub fn pick(
        &self,
        alloc: Global,
        frame: &Frame<'_>,
        cursor: &Cursor<'_>,
    ) -> Result<Picked, AllocError>
        ensures { IfOk result (λ p. p ≡ picks self.now.certificate.methods frame.now.method (references (bits_at frame.now.context.now) frame.now.path.now (formats_of (slice_get frame.now.profile.now.methods frame.now.method))) frame.now.arguments.now cursor.now.left) }
    {
        self.pick_ahead(alloc, frame, cursor, 0)
    }

    /// The same for the bits so many places after the cursor's.
    #[inline(always)]
    pub fn pick_ahead(
        &self,
        alloc: Global,
        frame: &Frame<'_>,
        cursor: &Cursor<'_>,
        from: usize,
    ) -> Result<Picked, AllocError>
        ensures { IfOk result (λ p. p ≡ picks self.now.certificate.methods frame.now.method (references (bits_at frame.now.context.now) frame.now.path.now (formats_of (slice_get frame.now.profile.now.methods frame.now.method))) frame.now.arguments.now (drop from cursor.now.left)) }
    {
        self.tables
            .pick(alloc, &self.certificate, frame, cursor, from)
    }

    /// How many entries the tables of all trees have together. It takes no memory.
    pub fn table_entries(&self) -> u32
        ensures { result ≡ length (entries_of self.now.certificate.methods) }
    {
        self.tables.count(&self.certificate)
    }

    /// What shortens the way of who draws fillings up and judges them, or reads and writes pages. What is prepared of a format, the offsets that a look goes by, and
    /// that a format has one candidate for an item, are promised to be of that; of all else nothing is promised.
    pub fn compiled(&self) -> &CompiledPlans
        ensures plans { AreCompiled self.now.profile.methods self.now.profile.sizes result.now.plan_acts }
        ensures singles { AreSingles self.now.profile.methods self.now.certificate.methods result.now.singles }
    {
        &self.compiled
    }

    /// Whether the methods call alike: then all fillings of the top leave entries at the same paths, in the same order.
    pub fn calls_alike(&self) -> bool
        ensures { IsTrue result → CallAlike self.now.profile.methods }
    {
        self.alike
    }

    /// A law of what is accepted: the certificate is valid for the profile.
    pub fn keeps(&self)
        ensures { IsAccepted self.now }
    {
        let _ = &self.profile;
    }

    /// A law of what is accepted: in every context and for all bits at most one filling has its packed bits at their front, of the top and of every method
    /// under given arguments and at a path.
    pub fn determinate(&self)
        ensures { IsDeterminate self.now }
    {
        self.keeps();
        self.profile.keeps();
    }
}
