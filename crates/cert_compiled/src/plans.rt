//! What an accepted profile keeps for who draws fillings up and has them judged, and for who reads and writes pages. Of what is prepared of a format, and of the
//! offsets that a look goes by, it is promised that they are that format's; of all else nothing is.

ghost use Rattle.std.specs.Prelude.{◌≡◌, IfOk, IfSome, IsTrue, Some, true};
ghost use Rattle.cert_compiled.specs.Compiled as spec;
ghost use Rattle.cert_compiled.specs.Single.{AreSingles, flag_at};

use crate::compiler::plan_acts;
use crate::fitting::{Teller, tellers_of};
use crate::looks::Looks;
use crate::operations::CompiledPlan;
use crate::singles::singles_of;
use cert_types::MethodPlans;
use sem_profile::{Method, MethodSizes};
use sqlite_items::{Items, at};
use std::alloc::{AllocError, Global};

/// Ways through plans that are made once.
#[derive(Drop)]
pub struct CompiledPlans {
    /// For each method the operations of its formats' plans.
    pub plan_acts: Items<Items<CompiledPlan>>,
    /// For each method whether each of its formats has one candidate for an item, as far as that is told.
    pub singles: Items<Items<bool>>,
    /// For each method which of its formats an argument tells, as far as one does.
    pub(crate) tellers: Items<Option<Teller>>,
}

impl CompiledPlans {
    /// Those of a profile's methods, which have these bounds, by the plans of a certificate. The error is out of memory.
    pub fn of(
        alloc: Global,
        methods: &[Method],
        table: &[MethodSizes],
        entries: &[Option<MethodPlans>],
    ) -> Result<CompiledPlans, AllocError>
        ensures plans { IfOk result (λ c. spec.AreCompiled methods.now table.now c.plan_acts) }
        ensures singles { IfOk result (λ c. AreSingles methods.now entries.now c.singles) }
    {
        let plan_acts = plan_acts(alloc, methods, table, entries)?;
        let singles = singles_of(alloc, methods, entries)?;
        let tellers = tellers_of(alloc, methods)?;
        Ok(CompiledPlans {
            plan_acts,
            singles,
            tellers,
        })
    }

    /// Whether the format of the method, both by their indices, has one candidate for an item, as far as that is told.
    pub fn is_single(&self, method: usize, format: usize) -> bool
        ensures { IsTrue result → flag_at self.now.singles method format ≡ Some true }
    {
        let Some(flags) = at(self.singles.as_slice(), method) else {
            return false;
        };
        match at(flags.as_slice(), format) {
            Some(flag) => *flag,
            None => false,
        }
    }

    /// What a look at the format of the method goes over, both by their indices, where that is listed.
    pub fn looks(&self, method: usize, format: usize) -> Option<&Looks>
        ensures { IfSome result (λ l. spec.HasLooks self.now.plan_acts method format l.now) }
    {
        let plans = at(self.plan_acts.as_slice(), method)?;
        let plan = at(plans.as_slice(), format)?;
        match &plan.looks {
            Some(looks) => Some(looks),
            None => None,
        }
    }

    /// For each field of the format of the method, both by their indices, how many entries may stand before its own; none where that isn't listed.
    pub fn places(&self, method: usize, format: usize) -> &[usize] {
        let Some(plans) = at(self.plan_acts.as_slice(), method) else {
            return &[];
        };
        let Some(plan) = at(plans.as_slice(), format) else {
            return &[];
        };
        match &plan.places {
            Some(places) => places.as_slice(),
            None => &[],
        }
    }
}
