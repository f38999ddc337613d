//! Laws of the faults of plans.

ghost use Rattle.cert_plans.specs.Laws as laws;

/// The fault of a plan is one of the certificate's, as the definitions of a certificate's faults say it.
pub fn plan_faults_refuse()
    ensures { laws.PlanFaultsRefuse }
{}
