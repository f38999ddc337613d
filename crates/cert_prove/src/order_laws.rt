//! Laws of closures and of plans of the order.

ghost use Rattle.cert_prove.specs.OrderExample as example;
ghost use Rattle.cert_prove.specs.OrderLaws as laws;

/// What enabled steps learn lies in the closure.
pub fn stays_in_closure()
    ensures { laws.StaysInClosure }
{}

/// Where the closure lacks a side, no list of steps is a plan, and no certificate is valid for the format's method.
pub fn lacking_has_no_plan()
    ensures plan { laws.LackingHasNoPlan }
    ensures certificate { laws.LackingIsNotValid }
{}

/// A plan of the order is a plan.
pub fn ordered_is_plan()
    ensures { laws.OrderedIsPlan }
{}

/// A format has one plan of the order in a direction, and none within the limit where the order passes it.
pub fn one_plan()
    ensures one { laws.OneOrderedPlan }
    ensures limit { laws.PassingIsAbove }
{}

/// The two plans of a small format are those of the order.
pub fn an_example()
    ensures { example.ExampleIsOrdered }
{}
