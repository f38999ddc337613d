//! Laws of the tree of the prover's order.

ghost use Rattle.cert_prove.specs.TreeExample as example;
ghost use Rattle.cert_prove.specs.TreeLaws as laws;

/// The rule gives a set of formats one test, or none.
pub fn rule_is_one()
    ensures { laws.RuleIsOne }
{}

/// What has grown to the end is the ordered tree.
pub fn grown_is_ordered()
    ensures { laws.GrownIsOrdered }
{}

/// An ordered tree parts the formats of its method: none of V4, V5, V7 and V9 is at a node of it.
pub fn ordered_is_faultless()
    ensures parts { laws.OrderedParts }
    ensures faultless { laws.OrderedIsFaultless }
{}

/// Where a set of formats of a method is stuck, no tree of any certificate of the version parts the formats: it has V4, V5, V7 or V9.
pub fn stuck_has_no_tree()
    ensures parts { laws.StuckHasNoTree }
    ensures faulty { laws.StuckHasFault }
{}

/// Where the methods of a profile are well formed and the formats of each are alike, an ordered tree names formats, parameters and header and control fields of
/// its method; and its nodes are those that its version has.
pub fn ordered_names()
    ensures names { laws.OrderedNames }
    ensures versed { laws.OrderedIsVersed }
{}

/// The ordered trees of three small methods.
pub fn worked_trees()
    ensures tick { example.TickIsOrdered }
    ensures opt { example.OptIsOrdered }
    ensures kind { example.KindIsOrdered }
{}
