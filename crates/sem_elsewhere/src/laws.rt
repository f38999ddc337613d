//! Laws of fillings in other contexts.

ghost use Rattle.sem_elsewhere.specs.Laws as laws;
ghost use Rattle.sem_elsewhere.specs.Listed as listed;
ghost use Rattle.sem_elsewhere.specs.Runs as runs;
ghost use Rattle.sem_elsewhere.specs.Robust as robust;
ghost use Rattle.sem_elsewhere.specs.Held as held;
ghost use Rattle.sem_elsewhere.specs.Paths as paths;
ghost use Rattle.sem_elsewhere.specs.Covering as covering;

/// A filling that fits in one context fits in another just where each reference that it uses serves there, at all levels.
pub fn fits_elsewhere()
    ensures { laws.FitsElsewhere }
{}

/// What is listed of a filling, in the order of its fields, is all that it uses.
pub fn its_uses()
    ensures { listed.AreItsUses }
{}

/// A filling that uses no reference fits in every context.
pub fn needs_nothing()
    ensures { laws.NeedsNothing }
{}

/// So do all fillings of a format that stands alone.
pub fn stands_alone()
    ensures { laws.FitsAlone }
{}

/// A reference of `lsb` serves just where the number has gone on from it by a step in the window.
pub fn lsb_window()
    ensures { laws.Window }
{}

/// After one and the same filling two contexts agree at each path of its entries.
pub fn agree_after()
    ensures { laws.AgreeAfter }
{}

/// They are the same maps where they agreed at all other paths.
pub fn repaired()
    ensures { laws.Repaired }
{}

/// A packet is read as what was sent just where this fits in the receiver's context, whatever that is and whatever bits follow.
pub fn right_where_fits()
    ensures { runs.RightWhereFits }
{}

/// So is a run of packets, in whatever way it was made of those that were sent.
pub fn right_where_survives()
    ensures { runs.RightWhereSurvives }
{}

/// One packet that is read right and has entries for each path at which the contexts differ brings the receiver back for good.
pub fn heals()
    ensures { runs.Heals }
{}

/// Where each item is packed so that it fits in the last n + 1 contexts, whatever is lost, never more than n packets in a row, each packet that comes through is read as what was sent.
pub fn loss_proof()
    ensures { robust.LossProof }
{}

/// And each fits in the context that the receiver then has.
pub fn loss_fits()
    ensures { robust.LossFits }
{}

/// Where the formats of each method call alike, all fillings of the top leave entries at the same paths.
pub fn same_paths()
    ensures { paths.SamePaths }
{}

/// Then a sender needs only to see that each filling fits in its last contexts.
pub fn covers()
    ensures { covering.Covers }
{}

/// So is what it sends read right, whatever is lost, never more than n packets in a row.
pub fn loss_proof_alike()
    ensures { covering.LossProofAlike }
{}

/// So is what was packed for all contexts that a receiver may hold, whatever paths the formats leave entries at.
pub fn loss_proof_held()
    ensures { held.LossProofHeld }
{}
