//! Laws of the relation, each as a function with no body that a proof may cite by a call.
ghost use Rattle.std.specs.Prelude.{◌≡◌, Bool, List, Option};
ghost use Rattle.sem_library.specs.Methods.{Method, Lib};

/// Under a method, its arguments and a reference, one side has one other side.
pub fn one_solution()
    ensures up { (m : Method) (r : Option (List Bool)) (u v c : List Bool) → Lib m r u c → Lib m r v c → u ≡ v }
    ensures down { (m : Method) (r : Option (List Bool)) (u c d : List Bool) → Lib m r u c → Lib m r u d → c ≡ d }
{}
