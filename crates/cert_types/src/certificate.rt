//! The types of certificates. Methods, formats, fields, parameters and constraints go by their indices.

ghost use Rattle.std.specs.Prelude.{◌≡◌};
ghost use Rattle.cert_types.specs.Kept.{AreKept};
ghost use Rattle.cert_types.specs.Steps.{field_of};

use sem_expr::Side;
use sem_profile::Name;
use sqlite_items::Items;
use std::marker::Model;

/// No tree of a certificate has more nodes.
pub const NODE_LIMIT: usize = 4_096;

/// No node is deeper, where the root's depth is 1.
pub const DEPTH_LIMIT: usize = 128;

/// Each tested bit is below this offset.
pub const OFFSET_LIMIT: usize = 8_192;

/// No plan has more steps.
pub const STEP_LIMIT: usize = 2_048;

/// A plan chooses the bits of no longer field.
pub const CHOICE_LIMIT: u32 = 16;

/// The top has no more candidates.
pub const CANDIDATE_LIMIT: u64 = 65_536;

/// The top has no more packed bits.
pub const PACKED_LIMIT: u128 = 8_192;

/// The version of a certificate. The second one also tests references in trees, and solves equations of remainders.
#[derive(Clone, Copy)]
pub enum Version {
    One,
    Two,
}

/// What a plan is for: to read packed bits, or to write them.
#[derive(Clone, Copy)]
pub enum Direction {
    Read,
    Write,
}

/// One step of a plan: of which field something is learnt, and by what.
#[derive(Clone, Copy)]
pub enum Step {
    /// The next bits are a side of the field: of the packed bits in reading, of the header in writing.
    Take(usize),
    /// The method that the field calls gives both sides.
    Call(usize),
    /// The field's library method gives the uncompressed side.
    LibraryUp(usize),
    /// The field's library method gives the compressed side.
    LibraryDown(usize),
    /// The field's library method gives the length of a side.
    MethodLength(usize, Side),
    /// A constraint, by its number, gives the length of a side of the field.
    ConstraintLength(usize, Side, usize),
    /// A constraint, by its number, gives the value of the field's uncompressed side.
    Solve(usize, usize),
    /// Each value of the field's uncompressed side is tried.
    Choose(usize),
    /// The packer is given the field's value.
    Ask(usize),
}

impl Step {
    /// The field of which something is learnt, by its index in the format.
    pub fn field(self) -> usize
        ensures { result ≡ field_of self }
    {
        match self {
            Step::Take(field) => field,
            Step::Call(field) => field,
            Step::LibraryUp(field) => field,
            Step::LibraryDown(field) => field,
            Step::MethodLength(field, _) => field,
            Step::ConstraintLength(field, _, _) => field,
            Step::Solve(field, _) => field,
            Step::Choose(field) => field,
            Step::Ask(field) => field,
        }
    }
}

/// A node of a decision tree. A test has two subtrees: of a bit that for 0 and then that for 1, of a parameter or a reference that
/// for the constant and then that for all else.
#[derive(Clone, Copy)]
pub enum Node {
    /// The packed bit at the offset, in bits from the method's first.
    Bit(usize),
    /// Whether the parameter is the constant.
    Parameter(usize, i128),
    /// Whether the header or control field, by its place in each format of the method, has a reference of at most 64 bits, whose number
    /// is the constant. In certificates of version two alone.
    Reference(usize, i128),
    /// The format.
    Leaf(usize),
    /// No format.
    Nowhere,
}

/// The two plans of a format.
#[derive(Drop)]
pub struct Plans {
    pub read: Items<Step>,
    pub write: Items<Step>,
}

/// A format with the names that the certificate's text shows, of itself and of its fields, and its plans where the certificate names it.
#[derive(Drop)]
pub struct FormatPlans {
    pub name: Option<Name>,
    pub fields: Items<Name>,
    pub plans: Option<Plans>,
}

/// What a certificate says of a method: the nodes of its tree, each before its subtrees, and the plans of its formats; with the names that its text
/// shows, of the method and its parameters.
#[derive(Drop)]
pub struct MethodPlans {
    pub name: Name,
    pub parameters: Items<Name>,
    pub tree: Items<Node>,
    pub formats: Items<FormatPlans>,
}

/// A certificate: its version, and what it says of each method of the profile, where it names the method. Each tree is one whole tree of nodes that the version
/// has, and all is within the limits.
#[derive(Drop)]
pub struct Certificate {
    version: Version,
    methods: Items<Option<MethodPlans>>,
}

// Clauses see the version and the list of what it says of each method.
impl Model for Certificate {
    ghost use Rattle.cert_types.specs.Kept.{Certified, AreKept};

    ghost Value = { Certified };

    ghost view = { λ c. record { version = c.version; methods = c.methods } };

    ghost invariant = { λ c. AreKept (record { version = c.version; methods = c.methods }) };
}

impl Certificate {
    /// The certificate of that version that says this of each method.
    pub fn of(version: Version, methods: Items<Option<MethodPlans>>) -> Certificate
        requires { AreKept (record { version = version; methods = methods }) }
        ensures version { result.version ≡ version }
        ensures methods { result.methods ≡ methods }
    {
        Certificate { version, methods }
    }

    /// Its version.
    pub fn version(&self) -> Version
        ensures { result ≡ self.now.version }
    {
        self.version
    }

    /// What it says of each method.
    pub fn methods(&self) -> &[Option<MethodPlans>]
        ensures { result.now ≡ self.now.methods }
    {
        self.methods.as_slice()
    }

    /// A law of certificates: what each one keeps.
    pub fn keeps(&self)
        ensures { AreKept self.now }
    {
        let _ = &self.methods;
    }
}
