//! What is done to draw a filling up.

use crate::looks::Looks;
use crate::pages::{PageOperation, PageWriting};
use cert_types::Step;
use sem_expr::Side;
use sem_pages::Prepared;
use sqlite_items::Items;

/// How many bits.
#[derive(Clone, Copy)]
pub enum Count {
    Number(usize),
    /// The value of the parameter, by its index.
    Parameter(usize),
    /// As many as the field's reference has.
    Referred,
    /// As many as were noted: as the side has.
    Noted,
}

/// One operation. Fields and constraints go by their indices. The source are the packed bits in reading, and the header in writing.
#[derive(Clone, Copy)]
pub enum Operation {
    /// So many bits of the source are passed, and the next ones are that side of the field; where it `copies`, the other side has the same.
    Take {
        passes: usize,
        field: usize,
        side: Side,
        count: Count,
        copies: bool,
    },
    /// The next bits of the source are that side of the field, and are known otherwise.
    Pass {
        field: usize,
        side: Side,
        count: Count,
    },
    /// The side has so many bits, which are a number's.
    Give {
        field: usize,
        side: Side,
        count: Count,
        number: u64,
    },
    /// The field's library method gives the uncompressed side.
    Up(usize),
    /// The field's library method gives the compressed side.
    Down(usize),
    /// So many bits of the source are passed, and the field calls a method; the filling inside `takes` from the source.
    Call {
        passes: usize,
        field: usize,
        takes: bool,
    },
    /// The next digit is the number of the field's bits, so many; where it `copies`, both sides have them.
    Choose {
        field: usize,
        width: usize,
        copies: bool,
    },
    /// The asked value at this place is the field's.
    Ask {
        field: usize,
        place: usize,
    },
    /// A step of the plan as it stands.
    Follow(Step),
}

/// So many bits, which spell the number.
#[derive(Clone, Copy)]
pub struct ShortBits {
    pub count: usize,
    pub number: u64,
}

/// What a field has before any operation.
#[derive(Clone, Copy)]
pub enum Beginning {
    /// A constant on either side, of no bits where there is none.
    Constants {
        uncompressed: ShortBits,
        compressed: ShortBits,
    },
    /// So many bits of the source, a number or a parameter, that many places after its begin, on that side; where it `copies`, on the other side as well.
    Taken {
        place: usize,
        count: Count,
        side: Side,
        copies: bool,
    },
    /// Packed bits of `lsb` with numbers, so many, that many places after the begin of the source, and what they and the reference give.
    Raised {
        place: usize,
        count: usize,
        bits: i128,
        offset: i128,
    },
    /// Bits of the header, a number or as many as the reference has, that many places after its begin, and what `lsb` with numbers makes of them.
    Lowered {
        place: usize,
        count: Count,
        bits: i128,
        offset: i128,
    },
}

/// What a plan comes to: what each field begins with, in field order, and what is done then. It is hopeful where a field of `lsb` with numbers is taken from
/// the header and no method is called: of a flow such a field is mostly near its reference.
#[derive(Drop)]
pub struct Operations {
    pub beginnings: Items<Beginning>,
    pub done: Items<Operation>,
    pub is_hopeful: bool,
}

/// The operations of a format's plans, none of one that doesn't take its source from the front to the end.
#[derive(Drop)]
pub struct CompiledPlan {
    /// What a look at the format goes over.
    pub looks: Option<Looks>,
    /// For each field, in field order, how many entries a level leaves before its own, where each called method has its first format.
    pub places: Option<Items<usize>>,
    /// What the format tells of its levels.
    pub prepared: Option<Prepared>,
    pub read: Option<Operations>,
    /// Those by which a page is read, and those by which it is written.
    pub page: Option<Items<PageOperation>>,
    pub page_writing: Option<Items<PageWriting>>,
    pub write: Option<Operations>,
}
