//! Why a certificate is not valid.

use cert_types::Direction;
use sem_expr::Side;

/// Why a certificate is not valid for a profile. Methods, formats and fields go by their indices; nodes of a tree, in preorder, and steps of a plan count from 0.
#[derive(Clone, Copy)]
pub enum CheckFault {
    /// V1: the method has no entry.
    NoMethod {
        method: usize,
    },
    /// V1: the format has no plans.
    NoFormat {
        method: usize,
        format: usize,
    },
    /// V2: the step isn't enabled after those before it.
    NotEnabled {
        method: usize,
        format: usize,
        direction: Direction,
        step: usize,
    },
    /// V3: the side is never learnt, or the field never taken or called.
    NeverLearnt {
        method: usize,
        format: usize,
        direction: Direction,
        field: usize,
        side: Side,
    },
    /// V4: the format reaches a leaf of another format, or a node without a format.
    WrongLeaf {
        method: usize,
        node: usize,
        format: usize,
    },
    /// V5: the format reaches a test of a bit that its packed bits may lack.
    ShortFormat {
        method: usize,
        node: usize,
        format: usize,
    },
    /// V7: a parameter is tested for a constant outside its range.
    OutOfRange {
        method: usize,
        node: usize,
    },
    /// V9: a reference is tested for a constant that is no number of 64 bits.
    BeyondWord {
        method: usize,
        node: usize,
    },
    /// V6: the top has more candidates than it may.
    TooMany,
    /// V8: the top's packed bits may be more than they may.
    TooLong,
}
