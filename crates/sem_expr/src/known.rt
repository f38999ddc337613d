//! What is known of the attributes and parameters.

ghost use Rattle.std.specs.Prelude.{◌≡◌};
ghost use Rattle.sem_expr.specs.Known.{assignment_of, no_numbers, nothing_known, numbers_at};

use crate::expr::{Attribute, Measure, Side, Subject};
use crate::valuation::Valuation;
use sqlite_items::Items;
use std::alloc::Global;

/// The number that some bits spell and how many bits there are, where they are known.
#[derive(Clone, Copy, PartialEq, Eq)]
pub struct Numbers {
    pub value: Option<i128>,
    pub length: Option<i128>,
}

/// Those of both sides of a field.
#[derive(Clone, Copy, PartialEq, Eq)]
pub struct SideNumbers {
    pub uncompressed: Numbers,
    pub compressed: Numbers,
}

/// The known numbers: of the fields in field order, of the whole, and of the parameters in order.
/// A field or a parameter past the end of its list has no known number.
#[derive(Drop)]
pub struct Known {
    pub fields: Items<SideNumbers>,
    pub whole: SideNumbers,
    pub parameters: Items<i128>,
}

impl Known {
    /// No number is known.
    pub fn nothing(alloc: Global) -> Known
        ensures { result ≡ nothing_known }
    {
        let none = Numbers {
            value: None,
            length: None,
        };
        Known {
            fields: Items::new(alloc),
            whole: SideNumbers {
                uncompressed: none,
                compressed: none,
            },
            parameters: Items::new(alloc),
        }
    }

    fn field(&self, index: usize) -> SideNumbers
        ensures { result ≡ numbers_at self.now.fields index }
    {
        match self.fields.get(index) {
            Some(sides) => *sides,
            None => {
                let none = Numbers {
                    value: None,
                    length: None,
                };
                SideNumbers {
                    uncompressed: none,
                    compressed: none,
                }
            }
        }
    }
}

impl Valuation for Known {
    ghost assignment = { assignment_of };

    fn parameter(&self, index: usize) -> Option<i128> {
        self.parameters.get(index).copied()
    }

    fn attribute(&self, attribute: Attribute) -> Option<i128> {
        let sides = match attribute.subject {
            Subject::This => self.whole,
            Subject::Field(index) => self.field(index),
        };
        let numbers = match attribute.side {
            Side::Uncompressed => sides.uncompressed,
            Side::Compressed => sides.compressed,
        };
        match attribute.measure {
            Measure::Value => numbers.value,
            Measure::Length => numbers.length,
        }
    }
}
