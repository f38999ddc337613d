//! What a filling shows at its own level: its header, its packed bits and its item.

ghost use Rattle.std.specs.Prelude.{◌≡◌, IfOk, MatchResult};

use crate::filling::{AskedValue, Filling, Item};
use sem_bits::{Bits, BitsError};
use sem_profile::Part;
use sqlite_items::Items;
use std::alloc::{AllocError, Global};

impl Filling {
    ghost use Rattle.sem_filling.specs.Fillings.{header, packed, item, asked_values, level, FailsAbove};

    /// The header: the uncompressed sides of the header fields, joined in field order.
    ///
    /// The error is `Full` above the limit of `Bits`, or out of memory.
    pub fn header(&self, alloc: Global) -> Result<Bits, BitsError>
        ensures { MatchResult result (λ b. b ≡ header self.now) (λ e. FailsAbove e (header self.now)) }
    {
        let mut header = Bits::new(alloc);
        for field in self.fields.as_slice() {
            if let Part::Header = field.declared.part {
                header.append(&field.uncompressed)?;
            }
        }
        Ok(header)
    }

    /// The packed bits: the compressed sides of the listed fields, joined in the listing's order. An index past the fields
    /// gives no bits.
    ///
    /// The error is `Full` above the limit of `Bits`, or out of memory.
    pub fn packed(&self, alloc: Global) -> Result<Bits, BitsError>
        ensures { MatchResult result (λ b. b ≡ packed self.now) (λ e. FailsAbove e (packed self.now)) }
    {
        let mut packed = Bits::new(alloc);
        for i in self.listing.get().as_slice() {
            if let Some(field) = self.fields.get(*i) {
                packed.append(&field.compressed)?;
            }
        }
        Ok(packed)
    }

    /// The header and the values of the asked fields, in field order.
    ///
    /// The error is `Full` where the header is above the limit of `Bits`, or out of memory.
    pub fn item(&self, alloc: Global) -> Result<Item, BitsError>
        ensures { MatchResult result (λ i. i ≡ item self.now) (λ e. FailsAbove e (header self.now)) }
    {
        Ok(Item {
            header: self.header(alloc)?,
            asked: self.asked_values(alloc)?,
        })
    }

    /// The names of the asked fields with their uncompressed sides, in field order.
    pub fn asked_values(&self, alloc: Global) -> Result<Items<AskedValue>, AllocError>
        ensures { IfOk result (λ values. values ≡ asked_values (level self.now)) }
    {
        let mut values = Items::new(alloc);
        for field in self.fields.as_slice() {
            if field.declared.asked {
                values.push(AskedValue {
                    name: field.declared.name.share()?,
                    bits: field.uncompressed.copy(alloc)?,
                })?;
            }
        }
        Ok(values)
    }
}
