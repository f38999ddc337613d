//! What a guess has of a level.

use crate::no_guess::NoGuess;
use sem_bits::Bits;
use sem_expr::Side;
use sem_filling::{FilledField, Filling};
use sem_profile::Format;
use sqlite_items::{Items, at};
use std::alloc::{AllocError, Global};

/// A level that is being drawn: its format, the values of the parameters, its header where that is known from the start, the fields so far, and how many places
/// after the cursor's what is next of the source stands. Of a side whose length alone is known there are so many zeros.
#[derive(Drop)]
pub(crate) struct Guess<'a> {
    pub(crate) format: &'a Format,
    pub(crate) arguments: &'a [i128],
    pub(crate) header: Option<&'a Bits>,
    pub(crate) fields: Vec<FilledField>,
    pub(crate) ahead: usize,
}

impl<'a> Guess<'a> {
    /// The filling that was drawn, of the format by its index. The error is out of memory.
    pub(crate) fn into_filling(self, index: usize) -> Result<Filling, AllocError> {
        Ok(Filling {
            format: index,
            listing: self.format.listing.share()?,
            fields: Items::from_vec(self.fields),
        })
    }

    /// How many bits the side of the field has, none where nothing is known of it.
    pub(crate) fn length(&self, field: usize, side: Side) -> usize {
        match self.bits(field, side) {
            Ok(bits) => bits.len(),
            Err(_) => 0,
        }
    }

    /// The bits of the side of the field. The error is Nowhere, where there is no such field.
    pub(crate) fn bits(&self, field: usize, side: Side) -> Result<&Bits, NoGuess> {
        match at(self.fields.as_slice(), field) {
            Some(filled) => match side {
                Side::Uncompressed => Ok(&filled.uncompressed),
                Side::Compressed => Ok(&filled.compressed),
            },
            None => Err(NoGuess::Nowhere),
        }
    }

    /// Gives the side of the field its bits.
    pub(crate) fn set(&mut self, field: usize, side: Side, bits: Bits) {
        if field < self.fields.len() {
            let filled = &mut self.fields[field];
            match side {
                Side::Uncompressed => filled.uncompressed = bits,
                Side::Compressed => filled.compressed = bits,
            }
        }
    }

    /// Gives the field the filling inside it, with both sides.
    pub(crate) fn fill(
        &mut self,
        alloc: Global,
        field: usize,
        inner: Filling,
    ) -> Result<(), NoGuess> {
        self.set(field, Side::Uncompressed, inner.header(alloc)?);
        self.set(field, Side::Compressed, inner.packed(alloc)?);
        if field < self.fields.len() {
            self.fields[field].inner = Some(inner);
        }
        Ok(())
    }

    /// Passes so many bits of the source.
    pub(crate) fn pass(&mut self, count: usize) {
        self.ahead = self.ahead.saturating_add(count);
    }
}
