//! A format in one direction.

use cert_types::{Direction, Version};
use sem_profile::{Format, FormatSizes, MethodSizes};

/// A format in one direction, in certificates of a version. The table holds the bounds of the methods, and the sizes are those of the format.
#[derive(Clone, Copy)]
pub(crate) struct Way<'a, 'f> {
    pub version: Version,
    pub direction: Direction,
    pub table: &'a [MethodSizes],
    pub sizes: &'a FormatSizes,
    pub format: &'f Format,
}
