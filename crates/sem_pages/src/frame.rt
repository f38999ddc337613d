//! Where a page stands.

use sem_context::Context;
use sem_profile::Method;

/// Where a page stands: as what fills a method of these, by its index, in a context, under the values of the method's arguments, below the path of the field
/// that the method fills, empty at the top. It is a frame whose numbers have 64 bits. Its first entry may stand at that place of the context: that is looked at
/// first, and nothing is promised of it.
#[derive(Clone, Copy)]
pub struct PageFrame<'a> {
    pub methods: &'a [Method],
    pub context: &'a Context,
    pub method: usize,
    pub arguments: &'a [i64],
    pub path: &'a str,
    pub first: usize,
}
