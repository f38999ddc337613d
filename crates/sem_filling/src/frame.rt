//! Where a method is filled.

use sem_context::Context;
use sem_profile::Profile;

/// Where a method is filled: by a profile, in a context, under the values of the method's arguments, below the path of the field that the filling fills, empty
/// at the top. The method goes by its index.
#[derive(Clone, Copy)]
pub struct Frame<'a> {
    pub profile: &'a Profile,
    pub context: &'a Context,
    pub method: usize,
    pub arguments: &'a [i128],
    pub path: &'a str,
}
