//! Where a level stands.

use sem_filling::Frame;

/// Where a level stands: a frame, and the format of its method that is filled, by its index.
#[derive(Clone, Copy)]
pub struct LevelFrame<'a> {
    pub frame: Frame<'a>,
    pub format: usize,
}
