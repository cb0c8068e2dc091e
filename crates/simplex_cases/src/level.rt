//! Marks with their places.

ghost use Rattle.std.specs.Prelude.{◌≡◌};

use esc_trail::Mark;

/// A mark, and how many records were noted before it.
#[derive(Clone, Copy)]
pub struct Level {
    pub mark: Mark,
    pub length: usize,
    ghost marks: { mark ≡ length },
}
