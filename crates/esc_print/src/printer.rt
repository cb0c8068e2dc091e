//! What prints: the names, and the sink that gets the text.

ghost use Rattle.std.specs.Prelude.{◌≡◌, decimal};
ghost use Rattle.std.specs.Fmt.{signed_decimal};
ghost use Rattle.esc_print.specs.Printing.{Prints};
ghost use Rattle.esc_print.specs.Terms.{blank, closing, opening};

use crate::numbers::{put_number, put_numeral};
use esc_io::{Failed, Sink, put_all};
use esc_names::Names;

/// Prints names, terms and formulas, each call all of its text, or a front of it where the sink
/// fails. It takes no memory beyond the sink's own.
#[derive(Drop)]
pub struct Printer<'a, K> {
    pub(crate) names: &'a Names,
    sink: &'a mut K,
}

impl<'a, K: Sink> Printer<'a, K> {
    pub fn new(names: &'a Names, sink: &'a mut K) -> Printer<'a, K>
        ensures names { result.names.now ≡ names.now }
        ensures sink { result.sink.now ≡ sink.old }
        ensures same_sink { result.sink.ghost_name ≡ sink.entry.ghost_name }
    {
        Printer { names, sink }
    }

    /// Puts the bytes as they are.
    pub fn put_text(&mut self, text: &[u8]) -> Result<(), Failed>
        ensures { Prints K.written K.faults self.old self.new result text.now }
    {
        put_all(self.sink, text)
    }

    /// Puts a number in decimal digits.
    pub fn put_number(&mut self, value: u64) -> Result<(), Failed>
        ensures { Prints K.written K.faults self.old self.new result (decimal value) }
    {
        put_number(value, self.sink)
    }

    pub(crate) fn put_numeral(&mut self, value: i64) -> Result<(), Failed>
        ensures { Prints K.written K.faults self.old self.new result (signed_decimal value) }
    {
        put_numeral(value, self.sink)
    }

    #[tactic(auto, unfolding(crate::specs::Terms::blank))]
    pub(crate) fn put_blank(&mut self) -> Result<(), Failed>
        ensures { Prints K.written K.faults self.old self.new result blank }
    {
        self.put_text(b" ")
    }

    #[tactic(auto, unfolding(crate::specs::Terms::opening))]
    pub(crate) fn put_opening(&mut self) -> Result<(), Failed>
        ensures { Prints K.written K.faults self.old self.new result opening }
    {
        self.put_text(b"(")
    }

    #[tactic(auto, unfolding(crate::specs::Terms::closing))]
    pub(crate) fn put_closing(&mut self) -> Result<(), Failed>
        ensures { Prints K.written K.faults self.old self.new result closing }
    {
        self.put_text(b")")
    }
}
