//! Names, in bars where they would not be read as the same name without.

ghost use Rattle.std.specs.Prelude.{◌≡◌, ◌++◌};
ghost use Rattle.esc_io.specs.Putting.{Delivers};
ghost use Rattle.esc_print.specs.Names.{name_text, stands_bare};
ghost use Rattle.esc_print.specs.Printing.{Prints};

use crate::printer::Printer;
use esc_io::{Failed, Sink};
use esc_names::{Names, begins_with_at, is_bare_name};
use esc_term::Sym;

fn stands_bare(spelling: &[u8]) -> bool
    ensures { result ≡ stands_bare spelling.now }
{
    is_bare_name(spelling) && !begins_with_at(spelling)
}

impl<K: Sink> Printer<'_, K> {
    fn put_between(&mut self, bar: &[u8], text: &[u8]) -> Result<(), Failed>
        ensures { Prints K.written K.faults self.old self.new result
            (bar.now ++ (text.now ++ bar.now)) }
    {
        self.put_text(bar)?;
        self.put_text(text)?;
        self.put_text(bar)
    }

    /// Puts the name with this number. A number that is no name's is put as the empty name.
    pub fn put_name(&mut self, name: Sym) -> Result<(), Failed>
        ensures { Prints K.written K.faults self.old self.new result
            (name_text self.old.names.now name) }
    {
        let names = self.names;
        let spelling = names.spelling(name);
        if stands_bare(spelling) {
            self.put_text(spelling)
        } else {
            self.put_between(b"|", spelling)
        }
    }
}

/// Puts the name with this number. A number that is no name's is put as the empty name.
pub fn put_name<K: Sink>(value: Sym, names: &Names, sink: &mut K) -> Result<(), Failed>
    ensures { Delivers K.written K.faults sink.old sink.new result (name_text names.now value) }
{
    Printer::new(names, sink).put_name(value)
}
