//! Whole numbers.

ghost use Rattle.std.specs.Prelude.{decimal};
ghost use Rattle.std.specs.Fmt.{signed_decimal};
ghost use Rattle.esc_io.specs.Putting.{Delivers};

use esc_io::{Failed, Sink, put_all};
use itoa::Buffer;

/// Puts a number in decimal digits.
pub fn put_number<K: Sink>(value: u64, sink: &mut K) -> Result<(), Failed>
    ensures { Delivers K.written K.faults sink.old sink.new result (decimal value) }
{
    let mut buffer = Buffer::new();
    put_all(sink, buffer.format(value).as_bytes())
}

pub(crate) fn put_numeral<K: Sink>(value: i64, sink: &mut K) -> Result<(), Failed>
    ensures { Delivers K.written K.faults sink.old sink.new result (signed_decimal value) }
{
    let mut buffer = Buffer::new();
    put_all(sink, buffer.format(value).as_bytes())
}
