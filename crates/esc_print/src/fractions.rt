//! Fractions.

ghost use Rattle.std.specs.Prelude.{◌++◌, decimal};
ghost use Rattle.std.specs.Fmt.{signed_decimal};
ghost use Rattle.esc_io.specs.Putting.{Delivers};
ghost use Rattle.esc_print.specs.Fractions.{frac_text};

use esc_frac::Frac;
use esc_io::{Failed, Sink, put_all};
use itoa::Buffer;

fn put_whole<K: Sink>(value: i128, sink: &mut K) -> Result<(), Failed>
    ensures { Delivers K.written K.faults sink.old sink.new result (signed_decimal value) }
{
    let mut buffer = Buffer::new();
    put_all(sink, buffer.format(value).as_bytes())
}

fn put_numerator<K: Sink>(value: Frac, sink: &mut K) -> Result<(), Failed>
    ensures { Delivers K.written K.faults sink.old sink.new result (signed_decimal value.num) }
{
    put_whole(value.num(), sink)
}

fn put_denominator<K: Sink>(value: Frac, sink: &mut K) -> Result<(), Failed>
    ensures { Delivers K.written K.faults sink.old sink.new result (decimal value.den) }
{
    put_whole(value.den(), sink)
}

fn put_ratio<K: Sink>(value: Frac, slash: &[u8], sink: &mut K) -> Result<(), Failed>
    ensures { Delivers K.written K.faults sink.old sink.new result
        (signed_decimal value.num ++ (slash.now ++ decimal value.den)) }
{
    put_numerator(value, sink)?;
    put_all(sink, slash)?;
    put_denominator(value, sink)
}

/// Puts a fraction: its numerator in lowest terms, and its denominator behind a slash where that
/// is not 1.
pub fn put_frac<K: Sink>(value: Frac, sink: &mut K) -> Result<(), Failed>
    ensures { Delivers K.written K.faults sink.old sink.new result (frac_text value) }
{
    if value.den() == 1 {
        return put_numerator(value, sink);
    }
    put_ratio(value, b"/", sink)
}
