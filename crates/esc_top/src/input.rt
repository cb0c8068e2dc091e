//! Reads commands piece by piece and answers each as soon as it is whole.

ghost use Rattle.std.specs.Prelude.{◌≡◌, ◌+◌, ◌<◌, ◌≤◌, ◌^◌, ℕ, List, [], Option, Ok, length};
ghost use Rattle.std.specs.Prelude.{false, true, None};
ghost use Rattle.esc_io.specs.Faults.{HasCause};
ghost use Rattle.esc_options.specs.declared.options.Options.{Options as Asked};
ghost use Rattle.esc_top.specs.DeskInside.{IsInOrder, IsNew};
ghost use Rattle.esc_top.specs.Underway.{Came, EndsByCount, Feeds, IsToldByCount, Stops};
ghost use Rattle.esc_top.specs.Underway.{StopsByCount, Underway, status_at};

use crate::desk::Desk;
use crate::status::Status;
use esc_io::{Failed, Sink, Source};
use esc_options::Options;
use esc_sexp::{ReadStop, Reader, reading_laws};
use std::alloc::Global;

/// The most bytes of one read.
const PIECE: usize = 65_536;

/// The most bytes of the input.
const MAX_INPUT: u64 = 4_294_967_296;

/// Why no further expression is answered.
#[derive(Drop)]
pub enum Stop {
    /// The bytes so far hold no further whole expression.
    Hungry,
    Ended(Status),
}

/// What a read brought.
#[derive(Drop)]
pub enum Feeding {
    /// So many bytes, which the reader has.
    Fed(usize),
    AtEnd,
    ReadFault,
    /// A byte more than may be read.
    TooMuch,
    Memory,
}

// Answers the expressions that are whole.
fn answer_whole<K: Sink>(reader: &mut Reader, desk: &mut Desk, sink: &mut K) -> Result<Stop, Failed>
    requires order { IsInOrder desk.old }
    requires few { desk.old.session.goals ≤ reader.old.place }
    requires small { reader.old.place + length reader.old.bytes < 2 ^ 63 }
    ensures told { (options : Asked) (left rest written : Option (List ℕ))
        → Underway options left rest written (K.written sink.old) reader.old desk.old
        → Stops options left rest written (K.written sink.new) reader.new desk.new result }
    ensures order { IsInOrder desk.new }
    ensures few { desk.new.session.goals ≤ reader.new.place }
    ensures end { reader.new.place + length reader.new.bytes
        ≡ reader.old.place + length reader.old.bytes }
    ensures finished { reader.new.finished ≡ reader.old.finished }
    ensures reads { (count : ℕ) → StopsByCount result count count }
    ensures cause { HasCause (K.faults sink.old) (K.faults sink.new) result }
{
    reading_laws();
    'expressions: loop {
        match reader.next() {
            Ok(Some(sexp)) => desk.tell(&sexp, sink)?,
            Ok(None) => return Ok(Stop::Hungry),
            Err(ReadStop::Fault(fault)) => return Ok(Stop::Ended(Status::Syntax(fault))),
            Err(ReadStop::Memory) => return Ok(Stop::Ended(Status::Memory)),
        }
    }
}

// Reads a piece and hands it to the reader, where so many bytes more may be read.
fn feed_piece<S: Source>(
    source: &mut S,
    piece: &mut [u8],
    room: u64,
    reader: &mut Reader,
) -> Feeding
    requires some { 0 < length piece.old }
    requires open_end { reader.old.finished ≡ false }
    requires small { reader.old.place + length reader.old.bytes + room < 2 ^ 63 }
    ensures fed { Feeds (S.left source.old) (S.left source.new) reader.old reader.new room result }
    ensures count { IsToldByCount result (S.faults source.old) (S.faults source.new) }
{
    let most = most_of(piece.len(), room);
    match source.read(&mut piece[..most]) {
        Err(Failed) => Feeding::ReadFault,
        Ok(0) => Feeding::AtEnd,
        Ok(_) if room == 0 => Feeding::TooMuch,
        Ok(count) => match reader.feed(&piece[..count]) {
            Ok(()) => Feeding::Fed(count),
            Err(_) => Feeding::Memory,
        },
    }
}

// How many bytes are read at once. Where no more may be read, one byte tells whether there are
// more.
fn most_of(piece: usize, room: u64) -> usize
    requires { 0 < piece }
    ensures within { result ≤ piece }
    ensures some { 0 < result }
    ensures room { 0 < room → result ≤ room }
    ensures one { room ≡ 0 → result ≡ 1 }
{
    if room == 0 {
        return 1;
    }
    if room < piece as u64 {
        return room as usize;
    }
    piece
}

// Reads and answers up to the end of the input, or up to what stops it before.
fn answer_pieces<S: Source, K: Sink>(
    piece: &mut [u8],
    source: &mut S,
    reader: &mut Reader,
    desk: &mut Desk,
    sink: &mut K,
) -> Result<Stop, Failed>
    requires some { 0 < length piece.old }
    requires order { IsInOrder desk.old }
    requires few { desk.old.session.goals ≤ reader.old.place }
    requires begins { reader.old
        ≡ record { place = 0; bytes = []; finished = false; fault = None } }
    ensures told { (options : Asked) (left written : Option (List ℕ))
        → Underway options left (S.left source.old) written (K.written sink.old) reader.old
        desk.old
        → Stops options left (S.left source.new) written (K.written sink.new) reader.new desk.new
        result }
    ensures order { IsInOrder desk.new }
    ensures few { desk.new.session.goals ≤ reader.new.place }
    ensures small { reader.new.place + length reader.new.bytes < 2 ^ 63 }
    ensures ended { result ≡ Ok Stop.Hungry → reader.new.finished ≡ true }
    ensures cause { HasCause (K.faults sink.old) (K.faults sink.new) result }
    ensures reads { StopsByCount result (S.faults source.old) (S.faults source.new) }
{
    let mut room = MAX_INPUT;
    'pieces: loop {
        if let Stop::Ended(status) = answer_whole(reader, desk, sink)? {
            return Ok(Stop::Ended(status));
        }
        sink.flush()?;
        match feed_piece(source, piece, room, reader) {
            Feeding::Fed(count) => room -= count as u64,
            Feeding::AtEnd => break 'pieces,
            Feeding::ReadFault => return Ok(Stop::Ended(Status::ReadFault)),
            Feeding::TooMuch => return Ok(Stop::Ended(Status::TooMuch)),
            Feeding::Memory => return Ok(Stop::Ended(Status::Memory)),
        }
    }
    reader.finish();
    answer_whole(reader, desk, sink)
}

// Answers the whole input at the desk, or what comes before it is given up, and tells how it ended.
fn answer_all<S: Source, K: Sink>(
    alloc: Global,
    desk: &mut Desk,
    source: &mut S,
    sink: &mut K,
) -> Result<Status, Failed>
    requires { IsNew desk.old.options desk.old }
    ensures told { Came desk.old.options (S.left source.old) (S.left source.new)
        (K.written sink.old) (K.written sink.new) result }
    ensures cause { HasCause (K.faults sink.old) (K.faults sink.new) result }
    ensures reads { EndsByCount result (S.faults source.old) (S.faults source.new) }
{
    let Ok(mut piece) = Vec::from_elem(alloc, 0u8, PIECE) else {
        return Ok(Status::Memory);
    };
    let mut reader = Reader::new(alloc);
    let stop = answer_pieces(&mut piece, source, &mut reader, desk, sink)?;
    Ok(status_at(stop, desk.all_proved))
}

/// Answers the whole input by the options, or what comes before it is given up, and tells how it
/// ended.
pub fn answer_input<S: Source, K: Sink>(
    alloc: Global,
    options: Options,
    source: &mut S,
    sink: &mut K,
) -> Result<Status, Failed>
    ensures told { Came options (S.left source.old) (S.left source.new)
        (K.written sink.old) (K.written sink.new) result }
    ensures cause { HasCause (K.faults sink.old) (K.faults sink.new) result }
    ensures reads { EndsByCount result (S.faults source.old) (S.faults source.new) }
{
    let Ok(mut desk) = Desk::new(alloc, options) else {
        return Ok(Status::Memory);
    };
    let answered = answer_all(alloc, &mut desk, source, sink);
    // A call, since the proof would take the search apart at the end of the scope.
    drop(desk);
    answered
}

// How a run ended that stopped so: at the end of the input it is told whether each report says that
// a goal is valid or a command carried out.
fn status_at(stop: Stop, all_proved: bool) -> Status
    ensures { result ≡ status_at stop all_proved }
{
    match stop {
        Stop::Ended(status) => status,
        Stop::Hungry if all_proved => Status::Proved,
        Stop::Hungry => Status::Answered,
    }
}
