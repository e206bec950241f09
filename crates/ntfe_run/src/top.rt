//! The top call.
ghost use Rattle.std.specs.Prelude.{◌≡◌, ◌≤◌, ◌+◌, map, string_bytes};
ghost use Rattle.ntfe_run.specs.Answers.{HasAnswerCause, HasRunText, IsRun, HasFewTurns};
ghost use Rattle.ntfe_run.specs.Messages.{message_line, TellsMessage};
ghost use Rattle.ntfe_run.specs.Tasks.{IsTask};

use crate::commands::classes::begin_classes;
use crate::commands::demo::{begin_demo, tell_classes};
use crate::commands::faces::list_faces;
use crate::commands::resume::begin_resume;
use crate::listing::{list_here, list_with, write_last};
use crate::messages::write_message;
use crate::status::Status;
use crate::tasks::Task;
use io_edge::{Gate, NullSink, Sink, Source};
use ntfe_words::{Command, WordFault, read_words};
use std::alloc::Global;
use std::sync::Wait;
use std::thread::Threads;

/// Reads what the words ask for, and does it up to the listing of classes.
fn begin<S: Source, K: Sink>(alloc: Global, words: &[String], source: &mut S, out: &mut K) -> Task
    ensures task { IsTask (map string_bytes words.now) (record {
      left = record { before = S.left source.old; after = S.left source.new };
      read_faults = record { before = S.faults source.old; after = S.faults source.new };
      taken = record { before = K.taken out.old; after = K.taken out.new };
      write_faults = record { before = K.faults out.old; after = K.faults out.new };
    }) result }
    ensures turns { S.turns source.new ≤ S.turns source.old + 67108866 }
    ensures few { HasFewTurns (map string_bytes words.now) (record { before = S.turns source.old; after = S.turns source.new }) }
{
    let command = match read_words(alloc, words) {
        Ok(command) => command,
        Err(WordFault::Usage) => return Task::Ended(Status::Usage),
        Err(WordFault::Memory) => return Task::Ended(Status::Memory),
    };
    match command {
        Command::Classes(options) => begin_classes(alloc, &options, source, out),
        Command::Faces => Task::Ended(list_faces(alloc, source, out)),
        Command::Resume(options) => begin_resume(alloc, &options, source, out),
        Command::Demo {
            number,
            workers,
            width,
        } => begin_demo(alloc, number, workers, width),
    }
}

/// Does what the words ask for, on one thread.
fn answer_alone<S: Source, K: Sink>(
    alloc: Global,
    words: &[String],
    source: &mut S,
    out: &mut K,
) -> Status
    ensures cause { HasAnswerCause (map string_bytes words.now) (record {
      left = record { before = S.left source.old; after = S.left source.new };
      read_faults = record { before = S.faults source.old; after = S.faults source.new };
      taken = record { before = K.taken out.old; after = K.taken out.new };
      write_faults = record { before = K.faults out.old; after = K.faults out.new };
    }) result }
    ensures text { HasRunText (map string_bytes words.now) (record {
      left = record { before = S.left source.old; after = S.left source.new };
      read_faults = record { before = S.faults source.old; after = S.faults source.new };
      taken = record { before = K.taken out.old; after = K.taken out.new };
      write_faults = record { before = K.faults out.old; after = K.faults out.new };
    }) result }
    ensures turns { S.turns source.new ≤ S.turns source.old + 67108866 }
    ensures few { HasFewTurns (map string_bytes words.now) (record { before = S.turns source.old; after = S.turns source.new }) }
{
    match begin(alloc, words, source, out) {
        Task::Ended(status) => status,
        Task::Lists(task) => {
            let served = list_here(alloc, &task.listing(), out);
            write_last(alloc, served, out)
        }
        Task::Counts(number, task) => {
            let served = list_here(alloc, &task.listing(), &mut NullSink);
            tell_classes(number, task.geometry(), served, out)
        }
    }
}

/// Does what the words ask for, with workers where they are asked for.
fn answer_together<R: Threads + Wait + Sync, S: Source, K: Sink, G: Gate + Sync>(
    rt: &R,
    alloc: Global,
    words: &[String],
    source: &mut S,
    out: &mut K,
    gate: &G,
) -> Status
    ensures cause { HasAnswerCause (map string_bytes words.now) (record {
      left = record { before = S.left source.old; after = S.left source.new };
      read_faults = record { before = S.faults source.old; after = S.faults source.new };
      taken = record { before = K.taken out.old; after = K.taken out.new };
      write_faults = record { before = K.faults out.old; after = K.faults out.new };
    }) result }
    ensures text { HasRunText (map string_bytes words.now) (record {
      left = record { before = S.left source.old; after = S.left source.new };
      read_faults = record { before = S.faults source.old; after = S.faults source.new };
      taken = record { before = K.taken out.old; after = K.taken out.new };
      write_faults = record { before = K.faults out.old; after = K.faults out.new };
    }) result }
    ensures turns { S.turns source.new ≤ S.turns source.old + 67108866 }
    ensures few { HasFewTurns (map string_bytes words.now) (record { before = S.turns source.old; after = S.turns source.new }) }
{
    match begin(alloc, words, source, out) {
        Task::Ended(status) => status,
        Task::Lists(task) => {
            let workers = task.workers();
            let served = list_with(rt, alloc, &task.listing(), workers, out, gate);
            write_last(alloc, served, out)
        }
        Task::Counts(number, task) => {
            let workers = task.workers();
            let served = list_with(rt, alloc, &task.listing(), workers, &mut NullSink, gate);
            tell_classes(number, task.geometry(), served, out)
        }
    }
}

/// All that the program does, on one thread, as [`run`](crate::run) has it. It waits for nobody, and
/// returns.
pub fn run_alone<S: Source, K: Sink, E: Sink>(
    alloc: Global,
    words: &[String],
    source: &mut S,
    out: &mut K,
    err: &mut E,
) -> Status
    ensures answer { IsRun (map string_bytes words.now) (record {
      left = record { before = S.left source.old; after = S.left source.new };
      read_faults = record { before = S.faults source.old; after = S.faults source.new };
      taken = record { before = K.taken out.old; after = K.taken out.new };
      write_faults = record { before = K.faults out.old; after = K.faults out.new };
    }) result }
    ensures turns { S.turns source.new ≤ S.turns source.old + 67108866 }
    ensures few { HasFewTurns (map string_bytes words.now) (record { before = S.turns source.old; after = S.turns source.new }) }
    ensures message { TellsMessage (record { before = E.taken err.old; after = E.taken err.new }) (record { before = E.faults err.old; after = E.faults err.new }) (message_line result) }
{
    let status = answer_alone(alloc, words, source, out);
    let _ = write_message(&status, err);
    status
}

/// All that the program does: it does what the words ask for on what the source gives, writes the
/// answer to `out`, and tells of a status other than `Done` by one line on `err`. It may start threads
/// and wait for them; its promises hold if it returns. The gate may stop workers at their turns.
///
/// The statuses, with the codes that [`Status::code`] gives them:
///
/// - `Done` (0): all of the answer was written. For `classes` without a limit these are the blocks of
///   exactly the choices that fine regular star triangulations of the pair induce, each once and in
///   order; with a limit, the first of them. `demo` reads nothing, and writes its lines only then.
/// - `Usage` (2): the words have no meaning. Nothing is read or written.
/// - `Refused` (3): the input is refused, and nothing is written. The first refusal in this order is
///   told: too many bytes, no pair text, no reflexive pair, too many points.
/// - `Overflow` (4): the solver's numbers reach the width on the named choice. All blocks below it are
///   written, and no last line.
/// - `Limit` (5): the named two-face has more items than are taken. All blocks below a key that comes
///   to them are written, and no last line.
/// - `Memory` (6): memory ran out. Nothing was written, or a prefix of the answer.
/// - `ReadFault` (7): the source failed. Nothing is written.
/// - `WriteFault` (8): `out` failed. It took a prefix of the answer.
///
/// Where the input can be answered and neither count of faults rises, the status is `Done` or
/// `Memory`. Not promised: that memory suffices, that a waiting run returns, how long it takes, and
/// anything of bytes that a source or sink does not tell, as a file or a pipe.
pub fn run<R: Threads + Wait + Sync, S: Source, K: Sink, E: Sink, G: Gate + Sync>(
    rt: &R,
    alloc: Global,
    words: &[String],
    source: &mut S,
    out: &mut K,
    err: &mut E,
    gate: &G,
) -> Status
    ensures answer { IsRun (map string_bytes words.now) (record {
      left = record { before = S.left source.old; after = S.left source.new };
      read_faults = record { before = S.faults source.old; after = S.faults source.new };
      taken = record { before = K.taken out.old; after = K.taken out.new };
      write_faults = record { before = K.faults out.old; after = K.faults out.new };
    }) result }
    ensures turns { S.turns source.new ≤ S.turns source.old + 67108866 }
    ensures few { HasFewTurns (map string_bytes words.now) (record { before = S.turns source.old; after = S.turns source.new }) }
    ensures message { TellsMessage (record { before = E.taken err.old; after = E.taken err.new }) (record { before = E.faults err.old; after = E.faults err.new }) (message_line result) }
{
    let status = answer_together(rt, alloc, words, source, out, gate);
    let _ = write_message(&status, err);
    status
}
