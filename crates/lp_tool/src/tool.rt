//! The tool: words and a source in, text and runs out.

ghost use Rattle.std.specs.Prelude.{◌≡◌, [], None};
ghost use Rattle.lp_prepared.specs.Causes.{Causes, IsOfWriting, IsStop, Written};
ghost use Rattle.lp_prepared.specs.Command.{command_of};
ghost use Rattle.lp_prepared.specs.LinesTold.{TellsLine};
ghost use Rattle.lp_prepared.specs.TextTold.{TellsText};
ghost use Rattle.lp_prepared.specs.Told.{IsAnswered, Tells, Wrote};

use lp_plain::PlainGrammar;
use lp_prepared::{Stop, prepare};
use lp_repr::{Items, StartStates, Text};
use lp_status::Status;
use lp_write::sinks::write_all;
use lp_write::{Sink, Source};
use std::alloc::Global;

/// The answer of a call of the tool.
#[derive(Drop)]
pub struct Report {
    pub status: Status,
    /// The plain grammar that the file spells, once it is lowered.
    pub grammar: Option<PlainGrammar>,
    /// The states of each start; none but under `Done` and `WriteFault`.
    pub tables: Items<StartStates>,
    /// The length of the parser text; 0 but under `Done` and `WriteFault`.
    pub text_len: usize,
}

/// Does what the words ask for. The checks come in this order: the words, the source, the grammar,
/// its states, the token lines, what the emission refuses; the first that fails is the answer, and
/// then nothing was written. `Memory` may come anywhere before the first write.
pub fn run_tool<S: Source, K: Sink>(
    alloc: Global,
    words: &[Text],
    source: &mut S,
    sink: &mut K,
) -> Report
    ensures usage { command_of words.now ≡ None → result.status ≡ Status.Usage }
    ensures causes { Causes (command_of words.now) (S.left source.old) (S.faults source.old) (S.faults source.new) result.status }
    ensures answered { IsAnswered result.grammar result.status }
    ensures told { Tells result.grammar result.status }
    ensures text { TellsText (command_of words.now) (S.left source.old) result.grammar result.status }
    ensures line { TellsLine (command_of words.now) (S.left source.old) result.grammar result.status }
    ensures wrote { Wrote (command_of words.now) (S.left source.old) result.grammar result.tables result.text_len (K.told sink.old) (K.told sink.new) result.status }
    ensures nothing { IsStop result.status → (result.tables ≡ []) × (result.text_len ≡ 0) }
{
    match prepare(alloc, words, source) {
        Err(stop) => stopped(alloc, stop),
        Ok(prepared) => {
            let status = written(sink, prepared.output.as_slice());
            Report {
                status,
                grammar: Some(prepared.grammar),
                tables: Items(prepared.tables),
                text_len: prepared.text_len,
            }
        }
    }
}

fn stopped(alloc: Global, stop: Stop) -> Report
    ensures status { result.status ≡ stop.status }
    ensures grammar { result.grammar ≡ stop.grammar }
    ensures tables { result.tables ≡ [] }
    ensures length { result.text_len ≡ 0 }
{
    Report {
        status: stop.status,
        grammar: stop.grammar,
        tables: Items(Vec::new(alloc)),
        text_len: 0,
    }
}

fn written<K: Sink>(sink: &mut K, output: &[u8]) -> Status
    ensures wrote { Written (K.told sink.old) (K.told sink.new) output.now result }
    ensures ended { IsOfWriting result }
{
    match write_all(sink, output) {
        Ok(()) => Status::Done,
        Err(_) => Status::WriteFault,
    }
}
