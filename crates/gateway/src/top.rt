//! The top call.

ghost use Rattle.std.specs.Prelude.{◌≡◌, ◌+◌, ◌≤◌, ◌↔◌, ◌⊎◌, ℕ, None, true};
ghost use Rattle.std.specs.Io.KnownBytes.{Appends, IsAtEnd};
ghost use Rattle.fault_causes.specs.Causes.{Rose};
ghost use Rattle.gate_machine.specs.Runs.{run_text};
ghost use Rattle.gateway.specs.Words.{accepted, input_limit};
ghost use Rattle.gateway.specs.Files.{AreHeld, Serves, StopsAtFile};
ghost use Rattle.gateway.specs.Lines.{whole_lines_text, first_lines_text, limited_text, full_text};
ghost use Rattle.gateway.specs.Run.{Ran, RanFront, WritesFront, IsStatus};

use crate::files::{FileStop, read_files};
use crate::run::run_lines;
use crate::stop::{LineStop, Stop};
use crate::stopped::{NO_RULES, NO_SCHEMA, PAST_LIMIT, stop_at_schema, write_stopped};
use crate::words::read_words;
use gate_outside::{Shelf, Sink, Source};
use std::alloc::Global;
use text_types::Text;

/// Does all that the program does, and gives its exit status: 0 where the input was read to its end, 2
/// where the words aren't accepted, 3 where the schema's or the rules' file is missing or the schema is
/// refused, 4 where the source or the shelf failed, 5 where the sink failed, 7 without memory, and 10
/// where the input goes past the limit that the words give. What is written is the text of the input's
/// lines by the service whose schema the schema's file gives.
#[tactic(auto, using(crate::proofs::Ends::serves, crate::proofs::Ends::held_schema))]
pub fn gate_main<I: Source, O: Sink, F: Shelf>(
    alloc: Global,
    words: &[Text],
    input: &mut I,
    out: &mut O,
    files: &mut F,
) -> u8
    ensures known { IsStatus result }
    ensures at_most { I.given input.new ≤ I.given input.old + (input_limit (accepted words.now) + 1) }
    ensures files_first { (input.new ≡ input.old) ⊎ AreHeld (F.holds files.old) (accepted words.now) }
    ensures files_kept { F.holds files.new ≡ F.holds files.old }
    ensures front { ((input.new ≡ input.old) × (out.new ≡ out.old))
        ⊎ (Serves (F.holds files.old) (accepted words.now) (λ service.
        RanFront I.left I.given input.old input.new O.held out.old out.new (full_text service (input_limit (accepted words.now))))
        ⊎ (StopsAtFile (F.holds files.old) (F.missing files.old) (F.missing files.new) (accepted words.now)
        (WritesFront (O.held out.old) (O.held out.new))
        × (input.new ≡ input.old))) }
    ensures finished { result ≡ 0 →
        Serves (F.holds files.old) (accepted words.now) (λ service.
        Ran I.left I.given input.old input.new O.held out.old out.new (run_text service)) }
    ensures finished_end { result ≡ 0 → (I.ended input.new ≡ true) × IsAtEnd (I.left input.new) }
    ensures finished_within { result ≡ 0 → I.given input.new ≤ I.given input.old + input_limit (accepted words.now) }
    ensures finished_files { result ≡ 0 → AreHeld (F.holds files.old) (accepted words.now) }
    ensures unaccepted { result ≡ 2 ↔ accepted words.now ≡ None }
    ensures unaccepted_untouched { result ≡ 2 →
        (input.new ≡ input.old) × ((out.new ≡ out.old) × (files.new ≡ files.old)) }
    ensures stopped { result ≡ 3 →
        StopsAtFile (F.holds files.old) (F.missing files.old) (F.missing files.new) (accepted words.now)
        (Appends (O.held out.old) (O.held out.new)) }
    ensures stopped_unread { result ≡ 3 → input.new ≡ input.old }
    ensures failed { result ≡ 4 →
        (Rose (I.faults input.old) (I.faults input.new)
        × Serves (F.holds files.old) (accepted words.now) (λ service.
        Ran I.left I.given input.old input.new O.held out.old out.new (whole_lines_text service)))
        ⊎ (Rose (F.faults files.old) (F.faults files.new)
        × ((input.new ≡ input.old) × (out.new ≡ out.old))) }
    ensures cut { result ≡ 5 → Rose (O.faults out.old) (O.faults out.new) }
    ensures memory { result ≡ 7 →
        ((input.new ≡ input.old) × (out.new ≡ out.old))
        ⊎ Serves (F.holds files.old) (accepted words.now) (λ service.
        (count : ℕ)
        × Ran I.left I.given input.old input.new O.held out.old out.new
        (first_lines_text service (input_limit (accepted words.now)) count)) }
    ensures past_limit { result ≡ 10 →
        Serves (F.holds files.old) (accepted words.now) (λ service.
        Ran I.left I.given input.old input.new O.held out.old out.new (limited_text service (input_limit (accepted words.now)))) }
    ensures past_limit_given { result ≡ 10 →
        I.given input.new ≡ I.given input.old + (input_limit (accepted words.now) + 1) }
{
    let Some(names) = read_words(words) else {
        return 2;
    };
    let service = match read_files(alloc, &names, files) {
        Ok(service) => service,
        Err(FileStop::NoSchema) => return write_stopped(3, NO_SCHEMA, out),
        Err(FileStop::BadSchema { code, line }) => return stop_at_schema(alloc, code, line, out),
        Err(FileStop::NoRules) => return write_stopped(3, NO_RULES, out),
        Err(FileStop::Shelf) => return 4,
        Err(FileStop::Memory) => return 7,
    };
    match run_lines(alloc, service, names.limit, input, out) {
        Ok(()) => 0,
        Err(Stop::Source) => 4,
        Err(Stop::Limit) => write_stopped(10, PAST_LIMIT, out),
        Err(Stop::Line(LineStop::Sink)) => 5,
        Err(Stop::Line(LineStop::Memory)) => 7,
    }
}
