//! The program: words, a reader and writers in, an exit status out.
ghost use Rattle.std.specs.Prelude.{◌≡◌, ◌⊎◌, ℕ, List, [], Option, Some, map, true, IfOk, MatchResult};
ghost use Rattle.std.specs.Io.KnownBytes.{Keeps, append_known};
ghost use Rattle.vs_sign_off.specs.Certified.{is_before_run};
ghost use Rattle.vs_outputs.specs.Buffers.{all_bytes, writer_of};
ghost use Rattle.vs_program.specs.Ends.{Ends, EndsAsked, EndsCall, EndsFiles, IsFinished, IsKeptBeside, done_status, held_of};
ghost use Rattle.vs_program.specs.passes.Kept.{EndsHere, EndsKept, EndsMaking, EndsMeant};
ghost use Rattle.vs_program.specs.Statuses.{refusal_status};

use crate::certifying::{proposed, tell_proposed, write_proposed};
use crate::cut::{is_open_at_cut, too_long};
use crate::doing::{Done, do_call};
use crate::files::{FilesRead, read_certificate, read_files};
use crate::input::{InputFault, Kept, read_both, read_source};
use crate::stopping::tell_stopped;
use crate::targets::tell_target;
use crate::telling::{tell, tell_done, tell_fault, tell_refusal, tell_words};
use crate::texts::{FAILED, REFUSED};
use crate::writing::{Buffers, Dumps, Place, dump_names, tell_input, tell_write};
use std::alloc::Global;
use std::io::{Read, Write};
use vs_outputs::{Late, OutputFile, ROOM, Sheet};
use vs_preprocess::{Library, Shelf};
use vs_program_words::vs_certificate::{ClaimedGrain, Rules};
use vs_program_words::{Call, Subcommand, read_words, target_of, with_target};
use vs_sign_off::vs_kernel::RunFault;
use vs_sign_off::vs_simulate::SimFault;
use vs_sign_off::{CertifiedFault, Unwatched, Watch};

/// What a call writes to, but for standard error.
#[derive(Drop)]
pub struct Writers<O, F> {
    /// Standard output.
    pub out: O,
    /// Whether that is a terminal: then its lines are written one by one.
    pub is_terminal: bool,
    /// The file of a text that goes to one.
    pub text: F,
    /// The file of the dump of a run, or of the first order of a race.
    pub dump: F,
    /// The file of the dump of the other order of a race.
    pub other: F,
}

/// Does what the words ask for; they begin with the program's own name. The source is the text of the files that they name, which come of the
/// library; without files it is read from `input`, in front of it the line of a certificate where the words ask for one. With files the
/// certificate is what `input` gives. The text that was asked for goes to standard output or to a file, and a refusal to `err`. The answer is the
/// exit status, and the writers with what they were given: 0 done, a yes or help, 1 refused, a no or not made, 2 step limit, 3 out of memory,
/// read error or write error, 64 wrong arguments.
pub fn program_on<
    L: Library,
    R: Read + Drop,
    O: Write + Drop,
    F: OutputFile + Drop,
    E: Write + Drop,
    W: Watch,
>(
    alloc: Global,
    words: &[&str],
    library: &mut L,
    input: R,
    writers: Writers<O, F>,
    watch: &mut W,
    mut err: E,
) -> (u8, Writers<O, F>)
    ensures { Ends (map (λ w. w.now) words.entry.now) (R.remaining input) (held_of O.contents F.bytes writers)
        (held_of O.contents F.bytes result.1) result.0 }
{
    match read_words(alloc, words) {
        Ok(call) => answer_call(alloc, call, library, input, writers, watch, &mut err),
        Err(fault) => {
            let Writers {
                out,
                is_terminal,
                text,
                dump,
                other,
            } = writers;
            let (status, out) = tell_words(alloc, &fault, out, &mut err);
            let writers = Writers {
                out,
                is_terminal,
                text,
                dump,
                other,
            };
            (status, writers)
        }
    }
}

/// The same where there are no files.
pub fn program<R: Read + Drop, O: Write + Drop, E: Write + Drop>(
    alloc: Global,
    words: &[&str],
    input: R,
    out: O,
    err: E,
) -> (u8, O)
    ensures { (text dump : Option (List ℕ)) × Ends (map (λ w. w.now) words.entry.now) (R.remaining input)
        (record { out = O.contents out; text = Some []; dump = Some [] })
        (record { out = O.contents result.1; text = text; dump = dump }) result.0 }
{
    let mut none = Shelf { files: &[] };
    let text = Sheet::new(alloc);
    let dump = Sheet::new(alloc);
    let other = Sheet::new(alloc);
    let writers = Writers {
        out,
        is_terminal: false,
        text,
        dump,
        other,
    };
    let (status, writers) = program_on(
        alloc,
        words,
        &mut none,
        input,
        writers,
        &mut Unwatched,
        err,
    );
    let Writers {
        out,
        is_terminal: _,
        text: _,
        dump: _,
        other: _,
    } = writers;
    (status, out)
}

// Does what a call asks for: with the text of its files, or with the input where it names none.
fn answer_call<
    L: Library,
    R: Read + Drop,
    O: Write + Drop,
    F: OutputFile + Drop,
    E: Write,
    W: Watch,
>(
    alloc: Global,
    call: Call,
    library: &mut L,
    input: R,
    writers: Writers<O, F>,
    watch: &mut W,
    err: &mut E,
) -> (u8, Writers<O, F>)
    ensures { EndsAsked (R.remaining input) call.entry (held_of O.contents F.bytes writers) (held_of O.contents F.bytes result.1) result.0 }
{
    if call.sources.files.is_empty() {
        return answer(alloc, &call, library, input, writers, watch, err);
    }
    answer_files(alloc, call, library, input, writers, watch, err)
}

// Reads the input of a call: a source, and in front of it a certificate where the call takes one that is in no file.
fn read_input<L: Library, R: Read + Drop>(
    alloc: Global,
    call: &Call,
    library: &mut L,
    input: R,
) -> Result<Kept, InputFault>
    ensures { IfOk result (λ kept.
        IsKeptBeside call.now.certificate call.now.subcommand (R.remaining input) kept.certificate.items kept.source.items) }
{
    match (call.subcommand, call.certificate) {
        (Subcommand::RunCertified(_), None) => read_both(alloc, input),
        (Subcommand::Check(_, _), None) => read_both(alloc, input),
        (_, Some(name)) => {
            let certificate = read_certificate(alloc, library, name)?;
            let source = read_source(alloc, input)?;
            Ok(source.with_certificate(certificate))
        }
        _ => read_source(alloc, input),
    }
}

// Reads the input and does with it what a call asks for.
fn answer<L: Library, R: Read + Drop, O: Write + Drop, F: OutputFile + Drop, E: Write, W: Watch>(
    alloc: Global,
    call: &Call,
    library: &mut L,
    input: R,
    writers: Writers<O, F>,
    watch: &mut W,
    err: &mut E,
) -> (u8, Writers<O, F>)
    ensures { EndsCall (R.remaining input) call.now (held_of O.contents F.bytes writers) (held_of O.contents F.bytes result.1) result.0 }
{
    match read_input(alloc, call, library, input) {
        Ok(kept) => answer_kept(alloc, call, &kept, writers, watch, err),
        Err(fault) => (tell_input(call, fault, err), writers),
    }
}

// Reads the files and does with their text what a call asks for.
fn answer_files<
    L: Library,
    R: Read + Drop,
    O: Write + Drop,
    F: OutputFile + Drop,
    E: Write,
    W: Watch,
>(
    alloc: Global,
    call: Call,
    library: &mut L,
    input: R,
    writers: Writers<O, F>,
    watch: &mut W,
    err: &mut E,
) -> (u8, Writers<O, F>)
    ensures { EndsFiles (R.remaining input) call.entry (held_of O.contents F.bytes writers) (held_of O.contents F.bytes result.1) result.0 }
{
    match read_files(alloc, library, &call, input) {
        Ok(FilesRead::Text(kept)) => answer_text(alloc, call, &kept, writers, watch, err),
        Ok(FilesRead::Refused(places, refusal)) => {
            tell_refusal(alloc, &call, &places, &refusal, err);
            (REFUSED, writers)
        }
        Err(fault) => (tell_input(&call, fault, err), writers),
    }
}

// Finds in the text of files what the call leaves to it, and does with the text what the call asks for.
fn answer_text<O: Write + Drop, F: OutputFile + Drop, E: Write, W: Watch>(
    alloc: Global,
    call: Call,
    kept: &Kept,
    writers: Writers<O, F>,
    watch: &mut W,
    err: &mut E,
) -> (u8, Writers<O, F>)
    ensures { EndsMeant kept.now.certificate.items kept.now.source.items call.entry (held_of O.contents F.bytes writers)
        (held_of O.contents F.bytes result.1) result.0 }
{
    match target_of(alloc, &call, &kept.source) {
        Ok(target) => {
            let resolved = with_target(call, &target);
            answer_kept(alloc, &resolved, kept, writers, watch, err)
        }
        Err(fault) => (tell_target(&fault, err), writers),
    }
}

// Does with what was read what a call asks for. Its text goes to standard output, or to a file where it names one.
fn answer_kept<O: Write + Drop, F: OutputFile + Drop, E: Write, W: Watch>(
    alloc: Global,
    call: &Call,
    kept: &Kept,
    writers: Writers<O, F>,
    watch: &mut W,
    err: &mut E,
) -> (u8, Writers<O, F>)
    ensures { EndsKept kept.now.certificate.items kept.now.source.items call.now.outputs call.now.subcommand
        (held_of O.contents F.bytes writers) (held_of O.contents F.bytes result.1) result.0 }
{
    let name = match call.outputs.text {
        None => return answer_shown(alloc, call, kept, writers, watch, err),
        Some(name) => name,
    };
    if let Subcommand::Certify(top, grain, rules) = call.subcommand {
        return certify_in_file(alloc, call, kept, rules, top, grain, name, writers, err);
    }
    answer_in_file(alloc, call, kept, name, writers, watch, err)
}

// Does what a call asks for; its text goes to standard output.
fn answer_shown<O: Write + Drop, F: OutputFile + Drop, E: Write, W: Watch>(
    alloc: Global,
    call: &Call,
    kept: &Kept,
    writers: Writers<O, F>,
    watch: &mut W,
    err: &mut E,
) -> (u8, Writers<O, F>)
    ensures ends { EndsHere kept.now.certificate.items kept.now.source.items call.now.outputs call.now.subcommand
        (O.contents writers.out) (O.contents result.1.out) (F.bytes writers.dump) (F.bytes result.1.dump) result.0 }
    ensures kept { result.1.text ≡ writers.text }
{
    let Writers {
        out,
        is_terminal,
        text,
        dump,
        other,
    } = writers;
    let dumps = late_dumps(call, dump, other);
    let (status, out, dumps) = write_kept(alloc, call, kept, out, dumps, is_terminal, watch, err);
    (status, writers_of(out, is_terminal, text, dumps))
}

// Does what a call asks for; its text goes to a file, which isn't known to be a terminal.
fn answer_in_file<O: Write + Drop, F: OutputFile + Drop, E: Write, W: Watch>(
    alloc: Global,
    call: &Call,
    kept: &Kept,
    name: &str,
    writers: Writers<O, F>,
    watch: &mut W,
    err: &mut E,
) -> (u8, Writers<O, F>)
    ensures ends { EndsHere kept.now.certificate.items kept.now.source.items call.now.outputs call.now.subcommand
        (F.bytes writers.text) (F.bytes result.1.text) (F.bytes writers.dump) (F.bytes result.1.dump) result.0 }
    ensures kept { result.1.out ≡ writers.out }
{
    let Writers {
        out,
        is_terminal,
        text,
        dump,
        other,
    } = writers;
    let dumps = late_dumps(call, dump, other);
    let file = Late::new(text, name);
    let (status, file, dumps) = write_kept(alloc, call, kept, file, dumps, false, watch, err);
    (
        status,
        writers_of(out, is_terminal, file.into_inner(), dumps),
    )
}

// Makes a certificate for a file. Why none is made goes to standard output instead.
fn certify_in_file<O: Write + Drop, F: OutputFile + Drop, E: Write>(
    alloc: Global,
    call: &Call,
    kept: &Kept,
    rules: Rules,
    top: &str,
    grain: ClaimedGrain,
    name: &str,
    writers: Writers<O, F>,
    err: &mut E,
) -> (u8, Writers<O, F>)
    ensures { EndsMaking rules kept.now.source.items top.now grain (held_of O.contents F.bytes writers)
        (held_of O.contents F.bytes result.1) result.0 }
{
    match proposed(alloc, rules, top, grain, &kept.source) {
        Ok(found) => {
            let (whole, writers) = write_proposed(&found, name, writers);
            let done = Done::Proposed(found.proposal);
            (tell_proposed(alloc, call, kept, &done, whole, err), writers)
        }
        Err(fault) => (
            tell_call(alloc, call, kept, &fault, Place::Text, err),
            writers,
        ),
    }
}

// The files of the dumps of a call, which are opened at their first byte.
fn late_dumps<'n, F: OutputFile + Drop>(call: &Call<'n>, dump: F, other: F) -> Dumps<Late<'n, F>>
    ensures { ⟦<Late<'n, F> as Write>⟧.contents result.first ≡ F.bytes dump }
{
    let (first, second) = dump_names(&call.outputs);
    Dumps {
        first: Late::new(dump, first),
        other: Late::new(other, second),
    }
}

// The writers, after a call.
fn writers_of<'n, O: Drop, F: OutputFile + Drop>(
    out: O,
    is_terminal: bool,
    text: F,
    dumps: Dumps<Late<'n, F>>,
) -> Writers<O, F>
    ensures out { result.out ≡ out }
    ensures text { result.text ≡ text }
    ensures dump { F.bytes result.dump ≡ ⟦<Late<'n, F> as Write>⟧.contents dumps.entry.first }
{
    let Dumps { first, other } = dumps;
    Writers {
        out,
        is_terminal,
        text,
        dump: first.into_inner(),
        other: other.into_inner(),
    }
}

// Does what a call asks for; its text goes to a writer, and its dumps that go to files to theirs.
fn write_kept<O: Write + Drop, D: Write + Drop, E: Write, W: Watch>(
    alloc: Global,
    call: &Call,
    kept: &Kept,
    out: O,
    dumps: Dumps<D>,
    is_terminal: bool,
    watch: &mut W,
    err: &mut E,
) -> (u8, O, Dumps<D>)
    ensures { EndsHere kept.now.certificate.items kept.now.source.items call.now.outputs call.now.subcommand
        (O.contents out) (O.contents result.1) (D.contents dumps.first) (D.contents result.2.first) result.0 }
{
    let Ok(room) = Vec::with_capacity(alloc, ROOM) else {
        return (tell(err, b"memory", FAILED), out, dumps);
    };
    let mut buffers = Buffers::new(alloc, call, out, dumps, room, is_terminal);
    match do_call(
        alloc,
        call,
        kept,
        &mut buffers.text,
        &mut buffers.dumps,
        watch,
    ) {
        Ok(done) => finish(alloc, call, kept, &done, buffers, err),
        Err(fault) => give_up(alloc, call, kept, &fault, buffers, err),
    }
}

// Tells of what was done, or that a write failed at its end.
fn tell_end<E: Write>(
    alloc: Global,
    call: &Call,
    kept: &Kept,
    done: &Done,
    written: Result<(), Place>,
    err: &mut E,
) -> u8
    ensures { MatchResult written (λ _. result ≡ done_status done.now) (λ _. result ≡ 3) }
{
    match written {
        Ok(()) => {
            tell_stopped(alloc, call, kept, done, err);
            tell_done(alloc, call, kept, done, err)
        }
        Err(place) => tell_write(call, place, err),
    }
}

// Writes the end of the texts of what was done, and tells of it.
fn finish<O: Write, D: Write, E: Write>(
    alloc: Global,
    call: &Call,
    kept: &Kept,
    done: &Done,
    mut buffers: Buffers<O, D>,
    err: &mut E,
) -> (u8, O, Dumps<D>)
    ensures { IsFinished call.now.subcommand (all_bytes O.contents buffers.text) (O.contents result.1)
        (all_bytes D.contents buffers.dumps.first) (D.contents result.2.first) (done_status done.now) result.0 }
{
    let written = buffers.write_out(call);
    let status = tell_end(alloc, call, kept, done, written, err);
    let (out, dumps) = buffers.into_inner();
    (status, out, dumps)
}

// Tells of a fault, and what it means where that is asked for. A source that goes on behind an open piece is told to be too long.
fn tell_call<E: Write>(
    alloc: Global,
    call: &Call,
    kept: &Kept,
    fault: &CertifiedFault,
    place: Place,
    err: &mut E,
) -> u8
    ensures { (result ≡ refusal_status fault.now) ⊎ (result ≡ 3) }
{
    if let CertifiedFault::Simulation(SimFault::Run(RunFault::Write)) = fault {
        return tell_write(call, place, err);
    }
    if is_open_at_cut(&kept.source, fault) {
        return tell_fault(alloc, call, kept, &too_long(), err);
    }
    tell_fault(alloc, call, kept, fault, err)
}

// Tells of a fault. What is gathered is written, unless a write has failed.
fn give_up<O: Write, D: Write, E: Write>(
    alloc: Global,
    call: &Call,
    kept: &Kept,
    fault: &CertifiedFault,
    mut buffers: Buffers<O, D>,
    err: &mut E,
) -> (u8, O, Dumps<D>)
    ensures status { (result.0 ≡ refusal_status fault.now) ⊎ (result.0 ≡ 3) }
    ensures refused { is_before_run fault.now ≡ true → (O.contents result.1 ≡ O.contents (writer_of buffers.text))
        × (D.contents result.2.first ≡ D.contents (writer_of buffers.dumps.first)) }
    ensures begun { (lost dump_lost : List ℕ) × Keeps (all_bytes O.contents buffers.text) (append_known (O.contents result.1) lost)
        × Keeps (all_bytes D.contents buffers.dumps.first) (append_known (D.contents result.2.first) dump_lost) }
{
    buffers.write_left(fault);
    let place = buffers.failed();
    let status = tell_call(alloc, call, kept, fault, place, err);
    let (out, dumps) = buffers.into_inner();
    (status, out, dumps)
}
