//! Where a call writes: a text and two dumps, each behind a buffer.
ghost use Rattle.std.specs.Prelude.{◌≡◌, ◌⊎◌, ◌++◌, ◌∷◌, ℕ, List, [], OnOk, codes, true};
ghost use Rattle.std.specs.Io.KnownBytes.{Keeps, append_known};
ghost use Rattle.vs_sign_off.specs.Certified.{is_before_run};
ghost use Rattle.vs_outputs.specs.Buffers.{all_bytes, writer_of};
ghost use Rattle.vs_program.specs.Ends.{IsOpen};
ghost use Rattle.vs_program.specs.passes.Kept.{IsEndless};

use crate::input::InputFault;
use crate::telling::tell;
use crate::texts::FAILED;
use std::alloc::Global;
use std::io::Write;
use vs_outputs::Buffered;
use vs_program_words::{Call, GREATEST, OutputText, Outputs, Subcommand};
use vs_sign_off::CertifiedFault;
use vs_sign_off::vs_kernel::RunFault;
use vs_sign_off::vs_simulate::SimFault;
use vs_sign_off::vs_vcd_writing::Sink;

/// The two dumps that a call may write.
#[derive(Drop)]
pub(crate) struct Dumps<V> {
    /// That of a run, or of the first order of a race.
    pub(crate) first: V,
    /// That of the other order of a race.
    pub(crate) other: V,
}

/// What a call writes.
#[derive(Clone, Copy, PartialEq, Eq)]
pub(crate) enum Place {
    /// Its text.
    Text,
    /// The first dump.
    First,
    /// The other one.
    Other,
}

/// A text and two dumps, each behind a buffer.
#[derive(Drop)]
pub(crate) struct Buffers<O, D> {
    pub(crate) text: Buffered<O>,
    pub(crate) dumps: Dumps<Buffered<D>>,
}

/// The line of the greatest moment, with which a dump ends that has no other end.
const LAST_LINE: &[u8] = b"#4611686018427387903\n";

/// Which dumps of a call leave that line out: one that is its text, and one that goes to a file.
#[derive(Clone, Copy)]
struct Cuts {
    text: bool,
    dump: bool,
}

// Whether a call runs a design up to the greatest moment.
fn is_endless(subcommand: Subcommand) -> bool
    ensures { result ≡ true → IsEndless subcommand.entry }
{
    match subcommand {
        Subcommand::Run(request) => request.until.count == GREATEST,
        Subcommand::RunCertified(request) => request.until.count == GREATEST,
        _ => false,
    }
}

// Whether the text of a call is a dump.
fn shows_dump(subcommand: Subcommand) -> bool {
    match subcommand {
        Subcommand::Run(request) => matches!(request.text, OutputText::Dump),
        Subcommand::RunCertified(request) => matches!(request.text, OutputText::Dump),
        _ => false,
    }
}

// Those of a run to the greatest moment, of a source that is the text of files; of a text of lines nothing is left out.
fn cuts_of(call: &Call) -> Cuts
    ensures text { result.text ≡ true → IsEndless call.now.subcommand }
    ensures dump { result.dump ≡ true → IsEndless call.now.subcommand }
{
    if !call.sources.files.is_empty() && is_endless(call.subcommand) {
        return Cuts {
            text: shows_dump(call.subcommand),
            dump: call.outputs.dump.is_some(),
        };
    }
    Cuts {
        text: false,
        dump: false,
    }
}

// How many bytes a buffer keeps until the end.
fn kept_bytes(cuts: bool) -> usize {
    if cuts { LAST_LINE.len() } else { 0 }
}

// Leaves the last line out, where that is asked for.
fn cut<W: Write>(buffer: &mut Buffered<W>, cuts: bool)
    ensures { (cut : List ℕ) × Keeps (all_bytes W.contents buffer.old) (append_known (all_bytes W.contents buffer.new) cut)
        × ((cut ≡ []) ⊎ ((cuts ≡ true) × (cut ≡ codes "#4611686018427387903" ++ 10 ∷ []))) }
{
    if !cuts {
        return;
    }
    buffer.cut(LAST_LINE);
}

impl<O: Write, D: Write> Buffers<O, D> {
    /// Buffers for these writers; the room for the text is empty.
    pub(crate) fn new(
        alloc: Global,
        call: &Call,
        out: O,
        dumps: Dumps<D>,
        room: Vec<u8>,
        by_lines: bool,
    ) -> Self
        requires { room.items ≡ [] }
        ensures text { all_bytes O.contents result.text ≡ O.contents out }
        ensures dump { all_bytes D.contents result.dumps.first ≡ D.contents dumps.first }
        ensures writer { writer_of result.text ≡ out }
        ensures file { writer_of result.dumps.first ≡ dumps.first }
    {
        let Dumps { first, other } = dumps;
        let cuts = cuts_of(call);
        Buffers {
            text: Buffered::new(out, room, by_lines, kept_bytes(cuts.text)),
            dumps: Dumps {
                first: Buffered::new(first, Vec::new(alloc), false, kept_bytes(cuts.dump)),
                other: Buffered::new(other, Vec::new(alloc), false, 0),
            },
        }
    }

    /// Writes what is gathered, or answers whose write failed.
    pub(crate) fn write_all(&mut self) -> Result<(), Place>
        ensures text { Keeps (all_bytes O.contents self.old.text) (all_bytes O.contents self.new.text) }
        ensures dump { Keeps (all_bytes D.contents self.old.dumps.first) (all_bytes D.contents self.new.dumps.first) }
        ensures whole { OnOk result (Keeps (all_bytes O.contents self.new.text) (O.contents (writer_of self.new.text))
            × Keeps (all_bytes D.contents self.new.dumps.first) (D.contents (writer_of self.new.dumps.first))) }
    {
        let Ok(()) = self.text.write_out() else {
            return Err(Place::Text);
        };
        let Ok(()) = self.dumps.first.write_out() else {
            return Err(Place::First);
        };
        let Ok(()) = self.dumps.other.write_out() else {
            return Err(Place::Other);
        };
        Ok(())
    }

    // Opens the file of the text, where it goes to one, though the text be empty.
    fn open_text(&mut self, call: &Call) -> Result<(), Place>
        ensures text { Keeps (all_bytes O.contents self.old.text) (all_bytes O.contents self.new.text) }
        ensures dumps { self.new.dumps ≡ self.old.dumps }
    {
        if call.outputs.text.is_none() {
            return Ok(());
        }
        match self.text.open() {
            Ok(()) => Ok(()),
            Err(_) => Err(Place::Text),
        }
    }

    /// Writes what a call did, but for a line that is left out. A file of the text is opened, though the text be empty.
    pub(crate) fn write_out(&mut self, call: &Call) -> Result<(), Place>
        ensures text { (cut : List ℕ) × Keeps (all_bytes O.contents self.old.text)
            (append_known (all_bytes O.contents self.new.text) cut) × IsOpen call.now.subcommand cut }
        ensures dump { (cut : List ℕ) × Keeps (all_bytes D.contents self.old.dumps.first)
            (append_known (all_bytes D.contents self.new.dumps.first) cut) × IsOpen call.now.subcommand cut }
        ensures whole { OnOk result (Keeps (all_bytes O.contents self.new.text) (O.contents (writer_of self.new.text))
            × Keeps (all_bytes D.contents self.new.dumps.first) (D.contents (writer_of self.new.dumps.first))) }
    {
        let cuts = cuts_of(call);
        cut(&mut self.text, cuts.text);
        cut(&mut self.dumps.first, cuts.dump);
        self.open_text(call)?;
        self.write_all()
    }

    // Writes what is gathered. A write that fails is none that is told.
    fn write_gathered(&mut self)
        ensures text { Keeps (all_bytes O.contents self.old.text) (all_bytes O.contents self.new.text) }
        ensures dump { Keeps (all_bytes D.contents self.old.dumps.first) (all_bytes D.contents self.new.dumps.first) }
    {
        let _ = self.write_all();
    }

    /// Writes what a call with this fault has gathered, where a run lacked memory: no write has failed then.
    pub(crate) fn write_left(&mut self, fault: &CertifiedFault)
        ensures text { Keeps (all_bytes O.contents self.old.text) (all_bytes O.contents self.new.text) }
        ensures dump { Keeps (all_bytes D.contents self.old.dumps.first) (all_bytes D.contents self.new.dumps.first) }
        ensures refused { is_before_run fault.now ≡ true → self.new ≡ self.old }
    {
        match fault {
            CertifiedFault::Simulation(SimFault::Run(RunFault::Memory)) => self.write_gathered(),
            _ => (),
        }
    }

    /// Whose write failed, if one did.
    pub(crate) fn failed(&self) -> Place {
        if self.dumps.first.failures() > 0 {
            return Place::First;
        }
        if self.dumps.other.failures() > 0 {
            return Place::Other;
        }
        Place::Text
    }

    /// The writers. What is gathered is lost.
    pub(crate) fn into_inner(self) -> (O, Dumps<D>)
        ensures text { result.0 ≡ writer_of self.text }
        ensures file { result.1.first ≡ writer_of self.dumps.first }
        ensures lost { (lost : List ℕ) × Keeps (all_bytes O.contents self.text) (append_known (O.contents result.0) lost) }
        ensures cut { (lost : List ℕ) × Keeps (all_bytes D.contents self.dumps.first) (append_known (D.contents result.1.first) lost) }
    {
        let Buffers { text, dumps } = self;
        let Dumps { first, other } = dumps;
        let dumps = Dumps {
            first: first.into_inner(),
            other: other.into_inner(),
        };
        (text.into_inner(), dumps)
    }
}

/// The names of the files of the two dumps that a call writes, and nothing where it writes none.
pub(crate) fn dump_names<'a>(outputs: &Outputs<'a>) -> (&'a str, &'a str) {
    match (outputs.dump, outputs.pair) {
        (Some(name), _) => (name, ""),
        (None, Some(pair)) => pair,
        (None, None) => ("", ""),
    }
}

// Writes the name of a file, without bytes that a terminal might obey.
fn write_name<E: Write>(err: &mut E, name: &[u8]) {
    for byte in name {
        let byte = *byte;
        let shown = if byte < 32 || byte == 127 { b'?' } else { byte };
        let _ = err.write_all(&[shown]);
    }
}

// Tells of the file of a name.
fn tell_file<E: Write>(err: &mut E, name: &[u8], what: &str) -> u8
    ensures { result ≡ 3 }
{
    let _ = err.write_all(b"vsim: ");
    write_name(err, name);
    let _ = writeln!(err, ": {what}");
    FAILED
}

/// Tells that a write failed.
pub(crate) fn tell_write<E: Write>(call: &Call, place: Place, err: &mut E) -> u8
    ensures { result ≡ 3 }
{
    let (first, other) = dump_names(&call.outputs);
    match place {
        Place::First => tell_file(err, first.as_bytes(), "write"),
        Place::Other => tell_file(err, other.as_bytes(), "write"),
        Place::Text => match call.outputs.text {
            Some(name) => tell_file(err, name.as_bytes(), "write"),
            None => tell(err, b"write", FAILED),
        },
    }
}

/// Tells why no input was read.
pub(crate) fn tell_input<E: Write>(call: &Call, fault: InputFault, err: &mut E) -> u8
    ensures { result ≡ 3 }
{
    match (fault, call.certificate) {
        (InputFault::Memory, _) => tell(err, b"memory", FAILED),
        (InputFault::File(name), _) => tell_file(err, &name, "read"),
        (InputFault::Certificate, Some(name)) => tell_file(err, name.as_bytes(), "read"),
        _ => tell(err, b"read", FAILED),
    }
}
