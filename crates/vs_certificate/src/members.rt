//! What a certificate holds.

ghost use Rattle.std.specs.Prelude.{◌≡◌, ◌↔◌, IsTrue};
ghost use Rattle.vs_certificate.specs.JsonValue.{grain_word, kind_word, start_word, mode_word, version_number};
ghost use Rattle.vs_certificate.specs.declared.members.Rules.TheVariants.{Wide};
ghost use Rattle.vs_certificate.specs.Versions as Versions;

/// A claim about a design, by which a checker can tell that no choice of the simulator matters.
pub struct Certificate {
    /// Of which version it is.
    pub version: Version,
    /// How finely processes may be interleaved.
    pub grain: ClaimedGrain,
    /// What residues are counted by, in ticks: 1 to 2^32.
    pub modulus: u64,
    /// The signals of the edge terms. At most 65,536.
    pub edges: Vec<EdgeSignal>,
    /// The names of the assigns and of the combinational processes, in an order in which they settle. At most 65,536.
    pub order: Vec<String>,
    /// At most 65,536.
    pub processes: Vec<ProcessEntry>,
    /// At most 65,536.
    pub signals: Vec<SignalEntry>,
}

impl Drop for Certificate {
    fn drop(self) {
        let Self {
            version: _,
            grain: _,
            modulus: _,
            edges: _,
            order: _,
            processes: _,
            signals: _,
        } = self;
    }
}

/// The version of a certificate, with what that version alone says.
#[derive(Clone, Copy, PartialEq, Eq)]
pub enum Version {
    /// Version 1.
    One,
    /// Version 2.
    Two {
        /// Whether the lines of `$display` are no choice of the simulator either.
        displays: bool,
    },
    /// Version 3.
    Three {
        /// Whether the lines of `$display` are no choice of the simulator either.
        displays: bool,
    },
}

/// Which versions of certificates are read.
#[derive(Clone, Copy)]
pub enum Rules {
    /// Versions 1 and 2.
    Narrow,
    /// Version 3 too.
    Wide,
}

impl Rules {
    /// Whether version 3 is read too.
    pub fn is_wide(self) -> bool
        ensures { IsTrue result ↔ self ≡ Wide }
    {
        matches!(self, Rules::Wide)
    }
}

/// How finely processes may be interleaved.
#[derive(Clone, Copy, PartialEq, Eq)]
pub enum ClaimedGrain {
    /// A combinational block runs whole; all else step by step.
    Block,
    /// Every process may be suspended between any two steps.
    Statement,
}

/// A signal of an edge term, and the variable that it copies.
pub struct EdgeSignal {
    /// The variable's name. It is the signal itself, or what the signal copies by way of assigns.
    pub root: String,
    /// The signal's name.
    pub signal: String,
}

impl Drop for EdgeSignal {
    fn drop(self) {
        let Self { root: _, signal: _ } = self;
    }
}

/// A process of the design.
pub struct ProcessEntry {
    /// What runs it.
    pub kind: ClaimedKind,
    /// The process's name.
    pub name: String,
}

impl Drop for ProcessEntry {
    fn drop(self) {
        let Self { kind: _, name: _ } = self;
    }
}

/// What runs a process, and what is claimed of it.
pub enum ClaimedKind {
    /// A combinational block, and how its first outputs are explained.
    Combinational(Start),
    /// A process that waits for edges alone.
    Edge,
    /// A process that waits for times alone. For each of its delay controls in the order of the text, the residues by
    /// the modulus of the times above 0 at which that delay can end: rising, at most 64, in version 3 at most 4,096. At
    /// most 65,536 controls.
    Delay(Vec<Vec<u64>>),
    /// A process that waits for times and for edges, with such lists too. In version 3 alone.
    Mixed(Vec<Vec<u64>>),
}

impl Drop for ClaimedKind {
    fn drop(self) {
        match self {
            Self::Combinational(_) | Self::Edge | Self::Delay(_) | Self::Mixed(_) => {}
        }
    }
}

/// Why a combinational block that never ran has the outputs that a run would give it.
#[derive(Clone, Copy, PartialEq, Eq)]
pub enum Start {
    /// A run on the initial state gives its initial outputs.
    Cold,
    /// It waits for sources alone, so it runs as soon as there is anything to see.
    Sources,
    /// A signal that it waits for is sure to change in the first slot. In versions 2 and 3 alone.
    Starter,
}

/// A signal of the design, and the processes that write it.
pub struct SignalEntry {
    /// How the signal is written.
    pub mode: SignalMode,
    /// The signal's name.
    pub name: String,
    /// The name of the process that writes it before its writer does; empty where there is none.
    pub second: String,
    /// The name of the process that writes it; empty where there is none.
    pub writer: String,
}

impl Drop for SignalEntry {
    fn drop(self) {
        let Self {
            mode: _,
            name: _,
            second: _,
            writer: _,
        } = self;
    }
}

/// How a signal is written.
#[derive(Clone, Copy, PartialEq, Eq)]
pub enum SignalMode {
    /// It is a net.
    Net,
    /// No process writes it.
    Unwritten,
    /// A combinational block writes it.
    Combinational,
    /// By `<=` alone.
    Nonblocking,
    /// By `=` alone, in a process that waits for times, or in versions 2 and 3 for edges.
    Blocking,
    /// No other process reads it.
    Private,
    /// By `=` and by `<=`. In version 3 alone.
    Both,
}

impl Version {
    /// Its number: 1, 2 or 3.
    pub fn number(self) -> u64
        ensures { result ≡ version_number self }
    {
        match self {
            Version::One => 1,
            Version::Two { .. } => 2,
            Version::Three { .. } => 3,
        }
    }

    /// Whether it has what is claimed of a process of this kind: version 1 has no start `starter`, and `mixed` is a kind
    /// of version 3 alone.
    pub(crate) fn has_kind(self, kind: &ClaimedKind) -> bool
        ensures { result ≡ Versions.has_kind self kind.now }
    {
        match self {
            Version::One => !matches!(
                kind,
                ClaimedKind::Combinational(Start::Starter) | ClaimedKind::Mixed(_)
            ),
            Version::Two { .. } => !matches!(kind, ClaimedKind::Mixed(_)),
            Version::Three { .. } => true,
        }
    }

    /// Whether it has what is claimed of a signal of this mode: `both` is a mode of version 3 alone.
    pub(crate) fn has_mode(self, mode: SignalMode) -> bool
        ensures { result ≡ Versions.has_mode self mode }
    {
        match self {
            Version::One | Version::Two { .. } => !matches!(mode, SignalMode::Both),
            Version::Three { .. } => true,
        }
    }

    /// Whether `from_json` reads it.
    pub(crate) fn is_narrow(self) -> bool
        ensures { result ≡ Versions.is_narrow self }
    {
        match self {
            Version::One | Version::Two { .. } => true,
            Version::Three { .. } => false,
        }
    }

    /// How many residues a list of it may have.
    pub(crate) fn most_residues(self) -> usize
        ensures { result ≡ Versions.most_residues self }
    {
        match self {
            Version::One | Version::Two { .. } => 64,
            Version::Three { .. } => 4_096,
        }
    }
}

impl ClaimedGrain {
    pub(crate) fn word(self) -> &'static str
        ensures { result.now ≡ grain_word self }
    {
        match self {
            ClaimedGrain::Block => "block",
            ClaimedGrain::Statement => "statement",
        }
    }
}

impl ClaimedKind {
    pub(crate) fn word(&self) -> &'static str
        ensures { result.now ≡ kind_word self.now }
    {
        match self {
            ClaimedKind::Combinational(_) => "comb",
            ClaimedKind::Edge => "edge",
            ClaimedKind::Delay(_) => "delay",
            ClaimedKind::Mixed(_) => "mixed",
        }
    }
}

impl Start {
    pub(crate) fn word(self) -> &'static str
        ensures { result.now ≡ start_word self }
    {
        match self {
            Start::Cold => "cold",
            Start::Sources => "sources",
            Start::Starter => "starter",
        }
    }
}

impl SignalMode {
    pub(crate) fn word(self) -> &'static str
        ensures { result.now ≡ mode_word self }
    {
        match self {
            SignalMode::Net => "net",
            SignalMode::Unwritten => "unwritten",
            SignalMode::Combinational => "comb",
            SignalMode::Nonblocking => "nonblocking",
            SignalMode::Blocking => "blocking",
            SignalMode::Private => "private",
            SignalMode::Both => "both",
        }
    }
}
