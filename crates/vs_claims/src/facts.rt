//! What a certificate claims of a design, by the numbers of its signals and processes.
ghost use Rattle.std.specs.Prelude.{ℕ, ◌≡◌, ◌↔◌, ◌⊎◌, ◌==◌, true, Some, IfOk, OnOk, IsTrue, not, is_some, length, option_map, slice_get};
ghost use Rattle.std.specs.List.{Contains};
ghost use Rattle.vs_design.specs.WellFormed.{WellFormed};
ghost use Rattle.vs_claims.specs.vs_rules.specs.Certificates.{claims_of, mode_from, grain_from};
ghost use Rattle.vs_claims.specs.vs_rules.specs.Claims.{claim_of, mode_in, writer_in, second_in, kind_of, assign_name, process_name};
ghost use Rattle.vs_claims.specs.vs_rules.specs.Claims.{place_of, times_in, signal_names, process_names, edge_names};
ghost use Rattle.vs_claims.specs.vs_rules.specs.Claims.{IsSignalNamed, IsProcessNamed, IsAssignNamed, IsWriter, IsSecond, IsBlock, IsEdge, IsDelay, IsMixed, WaitsForEdges, IsSequential, IsRootOf, IsRoot, is_wide};
ghost use Rattle.vs_claims.specs.vs_rules.specs.Limits.{IsWideCertificate};
ghost use Rattle.vs_claims.specs.Facts.{AreCharts, AreListsOf, IsRootAt, NamesEntry, NamesRoot, case_of, seen, kind_seen};
ghost use Rattle.vs_claims.specs.facts_passes.Kept.{entry_seen};
ghost use Rattle.vs_maps.specs.Reaches.{Chart, InSlot0};
ghost use Rattle.vs_maps.specs.Texts.{texts_of};

use crate::names::Names;
use crate::places::{number_at, place_at};
use crate::words::{displays, grain, is_block, is_delay, is_edge, is_mixed, lists_in};
use std::alloc::{AllocError, Global};
use std::marker::Model;
use vs_certificate::{Certificate, ClaimedKind, SignalEntry, SignalMode};
use vs_design::Design;
use vs_maps::{Sites, Tables, Uses};
use vs_process::Grain;

// Whether a place of a text is done in the first slot, by wide rules past a turn that is sure by it alone.
fn is_early(tables: &Tables, wide: bool, p: usize) -> bool
    ensures { IsTrue result ↔ InSlot0 wide tables.entry.now p }
{
    tables.leads_in();
    if p < tables.places() {
        tables.is_slot0(wide, p)
    } else {
        false
    }
}

/// A design, its certificate, and the tables of its processes. A contract sees the design, what the certificate claims of it, and the maps of
/// the texts of the processes.
#[derive(Drop)]
pub struct Facts<'a> {
    design: &'a Design,
    certificate: &'a Certificate,
    tables: &'a [Tables<'a>],
    uses: Uses<'a>,
    pub(crate) names: Names<'a>,
}

impl<'a> Model for Facts<'a> {
    ghost use Rattle.std.specs.Coded.{codes};
    ghost use Rattle.vs_design.specs.contracts.expression.Typed as expression;
    ghost use Rattle.vs_design.specs.contracts.statement.Statement as statement;
    ghost use Rattle.vs_claims.specs.Facts.{Case, case_of};
    ghost use Rattle.vs_claims.specs.facts_passes.Kept.{AreFacts};

    ghost Value = { Case };

    ghost coded = { Prim.hlevel (codes, statement.the_row.coded, expression.the_row.coded) };

    ghost view = { λ f. case_of f.design.now f.certificate.now f.tables.now };

    ghost invariant = { λ f. AreFacts f.design.now f.certificate.now f.tables.now f.uses f.names };
}

impl<'a> Facts<'a> {
    /// The facts of a design and its certificate, with the tables of the design's processes in their order.
    pub fn new(
        alloc: Global,
        design: &'a Design,
        certificate: &'a Certificate,
        tables: &'a [Tables<'a>],
    ) -> Result<Facts<'a>, AllocError>
        requires maps { AreCharts design.now tables.now }
        requires certificate { IsWideCertificate (claims_of certificate.now) }
        ensures { IfOk result (λ f. f ≡ case_of design.entry.now certificate.entry.now tables.entry.now) }
    {
        design.is_well_formed();
        let names = Names::of(alloc, design, certificate)?;
        let uses = Uses::new(alloc, design, tables)?;
        Ok(Facts {
            design,
            certificate,
            tables,
            uses,
            names,
        })
    }

    /// The design.
    pub fn design(&self) -> &'a Design
        ensures { result.now ≡ self.now.design }
    {
        self.design
    }

    /// The design is well formed: there is nothing to do.
    pub fn is_well_formed(&self)
        ensures { WellFormed self.now.design }
    {
        let _ = &self.names;
    }

    /// The certificate keeps its limits: there is nothing to do.
    pub fn is_certificate(&self)
        ensures { IsWideCertificate self.now.claims }
    {
        let _ = &self.names;
    }

    /// The maps are those of the texts of the processes: there is nothing to do.
    pub fn maps(&self)
        ensures { AreCharts self.now.design self.now.charts }
    {
        let _ = &self.names;
    }

    /// The tables of a process.
    pub fn tables(&self, i: usize) -> Option<&'a Tables<'a>>
        ensures { seen result ≡ slice_get self.now.charts i }
    {
        let tables = self.tables;
        if i >= tables.len() {
            return None;
        }
        Some(&tables[i])
    }

    /// Whether a place of a process is done in the first slot, by wide rules past a turn that is sure by it alone.
    pub fn is_slot0(&self, wide: bool, i: usize, place: usize) -> bool
        ensures { IsTrue result ↔ ((t : Chart) × (slice_get self.now.charts i ≡ Some t) × InSlot0 wide t place) }
    {
        match self.tables(i) {
            None => false,
            Some(tables) => is_early(tables, wide, place),
        }
    }

    /// The uses of the signals of the design.
    pub fn uses(&self) -> &Uses<'a>
        ensures { result.now ≡ texts_of self.now.design self.now.charts }
    {
        &self.uses
    }

    /// The sites of the design.
    pub fn sites(&self) -> &Sites<'a>
        ensures { result.now ≡ texts_of self.now.design self.now.charts }
    {
        self.uses.sites()
    }

    /// The number of the signal of this name, where there is one.
    pub fn signal_named(&self, name: &[u8]) -> Option<usize>
        ensures { (v : ℕ) → (IsSignalNamed self.now.design v name.now ↔ result ≡ Some v) }
    {
        self.names.design.signals.find(name)
    }

    /// The number of the process of this name, where there is one.
    pub fn process_named(&self, name: &[u8]) -> Option<usize>
        ensures { (i : ℕ) → (IsProcessNamed self.now.design i name.now ↔ result ≡ Some i) }
    {
        self.names.design.processes.find(name)
    }

    /// The number of the continuous assignment of this name, where there is one.
    pub fn assign_named(&self, name: &[u8]) -> Option<usize>
        ensures { (j : ℕ) → (IsAssignNamed self.now.design j name.now ↔ result ≡ Some j) }
    {
        self.names.design.assigns.find(name)
    }

    // The entry of a signal: of several, the first.
    fn entry(&self, v: usize) -> Option<&'a SignalEntry>
        ensures { entry_seen result ≡ claim_of self.now.design self.now.claims v }
    {
        let certificate = self.certificate;
        match place_at(&self.names.places.signals, v) {
            None => None,
            Some(i) => Some(&certificate.signals[i]),
        }
    }

    /// The mode that is claimed of a signal.
    pub fn mode(&self, v: usize) -> Option<SignalMode>
        ensures { option_map mode_from result ≡ mode_in (claim_of self.now.design self.now.claims v) }
    {
        match self.entry(v) {
            None => None,
            Some(e) => Some(e.mode),
        }
    }

    // The processes that the entry of a signal names: its writer, and its second.
    fn writers(&self, v: usize) -> (Option<usize>, Option<usize>)
        ensures writer { (i : ℕ) → (IsWriter self.now.design self.now.claims v i ↔ result.0 ≡ Some i) }
        ensures second { (i : ℕ) → (IsSecond self.now.design self.now.claims v i ↔ result.1 ≡ Some i) }
    {
        match place_at(&self.names.places.signals, v) {
            None => (None, None),
            Some(k) => self.names.places.writers[k],
        }
    }

    /// The process that is claimed to be a signal's writer.
    pub fn writer(&self, v: usize) -> Option<usize>
        ensures { (i : ℕ) → (IsWriter self.now.design self.now.claims v i ↔ result ≡ Some i) }
    {
        self.writers(v).0
    }

    /// The process that is claimed to write a signal at the start alone.
    pub fn second(&self, v: usize) -> Option<usize>
        ensures { (i : ℕ) → (IsSecond self.now.design self.now.claims v i ↔ result ≡ Some i) }
    {
        self.writers(v).1
    }

    /// Whether the entry of a signal names a writer, be it a process or not.
    pub fn names_writer(&self, v: usize) -> bool
        ensures { result ≡ is_some (writer_in (claim_of self.now.design self.now.claims v)) }
    {
        match self.entry(v) {
            None => false,
            Some(e) => !e.writer.is_empty(),
        }
    }

    /// Whether the entry of a signal names a second, be it a process or not.
    pub fn names_second(&self, v: usize) -> bool
        ensures { result ≡ is_some (second_in (claim_of self.now.design self.now.claims v)) }
    {
        match self.entry(v) {
            None => false,
            Some(e) => !e.second.is_empty(),
        }
    }

    /// The kind that is claimed of a process: of several entries, that of the first.
    pub fn kind(&self, i: usize) -> Option<&'a ClaimedKind>
        ensures { kind_seen result ≡ kind_of self.now.design self.now.claims i }
    {
        let certificate = self.certificate;
        match place_at(&self.names.places.processes, i) {
            None => None,
            Some(k) => Some(&certificate.processes[k].kind),
        }
    }

    /// Whether a process is claimed to be a combinational block.
    pub fn is_block(&self, i: usize) -> bool
        ensures { IsTrue result ↔ IsBlock self.now.design self.now.claims i }
    {
        is_block(self.kind(i))
    }

    /// Whether a process is claimed to wait for edges alone.
    pub fn is_edge(&self, i: usize) -> bool
        ensures { IsTrue result ↔ IsEdge self.now.design self.now.claims i }
    {
        is_edge(self.kind(i))
    }

    /// Whether a process is claimed to wait for times alone.
    pub fn is_delay(&self, i: usize) -> bool
        ensures { IsTrue result ↔ IsDelay self.now.design self.now.claims i }
    {
        is_delay(self.kind(i))
    }

    /// Whether a process is claimed to wait for times and for edges.
    pub fn is_mixed(&self, i: usize) -> bool
        ensures { IsTrue result ↔ IsMixed self.now.design self.now.claims i }
    {
        is_mixed(self.kind(i))
    }

    /// Whether a process is claimed to wait for edges, be it for times too.
    pub fn waits_for_edges(&self, i: usize) -> bool
        ensures { IsTrue result ↔ WaitsForEdges self.now.design self.now.claims i }
    {
        if self.is_edge(i) {
            return true;
        }
        self.is_mixed(i)
    }

    /// Whether a process is claimed to wait for edges, for times, or for both.
    pub fn is_sequential(&self, i: usize) -> bool
        ensures { IsTrue result ↔ IsSequential self.now.design self.now.claims i }
    {
        if self.is_delay(i) {
            return true;
        }
        self.waits_for_edges(i)
    }

    /// The lists of residues of a process that waits for times, be it for edges too.
    pub fn lists(&self, i: usize) -> Option<&'a [Vec<u64>]>
        ensures { AreListsOf self.now.design self.now.claims i result }
    {
        lists_in(self.kind(i))
    }

    /// How many entries of edge terms the certificate has.
    pub fn edges(&self) -> usize
        ensures { result ≡ length self.now.claims.edges }
    {
        self.certificate.edges.len()
    }

    /// The root and the signal of an entry, by their numbers, where both are signals of the design.
    pub fn edge(&self, place: usize) -> Option<(usize, usize)>
        ensures { (root v : ℕ) → (IsRootAt self.now.design self.now.claims.edges place root v ↔ result ≡ Some (root, v)) }
    {
        self.names.edge_places.ends.both(place)
    }

    /// The places of the entries with a root, where their own signals are signals of the design.
    pub fn entries_with_root(&self, root: usize) -> &[usize]
        ensures { (place : ℕ) → (Contains result.now place ↔ NamesRoot self.now.design self.now.claims.edges place root) }
    {
        self.names.edge_places.by_root.row(root)
    }

    /// The places of the entries of a signal.
    pub fn entries_of(&self, v: usize) -> &[usize]
        ensures { (place : ℕ) → (Contains result.now place ↔ NamesEntry self.now.design self.now.claims.edges place v) }
    {
        self.names.edge_places.by_signal.row(v)
    }

    // Puts the root of an entry, where the entry is of this signal.
    fn put_root(&self, place: usize, v: usize, out: &mut Vec<usize>) -> Result<(), AllocError>
        ensures { OnOk result ((r : ℕ) → (Contains out.new.items r ↔
            (Contains out.old.items r ⊎ IsRootAt self.now.design self.now.claims.edges place r v))) }
    {
        if let Some((root, of)) = self.edge(place) {
            if of == v {
                out.push(root)?;
            }
        }
        Ok(())
    }

    /// The variables that a signal is claimed to copy.
    pub fn roots(&self, alloc: Global, v: usize) -> Result<Vec<usize>, AllocError>
        ensures { IfOk result (λ roots. (r : ℕ) → (Contains roots.items r ↔ IsRootOf self.now.design self.now.claims r v)) }
    {
        let mut roots = Vec::new(alloc);
        for place in self.entries_of(v) {
            self.put_root(*place, v, &mut roots)?;
        }
        Ok(roots)
    }

    /// Whether a signal is the root of an entry.
    pub fn is_root(&self, v: usize) -> bool
        ensures { IsTrue result ↔ IsRoot self.now.design self.now.claims v }
    {
        !self.entries_with_root(v).is_empty()
    }

    /// The place of a continuous assignment in the order.
    pub fn assign_place(&self, j: usize) -> Option<usize>
        ensures { result ≡ option_map (λ n. place_of n self.now.claims.order) (assign_name (slice_get self.now.design.assigns j)) }
    {
        number_at(&self.names.places.assigns, j)
    }

    /// The place of a process in the order.
    pub fn process_place(&self, i: usize) -> Option<usize>
        ensures { result ≡ option_map (λ n. place_of n self.now.claims.order) (process_name (slice_get self.now.design.processes i)) }
    {
        number_at(&self.names.places.blocks, i)
    }

    /// How often a name stands among the entries of signals.
    pub fn times_as_signal(&self, name: &[u8]) -> usize
        ensures { result ≡ times_in name.now (signal_names self.now.claims) }
    {
        self.names.claims.signals.times(name)
    }

    /// How often a name stands in the order.
    pub fn times_in_order(&self, name: &[u8]) -> usize
        ensures { result ≡ times_in name.now self.now.claims.order }
    {
        self.names.claims.order.times(name)
    }

    /// How often a name stands among the entries of processes.
    pub fn times_as_process(&self, name: &[u8]) -> usize
        ensures { result ≡ times_in name.now (process_names self.now.claims) }
    {
        self.names.claims.processes.times(name)
    }

    /// Whether an entry of an edge term has a name, as its root or as its signal.
    pub fn is_in_edges(&self, name: &[u8]) -> bool
        ensures { result ≡ not (times_in name.now (edge_names self.now.claims) == 0) }
    {
        if self.names.edges.roots.times(name) > 0 {
            return true;
        }
        self.names.edges.signals.times(name) > 0
    }

    /// The certificate.
    pub fn certificate(&self) -> &'a Certificate
        ensures { claims_of result.now ≡ self.now.claims }
    {
        self.certificate
    }

    /// Whether arguments of `$display` count.
    pub fn displays(&self) -> bool
        ensures { result ≡ self.now.claims.displays }
    {
        displays(self.certificate.version)
    }

    /// Its version.
    pub fn version(&self) -> u64
        ensures { result ≡ self.now.claims.version }
    {
        self.certificate.version.number()
    }

    /// Whether it is of version 3.
    pub fn is_wide(&self) -> bool
        ensures { result ≡ is_wide self.now.claims }
    {
        self.version() == 3
    }

    /// What residues are counted by, in ticks.
    pub fn modulus(&self) -> u64
        ensures { result ≡ self.now.claims.modulus }
    {
        self.certificate.modulus
    }

    /// How finely processes may be interleaved.
    pub fn grain(&self) -> Grain
        ensures { result ≡ self.now.claims.grain }
    {
        grain(self.certificate.grain)
    }
}
