//! The points that use each signal, and the places past a control.
ghost use Rattle.std.specs.Prelude.{ℕ, ◌≡◌, ◌<◌, ◌↔◌, Some, length, slice_get, IfOk, IsTrue};
ghost use Rattle.vs_maps.specs.Texts.{AllNow, AllLater, AllReads, marks_of, texts_of};
ghost use Rattle.vs_maps.specs.Reaches.{Chart, places};
ghost use Rattle.vs_maps.specs.Walks.{AreMarked, InLate};

use crate::Tables;
use crate::sites::{SiteRule, Sites, Use, all_keep, late_marks};
use std::alloc::{AllocError, Global};
use std::marker::Model;
use vs_design::Design;

/// The uses of the signals of a design, with the tables of its processes. A contract sees the design and the maps.
#[derive(Drop)]
pub struct Uses<'a> {
    sites: Sites<'a>,
    late: Vec<Vec<bool>>,
}

impl<'a> Model for Uses<'a> {
    ghost use Rattle.std.specs.Coded.{codes};
    ghost use Rattle.vs_design.specs.contracts.expression.Typed as expression;
    ghost use Rattle.vs_design.specs.contracts.statement.Statement as statement;
    ghost use Rattle.std.specs.Prelude.{length};
    ghost use Rattle.vs_maps.specs.Texts.{Texts, AreLate};

    ghost Value = { Texts };

    ghost coded = { Prim.hlevel (codes, statement.the_row.coded, expression.the_row.coded) };

    ghost view = { λ u. u.sites };

    ghost invariant = { λ u. AreLate u.sites.charts u.late.items (length u.sites.charts) };
}

// The marks of a number.
fn marks_of(table: &[Vec<bool>], i: usize) -> &[bool]
    ensures { result.now ≡ marks_of table.now i }
{
    if i >= table.len() {
        return &[];
    }
    &table[i]
}

impl<'a> Uses<'a> {
    /// The uses of the signals of a design, with the tables of its processes in their order. It takes as long as its texts are.
    pub fn new(
        alloc: Global,
        design: &'a Design,
        tables: &'a [Tables<'a>],
    ) -> Result<Uses<'a>, AllocError>
        ensures { IfOk result (λ u. u ≡ texts_of design.entry.now tables.entry.now) }
    {
        let late = late_marks(alloc, &*tables)?;
        let sites = Sites::new(alloc, design, tables)?;
        Ok(Uses { sites, late })
    }

    /// The sites of the design.
    pub fn sites(&self) -> &Sites<'a>
        ensures { result.now ≡ self.now }
    {
        &self.sites
    }

    /// The places of a process's map to which a path leads once a control has been passed: a mark for each.
    pub fn late(&self, i: usize) -> &[bool]
        ensures { (t : Chart) → slice_get self.now.charts i ≡ Some t → AreMarked (InLate t) (places t) result.now }
    {
        marks_of(&self.late, i)
    }

    /// Whether all points of the maps with a write of a signal by `=` keep a rule.
    pub fn all_now<R: SiteRule>(&self, v: usize, rule: &R) -> bool
        requires { v < length self.now.design.signals }
        ensures { IsTrue result ↔ AllNow self.now v (R.keeps rule.now) }
    {
        all_keep(self.sites.of_signal(v), Use::Now, rule)
    }

    /// Whether all points of the maps with a write of the signal by `<=` keep a rule.
    pub fn all_later<R: SiteRule>(&self, v: usize, rule: &R) -> bool
        requires { v < length self.now.design.signals }
        ensures { IsTrue result ↔ AllLater self.now v (R.keeps rule.now) }
    {
        all_keep(self.sites.of_signal(v), Use::Later, rule)
    }

    /// Whether all with a write of it, of either sort, do.
    pub fn all_writes<R: SiteRule>(&self, v: usize, rule: &R) -> bool
        requires { v < length self.now.design.signals }
        ensures { IsTrue result ↔ (AllNow self.now v (R.keeps rule.now) × AllLater self.now v (R.keeps rule.now)) }
    {
        if !self.all_now(v, rule) {
            return false;
        }
        self.all_later(v, rule)
    }

    /// Whether all that read it do.
    pub fn all_reads<R: SiteRule>(&self, v: usize, rule: &R) -> bool
        requires { v < length self.now.design.signals }
        ensures { IsTrue result ↔ AllReads self.now v (R.keeps rule.now) }
    {
        all_keep(self.sites.of_signal(v), Use::Reads, rule)
    }
}
