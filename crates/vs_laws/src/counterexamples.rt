//! Designs in which two orders of steps differ, each with the certificate that the rules of version 3 would take if one of their clauses were left
//! out. In all of them t#p0 sets `a`, t#p1 sets `c` at 1, t#p2 writes `b`, and n is `~a`; in the first six `a` is 1 from 1 on and 0 from 2 on, in the
//! others 1 from 0 on.
ghost use Rattle.vs_laws.specs.Counterexamples.{
  ADelayAfterAnEdgeBreaksTheRules,
  AFirstEdgeBreaksTheRules,
  AFirstInverseEdgeBreaksTheRules,
  AFirstReadBreaksTheRules,
  ALateReadOfAnEdgeBreaksTheRules,
  AnArrivalBreaksTheRules,
  AnInverseEdgeBreaksTheRules,
  TwoEdgesAtOnceBreakTheRules,
  TwoSignalsOfARootBreakTheRules,
};

/// `#1 @(posedge a) b = 1;`: where t#p2 comes to its control only behind the edge, it waits for ever. K7 asks that a delay from which a process comes
/// to an event control ends at no residue at which that can end.
pub fn an_arrival_breaks_the_rules()
    ensures { AnArrivalBreaksTheRules }
{}

/// `@(posedge c) @(posedge a) #1 b = 1;`: where `a` rises first, t#p2 waits for ever. K7 asks that edges of two roots for which one process waits
/// never come at one residue; so it does where the process waits for times too.
pub fn two_edges_at_once_break_the_rules()
    ensures { TwoEdgesAtOnceBreakTheRules }
{}

/// `@(posedge c) @(negedge n) #1 b = 1;`: n falls where `a` rises, so it is as with `posedge a`. The opposite edge of its root is that of a term
/// of an inverse copy.
pub fn an_inverse_edge_breaks_the_rules()
    ensures { AnInverseEdgeBreaksTheRules }
{}

/// `@(posedge a) @(negedge n) #1 b = 1;`: where n falls before t#p2 has run on, it waits for ever. K7 asks that the terms of a process that have one
/// root name one signal.
pub fn two_signals_of_a_root_break_the_rules()
    ensures { TwoSignalsOfARootBreakTheRules }
{}

/// `@(posedge a) #1 b = a;`: it reads `a` where that falls, before or behind it. The list of the delay is empty, as if it never ended; K8 asks that
/// the list has the residue at which it ends behind the edge.
pub fn a_delay_after_an_edge_breaks_the_rules()
    ensures { ADelayAfterAnEdgeBreaksTheRules }
{}

/// The same, with the list that it has to have. K9 lets a mixed process read its own edge signal only where no delay before the read ends while
/// that is written.
pub fn a_late_read_of_an_edge_breaks_the_rules()
    ensures { ALateReadOfAnEdgeBreaksTheRules }
{}

/// `initial a = 1; initial @(posedge a) b = 1;`: where `a` is set first, t#p2 waits for ever. K10 asks that the first value of a root fires no term
/// of an event control at which a process can stand in the first slot.
pub fn a_first_edge_breaks_the_rules()
    ensures { AFirstEdgeBreaksTheRules }
{}

/// `initial a = 1; initial @(negedge n) b = 1;`: the same, since n falls where `a` rises.
pub fn a_first_inverse_edge_breaks_the_rules()
    ensures { AFirstInverseEdgeBreaksTheRules }
{}

/// `initial a = 1; initial b = a;`: which one is first tells. K10 asks that what a process reads in the first slot no other one writes by `=` there.
pub fn a_first_read_breaks_the_rules()
    ensures { AFirstReadBreaksTheRules }
{}
