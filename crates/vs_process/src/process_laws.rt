//! Laws of executions.
ghost use Rattle.vs_process.specs.Blocks.{BlocksExclude, InsideFollows, InsideGoesOn, NoneInsideFirst};
ghost use Rattle.vs_process.specs.Examples.{BlocksAreRecognized};
ghost use Rattle.vs_process.specs.Idle.{IdleHaveValues};
ghost use Rattle.vs_process.specs.Laws.{StoresAreSized, TimesRise};
ghost use Rattle.vs_process.specs.Permitted.{NeverStuck, MovesArePermitted};

/// An execution is never stuck: a state that it reaches and that isn't over has a permitted step, at both grains.
pub fn never_stuck()
    ensures { NeverStuck }
{}

/// The allowed moves are the permitted steps, rule by rule (IEEE 1364-2005, clauses 11.3 and 11.4).
pub fn moves_are_permitted()
    ensures { MovesArePermitted }
{}

/// In every state that an execution of a well formed design reaches, at both grains, each continuous assignment has to be evaluated,
/// or has a value that waits to be written, or another evaluation would change nothing (IEEE 1364-2005, clause 6.1.2).
pub fn idle_assigns_have_values()
    ensures { IdleHaveValues }
{}

/// The slots of an execution's trace end at rising times.
pub fn times_rise()
    ensures { TimesRise }
{}

/// In each state that moves lead to, and at the end of each slot, every word of every signal has the signal's size (IEEE 1364-2005, clauses 4.3.1 and 4.9).
pub fn stores_are_sized()
    ensures { StoresAreSized }
{}

/// At grain block at most one combinational block has taken a step since its control, and a move is free where none has, or where it is a step of
/// that one.
pub fn blocks_exclude()
    ensures { BlocksExclude }
{}

/// Behind a move that is allowed at grain block, the one block that has taken a step since its control is that of the move's step, or there is none.
pub fn inside_follows()
    ensures { InsideFollows }
{}

/// Where an execution begins, no combinational block has taken a step since its control.
pub fn none_inside_first()
    ensures { NoneInsideFirst }
{}

/// A combinational block that has taken a step since its control can take the next one.
pub fn inside_goes_on()
    ensures { InsideGoesOn }
{}

/// The process of `always @* begin t = a & b; y = t | c; end` is a combinational block. None of `reg clk = 0; reg a = 0, b = 1;
/// always #5 clk = ~clk; always @(posedge clk) a <= b; always @(posedge clk) b <= a;` is: an edge, a delay and an `initial` make none.
pub fn blocks_are_recognized()
    ensures { BlocksAreRecognized }
{}
