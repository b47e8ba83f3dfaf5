//! What to write in place of what the language leaves out.

use crate::tables::said_in;

/// What is written in place of a word, a system name or an operator that the language leaves out.
pub(crate) fn instead_of(text: &[u8]) -> &'static str {
    if text.first() == Some(&b'$') {
        return instead_of_task(text);
    }
    let instead = instead_of_statement(text);
    if !instead.is_empty() {
        return instead;
    }
    let instead = instead_of_block(text);
    if !instead.is_empty() {
        return instead;
    }
    instead_of_net(text)
}

static STATEMENTS: [(&str, &str); 12] = [
    (
        "fork join",
        "Write one `initial` or `always` for each of its statements.",
    ),
    (
        "function endfunction task endtask automatic",
        "Write what it does where it is called, or as a module.",
    ),
    ("inout", "Make an `input` and an `output` of it."),
    (
        "defparam",
        "Override the parameter at the instance, as `m #(.W(8)) u(..);`.",
    ),
    (
        "real realtime time",
        "Use an `integer`, or a `reg` of up to 64 bits.",
    ),
    ("disable", "End the loop by its condition."),
    (
        "wait",
        "Write `@(posedge clk); while (!c) @(posedge clk);` in place of `wait (c);`, with the clock of the design.",
    ),
    (
        "force release deassign",
        "Choose the value by an `if` or by `? :`.",
    ),
    (
        "event ->",
        "Make a `reg go` of the event, which begins at 0: write `go = 1;` in place of `-> go;`, and wait by `@(posedge go)`.",
    ),
    ("**", "Write it as a product, or as a shift of 1."),
    ("macromodule", "Write `module`."),
    ("unsigned", "Leave it out: what isn't `signed` has no sign."),
];

/// The same of words and operators of items and statements.
fn instead_of_statement(text: &[u8]) -> &'static str {
    said_in(&STATEMENTS, text)
}

static BLOCKS: [(&str, &str); 3] = [
    (
        "=> *> &&& edge ifnone specify endspecify specparam showcancelled noshowcancelled pulsestyle_onevent pulsestyle_ondetect",
        "Leave the `specify` block out: its delays and timing checks aren't simulated.",
    ),
    (
        "primitive endprimitive table endtable",
        "Write it as a module with an `assign` or an `always @*`.",
    ),
    (
        "config endconfig design instance cell library liblist use include incdir",
        "Leave configurations out: an instance names its module.",
    ),
];

/// The same of what stands in blocks of other kinds than modules.
fn instead_of_block(text: &[u8]) -> &'static str {
    said_in(&BLOCKS, text)
}

static NETS: [(&str, &str); 9] = [
    (
        "and nand nor xor xnor not buf",
        "Write it as an `assign` with an operator.",
    ),
    (
        "bufif0 bufif1 notif0 notif1",
        "Write it as an `assign` with `? :`.",
    ),
    (
        "nmos pmos cmos rnmos rpmos rcmos",
        "Write it as an `assign` with `? :`; strengths aren't simulated.",
    ),
    (
        "tran tranif0 tranif1 rtran rtranif0 rtranif1",
        "Give each direction a net of its own, driven by an `assign`.",
    ),
    (
        "tri tri0 tri1 triand trior trireg wand wor uwire",
        "Write it as a `wire` with one driver.",
    ),
    ("supply0 pulldown", "Write `wire n = 0;`."),
    ("supply1 pullup", "Write `wire n = 1;`."),
    (
        "strong0 strong1 pull0 pull1 weak0 weak1 highz0 highz1 small medium large",
        "Leave strengths out: they aren't simulated.",
    ),
    ("scalared vectored", "Leave it out."),
];

/// The same of gates, switches, kinds of nets and strengths.
fn instead_of_net(text: &[u8]) -> &'static str {
    said_in(&NETS, text)
}

static TASKS: [(&str, &str); 17] = [
    (
        "$monitor",
        "Write `always @(posedge clk) $strobe(..);`, with the clock of the design.",
    ),
    (
        "$monitoron $monitoroff",
        "Let an `if` decide whether a `$strobe` prints.",
    ),
    ("$write", "Write a `$display`, which ends its line."),
    (
        "$displayb $displayo $displayh",
        "Write `$display(\"%b\", a)`, with `%b`, `%o` or `%h` for each argument.",
    ),
    (
        "$strobeb $strobeo $strobeh",
        "Write `$strobe(\"%b\", a)`, with `%b`, `%o` or `%h` for each argument.",
    ),
    ("$stop $exit", "Write `$finish`."),
    ("$error $warning $info", "Write a `$display`."),
    ("$fatal", "Write a `$display` and a `$finish`."),
    (
        "$random $urandom $urandom_range",
        "Compute the values, as by a shift register with feedback.",
    ),
    (
        "$readmemh $readmemb",
        "Fill the array by assignments in an `initial`.",
    ),
    (
        "$time $realtime $stime",
        "Write `$time`, as an argument of `$display` or `$strobe`; to compute with it, count in an `integer`.",
    ),
    (
        "$timeformat",
        "Leave it out: `%t` prints ticks, which the precision of `` `timescale`` gives.",
    ),
    ("$printtimescale", "Leave it out."),
    ("$clog2 $bits $size", "Give the number as a `localparam`."),
    (
        "$countones $onehot $onehot0",
        "Add the bits, as `a[0] + a[1]`.",
    ),
    ("$isunknown", "Write `^a === 1'bx`."),
    (
        "$test$plusargs $value$plusargs",
        "Make a `parameter` of it, and change it in the source; the command line gives a design no arguments.",
    ),
];

/// The same of system tasks and functions.
fn instead_of_task(text: &[u8]) -> &'static str {
    let said = said_in(&TASKS, text);
    if said.is_empty() {
        instead_of_file_task(text)
    } else {
        said
    }
}

static FILE_TASKS: [(&str, &str); 8] = [
    (
        "$fopen $fclose $fflush",
        "Leave it out: a design has no files. What `$display` prints goes to standard output.",
    ),
    (
        "$fdisplay $fwrite $fstrobe $fmonitor",
        "Write a `$display`: a design has no files, and what it prints goes to standard output.",
    ),
    (
        "$fscanf $fgets $fgetc $fread $feof $sscanf",
        "Write the values into the source: a design reads no files.",
    ),
    (
        "$swrite $sformat $sformatf",
        "Give the format string and its arguments to `$display`.",
    ),
    (
        "$dumpon $dumpoff $dumpall $dumplimit $dumpflush",
        "Leave it out: `--out vcd` dumps each signal that is no array.",
    ),
    (
        "$setup $hold $setuphold $recovery $removal $recrem $skew $period $width $nochange",
        "Leave it out: timing checks aren't simulated.",
    ),
    (
        "$itor $rtoi $realtobits $bitstoreal",
        "Real numbers aren't read: count in an `integer` of the smallest unit.",
    ),
    (
        "$past $rose $fell $stable",
        "Keep the value of the last clock in a register, and compare with it.",
    ),
];

/// The same of system tasks on files, dumps, timing checks and real numbers.
fn instead_of_file_task(text: &[u8]) -> &'static str {
    said_in(&FILE_TASKS, text)
}
