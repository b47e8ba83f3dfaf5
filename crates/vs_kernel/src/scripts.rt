//! The scripts of a design's processes.
ghost use Rattle.std.specs.Prelude.{◌≡◌, map, IfOk};
ghost use Rattle.vs_kernel.specs.Scripts.{AreScripts};

use std::alloc::{AllocError, Global};
use vs_design::{Design, Process};
use vs_process::Script;
use vs_run_active::vs_process::{Code, compile};

/// The codes of the processes' bodies, one each in order.
pub fn codes_of<'a>(alloc: Global, processes: &'a [Process]) -> Result<Vec<Code<'a>>, AllocError>
    ensures { IfOk result (λ codes. codes.items ≡ map (λ p. p.body) processes.entry.now) }
{
    let mut codes = Vec::new(alloc);
    for process in processes {
        codes.push(compile(alloc, &process.body)?)?;
    }
    Ok(codes)
}

/// The scripts of a design's processes, which have these codes, one each in order.
pub fn scripts_of<'a>(
    alloc: Global,
    design: &'a Design,
    codes: &'a [Code<'a>],
) -> Result<Vec<Script<'a>>, AllocError>
    requires { codes.now ≡ map (λ p. p.body) design.now.processes }
    ensures { IfOk result (λ scripts. AreScripts design.entry.now scripts.items) }
{
    design.is_well_formed();
    let mut scripts = Vec::new(alloc);
    for code in codes {
        let script = Script::new(alloc, design, code)?;
        // A contract reads off its instructions that the numbers of its event controls differ.
        let _ = script.instructions();
        scripts.push(script)?;
    }
    Ok(scripts)
}
