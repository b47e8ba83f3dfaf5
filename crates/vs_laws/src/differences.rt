//! Designs whose executions differ in one thing alone.
ghost use Rattle.vs_laws.specs.Alone.{FinishAloneDiffers, StrobeLinesAloneDiffer};

/// Two executions of a well formed design end the same slots with the same stores, and differ in their lines of `$strobe`: it is independent at no grain.
pub fn strobe_lines_alone_differ()
    ensures { StrobeLinesAloneDiffer }
{}

/// Two executions of a well formed design end the same slots with the same stores and lines, and in one of them alone `$finish` takes effect: it is
/// independent at no grain.
pub fn finish_alone_differs()
    ensures { FinishAloneDiffers }
{}
