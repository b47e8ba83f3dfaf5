//! Why a simulation gave no outcome.
ghost use Rattle.std.specs.Prelude.{◌≡◌};
ghost use Rattle.vs_simulate.specs.declared.fault.SimFault.TheVariants.{Lex, Parse, Elab, Run, Memory};

use std::alloc::AllocError;
use vs_elaborate::ElabFault;
use vs_kernel::RunFault;
use vs_parser::ParseFault;
use vs_syntax::vs_lexer::LexFault;

/// Why a simulation gave no outcome.
#[derive(Drop)]
pub enum SimFault<'s> {
    /// The bytes spell no tokens: L1 to L6, or memory.
    Lex(LexFault),
    /// The tokens derive no source: P1 to P4, or memory.
    Parse(ParseFault<'s>),
    /// The source and the top define no design: E1 to E12, or memory.
    Elab(ElabFault),
    /// The run failed: memory, or a write.
    Run(RunFault),
    /// A growth of memory was refused before the run.
    Memory,
}

impl<'s> From<LexFault> for SimFault<'s> {
    ghost from_gives = { λ cause fault. fault ≡ Lex cause };

    fn from(cause: LexFault) -> SimFault<'s> {
        SimFault::Lex(cause)
    }
}

impl<'s> From<ParseFault<'s>> for SimFault<'s> {
    ghost from_gives = { λ cause fault. fault ≡ Parse cause };

    fn from(cause: ParseFault<'s>) -> SimFault<'s> {
        SimFault::Parse(cause)
    }
}

impl<'s> From<ElabFault> for SimFault<'s> {
    ghost from_gives = { λ cause fault. fault ≡ Elab cause };

    fn from(cause: ElabFault) -> SimFault<'s> {
        SimFault::Elab(cause)
    }
}

impl<'s> From<RunFault> for SimFault<'s> {
    ghost from_gives = { λ cause fault. fault ≡ Run cause };

    fn from(cause: RunFault) -> SimFault<'s> {
        SimFault::Run(cause)
    }
}

impl<'s> From<AllocError> for SimFault<'s> {
    ghost from_gives = { λ _ fault. fault ≡ Memory };

    fn from(_cause: AllocError) -> SimFault<'s> {
        SimFault::Memory
    }
}
