//! Why a certificate has no verdict, or a certified run no outcome.
ghost use Rattle.std.specs.Prelude.{◌≡◌};
ghost use Rattle.vs_sign_off.specs.declared.fault.CertifiedFault.TheVariants.{Simulation, Certificate};
ghost use Rattle.vs_simulate.specs.declared.fault.SimFault.TheVariants as simulation;

use std::alloc::AllocError;
use vs_certificate::CertFault;
use vs_simulate::SimFault;
use vs_simulate::vs_kernel::RunFault;

/// Why a certificate has no verdict, or a certified run no outcome.
#[derive(Drop)]
pub enum CertifiedFault<'s> {
    /// The source is refused, the run failed, or a growth of memory was refused.
    Simulation(SimFault<'s>),
    /// The bytes of the certificate are refused: C1 to C4, or memory.
    Certificate(CertFault),
    /// The design breaks the rule K1 to K11 of this number, and none before it; with the name of the first subject at which it breaks it.
    Rejected(u8, Vec<u8>),
}

impl<'s> From<SimFault<'s>> for CertifiedFault<'s> {
    ghost from_gives = { λ cause fault. fault ≡ Simulation cause };

    fn from(cause: SimFault<'s>) -> CertifiedFault<'s> {
        CertifiedFault::Simulation(cause)
    }
}

impl<'s> From<RunFault> for CertifiedFault<'s> {
    ghost from_gives = { λ cause fault. fault ≡ Simulation (simulation.Run cause) };

    fn from(cause: RunFault) -> CertifiedFault<'s> {
        CertifiedFault::Simulation(SimFault::Run(cause))
    }
}

impl<'s> From<CertFault> for CertifiedFault<'s> {
    ghost from_gives = { λ cause fault. fault ≡ Certificate cause };

    fn from(cause: CertFault) -> CertifiedFault<'s> {
        CertifiedFault::Certificate(cause)
    }
}

impl<'s> From<AllocError> for CertifiedFault<'s> {
    ghost from_gives = { λ _ fault. fault ≡ Simulation simulation.Memory };

    fn from(_cause: AllocError) -> CertifiedFault<'s> {
        CertifiedFault::Simulation(SimFault::Memory)
    }
}
