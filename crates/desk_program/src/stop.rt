//! Why an action isn't carried out to its end.
use super::fault::ProgramFault;
use desk_brf::{BadLayout, ExportFault};
use desk_ends::Failure;
use desk_store::OpenFault;

/// Why an action isn't carried out to its end.
#[derive(Debug, Drop)]
pub enum Stop {
    /// It is refused, for this fault.
    Refused(ProgramFault),
    /// The file of the book failed.
    Lost,
    /// Standard input or standard output failed.
    Ends,
}

impl From<ProgramFault> for Stop {
    ghost use Rattle.desk_program.specs.declared.stop.Stop.TheVariants.{Refused};
    ghost use Rattle.std.specs.Prelude.{◌≡◌};

    ghost from_gives = { λ fault stop. stop ≡ Refused fault };

    fn from(fault: ProgramFault) -> Self {
        Stop::Refused(fault)
    }
}

impl From<OpenFault> for Stop {
    ghost use Rattle.desk_program.specs.Books.{stop_of};
    ghost use Rattle.std.specs.Prelude.{◌≡◌};

    ghost from_gives = { λ fault stop. stop ≡ stop_of fault };

    fn from(fault: OpenFault) -> Self {
        match fault {
            OpenFault::NotABook => Stop::Refused(ProgramFault::NotABook),
            OpenFault::Damaged { table, id } => Stop::Refused(ProgramFault::Damaged { table, id }),
            OpenFault::NewerFormat => Stop::Refused(ProgramFault::NewerFormat),
            OpenFault::Lost => Stop::Lost,
            OpenFault::NoMemory => Stop::Refused(ProgramFault::NoMemory),
        }
    }
}

impl From<BadLayout> for Stop {
    ghost use Rattle.desk_program.specs.declared.fault.ProgramFault.TheVariants as faults;
    ghost use Rattle.desk_program.specs.declared.stop.Stop.TheVariants.{Refused};
    ghost use Rattle.std.specs.Prelude.{◌≡◌};

    ghost from_gives = { λ _ stop. stop ≡ Refused faults.BadLayout };

    fn from(_fault: BadLayout) -> Self {
        Stop::Refused(ProgramFault::BadLayout)
    }
}

impl From<ExportFault> for Stop {
    ghost use Rattle.desk_program.specs.Books.{stopped_by};
    ghost use Rattle.std.specs.Prelude.{◌≡◌};

    ghost from_gives = { λ fault stop. stop ≡ stopped_by fault };

    fn from(fault: ExportFault) -> Self {
        match fault {
            ExportFault::NoVolume => Stop::Refused(ProgramFault::NoVolume),
            ExportFault::NotSixDots { paragraph, cell } => {
                Stop::Refused(ProgramFault::NotSixDots { paragraph, cell })
            }
            ExportFault::Write => Stop::Ends,
        }
    }
}

impl From<Failure> for Stop {
    ghost use Rattle.desk_program.specs.declared.stop.Stop.TheVariants.{Ends};
    ghost use Rattle.std.specs.Prelude.{◌≡◌};

    ghost from_gives = { λ _ stop. stop ≡ Ends };

    fn from(_failed: Failure) -> Self {
        Stop::Ends
    }
}
