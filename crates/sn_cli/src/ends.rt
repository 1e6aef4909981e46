// The status in which a device's call leaves a run that wasn't answered.
ghost use Rattle.std.specs.Prelude.{◌≡◌};
ghost use Rattle.sn_calls.specs.declared.ends.CallEnd.TheVariants as end;
ghost use Rattle.sn_cli.specs.CallEnds.{LeadsTo};

use sn_device::ClientError;
use sn_status::{ClientRefusal, Refusal, Status};

/// The status of a call that the device refused, or in which the server, the link or memory did.
pub fn refused_status(error: ClientError) -> Status
    ensures { LeadsTo (end.Refused error) result }
{
    match error {
        ClientError::NoAccount => refused(ClientRefusal::NoAccount),
        ClientError::NoItem { uuid } => refused(ClientRefusal::NoItem { uuid }),
        ClientError::Closed { nonce } => refused(ClientRefusal::Closed { nonce }),
        ClientError::TooLong { length } => refused(ClientRefusal::TooLong { length }),
        ClientError::NotObject => refused(ClientRefusal::NotObject),
        ClientError::Refused { status, tag } => Status::Server { status, tag },
        ClientError::BadAnswer { place } => Status::BadAnswer(place),
        ClientError::RoundsUsed => refused(ClientRefusal::RoundsUsed),
        ClientError::NoFreshUuid { drawn } => refused(ClientRefusal::NoFreshUuid { drawn }),
        ClientError::WrongPassword => refused(ClientRefusal::WrongPassword),
        ClientError::OtherAccount { identifier } => {
            refused(ClientRefusal::OtherAccount { identifier })
        }
        ClientError::HasAccount { identifier } => refused(ClientRefusal::HasAccount { identifier }),
        ClientError::Cost { cost } => refused(ClientRefusal::Cost { cost }),
        ClientError::NumbersUsed { next } => refused(ClientRefusal::NumbersUsed { next }),
        ClientError::Rekey { error } => refused(ClientRefusal::Rekey { error }),
        ClientError::TooLarge { size } => refused(ClientRefusal::TooLarge { size }),
        ClientError::LinkFault => Status::LinkFault,
        ClientError::Memory => Status::Memory,
    }
}

fn refused(refusal: ClientRefusal) -> Status
    ensures { result ≡ Status.Refused (Refusal.Client refusal) }
{
    Status::Refused(Refusal::Client(refusal))
}
