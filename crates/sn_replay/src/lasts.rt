//! How events end.

ghost use Rattle.std.specs.Prelude.{◌≡◌, IfErr, IfOk};
ghost use Rattle.rand_chacha.specs.ChaCha.{ChaCha};
ghost use Rattle.sn_device.specs.Runs.{Given, Halt};
ghost use Rattle.sn_device.specs.declared.error.ClientError.TheVariants as client;
ghost use Rattle.sn_course.specs.Fits.{EndsRefused, EndsSo};
ghost use Rattle.sn_events.specs.Answers.{IsHalt};
ghost use Rattle.sn_telling.specs.Laws.{IsWhole};

use sn_device::ClientError;
use sn_report::Last;
use sn_status::ClientRefusal;
use std::alloc::AllocError;

/// How an event ends whose call was answered so. One in want of memory ends the replay.
pub(crate) fn last_of<T: Drop>(answer: Result<T, ClientError>) -> Result<Last, AllocError>
    ensures { (gives : T → Given) (left : ChaCha) (halt : Halt) → IsHalt gives left answer halt → IfOk result (λ last. EndsSo halt last × IsWhole halt) }
{
    match answer {
        Ok(_) => Ok(Last::Done),
        Err(why) => refused(why),
    }
}

// The end of one whose call was refused.
fn refused(why: ClientError) -> Result<Last, AllocError>
    ensures ends { IfOk result (EndsRefused why) }
    ensures want { IfErr result (λ error. why ≡ client.Memory) }
{
    match why {
        ClientError::NoAccount => Ok(Last::Refused(ClientRefusal::NoAccount)),
        ClientError::NoItem { uuid } => Ok(Last::Refused(ClientRefusal::NoItem { uuid })),
        ClientError::Closed { nonce } => Ok(Last::Refused(ClientRefusal::Closed { nonce })),
        ClientError::TooLong { length } => Ok(Last::Refused(ClientRefusal::TooLong { length })),
        ClientError::NotObject => Ok(Last::Refused(ClientRefusal::NotObject)),
        ClientError::Refused { status, tag } => Ok(Last::Server { status, tag }),
        ClientError::BadAnswer { place } => Ok(Last::BadAnswer(place)),
        ClientError::RoundsUsed => Ok(Last::Refused(ClientRefusal::RoundsUsed)),
        ClientError::NoFreshUuid { drawn } => {
            Ok(Last::Refused(ClientRefusal::NoFreshUuid { drawn }))
        }
        ClientError::WrongPassword => Ok(Last::Refused(ClientRefusal::WrongPassword)),
        ClientError::OtherAccount { identifier } => {
            Ok(Last::Refused(ClientRefusal::OtherAccount { identifier }))
        }
        ClientError::HasAccount { identifier } => {
            Ok(Last::Refused(ClientRefusal::HasAccount { identifier }))
        }
        ClientError::Cost { cost } => Ok(Last::Refused(ClientRefusal::Cost { cost })),
        ClientError::NumbersUsed { next } => Ok(Last::Refused(ClientRefusal::NumbersUsed { next })),
        ClientError::Rekey { error } => Ok(Last::Refused(ClientRefusal::Rekey { error })),
        ClientError::TooLarge { size } => Ok(Last::Refused(ClientRefusal::TooLarge { size })),
        ClientError::LinkFault => Ok(Last::Link),
        ClientError::Memory => Err(AllocError),
    }
}
