// What is lost of the exchanges to come.
ghost use Rattle.std.specs.Prelude.{◌≡◌, None};
ghost use Rattle.sn_link.specs.Losses.{is_meant, lost_at};

/// Which messages are to be lost, by the number of their exchange, counted from 1. Where both are of one exchange, its
/// request is lost.
#[derive(Clone, Copy, Debug, PartialEq, Eq)]
pub struct Losses {
    /// Its request isn't delivered.
    pub request: Option<u64>,
    /// Its request is served, and the answer is lost.
    pub reply: Option<u64>,
}

/// What is lost of an exchange.
#[derive(Clone, Copy, Debug, PartialEq, Eq)]
pub enum Lost {
    Nothing,
    Request,
    Reply,
}

impl Losses {
    /// Nothing is to be lost.
    pub fn none() -> Losses
        ensures request { result.request ≡ None }
        ensures reply { result.reply ≡ None }
    {
        Losses {
            request: None,
            reply: None,
        }
    }

    /// What is lost of the exchange of this number.
    pub fn at(self, number: u64) -> Lost
        ensures { result ≡ lost_at self number }
    {
        if is_meant(self.request, number) {
            Lost::Request
        } else if is_meant(self.reply, number) {
            Lost::Reply
        } else {
            Lost::Nothing
        }
    }
}

fn is_meant(meant: Option<u64>, number: u64) -> bool
    ensures { result ≡ is_meant meant number }
{
    match meant {
        Some(other) => other == number,
        None => false,
    }
}
