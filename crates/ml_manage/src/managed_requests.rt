// Which requests this crate answers.
ghost use Rattle.std.specs.Prelude.{◌≡◌, true, Some};
ghost use Rattle.ml_address.specs.Reading.{request_of};
ghost use Rattle.ml_address.specs.Views.{request_view};
ghost use Rattle.ml_base.specs.Bytes.{Text};
ghost use Rattle.ml_manage.specs.Reads as words;

use ml_address::Request;

/// Whether a request that was read from a recipient's address is one that `manage` takes: neither a post nor a moderator's answer.
pub fn is_managed(request: &Request<'_>) -> bool
    ensures { (local host text : Text) → request_of local host text ≡ Some (request_view request.now) → result ≡ words.is_managed (request_view request.now) }
{
    match request {
        Request::Post => false,
        Request::Accept { .. } => false,
        Request::Reject { .. } => false,
        Request::Help
        | Request::Owner
        | Request::Subscribe { .. }
        | Request::Unsubscribe { .. }
        | Request::Members { .. }
        | Request::Confirm { .. }
        | Request::Get { .. }
        | Request::Index { .. }
        | Request::Thread { .. }
        | Request::Bounce { .. }
        | Request::WarnBounce { .. }
        | Request::ProbeBounce { .. }
        | Request::ReplyBounce { .. }
        | Request::Other => true,
    }
}
