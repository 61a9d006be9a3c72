// What is answered to a frame that is no request.
#![tactic(auto)]

ghost use Rattle.std.specs.Prelude.{◌≡◌, ◌≤◌, length};
ghost use Rattle.profile.specs.Sizes.{reply_room};
ghost use Rattle.profile.specs.Request.{read_request};
ghost use Rattle.codes.specs.Codes.{number_in};
ghost use Rattle.request_reader.specs.Answer.{why_means};
ghost use Rattle.refusals.specs.Refusing.{refusal_for, Refuses};

use codes::fault::Fault;
use codes::refusal::Refusal;
use request_reader::asked::Why;

// PROFILE 4.1 and 4.3. Bytes that are no frame are refused with 104; a frame, with status 1, 2 or 3.
fn refusal_for(why: Why) -> Result<Refusal, Fault>
    ensures { result ≡ refusal_for why }
{
    match why {
        Why::NoFrame => Err(Fault::NoFrame),
        Why::Integrity => Ok(Refusal::FieldIntegrityVerificationFailed),
        Why::Parameter => Ok(Refusal::ParameterFailed),
        Why::Unsupported => Ok(Refusal::RequestNotSupported),
    }
}

// A frame is answered by a reply of the kind asked, with the status and no body. No table is looked at.
pub fn refuse(frame: &[u8], reply: &mut [u8], why: Why) -> Result<(), Fault>
    requires { (why_means why ≡ read_request frame.now) × (reply_room ≤ length reply.old) }
    ensures { Refuses frame.now why reply.old (number_in result) reply.new }
{
    let refusal = refusal_for(why)?;
    let kind = bits::fields::frame_kind(frame[0]);
    reply_writer::writer::reply_served(reply, kind, Err(refusal));
    Ok(())
}
