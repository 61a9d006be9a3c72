// Kind 5, Rights Enablement: a right that was lent is returned. Every check precedes every change, and the reply is written with the
// change.
#![tactic(auto)]

ghost use Rattle.std.specs.Prelude.{◌≡◌, [], ◌≤◌, length};
ghost use Rattle.profile.specs.Bytes.{over};
ghost use Rattle.profile.specs.Table.{slots_of};
ghost use Rattle.profile.specs.Frame.{frame, code};
ghost use Rattle.profile.specs.Request.{enable as enablement};
ghost use Rattle.profile.specs.Agent.{find};
ghost use Rattle.codes.specs.declared.refusal.Refusal.TheVariants.{CountRaised};
ghost use Rattle.codes.specs.Codes.{refusal_meant};
ghost use Rattle.tables.specs.LookUp.{found_at};
ghost use Rattle.tallies.specs.declared.update.Change.TheVariants.{Same};
ghost use Rattle.decisions.specs.Decisions.{installed, decided, unless};
ghost use Rattle.decisions.specs.Serving.{Ready, Serves, answer_to};
ghost use Rattle.returns.specs.Returning.{raised};

use codes::kind::Kind;
use codes::refusal::Refusal;
use profile::Count;
use profile::sizes::HANDLE_BYTES;
use profile::slot::LENGTH_AT;
use slots::place::Place;
use tables::lookup::Record;
use tallies::update::Change;

// PROFILE 5.5. Status 4 where no record is under the handle, 6 where it is reserved, 9 where it is lent and the count of the request
// would raise its own. Of an enabled one the count is not looked at: a device whose reply was lost may send its return again.
fn record_to_enable(table: &[u8], h: [u8; HANDLE_BYTES], count: Count) -> Result<Record, Refusal>
    ensures { result ≡ unless (raised table.now count) CountRaised (decided installed (found_at (find h (slots_of table.now)))) }
{
    let record = decisions::decision::slot_under(
        table,
        h,
        |p| matches!(p, Place::Enabled | Place::Disabled),
    )?;
    let stored = slots::head::count_of(tables::part::slot_at(table, record.at));
    let lent = matches!(record.place, Place::Disabled);
    let raised = counts::raises(stored, count);
    if lent & raised {
        return Err(Refusal::CountRaised);
    }
    Ok(record)
}

// Refused: no slot changes (PROFILE 4.2).
fn refuse(reply: &mut [u8], refusal: Refusal) -> Change
    requires { 4 ≤ length reply.old }
    ensures { (reply.new ≡ over (frame 5 (code (refusal_meant refusal)) []) reply.old) × (result ≡ Same) }
{
    reply_writer::writer::reply_served(reply, Kind::Enable.number(), Err(refusal));
    Change::Same
}

// PROFILE 5.5. Where no test refuses it, a disabled record is enabled with the count of the request, and an enabled one stays as it is.
pub fn enable(table: &mut [u8], reply: &mut [u8], h: [u8; HANDLE_BYTES], count: Count) -> Change
    requires { Ready table.old reply.old }
    ensures { Serves 5 (answer_to table.old (enablement h count)) table.old reply.old table.new reply.new result }
{
    match record_to_enable(table, h, count) {
        Ok(record) => {
            reply_writer::writer::reply_served(reply, Kind::Enable.number(), Ok(()));
            let Place::Disabled = record.place else {
                return Change::Same;
            };
            let slot = tables::part::slot_at(table, record.at);
            let length = words::word_at(slot, LENGTH_AT);
            let stored = slots::head::count_of(slot);
            changes::give_back(table, record.at, count);
            Change::Returned(length, stored, length, count)
        }
        Err(refusal) => refuse(reply, refusal),
    }
}
