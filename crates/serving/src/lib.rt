// What a frame does on a well-formed table: its refusal, or its request served by its kind (PROFILE 4.3 and 5).
#![tactic(auto)]

ghost use Rattle.std.specs.Prelude.{◌≡◌, ◌<◌, ◌≤◌, Ok};
ghost use Rattle.codes.specs.Codes.{number_in, left_by};
ghost use Rattle.profile.specs.Table.{slot_count, slots_of};
ghost use Rattle.profile.specs.Frame.{kind_number};
ghost use Rattle.profile.specs.Agent.{first_empty_from};
ghost use Rattle.request_reader.specs.Answer.{Answers, body_means};
ghost use Rattle.decisions.specs.Serving.{Ready, Serves, answer_at, answer_to};
ghost use Rattle.tallies.specs.declared.update.Change.TheVariants.{Same};
ghost use Rattle.lendings.specs.Lending.{kind_of};
ghost use Rattle.serving.specs.Obeying.{lends_by, Obeys};

use codes::fault::Fault;
use codes::kind::Kind;
use lendings::Lending;
use request_reader::asked::{Asked, Body, Why};
use slots::place::Place;
use tallies::update::Change;

// Kinds 3 and 4, which have two handles. Inlined, since a frame of its own would come on top of that of `answer`.
#[inline(always)]
fn lend(table: &mut [u8], reply: &mut [u8], asked: &Asked, lending: Lending) -> Change
    requires { Ready table.old reply.old }
    ensures { Serves (kind_of lending) (answer_to table.old (lends_by (kind_of lending) asked.now.handle asked.now.new)) table.old reply.old table.new reply.new result }
{
    let h = asked.handle;
    let k = asked.new;
    lendings::lend(table, reply, h, k, lending)
}

// Table and start are told of by clauses here and below: both facts are of the table that is lent, and the kinds change it.
// What a request does, kind by kind, and what it changed. Each takes from what was read the fields that it has; only a setup takes the start.
fn serve(table: &mut [u8], start: usize, frame: &[u8], reply: &mut [u8], asked: &Asked) -> Change
    requires { Ready table.old reply.old × (start < slot_count table.old) × Answers frame.now (Ok asked.now) }
    ensures { Serves (kind_number frame.now) (answer_at (first_empty_from start (slots_of table.old)) table.old (body_means frame.now asked.now.body asked.now)) table.old reply.old table.new reply.new result }
{
    match asked.body {
        Body::Setup { length } => {
            setups::setup::set_up(table, start, reply, asked.handle, length)
        }
        Body::Install { hashes, at, length } => {
            setups::install::install(
                table,
                reply,
                asked.handle,
                asked.key,
                asked.count,
                hashes,
                frame,
                at,
                length,
            )
        }
        Body::Retrieve => lend(table, reply, asked, Lending::Retrieval),
        Body::Rek => lend(table, reply, asked, Lending::RekQuery),
        Body::Enable => returns::enable(table, reply, asked.handle, asked.count),
        Body::Remove => {
            removals::clear(table, reply, asked.handle, Kind::Remove.number(), |p| {
                matches!(p, Place::Enabled | Place::Disabled)
            })
        }
        Body::Cancel => {
            removals::clear(table, reply, asked.handle, Kind::Cancel.number(), |p| {
                matches!(p, Place::Reserved)
            })
        }
        Body::List { limit, hashes, at } => {
            queries::handle_list(table, reply, limit, hashes, frame, at);
            Change::Same
        }
        Body::Info => {
            queries::info(table, reply, asked.handle);
            Change::Same
        }
    }
}

// What comes of a frame that was read: 104, or what was done to the slots. What was read is a local of `answer`, lent to all below, so that it
// takes its place on the stack once.
fn answer_read(
    table: &mut [u8],
    start: usize,
    frame: &[u8],
    reply: &mut [u8],
    read: &Result<Asked, Why>,
) -> Result<Change, Fault>
    requires { Ready table.old reply.old × (start < slot_count table.old) × Answers frame.now read.now }
    ensures { Obeys table.old start frame.now reply.old table.new reply.new (number_in result) (left_by Same result) }
{
    let Ok(asked) = read else {
        let why = *read.as_ref().unwrap_err();
        refusals::refuse(frame, reply, why)?;
        return Ok(Change::Same);
    };
    Ok(serve(table, start, frame, reply, asked))
}

// On a well-formed table: 104, or what was done to the slots, with a reply. The tally is not looked at: it follows from the change.
#[inline(never)]
pub fn answer(
    table: &mut [u8],
    start: usize,
    frame: &[u8],
    reply: &mut [u8],
) -> Result<Change, Fault>
    requires { Ready table.old reply.old × (start < slot_count table.old) }
    ensures { Obeys table.old start frame.now reply.old table.new reply.new (number_in result) (left_by Same result) }
{
    answer_read(
        table,
        start,
        frame,
        reply,
        &request_reader::reader::read_request(frame),
    )
}
