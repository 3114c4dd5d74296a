//! A whole request: its checks are made, the desk takes the step that it asks for, or its store is looked at, and the
//! answer is written.
ghost use Rattle.std.specs.Prelude.{◌≡◌, ◌⊎◌, Ok};
ghost use Rattle.service.specs.Views.{asked_view, head_view, request_view, IsInPlace};
ghost use Rattle.service.specs.{Handlers.Handles, Requests.asked_by, Served.TellsFailure, Served.TellsFailureByRows};

mod deposit;
mod deposits;

use crate::account::serve_account;
use crate::checks::{Found, found_by};
use crate::context::Context;
use crate::extracts::serve_extract;
use crate::responses::{refuse, write_added, write_deposited, write_reply};
use crate::routes::Action;
use crate::served::Served;
use crate::status::serve_status;
use audit::{Inquiry, Output};
use book::Book;
use cms::Signer;
use desk::Desk;

/// Answers a whole request.
pub(crate) fn handle<W: Output, B: Book + Drop, G: Signer>(
    action: Action,
    context: &Context<'_>,
    desk: &mut Desk<'_, B>,
    signer: &mut G,
    writer: &mut W,
) -> Served
    requires { IsInPlace context.now.head }
    ensures setting { desk.new.setting ≡ desk.old.setting }
    ensures honest { B.honest desk.new.store → B.honest desk.old.store }
    ensures served { Handles B.Standing G.signs G.fault_count W.contents context.now.at.reading
        (asked_by desk.old.setting.file context.now.at.reading (head_view context.now.head) context.now.body.now action)
        writer.old writer.new desk.old desk.new signer.old signer.new result }
    ensures failed { TellsFailure (W.failures writer.old) (W.failures writer.new) result
        ⊎ TellsFailureByRows B.Standing W.contents W.failures context.now.at.reading writer.old writer.new desk.old
        desk.new result (asked_by desk.old.setting.file context.now.at.reading (head_view context.now.head)
        context.now.body.now action) }
{
    match found_by(action, desk.policy(), context) {
        Ok(found) => answer(found, context, desk, signer, writer),
        Err(refusal) => refuse(writer, context.at, refusal),
    }
}

/// Answers a request whose checks find this.
fn answer<W: Output, B: Book + Drop, G: Signer>(
    found: Found<'_>,
    context: &Context<'_>,
    desk: &mut Desk<'_, B>,
    signer: &mut G,
    writer: &mut W,
) -> Served
    ensures setting { desk.new.setting ≡ desk.old.setting }
    ensures honest { B.honest desk.new.store → B.honest desk.old.store }
    ensures served { Handles B.Standing G.signs G.fault_count W.contents context.now.at.reading
        (Ok (asked_view (request_view context.now) found.entry)) writer.old writer.new desk.old desk.new signer.old
        signer.new result }
    ensures failed { TellsFailure (W.failures writer.old) (W.failures writer.new) result
        ⊎ TellsFailureByRows B.Standing W.contents W.failures context.now.at.reading writer.old writer.new desk.old
        desk.new result (Ok (asked_view (request_view context.now) found.entry)) }
{
    match found {
        Found::Stamp(asked) => {
            let reply = desk.answer(asked.account, asked.reading, asked.query, signer);
            write_reply(writer, context.at, &reply)
        }
        Found::Keep(account, reference) => {
            let (reading, bytes) = (context.at.reading, context.body);
            let outcome = desk.deposit(account, reading, reference, bytes, signer);
            write_deposited(writer, context.at, outcome)
        }
        Found::List(account) => deposits::list(context, desk, signer, writer, account),
        Found::Deposit(what, account, number) => {
            deposit::answer(what, context, desk, signer, writer, account, number)
        }
        Found::Extract(account, from, to) => {
            let policy = desk.policy();
            let inquiry = Inquiry {
                policy,
                account,
                from,
                to,
            };
            serve_extract(context, writer, desk, &inquiry)
        }
        Found::Calibrate(calibration) => {
            let outcome = desk.calibrate(&calibration);
            write_added(writer, context.at, outcome)
        }
        Found::Hold(hold) => {
            let outcome = desk.hold(&hold);
            write_added(writer, context.at, outcome)
        }
        Found::Status => {
            let faults = signer.faults();
            serve_status(context, writer, desk, faults)
        }
        Found::Account(account) => serve_account(context, writer, desk, account),
    }
}
