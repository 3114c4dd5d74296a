//! Commands one after the other.
ghost use Rattle.std.specs.Prelude.{◌≡◌, List, IfOk, IfErr, OnErr};
ghost use Rattle.desk.specs.Asked.{command_view, answer_view, commands_view, answers_view};
ghost use Rattle.desk.specs.Calls.{settings_view, or_before, succeeded_as};
ghost use Rattle.desk.specs.RunContract.{AreSteps, IsRun, Obeys};
ghost use Rattle.desk.specs.Shown.{deposited_as, shown_as, listed_as, done_as, numbered_as};
ghost use Rattle.desk.specs.{Answers.answered, auxiliary.Obstacles.told_with, Outcome.Outcome, MachineRuns.IsProper};

use crate::additions::{calibrate_by, hold_by};
use crate::batch::Asked;
use crate::commands::{Answer, Command};
use crate::desk::Desk;
use crate::fault::Fault;
use crate::new_deposit::{Submission, deposit_with};
use crate::obstacle::Obstacle;
use crate::reply::Deposited;
use crate::rights::{Change, change_by};
use crate::settings::{Settings, has_subject};
use crate::sight::{list_to, show_to, token_to};
use crate::stamp::answer_with;
use crate::succession::succeed_by;
use book::{Book, Listed};
use cms::Signer;
use std::alloc::Global;
use std::io;
use tsp::requests_have_one_reading;

fn kept(deposited: Result<Deposited, Fault>) -> Answer
    ensures { answer_view result ≡ answered deposited_as deposited }
{
    match deposited {
        Ok(deposited) => Answer::Kept(deposited),
        Err(fault) => Answer::Refused(fault),
    }
}

fn shown(octets: Result<Vec<u8>, Obstacle>) -> Answer
    ensures { answer_view result ≡ told_with shown_as octets }
{
    match octets {
        Ok(octets) => Answer::Shown(octets),
        Err(obstacle) => Answer::Refused(Fault::from(obstacle)),
    }
}

fn listed(rows: Result<Vec<Listed>, Obstacle>) -> Answer
    ensures { answer_view result ≡ told_with listed_as rows }
{
    match rows {
        Ok(rows) => Answer::Listed(rows),
        Err(obstacle) => Answer::Refused(Fault::from(obstacle)),
    }
}

fn numbered(outcome: Result<u64, Obstacle>) -> Answer
    ensures { answer_view result ≡ told_with numbered_as outcome }
{
    match outcome {
        Ok(number) => Answer::Numbered(number),
        Err(obstacle) => Answer::Refused(Fault::from(obstacle)),
    }
}

fn done(outcome: Result<(), Obstacle>) -> Answer
    ensures { answer_view result ≡ told_with done_as outcome }
{
    match outcome {
        Ok(()) => Answer::Done,
        Err(obstacle) => Answer::Refused(Fault::from(obstacle)),
    }
}

/// Brings what is in force by a succession: the answer, and with what the desk goes on.
fn succeeded<'p>(
    outcome: Result<Settings<'p>, Obstacle>,
    before: Settings<'p>,
) -> (Answer, Settings<'p>)
    ensures answer { answer_view result.0 ≡ told_with succeeded_as outcome.entry }
    ensures after { result.1 ≡ or_before outcome.entry before.entry }
{
    match outcome {
        Ok(settings) => (Answer::Done, settings),
        Err(obstacle) => (Answer::Refused(Fault::from(obstacle)), before),
    }
}

/// Does what one command asks: the answer, and with what the desk goes on.
pub(crate) fn obey<'p, B: Book + Drop, G: Signer>(
    store: &mut B,
    alloc: Global,
    settings: Settings<'p>,
    command: &Command<'_, 'p>,
    signer: &mut G,
) -> (Answer, Settings<'p>)
    ensures honest { B.honest store.new → B.honest store.old }
    ensures step { Obeys B.Standing G.signs G.fault_count (settings_view settings.entry) (command_view command.now)
        store.old signer.old (settings_view result.1) store.new signer.new (answer_view result.0) }
{
    match *command {
        Command::Stamp {
            account,
            reading,
            query,
        } => {
            let asked = Asked {
                account,
                reading,
                query,
            };
            (
                Answer::Stamped(answer_with(store, alloc, settings, asked, signer)),
                settings,
            )
        }
        Command::Deposit {
            account,
            reading,
            reference,
            bytes,
        } => {
            let submission = Submission {
                account,
                reading,
                reference,
                bytes,
            };
            (
                kept(deposit_with(store, alloc, settings, submission, signer)),
                settings,
            )
        }
        Command::Show { account, number } => (
            shown(show_to(store, settings, account, number)),
            settings,
        ),
        Command::Token { account, number } => {
            (
                shown(token_to(store, alloc, settings, account, number)),
                settings,
            )
        }
        Command::List { account } => (
            listed(list_to(store, settings, account, &mut io::sink())),
            settings,
        ),
        Command::Grant {
            account,
            number,
            reader,
        } => (
            done(change_by(store, settings, account, number, reader, Change::Give)),
            settings,
        ),
        Command::Revoke {
            account,
            number,
            reader,
        } => (
            done(change_by(store, settings, account, number, reader, Change::Take)),
            settings,
        ),
        Command::Calibrate(calibration) => (numbered(calibrate_by(store, &calibration)), settings),
        Command::Hold(hold) => (numbered(hold_by(store, &hold)), settings),
        Command::Succeed {
            identity,
            algorithm,
        } => succeeded(succeed_by(store, settings, identity, algorithm), settings),
    }
}

/// Does what each command asks, one after the other, each by what the one before it left in force: the answers, and
/// with what the desk goes on. Room for all the answers is taken first.
pub(crate) fn obey_each<'p, B: Book + Drop, G: Signer>(
    store: &mut B,
    alloc: Global,
    settings: Settings<'p>,
    commands: &[Command<'_, 'p>],
    signer: &mut G,
) -> Result<(Vec<Answer>, Settings<'p>), Fault>
    ensures memory { IfErr result (λ fault. fault ≡ Fault.Memory) }
    ensures unmoved { OnErr result ((store.new ≡ store.old) × (signer.new ≡ signer.old)) }
    ensures steps { IfOk result (λ done. (os : List Outcome) × AreSteps B.Standing G.signs G.fault_count
        (settings_view settings.entry) (commands_view commands.now) os (answers_view done.0.items) store.old signer.old
        (settings_view done.1) store.new signer.new) }
{
    let Ok(mut answers) = Vec::with_capacity(alloc, commands.len()) else {
        return Err(Fault::Memory);
    };
    let mut current = settings;
    for command in commands {
        let (answer, after) = obey(store, alloc, current, command, signer);
        current = after;
        match answers.push(answer) {
            Ok(()) => {}
            Err(_) => unreachable!(),
        }
    }
    Ok((answers, current))
}

impl<'p, B: Book + Drop> Desk<'p, B> {
    /// Does what each command asks, one after the other: an answer for each, none for no command. A command that is
    /// refused doesn't stop those after it. The caller's conditions are those of the commands: an uncertainty of at
    /// most 10^12 microseconds, a hold that ends after its first moment, and an identity that has its subject, as each
    /// has (`has_subject`).
    ///
    /// Room for the answers is taken first: where it is refused, the answer is `Memory`, and nothing is done.
    pub fn run<G: Signer>(
        &mut self,
        commands: &[Command<'_, 'p>],
        signer: &mut G,
    ) -> Result<Vec<Answer>, Fault>
        ensures honest { B.honest self.new.store → B.honest self.old.store }
        ensures memory { IfErr result (λ fault. fault ≡ Fault.Memory) }
        ensures unmoved { OnErr result ((self.new ≡ self.old) × (signer.new ≡ signer.old)) }
        ensures proper { IsProper self.new.setting }
        ensures run { IfOk result (λ answers. IsRun B.Standing G.signs G.fault_count (commands_view commands.now)
            (answers_view answers.items) self.old signer.old self.new signer.new) }
    {
        requests_have_one_reading();
        let settings = self.settings;
        let (answers, after) = obey_each(&mut self.store, self.alloc, settings, commands, signer)?;
        has_subject(after.identity);
        self.settings = after;
        Ok(answers)
    }
}
