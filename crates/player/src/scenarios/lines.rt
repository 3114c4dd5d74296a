//! Scenarios, line by line.
use crate::scenarios::bench::{Bench, Tools, tools_of};
use crate::scenarios::commands::command_of;
use crate::scenarios::connection_calls::{ask, connect, execute, make, part, take};
use crate::scenarios::desks::{self, finish_backwards, leave, run_all, tell_fronts, tell_shows};
use crate::scenarios::extracts::Extracting;
use crate::scenarios::kept::{Connected, Kept, Place};
use crate::scenarios::requests::Answering;
use crate::scenarios::setting::{Setting, setting_of};
use crate::scenarios::{laws, rows, stores, table_calls};
use crate::transcript::{MARK, Names, Printer, UNMARK, Words, mark};
use audit::Inquiry;
use counter_fakes::FailingBook;
use desk::Command;
use store::{Book, Store};

/// Runs a list of commands by which an account asks for deposits.
fn call_shows<B: Book + Drop>(bench: &mut Bench<'_, B>, words: &mut Words<'_>) {
    if let Some(desk) = &mut bench.desk
        && let Some(account) = bench.setting.account(words.next())
    {
        let count = words.number();
        tell_shows(bench.printer, desk, account, count, &mut bench.tools.signer);
    }
}

/// Makes a call of the store.
fn call_store<B: Kept>(bench: &mut Bench<'_, B>, words: &mut Words<'_>) {
    match &mut bench.desk {
        Some(desk) => stores::call(bench.printer, desk.store(), words),
        None => bench.printer.line("  no store"),
    }
}

/// Makes a call of an extract for an account.
fn call_audit<B: Book + Drop>(bench: &mut Bench<'_, B>, words: &mut Words<'_>) {
    let word = words.next();
    let account = bench.setting.account(words.next());
    if let Some(desk) = &mut bench.desk
        && let Some(account) = account
    {
        let asked = Inquiry {
            policy: &bench.setting.policy,
            account,
            from: words.number(),
            to: words.number(),
        };
        let mut extracting = Extracting {
            printer: bench.printer,
            store: desk.store(),
            asked,
        };
        extracting.call(word, words, &mut bench.tools.room);
    }
}

/// Has the request that was put together answered.
fn serve<B: Book + Drop>(bench: &mut Bench<'_, B>, word: &str, size: usize) {
    if let Some(desk) = &mut bench.desk {
        let answering = Answering {
            printer: bench.printer,
            desk,
            signer: &mut bench.tools.signer,
            room: &mut bench.tools.room,
        };
        answering.call(word, &bench.tools.request, size);
    }
}

/// Has a request answered.
fn call_service<B: Book + Drop>(bench: &mut Bench<'_, B>, word: &str, words: &mut Words<'_>) {
    let size = words.number() as usize;
    bench.tools.request.clear();
    let names = bench.printer.names;
    if names.fill(words.rest, &mut bench.tools.request).is_ok() {
        serve(bench, word, size);
    }
}

/// Makes a call of the desk that its commands haven't, if there is one.
fn call_desk<B: Book + Drop>(bench: &mut Bench<'_, B>, word: &str, words: &mut Words<'_>) {
    let (printer, account) = (bench.printer, bench.setting.account(words.next()));
    let query = printer.names.octets(words.next());
    if let Some(desk) = &mut bench.desk {
        let signer = &mut bench.tools.signer;
        match word {
            "backwards" => finish_backwards(printer, desk, account, query, signer),
            "leave" => leave(printer, desk, account, query),
            _ => {
                let reply = printer.names.octets(words.next());
                tell_fronts(printer, desk, account, query, reply, signer);
            }
        }
    }
}

/// Makes the call of a command, if there is a desk, or collects it where a run has begun.
fn perform<'p, B: Book + Drop>(bench: &mut Bench<'p, B>, command: Command<'p, 'p>) {
    if let Some(commands) = &mut bench.commands {
        let _ = commands.push(command);
    } else if let Some(desk) = &mut bench.desk {
        desks::call(bench.printer, desk, command, &mut bench.tools.signer);
    }
}

/// Runs the commands that were collected, if there is a desk.
fn run<B: Book + Drop>(bench: &mut Bench<'_, B>) {
    if let Some(commands) = bench.commands.take()
        && let Some(desk) = &mut bench.desk
    {
        run_all(bench.printer, desk, &commands, &mut bench.tools.signer);
    }
}

fn tell_signer(printer: Printer<'_>, tools: &Tools) {
    printer.number("calls", tools.signer.calls);
    printer.number("faults", tools.signer.faults);
}

/// Makes the call of a desk's command that the words spell.
fn call_command<'p, B: Book + Drop>(bench: &mut Bench<'p, B>, word: &str, words: &mut Words<'p>) {
    match command_of(bench.printer.names, bench.setting, word, words) {
        Some(command) => perform(bench, command),
        None => bench.printer.line("  no such call"),
    }
}

/// Makes the call of a line that asks a desk, or what it stands on.
fn call_above<'p, B: Kept>(bench: &mut Bench<'p, B>, word: &str, words: &mut Words<'p>) {
    match word {
        "store" => call_store(bench, words),
        "audit" => call_audit(bench, words),
        "begin" => bench.commands = Some(Vec::new(bench.alloc)),
        "run" => run(bench),
        "shows" => call_shows(bench, words),
        "holder" => tell_signer(bench.printer, &bench.tools),
        "serve" | "cut" | "fail" | "end" => call_service(bench, word, words),
        "backwards" | "leave" | "fronts" => call_desk(bench, word, words),
        "laws" => laws::call(),
        "numbers" => laws::number(bench.printer),
        _ => call_command(bench, word, words),
    }
}

/// Makes the call of a line.
fn call<'p, B: Kept + Connected>(bench: &mut Bench<'p, B>, line: &'p str) {
    let mut words = Words { rest: line };
    match words.next() {
        "#" | "policy" | "other" | "signer" | "identity" | "next" => {}
        "connect" => connect(bench),
        "create" => make(bench, &mut words),
        "adopt" => take(bench),
        "part" => part(bench),
        "ask" => ask(bench, words.rest),
        "execute" => execute(bench, words.rest),
        "tables" => table_calls::call(bench, &mut words),
        "rows" => rows::tell(bench, words.rest),
        "mark" => mark(bench.alloc, MARK),
        "unmark" => mark(bench.alloc, UNMARK),
        word => call_above(bench, word, &mut words),
    }
}

/// Plays a scenario over a store of that type.
fn play_over<'p, B: Kept + Connected>(
    printer: Printer<'p>,
    setting: &'p Setting,
    scenario: &'p str,
    tools: Tools,
) {
    let mut bench: Bench<'p, B> = Bench {
        alloc: printer.alloc(),
        printer,
        setting,
        conn: None,
        desk: None,
        tables: None,
        commands: None,
        tools,
    };
    for line in scenario.lines() {
        printer.line(line);
        call(&mut bench, line);
    }
    printer.line("");
}

fn play_under<'p>(printer: Printer<'p>, setting: &'p Setting, scenario: &'p str) {
    match tools_of(printer.alloc(), scenario) {
        Some(tools) => play_over::<FailingBook<Store<Place>>>(printer, setting, scenario, tools),
        None => printer.line("no signer"),
    }
}

fn play_one<'p>(printer: Printer<'p>, scenario: &'p str) {
    match setting_of(printer.alloc(), printer.names, scenario) {
        Some(setting) => play_under(printer, &setting, scenario),
        None => printer.line("no setting"),
    }
}

/// Plays the scenarios of a text, which are parted by empty lines and begin with a line `# TITLE`.
pub fn play<'p>(rt: &'p HostRuntime, names: &'p Names, text: &'p str) {
    let printer = Printer { rt, names };
    for scenario in text.split("\n\n") {
        if scenario.starts_with('#') {
            play_one(printer, scenario);
        }
    }
}
