//! The commands of the program and their arguments, as `clap` is told of them.

ghost use Rattle.std.specs.Prelude.{◌≡◌, [], ◌∷◌, IfOk, Some, codes, false, true};
ghost use Rattle.clap.specs.Words.{App, Shape, app_of, new_rule, rule_of, with_subcommand};
ghost use Rattle.jdf_words.specs.Commands.{all_rule, at_rule, body_rule, check_rules, lone_command};
ghost use Rattle.jdf_words.specs.Commands.{program_without_commands};
ghost use Rattle.jdf_words.specs.Commands.{clients_rule, command, edit_rules, file_rule, flag_rule};
ghost use Rattle.jdf_words.specs.Commands.{from_rule, jdf, journal_rule, kind_rule, limit_rule};
ghost use Rattle.jdf_words.specs.Commands.{list_rules, listen_rule, memory_rule, message_rule};
ghost use Rattle.jdf_words.specs.Commands.{moment_rule, new_rules, option_rule, order_rules};
ghost use Rattle.jdf_words.specs.Commands.{orders_rule};
ghost use Rattle.jdf_words.specs.Commands.{page_rule, peers_rule, picture_rule, refusal_rule};
ghost use Rattle.jdf_words.specs.Commands.{requests_rule, send_rule, send_rules};
ghost use Rattle.jdf_words.specs.Commands.{sender_field_rule, serve_rules, show_rules, take_rules};
ghost use Rattle.jdf_words.specs.Commands.{url_rule};

use crate::help::{self, Help};
use clap::builder::ValueParser;
use clap::{Arg, ArgAction, Command};
use std::alloc::{AllocError, Global};

/// An argument without an option's name, which may be there.
fn place_argument<'a>(alloc: Global, name: &'a str, help: &'a str) -> Arg<'a>
    ensures rule { rule_of result ≡ new_rule name.entry.now }
    ensures local { result.global ≡ false }
{
    Arg::new(alloc, name).help(help)
}

/// FILE, which has to be there.
fn file_argument<'a>(alloc: Global) -> Arg<'a>
    ensures rule { rule_of result ≡ file_rule }
    ensures local { result.global ≡ false }
{
    place_argument(
        alloc,
        "FILE",
        "The file that the controller is kept in, or its place: etcd://HOST:PORT/NAME",
    )
    .required(true)
}

/// An option that takes a text.
fn option_argument<'a>(alloc: Global, name: &'a str, value_name: &'a str, help: &'a str) -> Arg<'a>
    ensures rule { rule_of result ≡ option_rule name.entry.now }
    ensures local { result.global ≡ false }
{
    place_argument(alloc, name, help)
        .long(name)
        .value_name(value_name)
}

/// An option that takes a number, as this parser reads it.
fn number_argument<'a>(
    alloc: Global,
    name: &'a str,
    value_name: &'a str,
    parser: ValueParser<'a>,
    help: &'a str,
) -> Arg<'a>
    ensures rule { rule_of result
        ≡ record (option_rule name.entry.now) { parser = Some parser.entry } }
    ensures local { result.global ≡ false }
{
    option_argument(alloc, name, value_name, help).value_parser(parser)
}

/// `--at N`, which has to be there.
fn at_argument<'a>(alloc: Global) -> Arg<'a>
    ensures rule { rule_of result ≡ at_rule }
    ensures local { result.global ≡ false }
{
    let parser = clap::value_parser!(u64).range(0..=9_999_999_999);
    number_argument(
        alloc,
        "at",
        "N",
        parser,
        "The time, in whole seconds since the beginning of 1970",
    )
    .required(true)
}

/// `--send URL`.
fn send_argument<'a>(alloc: Global) -> Arg<'a>
    ensures rule { rule_of result ≡ send_rule }
    ensures local { result.global ≡ false }
{
    option_argument(
        alloc,
        "send",
        "URL",
        "The address of the controller that the message is sent to, which answers it, or @PEERS",
    )
}

/// `--from INPUT`.
fn from_argument<'a>(alloc: Global) -> Arg<'a>
    ensures rule { rule_of result ≡ from_rule }
    ensures local { result.global ≡ false }
{
    option_argument(
        alloc,
        "from",
        "INPUT",
        "The file to read in place of standard input; - is standard input",
    )
}

/// `--journal JOURNAL`.
fn journal_argument<'a>(alloc: Global) -> Arg<'a>
    ensures rule { rule_of result ≡ journal_rule }
    ensures local { result.global ≡ false }
{
    option_argument(
        alloc,
        "journal",
        "JOURNAL",
        "The file that gets a line for each step",
    )
}

/// An option that takes nothing.
fn flag_argument<'a>(alloc: Global, name: &'a str, help: &'a str) -> Arg<'a>
    ensures rule { rule_of result ≡ flag_rule name.entry.now }
    ensures local { result.global ≡ false }
{
    place_argument(alloc, name, help)
        .long(name)
        .action(ArgAction::SetTrue)
}

/// `--picture`.
fn picture_argument<'a>(alloc: Global) -> Arg<'a>
    ensures rule { rule_of result ≡ picture_rule }
    ensures local { result.global ≡ false }
{
    flag_argument(alloc, "picture", "Prints a picture, as SVG")
}

/// `--at N`, which may be there.
fn moment_argument<'a>(alloc: Global) -> Arg<'a>
    ensures rule { rule_of result ≡ moment_rule }
    ensures local { result.global ≡ false }
{
    let parser = clap::value_parser!(u64).range(0..=9_999_999_999);
    number_argument(
        alloc,
        "at",
        "N",
        parser,
        "The time that spans are counted to, in whole seconds since 1970; the clock's if none\n\
        is named",
    )
}

/// KIND, which may be there.
fn kind_argument<'a>(alloc: Global) -> Arg<'a>
    ensures rule { rule_of result ≡ kind_rule }
    ensures local { result.global ≡ false }
{
    place_argument(
        alloc,
        "KIND",
        "What it is: ticket, edits, order, message, script, opening or state; by its members if\n\
        none is named",
    )
}

/// `--all`.
fn all_argument<'a>(alloc: Global) -> Arg<'a>
    ensures rule { rule_of result ≡ all_rule }
    ensures local { result.global ≡ false }
{
    flag_argument(
        alloc,
        "all",
        "Prints each place that is wrong, and not the first alone",
    )
}

/// N, which has to be there.
fn refusal_argument<'a>(alloc: Global) -> Arg<'a>
    ensures rule { rule_of result ≡ refusal_rule }
    ensures local { result.global ≡ false }
{
    place_argument(alloc, "N", "The refusal's number").required(true)
}

/// `--listen ADDR`, which has to be there.
fn listen_argument<'a>(alloc: Global) -> Arg<'a>
    ensures rule { rule_of result ≡ listen_rule }
    ensures local { result.global ≡ false }
{
    option_argument(
        alloc,
        "listen",
        "ADDR",
        "The address to listen on, as 127.0.0.1:8010",
    )
    .required(true)
}

/// `--limit SECONDS`.
fn limit_argument<'a>(alloc: Global) -> Arg<'a>
    ensures rule { rule_of result ≡ limit_rule }
    ensures local { result.global ≡ false }
{
    let parser = clap::value_parser!(u64).range(1..=3600);
    number_argument(
        alloc,
        "limit",
        "SECONDS",
        parser,
        "The longest time for a connection, from 1 to 3600 seconds; 5 if none is named",
    )
}

/// `--clients COUNT`.
fn clients_argument<'a>(alloc: Global) -> Arg<'a>
    ensures rule { rule_of result ≡ clients_rule }
    ensures local { result.global ≡ false }
{
    let parser = clap::value_parser!(u64).range(1..=65_536);
    number_argument(
        alloc,
        "clients",
        "COUNT",
        parser,
        "How many connections are held at most, from 1 to 65536; 1024 if none is named",
    )
}

/// `--body BYTES`.
fn body_argument<'a>(alloc: Global) -> Arg<'a>
    ensures rule { rule_of result ≡ body_rule }
    ensures local { result.global ≡ false }
{
    let parser = clap::value_parser!(u64).range(1..=1_073_741_824);
    number_argument(
        alloc,
        "body",
        "BYTES",
        parser,
        "How large a message may be, from 1 to 1073741824 bytes; 67108864 if none is named",
    )
}

/// `--memory BYTES`.
fn memory_argument<'a>(alloc: Global) -> Arg<'a>
    ensures rule { rule_of result ≡ memory_rule }
    ensures local { result.global ≡ false }
{
    let parser = clap::value_parser!(u64).range(1_048_576..=1_099_511_627_776);
    number_argument(
        alloc,
        "memory",
        "BYTES",
        parser,
        "How much memory requests and kept controllers may take together, from 1048576 to\n\
        1099511627776 bytes; 268435456 if none is named",
    )
}

/// `--requests COUNT`.
fn requests_argument<'a>(alloc: Global) -> Arg<'a>
    ensures rule { rule_of result ≡ requests_rule }
    ensures local { result.global ≡ false }
{
    let parser = clap::value_parser!(u64).range(1..);
    number_argument(
        alloc,
        "requests",
        "COUNT",
        parser,
        "How many connections to answer; no end if none is named",
    )
}

/// `--peers PEERS`.
fn peers_argument<'a>(alloc: Global) -> Arg<'a>
    ensures rule { rule_of result ≡ peers_rule }
    ensures local { result.global ≡ false }
{
    option_argument(
        alloc,
        "peers",
        "PEERS",
        "The file that tells where other controllers are: messages go there by themselves",
    )
}

/// `--sender-field NAME`.
fn sender_field_argument<'a>(alloc: Global) -> Arg<'a>
    ensures rule { rule_of result ≡ sender_field_rule }
    ensures local { result.global ≡ false }
{
    option_argument(
        alloc,
        "sender-field",
        "NAME",
        "The header field in which a proxy tells who sends; another's messages are refused",
    )
}

/// `--page ADDR`.
fn page_argument<'a>(alloc: Global) -> Arg<'a>
    ensures rule { rule_of result ≡ page_rule }
    ensures local { result.global ≡ false }
{
    option_argument(
        alloc,
        "page",
        "ADDR",
        "The address of the page on which people see what is where: host and port, or a port",
    )
}

/// `--orders SOCKET`.
fn orders_argument<'a>(alloc: Global) -> Arg<'a>
    ensures rule { rule_of result ≡ orders_rule }
    ensures local { result.global ≡ false }
{
    option_argument(
        alloc,
        "orders",
        "SOCKET",
        "The path of a local socket over which its owner gives orders",
    )
}

/// URL, which has to be there.
fn url_argument<'a>(alloc: Global) -> Arg<'a>
    ensures rule { rule_of result ≡ url_rule }
    ensures local { result.global ≡ false }
{
    place_argument(
        alloc,
        "URL",
        "The address of the controller, as http://127.0.0.1:8010/jmf, or @PEERS",
    )
    .required(true)
}

/// FILE, which may be there.
fn message_argument<'a>(alloc: Global) -> Arg<'a>
    ensures rule { rule_of result ≡ message_rule }
    ensures local { result.global ≡ false }
{
    place_argument(
        alloc,
        "FILE",
        "The file that the message is in; standard input if none is named, or if it is -",
    )
}

/// A command with no argument.
fn plain_command<'a>(alloc: Global, name: &'a str, help: Help) -> Command<'a>
    ensures { app_of result ≡ lone_command (command name.entry.now []) }
{
    Command::new(alloc, name)
        .about(help.about)
        .long_about(help.long_about)
        .after_help(help.example)
}

/// A command on a FILE.
fn file_command<'a>(alloc: Global, name: &'a str, help: Help) -> Result<Command<'a>, AllocError>
    ensures { IfOk result (λ made. app_of made
        ≡ lone_command (command name.entry.now (file_rule ∷ []))) }
{
    plain_command(alloc, name, help).arg(file_argument(alloc))
}

/// A command on a FILE at a time.
fn timed_command<'a>(alloc: Global, name: &'a str, help: Help) -> Result<Command<'a>, AllocError>
    ensures { IfOk result (λ made. app_of made
        ≡ lone_command (command name.entry.now (file_rule ∷ at_rule ∷ []))) }
{
    file_command(alloc, name, help)?.arg(at_argument(alloc))
}

/// The command that edits a ticket.
fn edit_command<'a>(alloc: Global) -> Result<Command<'a>, AllocError>
    ensures { IfOk result (λ made. app_of made ≡ lone_command (command (codes "edit") edit_rules)) }
{
    plain_command(alloc, "edit", help::EDIT).arg(from_argument(alloc))
}

/// The command that begins a controller.
fn new_command<'a>(alloc: Global) -> Result<Command<'a>, AllocError>
    ensures { IfOk result (λ made. app_of made ≡ lone_command (command (codes "new") new_rules)) }
{
    file_command(alloc, "new", help::NEW)?.arg(from_argument(alloc))
}

/// The command that gives an order.
fn order_command<'a>(alloc: Global) -> Result<Command<'a>, AllocError>
    ensures { IfOk result (λ made. app_of made
        ≡ lone_command (command (codes "order") order_rules)) }
{
    timed_command(alloc, "order", help::ORDER)?
        .arg(send_argument(alloc))?
        .arg(from_argument(alloc))?
        .arg(journal_argument(alloc))
}

/// The command that hands over a message.
fn take_command<'a>(alloc: Global) -> Result<Command<'a>, AllocError>
    ensures { IfOk result (λ made. app_of made ≡ lone_command (command (codes "take") take_rules)) }
{
    timed_command(alloc, "take", help::TAKE)?
        .arg(from_argument(alloc))?
        .arg(journal_argument(alloc))
}

/// The command that shows a FILE.
fn show_command<'a>(alloc: Global) -> Result<Command<'a>, AllocError>
    ensures { IfOk result (λ made. app_of made ≡ lone_command (command (codes "show") show_rules)) }
{
    file_command(alloc, "show", help::SHOW)?
        .arg(picture_argument(alloc))?
        .arg(moment_argument(alloc))
}

/// `--open`.
fn open_argument<'a>(alloc: Global) -> Arg<'a>
    ensures rule { rule_of result ≡ flag_rule (codes "open") }
    ensures local { result.global ≡ false }
{
    flag_argument(alloc, "open", "Lists only what is open")
}

/// `--json`.
fn json_argument<'a>(alloc: Global) -> Arg<'a>
    ensures rule { rule_of result ≡ flag_rule (codes "json") }
    ensures local { result.global ≡ false }
{
    flag_argument(alloc, "json", "Prints JSON, one value on each line")
}

/// The command that lists what is out.
fn list_command<'a>(alloc: Global) -> Result<Command<'a>, AllocError>
    ensures { IfOk result (λ made. app_of made ≡ lone_command (command (codes "list") list_rules)) }
{
    file_command(alloc, "list", help::LIST)?
        .arg(moment_argument(alloc))?
        .arg(open_argument(alloc))?
        .arg(json_argument(alloc))
}

/// The command that checks a document.
fn check_command<'a>(alloc: Global) -> Result<Command<'a>, AllocError>
    ensures { IfOk result (λ made. app_of made
        ≡ lone_command (command (codes "check") check_rules)) }
{
    plain_command(alloc, "check", help::CHECK)
        .arg(kind_argument(alloc))?
        .arg(all_argument(alloc))
}

/// The command that explains a refusal.
fn explain_command<'a>(alloc: Global) -> Result<Command<'a>, AllocError>
    ensures { IfOk result (λ made. app_of made
        ≡ lone_command (command (codes "explain") (refusal_rule ∷ []))) }
{
    plain_command(alloc, "explain", help::EXPLAIN).arg(refusal_argument(alloc))
}

/// The command that serves a FILE.
fn serve_command<'a>(alloc: Global) -> Result<Command<'a>, AllocError>
    ensures { IfOk result (λ made. app_of made
        ≡ lone_command (command (codes "serve") serve_rules)) }
{
    file_command(alloc, "serve", help::SERVE)?
        .arg(listen_argument(alloc))?
        .arg(limit_argument(alloc))?
        .arg(clients_argument(alloc))?
        .arg(body_argument(alloc))?
        .arg(memory_argument(alloc))?
        .arg(requests_argument(alloc))?
        .arg(peers_argument(alloc))?
        .arg(sender_field_argument(alloc))?
        .arg(journal_argument(alloc))?
        .arg(page_argument(alloc))?
        .arg(orders_argument(alloc))
}

/// The command that sends to a URL.
fn send_command<'a>(alloc: Global) -> Result<Command<'a>, AllocError>
    ensures { IfOk result (λ made. app_of made ≡ lone_command (command (codes "send") send_rules)) }
{
    plain_command(alloc, "send", help::SEND)
        .arg(url_argument(alloc))?
        .arg(message_argument(alloc))
}

/// The program before it has commands: its words come without its name, and name a command; it
/// tells its version.
fn program_without_commands<'a>(alloc: Global) -> Result<Command<'a>, AllocError>
    ensures { IfOk result (λ made. app_of made ≡ program_without_commands) }
{
    Command::new(alloc, "jdf_cli")
        .about(help::PROGRAM)
        .version(help::VERSION)
        .after_help(help::EXAMPLES)
        .no_binary_name(true)
        .subcommand_required(true)
        .bin_name("jdf_cli")
}

/// The program with one more command, where both could be made.
fn with_command<'a>(
    program: Result<Command<'a>, AllocError>,
    command: Result<Command<'a>, AllocError>,
) -> Result<Command<'a>, AllocError>
    ensures { (before : App) (added : Shape) → added.is_plain ≡ true
        → IfOk program.entry (λ p. app_of p ≡ before)
        → IfOk command.entry (λ c. app_of c ≡ lone_command added)
        → IfOk result (λ made. app_of made ≡ with_subcommand before added) }
{
    program?.subcommand(command?)
}

/// The program, its commands and their arguments.
pub(crate) fn jdf<'a>(alloc: Global) -> Result<Command<'a>, AllocError>
    ensures { IfOk result (λ made. app_of made ≡ jdf) }
{
    let program = with_command(program_without_commands(alloc), edit_command(alloc));
    let program = with_command(program, Ok(plain_command(alloc, "world", help::WORLD)));
    let program = with_command(program, Ok(plain_command(alloc, "loop", help::LOOP)));
    let program = with_command(program, new_command(alloc));
    let program = with_command(program, order_command(alloc));
    let program = with_command(program, take_command(alloc));
    let program = with_command(program, show_command(alloc));
    let program = with_command(program, list_command(alloc));
    let program = with_command(program, check_command(alloc));
    let program = with_command(program, explain_command(alloc));
    let program = with_command(program, serve_command(alloc));
    with_command(program, send_command(alloc))
}
