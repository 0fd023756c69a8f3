//! The call that words stand for.

ghost use Rattle.std.specs.Prelude.{◌≡◌, ◌≢◌, ◌≤◌, ℕ, [], IfErr, IfOk, IfSome, IsOk, IsSomeAnd};
ghost use Rattle.std.specs.Prelude.{MatchResult, Some, codes, map, option_map, string_bytes, true};
ghost use Rattle.clap.specs.Words.{fault_of, found_of, rows_of, subcommand_of, subcommand_rows_of};
ghost use Rattle.clap.specs.Words.{first_of, one_of, takes};
ghost use Rattle.jdf_words.specs.Calls as calls;
ghost use Rattle.jdf_words.specs.Calls.{AreLimits, HasAt, HasFile, HasServing, HasText, IsCall};
ghost use Rattle.jdf_words.specs.Calls.{IsEdit, IsInvocation, IsNumberOr, IsWithin, MayHaveAt};
ghost use Rattle.jdf_words.specs.Calls.{Means, ReadsNumber, Tells, number_of};
ghost use Rattle.jdf_words.specs.Commands.{jdf};
ghost use Rattle.jdf_words.specs.declared.call_fault.CallFault.TheVariants.{Memory};

use crate::call::Call;
use crate::call_fault::CallFault;
use crate::commands;
use crate::document_call::DocumentCall;
use crate::invocation::Invocation;
use crate::kept_call::KeptCall;
use crate::network_call::NetworkCall;
use crate::serve_limits::ServeLimits;
use clap::ArgMatches;
use std::alloc::Global;

/// The argument of a name among those that were found, where it is there.
fn text_in<'a>(found: &ArgMatches<'a>, id: &str) -> Option<&'a str>
    ensures { option_map (λ text. text.now) result
        ≡ first_of id.now (rows_of (found_of found.now)) }
{
    found.get_str(id)
}

/// Whether the flag of a name is set among the arguments that were found.
fn is_set(found: &ArgMatches<'_>, id: &str) -> bool
    ensures { result ≡ calls.is_set id.now (rows_of (found_of found.now)) }
{
    match text_in(found, id) {
        None => false,
        Some(text) => text == "true",
    }
}

/// FILE among the arguments that were found.
fn file_in<'a>(found: &ArgMatches<'a>) -> &'a str
    requires { HasFile (rows_of (found_of found.now)) }
    ensures { first_of (codes "FILE") (rows_of (found_of found.now)) ≡ Some result.now }
{
    text_in(found, "FILE").unwrap()
}

/// The number of a name among the arguments that were found, where it is there.
fn number_in(found: &ArgMatches<'_>, id: &str) -> Option<u64>
    ensures { ReadsNumber (one_of id.now (rows_of (found_of found.now))) result }
{
    found.get_one::<u64>(id)
}

/// N among the arguments that were found.
fn at_in(found: &ArgMatches<'_>) -> u64
    requires { HasAt (rows_of (found_of found.now)) }
    ensures number { option_map number_of (one_of (codes "at") (rows_of (found_of found.now)))
        ≡ Some result }
    ensures time { result ≤ 9999999999 }
{
    number_in(found, "at").unwrap()
}

/// The number of a name among the arguments of `serve` that were found, another where it isn't
/// there.
fn number_or(found: &ArgMatches<'_>, id: &str, otherwise: u64) -> u64
    ensures { (low high : ℕ) → IsWithin id.now low high (rows_of (found_of found.now))
        → low ≤ otherwise → otherwise ≤ high → IsNumberOr id.now otherwise low high result
        (Some (codes "serve", rows_of (found_of found.now))) }
{
    number_in(found, id).unwrap_or(otherwise)
}

/// The limits among the arguments of `serve` that were found.
fn limits_in(found: &ArgMatches<'_>) -> ServeLimits
    requires { HasServing (rows_of (found_of found.now)) }
    ensures { AreLimits result (Some (codes "serve", rows_of (found_of found.now))) }
{
    ServeLimits {
        seconds: number_or(found, "limit", 5),
        clients: number_or(found, "clients", 1_024),
        body: number_or(found, "body", 67_108_864),
        memory: number_or(found, "memory", 268_435_456),
    }
}

/// The number of requests among the arguments that were found, where it is there.
fn requests_in(found: &ArgMatches<'_>) -> Option<u64>
    requires { IsWithin (codes "requests") 1 18446744073709551615 (rows_of (found_of found.now)) }
    ensures number { result
        ≡ option_map number_of (one_of (codes "requests") (rows_of (found_of found.now))) }
    ensures least { IfSome result (λ n. 1 ≤ n) }
{
    number_in(found, "requests")
}

/// The call of `order` with these arguments.
fn order_of<'a>(found: &ArgMatches<'a>) -> Call<'a>
    requires file { HasFile (rows_of (found_of found.now)) }
    requires at { HasAt (rows_of (found_of found.now)) }
    ensures { Means result (Some (codes "order", rows_of (found_of found.now))) }
{
    let file = file_in(found);
    let at = at_in(found);
    match text_in(found, "send") {
        None => Call::Kept {
            file,
            call: KeptCall::Order { at },
        },
        Some(url) => Call::Network(NetworkCall::SendOrder { file, at, url }),
    }
}

/// The call of `check` with these arguments.
fn check_of<'a>(found: &ArgMatches<'a>) -> Call<'a>
    ensures { Means result (Some (codes "check", rows_of (found_of found.now))) }
{
    Call::Document(DocumentCall::Check {
        kind: text_in(found, "KIND"),
        all: is_set(found, "all"),
    })
}

/// The call of `explain` with these arguments.
fn explain_of<'a>(found: &ArgMatches<'a>) -> Call<'a>
    requires { HasText (codes "N") (rows_of (found_of found.now)) }
    ensures { Means result (Some (codes "explain", rows_of (found_of found.now))) }
{
    Call::Document(DocumentCall::Explain {
        number: text_in(found, "N").unwrap(),
    })
}

/// The call of `serve` with these arguments.
fn serve_of<'a>(found: &ArgMatches<'a>) -> Call<'a>
    requires file { HasFile (rows_of (found_of found.now)) }
    requires serving { HasServing (rows_of (found_of found.now)) }
    ensures { Means result (Some (codes "serve", rows_of (found_of found.now))) }
{
    Call::Network(NetworkCall::Serve {
        file: file_in(found),
        listen: text_in(found, "listen").unwrap(),
        limits: limits_in(found),
        requests: requests_in(found),
        peers: text_in(found, "peers"),
        sender_field: text_in(found, "sender-field"),
    })
}

/// The call of `send` with these arguments.
fn send_of<'a>(found: &ArgMatches<'a>) -> Call<'a>
    requires { HasText (codes "URL") (rows_of (found_of found.now)) }
    ensures { Means result (Some (codes "send", rows_of (found_of found.now))) }
{
    Call::Network(NetworkCall::Send {
        url: text_in(found, "URL").unwrap(),
        file: text_in(found, "FILE"),
    })
}

/// N among the arguments that were found, where it is there.
fn moment_in(found: &ArgMatches<'_>) -> Option<u64>
    requires { MayHaveAt (rows_of (found_of found.now)) }
    ensures number { result
        ≡ option_map number_of (one_of (codes "at") (rows_of (found_of found.now))) }
    ensures time { IfSome result (λ n. n ≤ 9999999999) }
{
    number_in(found, "at")
}

/// The call of `show` with these arguments.
fn show_of<'a>(found: &ArgMatches<'a>) -> Call<'a>
    requires file { HasFile (rows_of (found_of found.now)) }
    requires at { MayHaveAt (rows_of (found_of found.now)) }
    ensures { Means result (Some (codes "show", rows_of (found_of found.now))) }
{
    Call::Kept {
        file: file_in(found),
        call: KeptCall::Show {
            picture: is_set(found, "picture"),
            at: moment_in(found),
        },
    }
}

/// The call of `list` with these arguments.
fn list_of<'a>(found: &ArgMatches<'a>) -> Call<'a>
    requires file { HasFile (rows_of (found_of found.now)) }
    requires at { MayHaveAt (rows_of (found_of found.now)) }
    ensures { Means result (Some (codes "list", rows_of (found_of found.now))) }
{
    Call::Kept {
        file: file_in(found),
        call: KeptCall::List {
            at: moment_in(found),
            is_open: is_set(found, "open"),
            is_json: is_set(found, "json"),
        },
    }
}

/// The call for the command of this name with these arguments.
fn call_of<'a>(name: &str, found: &ArgMatches<'a>) -> Call<'a>
    requires { IsCall (name.now, rows_of (found_of found.now)) }
    ensures { Means result (Some (name.now, rows_of (found_of found.now))) }
{
    match name {
        "edit" => Call::Document(DocumentCall::Edit),
        "world" => Call::Document(DocumentCall::World),
        "loop" => Call::Network(NetworkCall::Loop),
        "new" => Call::Kept {
            file: file_in(found),
            call: KeptCall::New,
        },
        "order" => order_of(found),
        "take" => Call::Kept {
            file: file_in(found),
            call: KeptCall::Take { at: at_in(found) },
        },
        "show" => show_of(found),
        "check" => check_of(found),
        "explain" => explain_of(found),
        "serve" => serve_of(found),
        "send" => send_of(found),
        "list" => list_of(found),
        _ => unreachable!(),
    }
}

/// The call for the command that was found, and its paths.
fn invocation_in<'a>(matches: &ArgMatches<'a>) -> Invocation<'a>
    requires { IsSomeAnd (subcommand_rows_of matches.now) IsCall }
    ensures { IsInvocation result (subcommand_rows_of matches.now) }
{
    let (name, found) = matches.subcommand().unwrap();
    Invocation {
        call: call_of(name, found),
        from: text_in(found, "from"),
        journal: text_in(found, "journal"),
        page: text_in(found, "page"),
        orders: text_in(found, "orders"),
    }
}

/// What the words of the command line stand for, which come without the program's name: a call,
/// and its paths.
///
/// No word at all is `edit`; any others are read by `clap`, as `edit [--from INPUT]`, `world`,
/// `loop`, `new FILE [--from INPUT]`,
/// `order FILE --at N [--send URL] [--from INPUT] [--journal JOURNAL]`,
/// `take FILE --at N [--from INPUT] [--journal JOURNAL]`, `show FILE [--picture] [--at N]`,
/// `check [KIND] [--all]`, `explain N`, `list FILE [--at N] [--open] [--json]`,
/// `serve FILE --listen ADDR [--limit SECONDS] [--clients COUNT] [--body BYTES] [--memory BYTES]
/// [--requests COUNT] [--peers PEERS] [--sender-field NAME] [--journal JOURNAL] [--page ADDR]
/// [--orders SOCKET]` or
/// `send URL [FILE]`. FILE, INPUT, JOURNAL, KIND, ADDR, PEERS, NAME, URL and the N of `explain`
/// are any text, the other N a whole number of seconds since 1970 of at most 9,999,999,999, and
/// what else `serve` takes are whole numbers within the bounds of `ServeLimits`, that of requests
/// at least 1. Other words, and those that ask for help or the version, are answered with `clap`'s
/// fault.
pub fn command_of<'a>(alloc: Global, words: &'a [String]) -> Result<Invocation<'a>, CallFault>
    // Proved: A call is what `clap` states of the words, its time at most 9,999,999,999, its limit
    // of 1 to 3,600, its number of requests 1 or more; no word is `edit`.
    // By `edit`, `named`.
    ensures edit { words.entry.now ≡ [] → IsOk result }
    ensures named { IfOk result (λ invocation. (words.entry.now ≡ [] → IsEdit invocation)
        × (words.entry.now ≢ []
        → IsInvocation invocation (subcommand_of jdf (map string_bytes words.entry.now)))) }
    // Proved: Words that `clap` takes fail for memory alone; else its fault is told.
    // By `passes`, `kinds`.
    ensures passes { IfErr result (λ fault. takes jdf (map string_bytes words.entry.now) ≡ true
        → fault ≡ Memory) }
    ensures kinds { words.entry.now ≢ []
        → MatchResult result (λ _. fault_of jdf (map string_bytes words.entry.now) ≡ [])
        (Tells (fault_of jdf (map string_bytes words.entry.now))) }
{
    if words.is_empty() {
        return Ok(Invocation {
            call: Call::Document(DocumentCall::Edit),
            from: None,
            journal: None,
            page: None,
            orders: None,
        });
    }
    let matches = commands::jdf(alloc)?.try_get_matches_from(words)?;
    Ok(invocation_in(&matches))
}
