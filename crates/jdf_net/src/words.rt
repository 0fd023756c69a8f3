//! The words of the command line.

ghost use Rattle.std.specs.Prelude.{◌≡◌, IfErr, IfOk, false, map, option_map, string_bytes};
ghost use Rattle.clap.specs.Words.{kind_of};
ghost use Rattle.ticket_items.specs.declared.refusal.Refusal.TheVariants.{Memory};
ghost use Rattle.streams.specs.declared.fault.Fault.TheVariants.{Input};
ghost use Rattle.streams.specs.declared.refused.Refused.TheVariants.{Core};
ghost use Rattle.jdf_words.specs.Calls as calls;
ghost use Rattle.jdf_send.specs.InputFile.{file_of as file_in};
ghost use Rattle.jdf_net.specs.Words.{EndsAnswer, EndsAnyCall, EndsFrom};
ghost use Rattle.jdf_net.specs.Words.{EndsFromFile, EndsJournaled};
ghost use Rattle.jdf_net.specs.Words.{EndsKept, EndsNetwork, EndsServing, EndsWithJournal};
ghost use Rattle.jdf_net.specs.Words.{EndsWords};
ghost use Rattle.jdf_net.specs.Words as ends;
ghost use Rattle.etcd_place.specs.Place.{is_etcd as is_etcd_text};
ghost use Rattle.streams.specs.Streams.{traffic};

use crate::serve_command::run_serve;
use cell_commands::{refuse_place, run_in_cell};
use document_commands::{CausedFault, give_up_caused};
use etcd_place::{EtcdPlace, is_etcd};
use file_commands::run_file;
use httparse::is_token;
use jdf_commands::run_document;
use jdf_loop::run_loop;
use jdf_send::{SendOrder, file_of, open_input, run_send, run_send_order};
use jdf_server::Service;
use jdf_words::{Call, CallFault, Invocation, KeptCall, NetworkCall, command_of, is_asked};
use journal::FileJournal;
use keepers::Locks;
use std::alloc::{Alloc, AllocError, Global};
use std::io::{Read, Write};
use std::net::Net;
use std::time::Clock;
use streams::{Counted, Fault, Output, Refused, finish, tell, write_bytes};

/// The exit status for words that stand for no call, those that ask for help among them.
pub const NO_CALL: u8 = 2;

/// What `clap` answers words with.
fn answer_output(alloc: Global, answer: &clap::Error) -> Result<Output, Fault>
    ensures done { IfOk result (λ o. o.refused ≡ false) }
    ensures memory { IfErr result (λ fault. fault ≡ Input (Core Memory)) }
{
    let mut text = Vec::new(alloc);
    text.extend_from_slice(format!(in alloc; "{answer}")?.as_bytes())?;
    Ok(Output {
        text,
        refused: false,
    })
}

/// Tells the text of `clap`'s fault, as far as `faults` takes it. Answers `NO_CALL`.
fn tell_help<F: Write>(fault: &clap::Error, faults: &mut Counted<F>) -> u8
    ensures { result ≡ NO_CALL }
{
    let _ = write!(faults, "{fault}");
    NO_CALL
}

/// Writes what words ask for that stand for no call, or tells that they stand for none. Answers the
/// exit status.
fn answer_words<W: Write, F: Write>(
    alloc: Global,
    words: &[String],
    answer: &clap::Error,
    writer: &mut Counted<W>,
    faults: &mut Counted<F>,
) -> u8
    ensures { EndsAnswer (calls.is_asked (map string_bytes words.now) (kind_of answer.now))
        (traffic W.contents writer.old writer.new)
        (traffic F.contents faults.old faults.new) result }
{
    if is_asked(words, answer) {
        finish(answer_output(alloc, answer), writer, faults)
    } else {
        tell_help(answer, faults)
    }
}

/// Runs a call on the controller that is kept in a file, or where FILE begins with `etcd://`, on
/// the one that etcd keeps there; and where that names no place, none.
fn run_kept<R: Locks + Net + Clock + Alloc + Clone + Drop, I: Read, W: Write, F: Write>(
    rt: &R,
    alloc: Global,
    file: &str,
    call: KeptCall,
    reader: &mut Counted<I>,
    writer: &mut Counted<W>,
    faults: &mut Counted<F>,
    journal: &mut FileJournal<'_, R>,
) -> u8
    ensures { EndsKept (is_etcd_text file.now) file.now call
        (traffic I.remaining reader.old reader.new)
        (traffic W.contents writer.old writer.new)
        (traffic F.contents faults.old faults.new) result }
{
    if !is_etcd(file) {
        return run_file(rt, alloc, file, call, reader, writer, faults, journal);
    }
    match EtcdPlace::of(file) {
        Some(place) => run_in_cell(rt, alloc, place, call, reader, writer, faults, journal),
        None => refuse_place(file, faults),
    }
}

/// Tells that the message of an order to a controller in etcd isn't sent by `order` itself, as far
/// as `faults` takes it. Answers `NO_CALL`.
fn refuse_sending<F: Write>(file: &str, faults: &mut Counted<F>) -> u8
    ensures { result ≡ NO_CALL }
{
    let _ = writeln!(
        faults,
        "error: invalid value '{file}' for 'FILE': `--send` wants a file"
    );
    NO_CALL
}

/// Tells that a name is none of a header field, as far as `faults` takes it. Answers `NO_CALL`.
fn refuse_field<F: Write>(name: &str, faults: &mut Counted<F>) -> u8
    ensures { result ≡ NO_CALL }
{
    let _ = writeln!(
        faults,
        "error: invalid value '{name}' for '--sender-field <NAME>': it is no name of a header field"
    );
    NO_CALL
}

/// The name of the field that is to tell who sends, where no field can have it.
fn wrong_name(field: Option<&str>) -> Option<&str>
    ensures { option_map (λ name. name.now) result
        ≡ ends.wrong_name (option_map (λ name. name.now) field.entry) }
{
    let name = field?;
    if is_token(name.as_bytes()) {
        return None;
    }
    Some(name)
}

/// Serves, unless the field that is to tell who sends has a name that no field can have: then it is
/// told so, and there is no call.
fn run_service<R: Locks + Net + Clock + Alloc + Clone + Drop, W: Write, F: Write>(
    rt: &R,
    alloc: Global,
    service: &Service<'_>,
    writer: &mut Counted<W>,
    faults: &mut Counted<F>,
) -> u8
    // Proved: `serve` reads nothing of standard input; where the name of the field that is to tell
    // who sends is no token of RFC 9110, it writes nothing either, with status 2.
    // By `run_network`.
    ensures { EndsServing (ends.wrong_name (option_map (λ name. name.now) service.now.sender_field))
        (traffic W.contents writer.old writer.new) result }
{
    match wrong_name(service.sender_field) {
        Some(name) => refuse_field(name, faults),
        None => run_serve(rt, alloc, service, writer, faults),
    }
}

/// Runs a call over the network; `serve` with the journal and the page that are named beside it.
fn run_network<R: Locks + Net + Clock + Alloc + Clone + Drop, I: Read, W: Write, F: Write>(
    rt: &R,
    alloc: Global,
    asked: &Invocation<'_>,
    call: &NetworkCall<'_>,
    reader: &mut Counted<I>,
    writer: &mut Counted<W>,
    faults: &mut Counted<F>,
    journal: &mut FileJournal<'_, R>,
) -> u8
    ensures { EndsNetwork call.now (traffic I.remaining reader.old reader.new)
        (traffic W.contents writer.old writer.new)
        (traffic F.contents faults.old faults.new) result }
{
    match call {
        NetworkCall::Loop => run_loop(rt, alloc, reader, writer, faults),
        NetworkCall::SendOrder { file, at, url } => {
            if is_etcd(file) {
                return refuse_sending(file, faults);
            }
            let order = SendOrder { file, at: *at, url };
            run_send_order(rt, alloc, &order, reader, writer, faults, journal)
        }
        NetworkCall::Serve {
            file,
            listen,
            limits,
            requests,
            peers,
            sender_field,
        } => {
            let service = Service {
                path: file,
                listen,
                limits: *limits,
                requests: *requests,
                peers: *peers,
                page: asked.page,
                orders: asked.orders,
                sender_field: *sender_field,
                journal: asked.journal,
            };
            run_service(rt, alloc, &service, writer, faults)
        }
        NetworkCall::Send { url, file } => {
            run_send(rt, alloc, url, *file, reader, writer, faults)
        }
    }
}

/// Runs a call: of a document, on a controller that is kept, or over the network.
fn run_call<R: Locks + Net + Clock + Alloc + Clone + Drop, I: Read, W: Write, F: Write>(
    rt: &R,
    alloc: Global,
    asked: &Invocation<'_>,
    reader: &mut Counted<I>,
    writer: &mut Counted<W>,
    faults: &mut Counted<F>,
    journal: &mut FileJournal<'_, R>,
) -> u8
    ensures { EndsAnyCall asked.now.call (traffic I.remaining reader.old reader.new)
        (traffic W.contents writer.old writer.new)
        (traffic F.contents faults.old faults.new) result }
{
    match &asked.call {
        Call::Document(call) => run_document(alloc, call, reader, writer, faults),
        Call::Kept { file, call } => {
            run_kept(rt, alloc, file, *call, reader, writer, faults, journal)
        }
        Call::Network(call) => {
            run_network(rt, alloc, asked, call, reader, writer, faults, journal)
        }
    }
}

/// Tells that lines aren't in the journal, if there are such, as far as `faults` takes it.
fn tell_missed<R: Locks, F: Write>(
    alloc: Global,
    journal: &FileJournal<'_, R>,
    faults: &mut Counted<F>,
) {
    match journal.note(alloc) {
        Ok(Some(note)) => {
            let _ = write_bytes(faults, note.as_bytes());
        }
        Ok(None) => {}
        Err(_) => tell(faults, &Fault::from(AllocError)),
    }
}

/// Runs a call with the journal in the file of this path. Where that can't be opened it does
/// nothing, tells `SaveFailed` with what the system says of the path, and answers 4; where a line
/// isn't in it in the end that is told behind all else, and the status stays.
fn run_with_journal<R: Locks + Net + Clock + Alloc + Clone + Drop, I: Read, W: Write, F: Write>(
    rt: &R,
    alloc: Global,
    asked: &Invocation<'_>,
    path: &str,
    reader: &mut Counted<I>,
    writer: &mut Counted<W>,
    faults: &mut Counted<F>,
) -> u8
    ensures { EndsWithJournal asked.now.call (traffic I.remaining reader.old reader.new)
        (traffic W.contents writer.old writer.new)
        (traffic F.contents faults.old faults.new) result }
{
    let mut journal = FileJournal::at(rt, Some(path));
    if let Err(error) = journal.check() {
        let fault = Fault::Device(Refused::SaveFailed);
        return give_up_caused(
            alloc,
            CausedFault::of_error(alloc, fault, path, &error),
            faults,
        );
    }
    let status = run_call(rt, alloc, asked, reader, writer, faults, &mut journal);
    tell_missed(alloc, &journal, faults);
    status
}

/// Runs a call with the journal that is named beside it, if there is one.
fn run_journaled<R: Locks + Net + Clock + Alloc + Clone + Drop, I: Read, W: Write, F: Write>(
    rt: &R,
    alloc: Global,
    asked: &Invocation<'_>,
    reader: &mut Counted<I>,
    writer: &mut Counted<W>,
    faults: &mut Counted<F>,
) -> u8
    ensures { EndsJournaled (option_map (λ name. name.now) asked.now.journal) asked.now.call
        (traffic I.remaining reader.old reader.new) (traffic W.contents writer.old writer.new)
        (traffic F.contents faults.old faults.new) result }
{
    match asked.journal {
        None => {
            let mut journal = FileJournal::at(rt, None);
            run_call(rt, alloc, asked, reader, writer, faults, &mut journal)
        }
        Some(path) => run_with_journal(rt, alloc, asked, path, reader, writer, faults),
    }
}

/// Runs a call whose input comes from the file of a path. Where that can't be opened it does
/// nothing, tells `ReadFailed` with what the system says of the path, and answers 4.
fn run_from<R: Locks + Net + Clock + Alloc + Clone + Drop, W: Write, F: Write>(
    rt: &R,
    alloc: Global,
    invocation: &Invocation<'_>,
    path: &str,
    writer: &mut Counted<W>,
    faults: &mut Counted<F>,
) -> u8
    ensures { EndsFromFile (option_map (λ name. name.now) invocation.now.journal)
        invocation.now.call (traffic W.contents writer.old writer.new)
        (traffic F.contents faults.old faults.new) result }
{
    match open_input(rt, alloc, path) {
        Ok(file) => {
            let mut reader = Counted::new(file);
            run_journaled(rt, alloc, invocation, &mut reader, writer, faults)
        }
        Err(caused) => give_up_caused(alloc, caused, faults),
    }
}

/// Runs a call, whose input is standard input, or comes from the file that is named.
fn run_invocation<R: Locks + Net + Clock + Alloc + Clone + Drop, I: Read, W: Write, F: Write>(
    rt: &R,
    alloc: Global,
    invocation: &Invocation<'_>,
    reader: &mut Counted<I>,
    writer: &mut Counted<W>,
    faults: &mut Counted<F>,
) -> u8
    ensures { EndsFrom (file_in (option_map (λ path. path.now) invocation.now.from))
        (option_map (λ path. path.now) invocation.now.journal)
        invocation.now.call (traffic I.remaining reader.old reader.new)
        (traffic W.contents writer.old writer.new)
        (traffic F.contents faults.old faults.new) result }
{
    match file_of(invocation.from) {
        Some(path) => run_from(rt, alloc, invocation, path, writer, faults),
        None => run_journaled(rt, alloc, invocation, reader, writer, faults),
    }
}

/// Runs what the words of the command line stand for, which come without the program's name: `edit`
/// where there is none. Answers its exit status. With `--from` the input comes from the file that
/// is named, and standard input isn't read, but where it is `-`; where the file can't be opened,
/// nothing is done, and the status is 4. For the version, and for help that is asked for by the
/// word `help`, nothing is read, `clap`'s text is written, and the status is 0. For other words,
/// and for those that ask for help by `--help`, nothing is read or written, `clap`'s text is told
/// in `faults`, and the status is `NO_CALL`.
pub fn run_words<R: Locks + Net + Clock + Alloc + Clone + Drop, I: Read, W: Write, F: Write>(
    rt: &R,
    alloc: Global,
    words: &[String],
    reader: &mut Counted<I>,
    writer: &mut Counted<W>,
    faults: &mut Counted<F>,
) -> u8
    // Proved: Words run the call that `clap` states of them, over the network or over files; only
    // words that it doesn't take, help among them, stand for none. Of these the version, and help
    // that the first word asks for, are written, with status 0; the others are told to stand for
    // none, with status 2.
    ensures { EndsWords words.now (traffic I.remaining reader.old reader.new)
        (traffic W.contents writer.old writer.new)
        (traffic F.contents faults.old faults.new) result }
{
    match command_of(alloc, words) {
        Ok(invocation) => run_invocation(rt, alloc, &invocation, reader, writer, faults),
        Err(CallFault::Clap(answer)) => answer_words(alloc, words, &answer, writer, faults),
        Err(CallFault::Memory) => finish(Err(Fault::from(AllocError)), writer, faults),
    }
}
